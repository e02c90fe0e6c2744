// Worked cases.
ghost use Rattle.std.specs.Prelude.{◌<◌, ◌+◌, ◌^◌, IsSome};
ghost use Rattle.id_table.specs.Places.{at_id};
ghost use Rattle.fs_memory.specs.Files.{holders_of};

use crate::files::Files;
use call_table::NoMemory;
use std::process::Abort;
use std::test::Fail;

fn made(files: &mut Files, name: &[u8]) -> Result<Option<u32>, NoMemory> {
    if files.find(name).is_some() {
        return Ok(None);
    }
    files.create(name)
}

fn written(files: &mut Files, name: &[u8], at: u32, bytes: &[u8]) -> Result<u32, Fail> {
    let id = files.find(name).ok_or("no such file")?;
    if at > 1_048_576 {
        return Ok(0);
    }
    Ok(files.write_at(id, at, bytes)?)
}

fn shows(
    rt: &impl Abort,
    files: &Files,
    name: &[u8],
    at: u32,
    len: u32,
    want: &[u8],
) -> Result<(), Fail> {
    let id = files.find(name).ok_or("no such file")?;
    let bytes = files.read_at(id, at, len)?;
    assert_eq!(rt; bytes.as_slice(), want);
    Ok(())
}

fn len_of(files: &Files, name: &[u8]) -> Result<u32, Fail> {
    let id = files.find(name).ok_or("no such file")?;
    Ok(files.len(id))
}

#[test]
fn writes(rt: HostRuntime) -> Result<(), Fail> {
    let mut files = Files::new(rt.alloc());
    let a = b"a".as_slice();
    assert_eq!(rt; files.find(a), None);
    assert_eq!(rt; made(&mut files, a)?, Some(0));
    assert_eq!(rt; files.find(a), Some(0));
    let ten = b"0123456789".as_slice();
    for (at, want, len) in [
        (2u32, 10u32, 12u32),
        (5_000, 10, 5_010),
        (4_090, 10, 5_010),
        (1_048_570, 6, 1_048_576),
        (1_048_576, 0, 1_048_576),
    ] {
        assert_eq!(rt; written(&mut files, a, at, ten)?, want);
        assert_eq!(rt; len_of(&files, a)?, len);
    }
    shows(&rt, &files, a, 0, 5, b"\0\0012".as_slice())?;
    shows(&rt, &files, a, 4_094, 8, b"456789\0\0".as_slice())?;
    shows(&rt, &files, a, 4_999, 3, b"\x0001".as_slice())?;
    shows(&rt, &files, a, 1_048_569, 100, b"\x00012345".as_slice())?;
    shows(&rt, &files, a, 1_048_576, 1, b"".as_slice())?;
    let id = files.find(a).ok_or("no such file")?;
    files.truncate(id);
    assert_eq!(rt; len_of(&files, a)?, 0);
    assert_eq!(rt; written(&mut files, a, 3, b"x".as_slice())?, 1);
    shows(&rt, &files, a, 0, 10, b"\0\0\0x".as_slice())?;
    Ok(())
}

#[test]
fn takes_128_names(rt: HostRuntime) -> Result<(), Fail> {
    let mut files = Files::new(rt.alloc());
    for i in 0..128u8 {
        assert_eq!(rt;
            made(&mut files, [b'f', 127 - i].as_slice())?,
            Some(i as u32)
        );
    }
    assert_eq!(rt; made(&mut files, b"g".as_slice())?, None);
    let list = files.named()?;
    assert_eq!(rt; list.len(), 128);
    assert_eq!(rt;
        list.get(5).ok_or("too few")?.name.as_slice(),
        [b'f', 5].as_slice()
    );
    assert_eq!(rt; files.unlink([b'f', 7].as_slice()), true);
    assert_eq!(rt; files.unlink([b'f', 7].as_slice()), false);
    assert_eq!(rt; made(&mut files, b"g".as_slice())?, Some(120));
    Ok(())
}

#[test]
fn keeps_what_is_held(rt: HostRuntime) -> Result<(), Fail> {
    let mut files = Files::new(rt.alloc());
    let Some(id) = files.create(b"a".as_slice())? else {
        return Ok(());
    };
    files.hold(id);
    assert_eq!(rt; files.unlink(b"a".as_slice()), true);
    assert_eq!(rt; files.find(b"a".as_slice()), None);
    assert_eq!(rt; made(&mut files, b"b".as_slice())?, Some(1));
    Ok(())
}

/// Holds a file, takes its name and lets it go. Answers whether the name was there.
#[tactic(auto, using(crate::proofs::HolderLemmas::held_after_unlink, crate::proofs::HolderLemmas::holders_some))]
fn held_without_name(files: &mut Files, id: u32, name: &[u8]) -> bool
    requires there { IsSome (at_id files.old id) }
    requires few { holders_of (at_id files.old id) + 1 < 2 ^ 32 }
{
    files.hold(id);
    let was = files.unlink(name);
    files.release(id);
    was
}

#[test]
fn drops_what_is_let_go(rt: HostRuntime) -> Result<(), Fail> {
    let mut files = Files::new(rt.alloc());
    let Some(id) = files.create(b"a".as_slice())? else {
        return Ok(());
    };
    assert_eq!(rt; held_without_name(&mut files, id, b"a".as_slice()), true);
    assert_eq!(rt; files.find(b"a".as_slice()), None);
    assert_eq!(rt; made(&mut files, b"b".as_slice())?, Some(0));
    Ok(())
}
