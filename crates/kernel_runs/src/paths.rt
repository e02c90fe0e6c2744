// The calls on names.
ghost use Rattle.std.specs.Prelude.{◌<◌};

use crate::calls::{free_slots, take_opened};
use crate::plain::{File, Opened, Plain, Thing};
use call_table::NoMemory;
use call_table::error::{EEXIST, EINVAL, EMFILE, ENAMETOOLONG, ENFILE, ENOENT, ENOSPC};

/// The error of a name of this length, with at most 65 of its bytes.
fn name_error(len: u32, name: &[u8]) -> Option<i32> {
    if len > 64 {
        return Some(ENAMETOOLONG);
    }
    if len == 0 {
        return Some(ENOENT);
    }
    for byte in name {
        if *byte < 33 || *byte > 126 || *byte == b'/' {
            return Some(EINVAL);
        }
    }
    None
}

fn has(flags: u32, flag: u32) -> bool
    requires { 0 < flag }
{
    flags / flag % 2 == 1
}

/// Whether flags have a meaning: to read or to write, to truncate only where it writes, to exclude only where it creates.
fn have_meaning(flags: u32) -> bool {
    let opens = has(flags, 1) || has(flags, 2);
    let truncates = !has(flags, 8) || has(flags, 2);
    let excludes = !has(flags, 16) || has(flags, 4);
    flags < 32 && opens && truncates && excludes
}

fn named(k: &Plain, name: &[u8]) -> Option<usize> {
    for (place, file) in k.files.as_slice().iter().enumerate() {
        if file.is_named && file.name.as_slice() == name {
            return Some(place);
        }
    }
    None
}

fn named_count(k: &Plain) -> u32 {
    let mut count = 0u32;
    for file in k.files.as_slice() {
        if file.is_named {
            count = count.saturating_add(1);
        }
    }
    count
}

/// The refusal of an open, before it is asked whether the file is there.
fn refusal(k: &Plain, pid: u32, len: u32, name: &[u8], flags: u32) -> Option<i32> {
    if let Some(error) = name_error(len, name) {
        return Some(error);
    }
    if !have_meaning(flags) {
        return Some(EINVAL);
    }
    if free_slots(&k.process(pid)) == 0 {
        return Some(EMFILE);
    }
    if k.held_count() >= 256 {
        Some(ENFILE)
    } else {
        None
    }
}

fn opened(k: &mut Plain, pid: u32, file: usize, flags: u32) -> Result<i32, NoMemory> {
    let fd = take_opened(
        k,
        pid,
        Opened {
            thing: Thing::File(file),
            reads: has(flags, 1),
            writes: has(flags, 2),
            offset: 0,
        },
    )?;
    Ok(fd.min(16) as i32)
}

fn create(k: &mut Plain, pid: u32, name: &[u8], flags: u32) -> Result<i32, NoMemory> {
    if !has(flags, 4) {
        return Ok(ENOENT);
    }
    if named_count(k) >= 128 {
        return Ok(ENOSPC);
    }
    let file = k.files.len();
    k.files.push(File {
        name: name.to_vec(k.alloc)?,
        is_named: true,
        bytes: Vec::new(k.alloc),
    })?;
    opened(k, pid, file, flags)
}

pub(crate) fn open(
    k: &mut Plain,
    pid: u32,
    len: u32,
    name: &[u8],
    flags: u32,
) -> Result<i32, NoMemory> {
    if let Some(error) = refusal(k, pid, len, name, flags) {
        return Ok(error);
    }
    let Some(file) = named(k, name) else {
        return create(k, pid, name, flags);
    };
    if has(flags, 16) {
        return Ok(EEXIST);
    }
    if has(flags, 8) {
        if let Some(file) = k.files.get_mut(file) {
            file.bytes.clear();
        }
    }
    opened(k, pid, file, flags)
}

pub(crate) fn unlink(k: &mut Plain, len: u32, name: &[u8]) -> i32 {
    if let Some(error) = name_error(len, name) {
        return error;
    }
    let Some(file) = named(k, name) else {
        return ENOENT;
    };
    if let Some(file) = k.files.get_mut(file) {
        file.is_named = false;
    }
    0
}
