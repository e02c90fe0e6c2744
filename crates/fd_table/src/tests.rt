// Worked cases.
use crate::description::{Look, Target};
use crate::fds::Fds;
use call_table::NoMemory;
use std::test::Fail;

fn added(fds: &mut Fds, pid: u32, target: Target) -> Result<Option<u32>, NoMemory> {
    if fds.look(pid, 0).is_none() || fds.free_fds(pid) == 0 || fds.descriptions() >= 256 {
        return Ok(None);
    }
    Ok(Some(fds.add(pid, target, 3)?))
}

fn duplicated(fds: &mut Fds, pid: u32, fd: u32) -> Option<u32> {
    if fds.look(pid, fd).is_none() {
        return None;
    }
    fds.dup(pid, fd)
}

fn closed(fds: &mut Fds, pid: u32, fd: u32) -> Option<Option<Target>> {
    if fds.look(pid, fd).is_none() {
        return None;
    }
    Some(fds.close(pid, fd))
}

fn offset(fds: &Fds, pid: u32, fd: u32) -> Option<u32> {
    match fds.look(pid, fd) {
        Some(look) => Some(look.offset),
        None => None,
    }
}

#[test]
fn shares_descriptions(rt: HostRuntime) -> Result<(), Fail> {
    let mut fds = Fds::new(rt.alloc());
    assert_eq!(rt; fds.look(1, 0), None);
    fds.launch(1)?;
    let input = Look {
        target: Target::TermIn,
        rights: 1,
        offset: 0,
    };
    assert_eq!(rt; fds.look(1, 0), Some(input));
    assert_eq!(rt; fds.look(1, 3), None);
    assert_eq!(rt; fds.look(1, 16), None);
    assert_eq!(rt; fds.free_fds(1), 13);
    let file = Target::File(7);
    assert_eq!(rt; added(&mut fds, 1, file)?, Some(3));
    assert_eq!(rt; fds.descriptions(), 1);
    assert_eq!(rt; duplicated(&mut fds, 1, 3), Some(4));
    if fds.look(1, 4).is_some() {
        fds.seek(1, 4, 9);
    }
    assert_eq!(rt; offset(&fds, 1, 3), Some(9));
    assert_eq!(rt; closed(&mut fds, 1, 3), Some(None));
    assert_eq!(rt; offset(&fds, 1, 4), Some(9));
    assert_eq!(rt; fds.ends(file), 1);
    assert_eq!(rt; closed(&mut fds, 1, 4), Some(Some(file)));
    assert_eq!(rt; fds.ends(file), 0);
    assert_eq!(rt; fds.descriptions(), 0);
    assert_eq!(rt; closed(&mut fds, 1, 1), Some(None));
    assert_eq!(rt; closed(&mut fds, 1, 2), Some(Some(Target::TermOut)));
    assert_eq!(rt; added(&mut fds, 1, Target::WriteEnd(7))?, Some(1));
    for fd in [2u32, 3, 4, 5, 6, 7, 8, 9, 10, 11, 12, 13, 14, 15] {
        assert_eq!(rt; added(&mut fds, 1, Target::ReadEnd(fd))?, Some(fd));
    }
    assert_eq!(rt; added(&mut fds, 1, file)?, None);
    assert_eq!(rt; duplicated(&mut fds, 1, 3), None);
    assert_eq!(rt; fds.descriptions(), 15);
    Ok(())
}

#[test]
fn forks(rt: HostRuntime) -> Result<(), Fail> {
    let mut fds = Fds::new(rt.alloc());
    fds.launch(1)?;
    fds.fork(1, 3)?;
    assert_eq!(rt; fds.look(2, 0), None);
    assert_eq!(rt; offset(&fds, 3, 2), Some(0));
    assert_eq!(rt; closed(&mut fds, 1, 0), Some(None));
    assert_eq!(rt; closed(&mut fds, 3, 0), Some(Some(Target::TermIn)));
    Ok(())
}
