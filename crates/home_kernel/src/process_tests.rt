// Worked calls on processes: their limits, their ends, and waiting for them.
use crate::worked::Call::{
    By, Dup, Ended, Exit, Fall, Fork, Getppid, Kill, Launch, Open, Raised, Read, Unlink, Wait,
    Write, Yield,
};
use crate::worked::{BLOCKS, Call, Caller, NO_CALL, NONE, SIGNAL, check, check_first, files_are};
use std::process::Abort;
use std::test::Fail;

fn numbers_of_no_call_by(rt: &impl Abort, caller: &mut Caller) -> Result<(), Fail> {
    for number in [0u32, 2, 18, 20, u32::MAX] {
        let value = caller.value(number, [0, 0, 0], b"", b"")?;
        assert_eq!(rt; value, -38, "{number}");
    }
    Ok(())
}

#[test]
fn numbers_of_no_call(rt: HostRuntime) -> Result<(), Fail> {
    let mut caller = Caller::new(rt.alloc())?;
    numbers_of_no_call_by(&rt, &mut caller)
}

/// Waiting: without children, for a live one, for zombies, the lowest first.
const WAITS: [(Call, i32); 24] = [
    (Wait(8, b""), -10),
    (Fork, 2),
    (Fork, 3),
    (Wait(8, b""), BLOCKS),
    (By(3), 0),
    (Exit(256 + 7), 0),
    (Raised, NONE),
    (By(2), 0),
    (Fall, 0),
    (By(1), 0),
    (Kill(3, 9), 0),
    (Kill(4, 9), -3),
    (Wait(8, b"\x0b\0\0\0"), 2),
    (Kill(2, 0), -3),
    (Wait(8, b"\0\x07\0\0"), 3),
    (Wait(8, b""), -10),
    (Fork, 4),
    (By(4), 0),
    (Fork, 5),
    (Exit(1), 0),
    (By(5), 0),
    (Getppid, 0),
    (By(1), 0),
    (Wait(0, b""), 4),
];

#[test]
fn waits(rt: HostRuntime) -> Result<(), Fail> {
    check_first(&rt, rt.alloc(), &WAITS)
}

const MANY: [(Call, i32); 8] = [
    (Fork, -11),
    (Launch, NONE),
    (By(30), 0),
    (Exit(9), 0),
    (By(1), 0),
    (Fork, -11),
    (Wait(4, b"\0\x09\0\0"), 30),
    (Fork, 65),
];

fn sixty_four_processes_by(rt: &impl Abort, caller: &mut Caller) -> Result<(), Fail> {
    for pid in 2..65i32 {
        check(rt, caller, &[(Fork, pid)])?;
    }
    check(rt, caller, &MANY)
}

#[test]
fn sixty_four_processes(rt: HostRuntime) -> Result<(), Fail> {
    let mut caller = Caller::new(rt.alloc())?;
    sixty_four_processes_by(&rt, &mut caller)
}

const ENDS: [(Call, i32); 19] = [
    (Open(b"a", 6), 3),
    (Write(3, b"kept"), 4),
    (Open(b"b", 6), 4),
    (Unlink(b"b"), 0),
    (Exit(256 + 7), 0),
    (Yield, NO_CALL),
    (Launch, 2),
    (Read(3, 1, b""), -9),
    (Open(b"b", 1), -2),
    (Open(b"a", 1), 3),
    (Read(3, 9, b"kept"), 4),
    (Fall, 0),
    (Yield, NO_CALL),
    (Launch, 3),
    (Ended(0), NONE),
    (Ended(1), 7),
    (Ended(2), SIGNAL + 11),
    (Ended(3), NONE),
    (Ended(4), NONE),
];

fn ends_by(rt: &impl Abort, caller: &mut Caller) -> Result<(), Fail> {
    check(rt, caller, &ENDS)?;
    files_are(rt, caller, &[(b"a", b"kept")])
}

#[test]
fn ends(rt: HostRuntime) -> Result<(), Fail> {
    let mut caller = Caller::new(rt.alloc())?;
    ends_by(&rt, &mut caller)
}

/// A new process opens the file `a` this many times.
fn opens(rt: &impl Abort, caller: &mut Caller, count: i32) -> Result<(), Fail> {
    let _ = caller.launch()?;
    for fd in 0..count {
        check(rt, caller, &[(Open(b"a", 6), 3i32.saturating_add(fd))])?;
    }
    Ok(())
}

const MOST_OPEN: [(Call, i32); 6] = [
    (Open(b"a", 6), -23),
    (Open(b"a", 22), -23),
    (Open(b"a", 20), -22),
    (Dup(3), 12),
    (By(2), 0),
    (Exit(0), 0),
];

const FALLS: [(Call, i32); 4] = [
    (Open(b"a", 6), -24),
    (By(21), 0),
    (Open(b"a", 6), -23),
    (By(3), 0),
];

fn an_end_closes_all_descriptors_by(rt: &impl Abort, caller: &mut Caller) -> Result<(), Fail> {
    for _ in 0..19 {
        opens(rt, caller, 13)?;
    }
    opens(rt, caller, 9)?;
    check(rt, caller, &MOST_OPEN)?;
    opens(rt, caller, 13)?;
    check(rt, caller, &FALLS)?;
    check(rt, caller, &[(Fall, 0)])?;
    opens(rt, caller, 13)
}

#[test]
fn an_end_closes_all_descriptors(rt: HostRuntime) -> Result<(), Fail> {
    let mut caller = Caller::new(rt.alloc())?;
    an_end_closes_all_descriptors_by(&rt, &mut caller)
}

const MOST_LIVE: [(Call, i32); 6] = [
    (Launch, NONE),
    (By(40), 0),
    (Exit(0), 0),
    (Launch, 65),
    (Yield, 0),
    (Launch, NONE),
];

fn live_processes_by(rt: &impl Abort, caller: &mut Caller) -> Result<(), Fail> {
    for pid in 2..65i32 {
        check(rt, caller, &[(Launch, pid)])?;
    }
    assert_eq!(rt; caller.kernel.can_launch(), false);
    check(rt, caller, &MOST_LIVE)
}

#[test]
fn live_processes(rt: HostRuntime) -> Result<(), Fail> {
    let mut caller = Caller::new(rt.alloc())?;
    live_processes_by(&rt, &mut caller)
}
