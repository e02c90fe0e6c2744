// Worked calls on the terminal.
use crate::worked::Call::{Dup, Read, Write};
use crate::worked::{BLOCKS, Call, Caller, check};
use std::process::Abort;
use std::test::Fail;

const SHOWN: [(Call, i32); 4] = [
    (Write(1, b"hi\n"), 3),
    (Write(2, b"x"), 1),
    (Dup(1), 3),
    (Write(3, b"y"), 1),
];

const SHOWN_LAST: [(Call, i32); 3] = [
    (Write(1, b"abc"), 2),
    (Write(1, b"c"), -28),
    (Write(1, b""), 0),
];

fn terminal_output_by(rt: &impl Abort, caller: &mut Caller) -> Result<(), Fail> {
    check(rt, caller, &SHOWN)?;
    assert_eq!(rt; caller.kernel.terminal(), b"hi\nxy".as_slice());
    let most = vec![in caller.alloc; b'.'; 16_777_209]?;
    let value = caller.value(9, [1, 0, 16_777_209], most.as_slice(), b"")?;
    assert_eq!(rt; value, 16_777_209);
    check(rt, caller, &SHOWN_LAST)?;
    assert_eq!(rt; caller.kernel.terminal().len(), 16_777_216);
    Ok(())
}

#[test]
fn terminal_output(rt: HostRuntime) -> Result<(), Fail> {
    let mut caller = Caller::new(rt.alloc())?;
    terminal_output_by(&rt, &mut caller)
}

const TYPED: [(Call, i32); 3] = [
    (Read(0, 4, b"abcd"), 4),
    (Read(0, 4, b"e\n"), 2),
    (Read(0, 4, b""), BLOCKS),
];

const TYPED_LAST: [(Call, i32); 3] = [
    (Read(0, 5000, &[b'z'; 4096]), 4096),
    (Read(0, 5000, &[b'z'; 904]), 904),
    (Read(0, 4, b""), 0),
];

fn terminal_input_by(rt: &impl Abort, caller: &mut Caller) -> Result<(), Fail> {
    caller.kernel.feed(b"")?;
    check(
        rt,
        caller,
        &[(Read(0, 4, b""), BLOCKS), (Read(0, 0, b""), 0)],
    )?;
    caller.kernel.feed(b"abc")?;
    caller.kernel.feed(b"de\n")?;
    check(rt, caller, &TYPED)?;
    caller.kernel.feed(&[b'z'; 5000])?;
    caller.kernel.end_input();
    caller.kernel.feed(b"late")?;
    check(rt, caller, &TYPED_LAST)
}

#[test]
fn terminal_input(rt: HostRuntime) -> Result<(), Fail> {
    let mut caller = Caller::new(rt.alloc())?;
    terminal_input_by(&rt, &mut caller)
}
