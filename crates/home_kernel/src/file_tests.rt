// Worked calls on files and descriptors.
use crate::worked::Call::{Close, Dup, Open, OpenLong, Read, Seek, Unlink, Write, Yield};
use crate::worked::{Call, Caller, check, check_first, files_are};
use std::process::Abort;
use std::test::Fail;

const SHARED: [(Call, i32); 10] = [
    (Open(b"a", 6), 3),
    (Dup(3), 4),
    (Write(4, b"12345"), 5),
    (Seek(3, 0, 1), 5),
    (Open(b"a", 20), -22),
    (Open(b"a", 22), -17),
    (Unlink(b"a"), 0),
    (Write(3, b"6"), 1),
    (Open(b"a", 1), -2),
    (Unlink(b"a"), -2),
];

const NAMES: [(Call, i32); 22] = [
    (OpenLong(64, 6), 3),
    (OpenLong(65, 6), -36),
    (OpenLong(66, 0), -36),
    (OpenLong(4_000_000_000, 6), -36),
    (OpenLong(0, 6), -2),
    (OpenLong(0, 0), -2),
    (Open(b"a/b", 6), -22),
    (Open(b"/", 6), -22),
    (Open(b"a b", 6), -22),
    (Open(b"a\x7f", 6), -22),
    (Open(b"\x00", 6), -22),
    (Open(b"\xff", 6), -22),
    (Open(b"a/b", 1), -22),
    (Open(b"!", 6), 4),
    (Open(b"~", 6), 5),
    (Open(b".0", 6), 6),
    (Unlink(b"a/b"), -22),
    (Unlink(b""), -2),
    (Unlink(b"!"), 0),
    (Unlink(b"!"), -2),
    (Yield, 0),
    (Open(b"!", 1), -2),
];

#[test]
fn opens_and_names(rt: HostRuntime) -> Result<(), Fail> {
    check_first(&rt, rt.alloc(), &SHARED)?;
    check_first(&rt, rt.alloc(), &NAMES)
}

const FLAGS: [(Call, i32); 42] = [
    (Open(b"a", 0), -22),
    (Open(b"a", 4), -22),
    (Open(b"a", 8), -22),
    (Open(b"a", 9), -22),
    (Open(b"a", 12), -22),
    (Open(b"a", 13), -22),
    (Open(b"a", 16), -22),
    (Open(b"a", 17), -22),
    (Open(b"a", 18), -22),
    (Open(b"a", 19), -22),
    (Open(b"a", 20), -22),
    (Open(b"a", 26), -22),
    (Open(b"a", 28), -22),
    (Open(b"a", 29), -22),
    (Open(b"a", 32), -22),
    (Open(b"a", 38), -22),
    (Open(b"a", 0x8000_0006), -22),
    (Open(b"a", 1), -2),
    (Open(b"a", 2), -2),
    (Open(b"a", 3), -2),
    (Open(b"a", 10), -2),
    (Open(b"a", 11), -2),
    (Open(b"a", 5), 3),
    (Unlink(b"a"), 0),
    (Open(b"a", 6), 4),
    (Unlink(b"a"), 0),
    (Open(b"a", 7), 5),
    (Unlink(b"a"), 0),
    (Open(b"a", 14), 6),
    (Unlink(b"a"), 0),
    (Open(b"a", 15), 7),
    (Unlink(b"a"), 0),
    (Open(b"a", 21), 8),
    (Unlink(b"a"), 0),
    (Open(b"a", 22), 9),
    (Unlink(b"a"), 0),
    (Open(b"a", 23), 10),
    (Unlink(b"a"), 0),
    (Open(b"a", 30), 11),
    (Unlink(b"a"), 0),
    (Open(b"a", 31), 12),
    (Unlink(b"a"), 0),
];

#[test]
fn flags(rt: HostRuntime) -> Result<(), Fail> {
    check_first(&rt, rt.alloc(), &FLAGS)
}

const FULL: [(Call, i32); 17] = [
    (Open(b"a", 6), -24),
    (Open(b"a", 22), -24),
    (Open(b"b", 1), -24),
    (Open(b"a", 20), -22),
    (Open(b"", 20), -2),
    (Dup(3), -24),
    (Dup(16), -9),
    (Close(7), 0),
    (Close(7), -9),
    (Dup(7), -9),
    (Close(1), 0),
    (Close(11), 0),
    (Close(16), -9),
    (Dup(3), 1),
    (Dup(3), 7),
    (Open(b"a", 1), 11),
    (Dup(3), -24),
];

fn sixteen_descriptors_by(rt: &impl Abort, caller: &mut Caller) -> Result<(), Fail> {
    for fd in 3..16i32 {
        check(rt, caller, &[(Open(b"a", 6), fd)])?;
    }
    check(rt, caller, &FULL)
}

#[test]
fn sixteen_descriptors(rt: HostRuntime) -> Result<(), Fail> {
    let mut caller = Caller::new(rt.alloc())?;
    sixteen_descriptors_by(&rt, &mut caller)
}

const NAMES_FULL: [(Call, i32); 5] = [
    (Open(b"new", 6), -28),
    (Open(b"new", 2), -2),
    (Open(b"cC", 6), 3),
    (Unlink(b"cC"), 0),
    (Open(b"new", 6), 4),
];

fn names_128_by(rt: &impl Abort, caller: &mut Caller) -> Result<(), Fail> {
    for i in 0..128u8 {
        let name = [b'a' + i / 16, b'A' + i % 16];
        let fd = caller.value(6, [0, 2, 6], &name, b"")?;
        assert_eq!(rt; fd, 3);
        check(rt, caller, &[(Close(3), 0)])?;
    }
    check(rt, caller, &NAMES_FULL)
}

#[test]
fn names_128(rt: HostRuntime) -> Result<(), Fail> {
    let mut caller = Caller::new(rt.alloc())?;
    names_128_by(&rt, &mut caller)
}

const READ_BACK: [(Call, i32); 33] = [
    (Open(b"a", 7), 3),
    (Write(3, b"hello"), 5),
    (Read(3, 10, b""), 0),
    (Seek(3, 0, 0), 0),
    (Read(3, 2, b"he"), 2),
    (Read(3, 0, b""), 0),
    (Read(3, 10, b"llo"), 3),
    (Write(3, b""), 0),
    (Open(b"a", 1), 4),
    (Open(b"a", 2), 5),
    (Write(5, b"J"), 1),
    (Read(4, 10, b"Jello"), 5),
    (Read(4, 0, b""), 0),
    (Write(4, b""), -9),
    (Write(4, b"x"), -9),
    (Read(5, 0, b""), -9),
    (Read(5, 1, b""), -9),
    (Write(5, b""), 0),
    (Read(0, 0, b""), 0),
    (Write(0, b""), -9),
    (Write(0, b"x"), -9),
    (Read(1, 0, b""), -9),
    (Read(2, 1, b""), -9),
    (Read(99, 0, b""), -9),
    (Read(99, 1, b""), -9),
    (Write(99, b""), -9),
    (Write(6, b"x"), -9),
    (Open(b"a", 10), 6),
    (Read(4, 9, b""), 0),
    (Write(4, b"x"), -9),
    (Write(3, b"y"), 1),
    (Seek(3, 0, 0), 0),
    (Read(3, 9, b"\x00\x00\x00\x00\x00y"), 6),
];

const MINUS_ONE: u32 = u32::MAX;

const SEEKS: [(Call, i32); 24] = [
    (Open(b"a", 6), 3),
    (Write(3, b"0123456789"), 10),
    (Seek(3, 4, 0), 4),
    (Seek(3, MINUS_ONE, 1), 3),
    (Seek(3, 2, 1), 5),
    (Seek(3, MINUS_ONE, 2), 9),
    (Seek(3, 1, 2), 11),
    (Seek(3, 0, 3), -22),
    (Seek(3, 0, MINUS_ONE), -22),
    (Seek(3, MINUS_ONE, 0), -22),
    (Seek(3, 0x8000_0000, 1), -22),
    (Seek(3, 0x7FFF_FFFF, 1), -22),
    (Seek(3, 0, 1), 11),
    (Seek(3, 1_048_576, 0), 1_048_576),
    (Seek(3, 1_048_577, 0), -22),
    (Seek(3, 1, 1), -22),
    (Seek(3, MINUS_ONE - 1_048_575, 1), 0),
    (Seek(3, MINUS_ONE, 1), -22),
    (Seek(3, 0, 2), 10),
    (Seek(0, 0, 0), -29),
    (Seek(1, 0, 3), -29),
    (Seek(2, 1_048_577, 0), -29),
    (Seek(4, 0, 3), -9),
    (Seek(99, 0, 0), -9),
];

const TO_THE_LAST_PLACE: [(Call, i32); 12] = [
    (Open(b"a", 7), 3),
    (Seek(3, 1_048_560, 0), 1_048_560),
    (Write(3, b"0123456789"), 10),
    (Write(3, b"0123456789"), 6),
    (Write(3, b"0123456789"), -27),
    (Write(3, b""), 0),
    (Read(3, 1, b""), 0),
    (Seek(3, 1_048_569, 0), 1_048_569),
    (Read(3, 100, b"9012345"), 7),
    (Seek(3, 0, 0), 0),
    (Read(3, 1_000_000, &[0; 4096]), 4096),
    (Seek(3, 0, 1), 4096),
];

#[test]
fn reads_writes_and_seeks(rt: HostRuntime) -> Result<(), Fail> {
    check_first(&rt, rt.alloc(), &READ_BACK)?;
    check_first(&rt, rt.alloc(), &SEEKS)?;
    check_first(&rt, rt.alloc(), &TO_THE_LAST_PLACE)
}

const WITHOUT_NAME: [(Call, i32); 7] = [
    (Open(b"a", 7), 3),
    (Write(3, b"old"), 3),
    (Dup(3), 4),
    (Unlink(b"a"), 0),
    (Open(b"a", 7), 5),
    (Close(3), 0),
    (Seek(4, 0, 0), 0),
];

const GONE: [(Call, i32); 6] = [
    (Read(4, 9, b"old"), 3),
    (Close(4), 0),
    (Read(4, 9, b""), -9),
    (Open(b"B", 7), 3),
    (Read(3, 9, b""), 0),
    (Write(5, b"new"), 3),
];

fn held_files_by(rt: &impl Abort, caller: &mut Caller) -> Result<(), Fail> {
    check(rt, caller, &WITHOUT_NAME)?;
    files_are(rt, caller, &[(b"a", b"")])?;
    check(rt, caller, &GONE)?;
    files_are(rt, caller, &[(b"B", b""), (b"a", b"new")])
}

#[test]
fn held_files(rt: HostRuntime) -> Result<(), Fail> {
    let mut caller = Caller::new(rt.alloc())?;
    held_files_by(&rt, &mut caller)
}

const FILES: [(Call, i32); 8] = [
    (Open(b"b", 6), 3),
    (Open(b"a", 6), 4),
    (Open(b"ab", 6), 5),
    (Open(b"~", 6), 6),
    (Open(b"B", 6), 7),
    (Open(b"a!", 6), 8),
    (Write(5, b"five"), 4),
    (Write(3, b"three"), 5),
];

fn files_by_the_bytes_of_their_names_by(rt: &impl Abort, caller: &mut Caller) -> Result<(), Fail> {
    check(rt, caller, &FILES)?;
    files_are(
        rt,
        caller,
        &[
            (b"B", b""),
            (b"a", b""),
            (b"a!", b""),
            (b"ab", b"five"),
            (b"b", b"three"),
            (b"~", b""),
        ],
    )
}

#[test]
fn files_by_the_bytes_of_their_names(rt: HostRuntime) -> Result<(), Fail> {
    let mut caller = Caller::new(rt.alloc())?;
    files_by_the_bytes_of_their_names_by(&rt, &mut caller)
}
