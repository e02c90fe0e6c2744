// Worked calls on pipes.
use crate::worked::Call::{
    By, Close, Deliverable, Dup, Exit, Fork, Getppid, Open, Pipe, Raised, Read, Seek, Sigact, Take,
    Write,
};
use crate::worked::{BLOCKS, Call, NONE, SIGNAL, check_first};
use std::test::Fail;

/// The offset is shared through dup and fork; a pipe ends with its last write end.
const SHARED_BY_FORK: [(Call, i32); 24] = [
    (Open(b"a", 7), 3),
    (Dup(3), 4),
    (Fork, 2),
    (By(2), 0),
    (Getppid, 1),
    (Write(4, b"12345"), 5),
    (By(1), 0),
    (Seek(3, 0, 1), 5),
    (Pipe(b"\x05\0\0\0\x06\0\0\0"), 0),
    (Read(5, 4, b""), BLOCKS),
    (Fork, 3),
    (Close(6), 0),
    (Read(5, 4, b""), BLOCKS),
    (By(3), 0),
    (Close(5), 0),
    (Write(6, b"abcdef"), 6),
    (Read(6, 1, b""), -9),
    (By(1), 0),
    (Read(5, 4, b"abcd"), 4),
    (By(3), 0),
    (Exit(0), 0),
    (By(1), 0),
    (Read(5, 4, b"ef"), 2),
    (Read(5, 4, b""), 0),
];

/// A full pipe blocks; without an end that reads the caller has signal 13.
const FULL_PIPE: [(Call, i32); 14] = [
    (Pipe(b"\x03\0\0\0\x04\0\0\0"), 0),
    (Write(4, &[7; 4095]), 4095),
    (Write(4, b"xy"), 1),
    (Write(4, b"y"), BLOCKS),
    (Read(3, 1, &[7]), 1),
    (Write(4, b"y"), 1),
    (Close(3), 0),
    (Sigact(13, 1, 0), 0),
    (Write(4, b"z"), -32),
    (Deliverable(1), NONE),
    (Sigact(13, 0, 0), 0),
    (Write(4, b"z"), -32),
    (Raised, NONE),
    (Take(true), SIGNAL + 13),
];

#[test]
fn pipes(rt: HostRuntime) -> Result<(), Fail> {
    check_first(&rt, rt.alloc(), &SHARED_BY_FORK)?;
    check_first(&rt, rt.alloc(), &FULL_PIPE)
}
