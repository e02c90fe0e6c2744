// Programs on files, assembled and run, from the text to the report.
use crate::in_memory::texts_tell;
use std::test::Fail;

/// Writes a file, reads it back and shows it; makes another, which goes while it is held.
const NOTES: &[u8] = b"la a0, todo
li a1, 4
li a2, 15
sys 6
blt a0, x0, fail
mv s0, a0
la a1, note
li a2, 23
sys 9
blt a0, x0, fail
mv a0, s0
li a1, 0
li a2, 0
sys 10
blt a0, x0, fail
mv a0, s0
la a1, buffer
li a2, 64
sys 8
blt a0, x0, fail
mv a2, a0
li a0, 1
sys 9
blt a0, x0, fail
mv a0, s0
sys 7
blt a0, x0, fail
la a0, draft
li a1, 5
li a2, 22
sys 6
blt a0, x0, fail
mv s0, a0
la a0, draft
li a1, 5
sys 13
blt a0, x0, fail
mv a0, s0
la a1, note
li a2, 23
sys 9
blt a0, x0, fail
li a0, 0
sys 1
fail: sub a0, x0, a0
sys 1
todo: .ascii \"todo\"
draft: .ascii \"draft\"
note: .ascii \"buy bread\\nfeed the cat\\n\"
buffer: .bss 64
";

/// A read of descriptor 99 into one byte, whose error is the exit status.
const READ_NOWHERE: &[u8] = b"li a0, 99\nli a1, 0\nli a2, 1\nsys 8\nsub a0, x0, a0\nsys 1\n";

const READ_STACK: &[u8] = b"li a0, 99\nmv a1, sp\nli a2, 1\nsys 8\nsub a0, x0, a0\nsys 1\n";

/// A read of the terminal's input, which nobody types at.
const READ_TERMINAL: &[u8] = b"li a0, 0\nmv a1, sp\nli a2, 1\nsys 8\nsys 1\n";

/// Two files, made in another order than that of their names.
const TWO_FILES: &[u8] =
    b"la a0, z\nli a1, 1\nli a2, 6\nsys 6\nla a0, b\nli a1, 1\nli a2, 6\nsys 6\nla a1, z\nli a2, 2\nsys 9\nli a0, 0\nsys 1\nz: .ascii \"z\"\nb: .ascii \"b\"\n";

/// Ten bytes at 1,048,570 of a file, and ten behind them. The exit status is ten times the first answer and the second's error.
const FULL_FILE: &[u8] = b"la a0, f
li a1, 1
li a2, 6
sys 6
mv s0, a0
li a1, 1048570
li a2, 0
sys 10
la a0, f
li a1, 1
sys 13
mv a0, s0
la a1, f
li a2, 10
sys 9
slli s1, a0, 3
slli s2, a0, 1
add s1, s1, s2
mv a0, s0
la a1, f
li a2, 10
sys 9
sub a0, s1, a0
sys 1
f: .ascii \"f123456789\"
";

/// The reports of the runs of their programs.
const REPORTS: [(&[u8], u8, &[u8]); 6] = [
    (
        NOTES,
        0,
        b"terminal 23\nbuy bread\nfeed the cat\n\nprocess 1 exit 0\nfile todo 23\nbuy bread\nfeed the cat\n\ndone\n",
    ),
    (READ_NOWHERE, 0, b"terminal 0\n\nprocess 1 exit 14\ndone\n"),
    (READ_STACK, 0, b"terminal 0\n\nprocess 1 exit 9\ndone\n"),
    (
        READ_TERMINAL,
        1,
        b"terminal 0\n\nprocess 1 blocked 8\nstuck\n",
    ),
    (
        TWO_FILES,
        0,
        b"terminal 0\n\nprocess 1 exit 0\nfile b 2\nzb\nfile z 0\n\ndone\n",
    ),
    (FULL_FILE, 0, b"terminal 0\n\nprocess 1 exit 87\ndone\n"),
];

#[test]
fn reports_of_files(rt: HostRuntime) -> Result<(), Fail> {
    texts_tell(&rt, rt.alloc(), &REPORTS)?;
    Ok(())
}
