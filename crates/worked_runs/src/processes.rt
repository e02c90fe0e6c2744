// The worked runs of several lines and processes: forks, waits, pipes, signals, and runs that end stuck or full.
use crate::images::HELLO;
use crate::in_memory::{NEVER, RUN, assembled, named, run_in_memory, tells};
use call_table::{Bytes, Names, NoMemory};
use std::alloc::Global;
use std::process::Abort;
use std::test::Fail;

/// Forks until it is refused, waits for one child, forks once more, and exits with the number of its children.
const MANY: &[u8] = b"li s0, 0
m: sys 4
beq a0, x0, c
blt a0, x0, f
addi s0, s0, 1
j m
f: li a0, 0
sys 5
sys 4
beq a0, x0, c
addi s0, s0, 1
mv a0, s0
sys 1
c: li a0, 0
sys 1
";

/// Parent and child read from one pipe, of which both hold the other end.
const BOTH: &[u8] = b"la a0, p
sys 11
sys 4
la a1, p
lw a0, 0(a1)
la a1, b
li a2, 1
sys 8
li a0, 0
sys 1
p: .space 8
b: .space 4
";

/// Fills a pipe: of ten bytes one fits, and the next write waits for ever.
const FILL: &[u8] = b"la a0, p
sys 11
la a1, p
lw s0, 4(a1)
mv a0, s0
la a1, b
li a2, 4095
sys 9
mv a0, s0
la a1, b
li a2, 10
sys 9
addi a0, a0, 48
la a1, c
sb a0, 0(a1)
li a0, 1
li a2, 1
sys 9
mv a0, s0
la a1, b
li a2, 1
sys 9
li a0, 0
sys 1
p: .space 8
c: .space 4
b: .space 1
.bss 4095
";

/// Reads two bytes and forks; the child reads two more and exits with 7, the parent with the code that it waited for.
const FORKER: &[u8] = b"li a0, 0
la a1, b
li a2, 2
sys 8
sys 4
beq a0, x0, c
la a0, s
sys 5
la a1, s
lw a0, 0(a1)
srli a0, a0, 8
sys 1
c: li a0, 0
la a1, b
li a2, 2
sys 8
li a0, 7
sys 1
s: .word 0
b: .space 2
";

/// Has a handler, reads, and exits with what its broken read answered.
const INTR: &[u8] = b"li a0, 10
la a1, h
la a2, k
sys 15
li a0, 0
la a1, b
li a2, 2
sys 8
sub s0, x0, a0
li a0, 0
la a1, b
li a2, 2
sys 8
mv a2, a0
li a0, 1
la a1, b
sys 9
mv a0, s0
sys 1
h: li a0, 1
la a1, c
li a2, 1
sys 9
ret
k: sys 16
c: .ascii \"h\"
b: .space 2
";

/// Reads a line, writes a byte, and goes on for ever.
const SPIN: &[u8] = b"li a0, 0
la a1, b
li a2, 2
sys 8
li a0, 1
la a1, r
li a2, 1
sys 9
l: j l
r: .ascii \"r\"
b: .space 2
";

/// Sends itself a signal with a handler, and has no stack for its frame.
const NOSTACK: &[u8] = b"li a0, 10
la a1, h
la a2, h
sys 15
sys 2
li a1, 10
li sp, 0x2000
sys 14
h: li a0, 0
sys 1
";

/// Goes on for ever.
const LOOP: &[u8] = b"l: j l
";

/// Reads a line, writes a byte and exits.
const LINE: &[u8] = b"li a0, 0
la a1, b
li a2, 2
sys 8
li a0, 1
la a1, r
li a2, 1
sys 9
li a0, 0
sys 1
r: .ascii \"r\"
b: .space 2
";

/// The words, the text of `program`, the script, the status and what is written. The image hello is there too.
type Row<'a> = (&'a [&'a str], &'a [u8], &'a [u8], u8, &'a [u8]);

const ROWS: [Row<'static>; 14] = [
    (&RUN, LINE, b"", 0, b"terminal 0\n\ndone\n"),
    (
        &RUN,
        LINE,
        b"run hello\nrun hello\n",
        0,
        b"terminal 6\nhi\nhi\n\nprocess 1 exit 0\nprocess 2 exit 0\ndone\n",
    ),
    (
        &RUN,
        LINE,
        b"run program\nheld 1\ntype x\n",
        0,
        b"terminal 1\nr\nprocess 1 exit 0\ndone\n",
    ),
    (
        &RUN,
        LINE,
        b"run program\nheld 1\nmove 1 0\ntype x\n",
        0,
        b"terminal 1\nr\nprocess 1 exit 0\nstay 1 0\ndone\n",
    ),
    (
        &RUN,
        LINE,
        b"run program\nheld 1\neof\n",
        0,
        b"terminal 1\nr\nprocess 1 exit 0\ndone\n",
    ),
    (
        &RUN,
        LINE,
        b"run hello\nwait 1\nmove 1 0\nmove 7 0\n",
        0,
        b"terminal 3\nhi\n\nprocess 1 exit 0\nrefused 1 0 ended\nnone 7\ndone\n",
    ),
    (
        &RUN,
        SPIN,
        b"run program\nheld 1\ntype x\nafter 1 2\nkill 1 9\n",
        0,
        b"terminal 1\nr\nprocess 1 signal 9\ndone\n",
    ),
    (
        &RUN,
        INTR,
        b"run program\nheld 1\nkill 1 10\nafter 1 4\ntype x\n",
        0,
        b"terminal 3\nhx\n\nprocess 1 exit 4\ndone\n",
    ),
    (
        &RUN,
        NOSTACK,
        b"run program\n",
        0,
        b"terminal 0\n\nprocess 1 signal 11\ndone\n",
    ),
    (
        &RUN,
        FORKER,
        b"run program\nheld 1\ntype a\nafter 1 2\ntype b\n",
        0,
        b"terminal 0\n\nprocess 1 exit 7\nprocess 2 exit 7\ndone\n",
    ),
    (
        &RUN,
        BOTH,
        b"run program\n",
        1,
        b"terminal 0\n\nprocess 1 blocked 8\nprocess 2 blocked 8\nstuck\n",
    ),
    (
        &RUN,
        FILL,
        b"run program\n",
        1,
        b"terminal 1\n1\nprocess 1 blocked 9\nstuck\n",
    ),
    (
        &RUN,
        FILL,
        b"run program\nrun hello\n",
        1,
        b"terminal 4\nhi\n1\nprocess 1 blocked 9\nprocess 2 exit 0\nstuck\n",
    ),
    (
        &["--nodes", "1", "--journal", "16", "run"],
        LOOP,
        b"run program\n",
        8,
        b"terminal 0\n\nprocess 1 live\nfull 0\n",
    ),
];

/// The files of a run: hello, and the program of a text.
fn files_of(alloc: Global, text: &[u8]) -> Result<Names, NoMemory> {
    let file = assembled(alloc, text, NEVER)?;
    let mut files = Names::new(alloc);
    files.push(named(alloc, b"hello", &HELLO)?)?;
    files.push(named(alloc, b"program", file.output.as_slice())?)?;
    Ok(files)
}

fn row_tells(
    rt: &impl Abort,
    alloc: Global,
    words: &[&str],
    text: &[u8],
    script: &[u8],
    told_so: (u8, &[u8]),
) -> Result<(), NoMemory> {
    let told = run_in_memory(alloc, words, script, files_of(alloc, text)?, NEVER)?;
    tells(rt, &told, told_so.0, told_so.1);
    Ok(())
}

fn rows_tell(rt: &impl Abort, alloc: Global, rows: &[Row]) -> Result<(), NoMemory> {
    for row in rows {
        row_tells(rt, alloc, row.0, row.1, row.2, (row.3, row.4))?;
    }
    Ok(())
}

#[test]
fn several_processes(rt: HostRuntime) -> Result<(), Fail> {
    rows_tell(&rt, rt.alloc(), &ROWS)?;
    Ok(())
}

/// The report of a program that has 64 children.
fn report_of_many(alloc: Global) -> Result<Bytes, NoMemory> {
    let mut report = Bytes::from_slice(alloc, b"terminal 0\n\nprocess 1 exit 64\n")?;
    for pid in 2..66u32 {
        let line = format!(in alloc; "process {pid} exit 0\n")?;
        report.push_slice(line.as_bytes())?;
    }
    report.push_slice(b"done\n")?;
    Ok(report)
}

#[test]
fn many_processes(rt: HostRuntime) -> Result<(), Fail> {
    let report = report_of_many(rt.alloc())?;
    let told_so = (0, report.as_slice());
    row_tells(&rt, rt.alloc(), &RUN, MANY, b"run program\n", told_so)?;
    Ok(())
}
