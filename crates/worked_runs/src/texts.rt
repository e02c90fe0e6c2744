// The worked texts, assembled in memory, and some of them run.
use crate::images::{self, HELLO, jump, program};
use crate::in_memory::{NEVER, Told, assembled, tells, texts_tell};
use call_table::NoMemory;
use mosix_shell::why::Why;
use std::alloc::Global;
use std::process::Abort;
use std::test::Fail;

const HELLO_TEXT: &[u8] =
    b"addi a0, x0, 1\nlui a1, 0x10\naddi a1, a1, 36\naddi a2, x0, 3\naddi a7, x0, 9\necall
addi a0, x0, 0\naddi a7, x0, 1\necall\n.ascii \"hi\\n\"\n";

/// What texts are answered: a file, or the line of the first fault.
const ANSWERS: [(&[u8], u8, &[u8]); 3] = [
    (HELLO_TEXT, 0, &HELLO),
    (b"addi a0, x0", 11, b"bad source 1 7\n"),
    (b"nop\nfoo\nbar\n", 11, b"bad source 2 2\n"),
];

fn answers_tell(
    rt: &impl Abort,
    alloc: Global,
    rows: &[(&[u8], u8, &[u8])],
) -> Result<(), NoMemory> {
    for row in rows {
        let told = assembled(alloc, row.0, NEVER)?;
        tells(rt, &told, row.1, row.2);
    }
    Ok(())
}

#[test]
fn answers_of_texts(rt: HostRuntime) -> Result<(), Fail> {
    answers_tell(&rt, rt.alloc(), &ANSWERS)?;
    Ok(())
}

#[test]
fn a_text_past_the_limit(rt: HostRuntime) -> Result<(), Fail> {
    let text = vec![in rt.alloc(); b'\n'; 1_048_577]?;
    let told = assembled(rt.alloc(), text.as_slice(), NEVER)?;
    tells(&rt, &told, 11, b"bad source 0 1\n");
    Ok(())
}

#[test]
fn a_file_of_two_pieces(rt: HostRuntime) -> Result<(), Fail> {
    let told = assembled(rt.alloc(), b".space 70000", (0, 2))?;
    assert_eq!(rt; (told.why, told.output.len()), (Why::WriteFault, 65_536));
    let told = assembled(rt.alloc(), b".space 70000", NEVER)?;
    assert_eq!(rt; (told.why, told.output.len()), (Why::Done, 70_084));
    Ok(())
}

/// li of 5 and exit.
const FIVE: [u32; 4] = [0x0050_0513, 0x0000_08B7, 0x0018_8893, 0x0000_0073];

/// li of all ones.
const ONES: [u32; 2] = [0x0000_0537, 0xFFF5_0513];

const EDGE: &[u8] = b"lui a0, 0x80000\nsw x0, -2(a0)\n";

const JUMP1: &[u8] = b"la a0, t\njalr x0, 1(a0)\nt: li a0, 5\nsys 1\n";

const JUMP2: &[u8] = b"la a0, t\njalr x0, 2(a0)\nt: li a0, 5\nsys 1\n";

/// A text gives the file of these words.
fn is_program(
    rt: &impl Abort,
    alloc: Global,
    text: &[u8],
    size: u8,
    code: &[u32],
) -> Result<(), NoMemory> {
    let told = assembled(alloc, text, NEVER)?;
    let image = program(alloc, b"", size, code)?;
    tells(rt, &told, 0, image.bytes.as_slice());
    Ok(())
}

#[test]
fn texts_of_programs(rt: HostRuntime) -> Result<(), Fail> {
    let alloc = rt.alloc();
    is_program(&rt, alloc, b"addi a0, x0, 5\nsys 1\n", 16, &FIVE)?;
    is_program(&rt, alloc, b"li a0, 0xFFFFFFFF\n", 8, &ONES)?;
    is_program(&rt, alloc, EDGE, 8, &images::EDGE)?;
    is_program(&rt, alloc, JUMP1, 32, &jump(0x0015_0067))?;
    is_program(&rt, alloc, JUMP2, 32, &jump(0x0025_0067))?;
    Ok(())
}

/// The reports of programs. Where nothing can be executed at the entry, the file is refused.
const REPORTS: [(&[u8], u8, &[u8]); 5] = [
    (HELLO_TEXT, 0, b"terminal 3\nhi\n\nprocess 1 exit 0\ndone\n"),
    (EDGE, 0, b"terminal 0\n\nprocess 1 signal 11\ndone\n"),
    (JUMP1, 0, b"terminal 0\n\nprocess 1 exit 5\ndone\n"),
    (JUMP2, 0, b"terminal 0\n\nprocess 1 signal 11\ndone\n"),
    (b"# nothing\n.align\n.bss 0\n", 4, b"bad image 1 11\n"),
];

#[test]
fn texts_that_run(rt: HostRuntime) -> Result<(), Fail> {
    texts_tell(&rt, rt.alloc(), &REPORTS)?;
    Ok(())
}

/// The programs of calls that are to come, and how many bytes each has in its file and in memory.
const TO_COME: [(&[u8], u32, u32); 9] = [
    (b"l: j l\n", 4, 4),
    (
        b"li a0, 0\nla a1, b\nli a2, 2\nsys 8\nli a0, 1\nla a1, r\nli a2, 1\nsys 9\nli a0, 0\nsys 1\nr: .ascii \"r\"\nb: .space 2\n",
        95,
        95,
    ),
    (
        b"li a0, 0\nla a1, b\nli a2, 2\nsys 8\nli a0, 1\nla a1, r\nli a2, 1\nsys 9\nl: j l\nr: .ascii \"r\"\nb: .space 2\n",
        79,
        79,
    ),
    (
        b"li a0, 10\nla a1, h\nla a2, k\nsys 15\nli a0, 0\nla a1, b\nli a2, 2\nsys 8\nsub s0, x0, a0\nli a0, 0\nla a1, b\nli a2, 2\nsys 8\nmv a2, a0\nli a0, 1\nla a1, b\nsys 9\nmv a0, s0\nsys 1\nh: li a0, 1\nla a1, c\nli a2, 1\nsys 9\nret\nk: sys 16\nc: .ascii \"h\"\nb: .space 2\n",
        215,
        215,
    ),
    (
        b"li a0, 10\nla a1, h\nla a2, h\nsys 15\nsys 2\nli a1, 10\nli sp, 0x2000\nsys 14\nh: li a0, 0\nsys 1\n",
        96,
        96,
    ),
    (
        b"li a0, 0\nla a1, b\nli a2, 2\nsys 8\nsys 4\nbeq a0, x0, c\nla a0, s\nsys 5\nla a1, s\nlw a0, 0(a1)\nsrli a0, a0, 8\nsys 1\nc: li a0, 0\nla a1, b\nli a2, 2\nsys 8\nli a0, 7\nsys 1\ns: .word 0\nb: .space 2\n",
        162,
        162,
    ),
    (
        b"li s0, 0\nm: sys 4\nbeq a0, x0, c\nblt a0, x0, f\naddi s0, s0, 1\nj m\nf: li a0, 0\nsys 5\nsys 4\nbeq a0, x0, c\naddi s0, s0, 1\nmv a0, s0\nsys 1\nc: li a0, 0\nsys 1\n",
        112,
        112,
    ),
    (
        b"la a0, p\nsys 11\nsys 4\nla a1, p\nlw a0, 0(a1)\nla a1, b\nli a2, 1\nsys 8\nli a0, 0\nsys 1\np: .space 8\nb: .space 4\n",
        104,
        104,
    ),
    (
        b"la a0, p\nsys 11\nla a1, p\nlw s0, 4(a1)\nmv a0, s0\nla a1, b\nli a2, 4095\nsys 9\nmv a0, s0\nla a1, b\nli a2, 10\nsys 9\naddi a0, a0, 48\nla a1, c\nsb a0, 0(a1)\nli a0, 1\nli a2, 1\nsys 9\nmv a0, s0\nla a1, b\nli a2, 1\nsys 9\nli a0, 0\nsys 1\np: .space 8\nc: .space 4\nb: .space 1\n.bss 4095\n",
        205,
        4300,
    ),
];

/// The file tells these sizes, and has so many bytes.
fn has_sizes(rt: &impl Abort, told: &Told, size: u32, memory: u32) {
    assert_eq!(rt; told.status, 0);
    let file = told.output.as_slice();
    assert_eq!(rt; file.len(), 84 + size as usize);
    assert_eq!(rt; &file[68..72], size.to_le_bytes().as_slice());
    assert_eq!(rt; &file[72..76], memory.to_le_bytes().as_slice());
}

fn sizes_tell(rt: &impl Abort, alloc: Global, rows: &[(&[u8], u32, u32)]) -> Result<(), NoMemory> {
    for row in rows {
        let told = assembled(alloc, row.0, NEVER)?;
        has_sizes(rt, &told, row.1, row.2);
    }
    Ok(())
}

#[test]
fn programs_to_come(rt: HostRuntime) -> Result<(), Fail> {
    sizes_tell(&rt, rt.alloc(), &TO_COME)?;
    Ok(())
}
