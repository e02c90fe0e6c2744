// Programs that were worked by hand: the text of each, and what its script says behind the program's start and its moves.

/// It writes a line.
const HELLO: &[u8] = b"li a0, 1\nla a1, t\nli a2, 3\nsys 9\nli a0, 0\nsys 1\nt: .ascii \"hi\\n\"\n";

/// It writes a file, reads it back and shows it, and unlinks another one that it holds.
const NOTES: &[u8] =
    b"la a0, n\nli a1, 4\nli a2, 15\nsys 6\nmv s0, a0\nla a1, t\nli a2, 23\nsys 9\nmv a0, s0\nli a1, 0\nli a2, 0\nsys 10\nmv a0, s0\nla a1, b\nli a2, 64\nsys 8\nmv a2, a0\nli a0, 1\nsys 9\nmv a0, s0\nsys 7\nla a0, d\nli a1, 5\nli a2, 22\nsys 6\nmv s0, a0\nla a0, d\nli a1, 5\nsys 13\nmv a0, s0\nla a1, t\nli a2, 23\nsys 9\nli a0, 0\nsys 1\nn: .ascii \"todo\"\nd: .ascii \"draft\"\nt: .ascii \"buy bread\\nfeed the cat\\n\"\nb: .bss 64\n";

/// It counts down, and writes a line.
const ROVER: &[u8] =
    b"li s0, 100000\nl: addi s0, s0, -1\nbne s0, x0, l\nli a0, 1\nla a1, t\nli a2, 5\nsys 9\nli a0, 0\nsys 1\nt: .ascii \"done\\n\"\n";

/// It handles a signal, shows a line that is typed, and counts down.
const READER: &[u8] =
    b"li a0, 10\nla a1, h\nla a2, k\nsys 15\nli a0, 0\nla a1, b\nli a2, 80\nsys 8\nmv a2, a0\nli a0, 1\nla a1, b\nsys 9\nli s0, 100000\nl: addi s0, s0, -1\nbne s0, x0, l\nli a0, 0\nsys 1\nh: ret\nk: sys 16\nb: .space 80\n";

/// It waits for a line, writes a byte, and goes on until a signal ends it.
const SPIN: &[u8] =
    b"li a0, 0\nla a1, b\nli a2, 2\nsys 8\nli a0, 1\nla a1, r\nli a2, 1\nsys 9\nl: j l\nr: .ascii \"r\"\nb: .space 2\n";

/// A signal breaks off its read; the next one gets the line.
const INTR: &[u8] =
    b"li a0, 10\nla a1, h\nla a2, k\nsys 15\nli a0, 0\nla a1, b\nli a2, 2\nsys 8\nsub s0, x0, a0\nli a0, 0\nla a1, b\nli a2, 2\nsys 8\nmv a2, a0\nli a0, 1\nla a1, b\nsys 9\nmv a0, s0\nsys 1\nh: li a0, 1\nla a1, c\nli a2, 1\nsys 9\nret\nk: sys 16\nc: .ascii \"h\"\nb: .space 2\n";

/// It reads, and waits for a child that reads too.
const FORKER: &[u8] =
    b"li a0, 0\nla a1, b\nli a2, 2\nsys 8\nsys 4\nbeq a0, x0, c\nla a0, s\nsys 5\nla a1, s\nlw a0, 0(a1)\nsrli a0, a0, 8\nsys 1\nc: li a0, 0\nla a1, b\nli a2, 2\nsys 8\nli a0, 7\nsys 1\ns: .word 0\nb: .space 2\n";

/// It and its child wait for each other at a pipe.
const BOTH: &[u8] =
    b"la a0, p\nsys 11\nsys 4\nla a1, p\nlw a0, 0(a1)\nla a1, b\nli a2, 1\nsys 8\nli a0, 0\nsys 1\np: .space 8\nb: .space 4\n";

/// A program's text, and the lines behind its start.
pub type Worked = (&'static [u8], &'static str);

/// The program of this number, modulo eight.
pub fn worked(number: u64) -> Worked {
    match number % 8 {
        0 => (HELLO, ""),
        1 => (NOTES, ""),
        2 => (ROVER, ""),
        3 => (READER, "held 1\ntype ab\nafter 1 3\nkill 1 10\n"),
        4 => (SPIN, "held 1\ntype x\nafter 1 2\nkill 1 9\n"),
        5 => (INTR, "held 1\nkill 1 10\nafter 1 4\ntype x\n"),
        6 => (FORKER, "held 1\ntype a\nafter 1 2\ntype b\n"),
        _ => (BOTH, ""),
    }
}
