// Worked texts of the assembler, and a table of its faults.
use call_table::limit::SOURCE_BYTES;
use call_table::{Bytes, NoMemory};
use rv_asm::{AsmError, assemble};
use std::alloc::Global;
use std::process::Abort;
use std::test::Fail;

const SMALL_HEADER: [u8; 68] = [
    0x7F, 0x45, 0x4C, 0x46, 1, 1, 1, 0, 0, 0, 0, 0, 0, 0, 0, 0, 2, 0, 0xF3, 0, 1, 0, 0, 0, 0, 0, 1,
    0, 0x34, 0, 0, 0, 0, 0, 0, 0, 0, 0, 0, 0, 0x34, 0, 0x20, 0, 1, 0, 0, 0, 0, 0, 0, 0, 1, 0, 0, 0,
    0x54, 0, 0, 0, 0, 0, 1, 0, 0, 0, 1, 0,
];

// The sizes, rights and alignment behind `SMALL_HEADER`, then the code.
const FIVE: [u8; 32] = [
    16, 0, 0, 0, 16, 0, 0, 0, 7, 0, 0, 0, 4, 0, 0, 0, 0x13, 0x05, 0x50, 0, 0xB7, 0x08, 0, 0, 0x93,
    0x88, 0x18, 0, 0x73, 0, 0, 0,
];

const ALL_ONES: [u8; 24] = [
    8, 0, 0, 0, 8, 0, 0, 0, 7, 0, 0, 0, 4, 0, 0, 0, 0x37, 0x05, 0, 0, 0x13, 0x05, 0xF5, 0xFF,
];

const HELLO: [u8; 55] = [
    0x27, 0, 0, 0, 0x27, 0, 0, 0, 7, 0, 0, 0, 4, 0, 0, 0, 0x13, 0x05, 0x10, 0, 0xB7, 0x05, 0x01, 0,
    0x93, 0x85, 0x45, 0x02, 0x13, 0x06, 0x30, 0, 0x93, 0x08, 0x90, 0, 0x73, 0, 0, 0, 0x13, 0x05, 0,
    0, 0x93, 0x08, 0x10, 0, 0x73, 0, 0, 0, 0x68, 0x69, 0x0A,
];

const DATA: [u8; 41] = [
    25, 0, 0, 0, 0x1C, 0, 0, 0, 7, 0, 0, 0, 4, 0, 0, 0, 0xFF, 0x78, 0x56, 0x34, 0x12, 0x61, 0x2C,
    0x22, 0x0A, 0x5C, 0, 0, 0x67, 0x80, 0, 0, 0x23, 0x2E, 0xA1, 0xFE, 0x6F, 0xF0, 0xDF, 0xFE, 0x80,
];

/// A piece of a text, and its words.
type Statement = (&'static str, &'static [u32]);

/// A text of every statement, and the words that each piece of it stands for. It begins at 0x10000; `ahead` is at 0x10120.
const STATEMENTS: [Statement; 65] = [
    ("back: lui t0, 0xFFFFF", &[0xFFFF_F2B7]),
    ("auipc s11, 0x12345", &[0x1234_5D97]),
    ("jal ra, back", &[0xFF9F_F0EF]),
    ("jal x31, ahead", &[0x1140_0FEF]),
    ("jalr t6, -2048(gp)", &[0x8001_8FE7]),
    ("jalr zero, 2047(x31)", &[0x7FFF_8067]),
    ("beq a0, s1, back", &[0xFE95_04E3]),
    ("bne x16, tp, ahead", &[0x1048_1263]),
    ("blt t5, a7, back", &[0xFF1F_40E3]),
    ("bge s10, x1, ahead", &[0x0E1D_5E63]),
    ("bltu x21, x10, back", &[0xFCAA_ECE3]),
    ("bgeu s2, t2, ahead", &[0x0E79_7A63]),
    ("lb a1, -1(sp)", &[0xFFF1_0583]),
    ("lh s3, 2046(t3)", &[0x7FEE_1983]),
    ("lw x30, -2048(s4)", &[0x800A_2F03]),
    ("lbu a6, 0(t4)", &[0x000E_C803]),
    ("lhu s8, 1365(s5)", &[0x555A_DC03]),
    ("sb s6, -1(a2)", &[0xFF66_0FA3]),
    ("sh t1, 2047(s7)", &[0x7E6B_9FA3]),
    ("sw x31, -1366(x9)", &[0xABF4_A523]),
    ("addi a3, s9, -2048", &[0x800C_8693]),
    ("slti a4, a5, 2047", &[0x7FF7_A713]),
    ("sltiu x5, x0, -1", &[0xFFF0_3293]),
    ("xori x7, x8, 0x555", &[0x5554_4393]),
    ("ori x11, x12, -0", &[0x0006_6593]),
    ("andi x13, x14, +1365", &[0x5557_7693]),
    ("slli x15, x17, 31", &[0x01F8_9793]),
    ("srli x18, x19, 1", &[0x0019_D913]),
    ("srai x20, x22, 31", &[0x41FB_5A13]),
    ("add x23, x24, x25", &[0x019C_0BB3]),
    ("sub x26, x27, x28", &[0x41CD_8D33]),
    ("sll x29, x2, x3", &[0x0031_1EB3]),
    ("slt x4, x5, x6", &[0x0062_A233]),
    ("sltu t0, t1, t2", &[0x0073_32B3]),
    ("xor s0, s1, a0", &[0x00A4_C433]),
    ("srl a1, a2, a3", &[0x00D6_55B3]),
    ("sra a4, a5, a6", &[0x4107_D733]),
    ("or a7, s2, s3", &[0x0139_68B3]),
    ("and s4, s5, s6", &[0x016A_FA33]),
    ("fence", &[0x0FF0_000F]),
    ("ecall", &[0x0000_0073]),
    ("ebreak", &[0x0010_0073]),
    ("nop", &[0x0000_0013]),
    ("ret", &[0x0000_8067]),
    ("mv s7, s8", &[0x000C_0B93]),
    ("j back", &[0xF4DF_F06F]),
    ("j ahead", &[0x0680_006F]),
    ("la s9, back", &[0x0001_0CB7, 0x000C_8C93]),
    ("la s10, ahead", &[0x0001_0D37, 0x120D_0D13]),
    ("li s11, -2147483648", &[0x8000_0DB7, 0x000D_8D93]),
    ("li t3, -1", &[0x0000_0E37, 0xFFFE_0E13]),
    ("li t4, 0x7FF", &[0x0000_0EB7, 0x7FFE_8E93]),
    ("li t5, 0x800", &[0x0000_1F37, 0x800F_0F13]),
    ("li t6, 4294967295", &[0x0000_0FB7, 0xFFFF_8F93]),
    ("sys 18", &[0x0000_08B7, 0x0128_8893, 0x0000_0073]),
    (".word -2147483648", &[0x8000_0000]),
    (".word -1", &[0xFFFF_FFFF]),
    (".word 0xFEDCBA98", &[0xFEDC_BA98]),
    (
        ".byte -128\n.byte 255\n.byte 0x7F\n.byte +1",
        &[0x017F_FF80],
    ),
    (".space 8", &[0x0000_0000, 0x0000_0000]),
    (".ascii \"a\\n\\\"\\\\\"", &[0x5C22_0A61]),
    (".ascii \"#, \"\n.align", &[0x0020_2C23]),
    (".align", &[]),
    ("ahead: # behind its uses", &[]),
    ("end:nop", &[0x0000_0013]),
];

/// The text of each worked file, and what stands behind its header: bytes and words, a text with a comma, quotes and
/// escapes, zeros up to a multiple of 4, jumps, zeros behind the file.
const FILES: [(&str, &[u8]); 4] = [
    ("addi a0, x0, 5\nsys 1\n", &FIVE),
    ("li a0, 0xFFFFFFFF\n", &ALL_ONES),
    (
        "addi a0, x0, 1\nlui a1, 0x10\naddi a1, a1, 36\naddi a2, x0, 3\naddi a7, x0, 9\necall
addi a0, x0, 0\naddi a7, x0, 1\necall\n.ascii \"hi\\n\"",
        &HELLO,
    ),
    (
        " l: .byte -1 # all ones\n\t.word +305419896\n.ascii \"a,\\\"\\n\\\\\"\n.align\n  ret\nsw a0,-4(sp)\nj l\n.byte 0x80\n.bss 3\nend:",
        &DATA,
    ),
];

/// A text, and the line and the kind of its fault, or zeros.
const FAULTS: [(&str, u32, u8); 78] = [
    ("", 0, 0),
    ("foo", 1, 2),
    ("1a: nop", 1, 2),
    ("a : nop", 1, 2),
    ("a: b: nop", 1, 2),
    ("nop\r", 1, 2),
    ("ADDI a0, x0, 5", 1, 2),
    ("addi a0, x32, 1", 1, 3),
    ("addi a0, s12, 1", 1, 3),
    ("addi a0,, 1", 1, 3),
    ("addi a0 x0, 5", 1, 3),
    ("addi a0, x0, 5,", 1, 3),
    ("nop ,", 1, 3),
    ("nop 1 2", 1, 3),
    ("nop \"1 2\"", 1, 8),
    ("li a0, 5x", 1, 3),
    ("li a0, 0x", 1, 3),
    ("li a0, -0x5", 1, 3),
    ("lw a0, 4(a9)", 1, 3),
    ("lw a0, 5000(a9)", 1, 3),
    ("lw a0, (a0)", 1, 3),
    ("jalr a0, 4(a0", 1, 3),
    (".byte 1\nnop", 2, 3),
    (".byte 1\naddi a0, x0, 5000", 2, 3),
    (".bss 4\n.word 1", 2, 3),
    (".bss 4\n.bss 4", 2, 3),
    (".ascii \"a\\q\"", 1, 3),
    (".ascii \"a", 1, 3),
    (".ascii \"a\"b\"", 1, 3),
    (".ascii \"a\tb\"", 1, 3),
    ("j 5", 1, 3),
    ("addi a0, x0, 2048", 1, 4),
    ("addi a0, x0, -2049", 1, 4),
    ("sw a0, 2048(a0)", 1, 4),
    ("li a0, 4294967296", 1, 4),
    ("li a0, -2147483649", 1, 4),
    ("li a0, 0xFFFFFFFFFFFFFFFFFFFFFFFFF", 1, 4),
    ("sys -1", 1, 4),
    (".byte 256", 1, 4),
    (".byte -129", 1, 4),
    ("slli a0, a0, 32", 1, 4),
    ("lui a0, 0x100000", 1, 4),
    ("beq x0, x0, l\n.space 4090\nl:", 0, 0),
    ("beq x0, x0, l\n.space 4092\nl:", 1, 4),
    ("l: .space 4096\nbeq x0, x0, l", 0, 0),
    ("l: .space 4100\nbeq x0, x0, l", 2, 4),
    ("j l\n.byte 1\nl:", 1, 4),
    ("j l\n.space 1048570\nl:", 0, 0),
    ("j l\n.space 1048572\nl:", 1, 4),
    ("j l", 1, 5),
    ("la a0, l", 1, 5),
    ("l:\nl:", 2, 6),
    ("l: nop\nl: foo", 2, 6),
    (".bss 1\nl:\nl: foo", 3, 6),
    ("addi a0, x0", 1, 7),
    ("li", 1, 7),
    ("nop 1", 1, 8),
    ("li a0, 1, 2", 1, 8),
    ("li a9, 4294967296", 1, 3),
    ("li a0, 4294967296, 1", 1, 4),
    ("addi a0, x0, 5000, a b", 1, 4),
    ("addi a0, x0, 5, 1, a b", 1, 3),
    ("beq a0, a0, l, 1", 1, 5),
    ("beq a0, a0", 1, 7),
    (".bss 1\nfoo", 2, 2),
    (".space 4128768", 0, 0),
    (".space 4128769", 1, 1),
    (".space 4128769, 5", 1, 8),
    (".bss 4128769", 1, 1),
    ("nop\n.space 4128764\n.bss 1", 3, 1),
    (".space 4294967295\n.space 4294967295", 1, 1),
    ("foo\naddi a0, x0", 1, 2),
    ("j l\nfoo\nl: nop", 2, 2),
    ("j l\n.space 1x\nl:", 2, 3),
    ("beq x0, x0, l\n.word 1x\n.space 4088\nl:", 1, 4),
    (".bss 4\nl:", 0, 0),
    (
        "la a0, l # no statement\n\n \t\nl: .ascii \"a # b, c\" # d",
        0,
        0,
    ),
    (
        "fence\nebreak\nmv s0, s11\nsub t0, t6, gp\nlhu ra, 0(tp)\nbgeu zero, x31, l\nauipc t2, 1\nl: srai a7, s1, 31",
        0,
        0,
    ),
];

/// Whether the file has the worked header, and this behind it.
fn is_file(file: &[u8], end: &[u8]) -> bool {
    match file.strip_prefix(SMALL_HEADER.as_slice()) {
        Some(rest) => rest == end,
        None => false,
    }
}

fn is_file_of(alloc: Global, text: &str, end: &[u8]) -> bool {
    match assemble(alloc, text.as_bytes()) {
        Ok(file) => is_file(file.as_slice(), end),
        Err(_) => false,
    }
}

fn are_files(rt: &impl Abort, alloc: Global, rows: &[(&str, &[u8])]) {
    for (text, end) in rows {
        assert!(rt; is_file_of(alloc, text, end), "{text}");
    }
}

#[test]
fn worked_files(rt: HostRuntime) {
    are_files(&rt, rt.alloc(), &FILES);
}

/// The text of the pieces, a line each.
fn text_of(alloc: Global, statements: &[Statement]) -> Result<Bytes, NoMemory> {
    let mut text = Bytes::new(alloc);
    for (piece, _) in statements {
        text.push_slice(piece.as_bytes())?;
        text.push(b'\n')?;
    }
    Ok(text)
}

/// What stands behind these words, where they stand first.
fn behind_words<'a>(bytes: &'a [u8], words: &[u32]) -> Option<&'a [u8]> {
    let mut rest = bytes;
    for word in words {
        rest = rest.strip_prefix(&word.to_le_bytes())?;
    }
    Some(rest)
}

/// The code is that of the pieces, word for word.
fn is_code_of(rt: &impl Abort, code: &[u8], statements: &[Statement]) {
    let mut rest = code;
    for (piece, words) in statements {
        match behind_words(rest, words) {
            Some(behind) => rest = behind,
            None => assert!(rt; false, "{piece}"),
        }
    }
    assert!(rt; rest.is_empty(), "words behind the last statement");
}

fn are_statements(rt: &impl Abort, alloc: Global, statements: &[Statement]) -> Result<(), Fail> {
    let text = text_of(alloc, statements)?;
    let file = assemble(alloc, text.as_slice())?;
    match file.as_slice().get(84..) {
        Some(code) => is_code_of(rt, code, statements),
        None => assert!(rt; false, "no code"),
    }
    Ok(())
}

#[test]
fn every_statement(rt: HostRuntime) -> Result<(), Fail> {
    are_statements(&rt, rt.alloc(), &STATEMENTS)
}

/// The line and the kind of the fault; zeros where there is none.
fn fault_of(alloc: Global, text: &[u8]) -> (u32, u8) {
    match assemble(alloc, text) {
        Ok(_) => (0, 0),
        Err(AsmError::Source { line, kind }) => (line, kind),
        Err(AsmError::NoMemory) => (0, 99),
    }
}

fn are_faults(rt: &impl Abort, alloc: Global, rows: &[(&str, u32, u8)]) {
    for (text, line, kind) in rows {
        assert_eq!(rt; fault_of(alloc, text.as_bytes()), (*line, *kind), "{text}");
    }
}

#[test]
fn faults(rt: HostRuntime) {
    are_faults(&rt, rt.alloc(), &FAULTS);
}

#[test]
fn longest_text(rt: HostRuntime) -> Result<(), Fail> {
    let mut text = vec![in rt.alloc(); b' '; SOURCE_BYTES as usize]?;
    assert_eq!(rt; fault_of(rt.alloc(), text.as_slice()), (0, 0));
    text.push(b'\n')?;
    assert_eq!(rt; fault_of(rt.alloc(), text.as_slice()), (0, 1));
    Ok(())
}
