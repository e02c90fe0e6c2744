// A word of each instruction, worked out from the formats of the manual, by the text of its statement.
use rv_asm::assemble;
use rv_decode::{
    BranchOffset, FenceBits, Immediate, JumpOffset, Register, Shift, Upper, decode, encode,
};
use std::alloc::Global;
use std::process::Abort;

/// A text, the place of a word in its code, counted in words, and that word.
const WORDS: [(&str, u16, u32); 42] = [
    ("lui a1, 0x10", 0, 0x0001_05B7),
    ("auipc t0, 0xFFFFF", 0, 0xFFFF_F297),
    ("jal ra, l\n.space 2044\nl:", 0, 0x0010_00EF),
    ("l: nop\njal x0, l", 1, 0xFFDF_F06F),
    ("jalr x0, 0(ra)", 0, 0x0000_8067),
    ("jalr ra, 2(t0)", 0, 0x0022_80E7),
    ("beq a0, a1, l\nnop\nl:", 0, 0x00B5_0463),
    ("l: nop\nbne a0, a1, l", 1, 0xFEB5_1EE3),
    ("blt a0, a1, l\n.space 2044\nl:", 0, 0x00B5_40E3),
    ("l: .space 4096\nbge a0, a1, l", 1024, 0x80B5_5063),
    ("bltu a0, a1, l\nnop\nl:", 0, 0x00B5_6463),
    ("bgeu a0, a1, l\n.space 4090\nl:", 0, 0x7EB5_7FE3),
    ("lb a0, -1(sp)", 0, 0xFFF1_0503),
    ("lh a0, 32(sp)", 0, 0x0201_1503),
    ("lw a0, 12(sp)", 0, 0x00C1_2503),
    ("lbu a0, 32(sp)", 0, 0x0201_4503),
    ("lhu a0, -2048(sp)", 0, 0x8001_5503),
    ("sb a0, -1(sp)", 0, 0xFEA1_0FA3),
    ("sh a0, 32(sp)", 0, 0x02A1_1023),
    ("sw a0, 12(sp)", 0, 0x00A1_2623),
    ("addi a0, x0, 1", 0, 0x0010_0513),
    ("slti a0, a0, -1", 0, 0xFFF5_2513),
    ("sltiu a0, a0, 1", 0, 0x0015_3513),
    ("xori a0, a0, -1", 0, 0xFFF5_4513),
    ("ori a0, a0, 2047", 0, 0x7FF5_6513),
    ("andi a0, a0, 1", 0, 0x0015_7513),
    ("slli a0, a0, 31", 0, 0x01F5_1513),
    ("srli a0, a0, 8", 0, 0x0085_5513),
    ("srai a0, a0, 31", 0, 0x41F5_5513),
    ("add a0, a1, a2", 0, 0x00C5_8533),
    ("sub a0, a1, a2", 0, 0x40C5_8533),
    ("sll a0, a1, a2", 0, 0x00C5_9533),
    ("slt a0, a1, a2", 0, 0x00C5_A533),
    ("sltu a0, a1, a2", 0, 0x00C5_B533),
    ("xor a0, a1, a2", 0, 0x00C5_C533),
    ("srl a0, a1, a2", 0, 0x00C5_D533),
    ("sra a0, a1, a2", 0, 0x40C5_D533),
    ("or a0, a1, a2", 0, 0x00C5_E533),
    ("and a0, a1, a2", 0, 0x00C5_F533),
    ("fence", 0, 0x0FF0_000F),
    ("ecall", 0, 0x0000_0073),
    ("ebreak", 0, 0x0010_0073),
];

/// Whether the word stands at this place of a file's code.
fn is_word_at(file: &[u8], place: u16, word: u32) -> bool {
    match file.get(84 + 4 * usize::from(place)..) {
        Some(rest) => rest.starts_with(&word.to_le_bytes()),
        None => false,
    }
}

/// Whether the text has the word there.
fn is_word_of(alloc: Global, text: &str, place: u16, word: u32) -> bool {
    match assemble(alloc, text.as_bytes()) {
        Ok(file) => is_word_at(file.as_slice(), place, word),
        Err(_) => false,
    }
}

/// Whether the word is an instruction that has this word.
fn is_read_back(word: u32) -> bool {
    match decode(word) {
        Some(instr) => encode(&instr) == word,
        None => false,
    }
}

fn are_words(rt: &impl Abort, alloc: Global, rows: &[(&str, u16, u32)]) {
    for (text, place, word) in rows {
        let is_word = is_word_of(alloc, text, *place, *word) && is_read_back(*word);
        assert!(rt; is_word, "{text}");
    }
}

#[test]
fn words(rt: HostRuntime) {
    are_words(&rt, rt.alloc(), &WORDS);
}

/// Words of no row: zeros, ones, a product, shifts and sums with a reserved funct7, reserved values of funct3 in
/// branches, loads, stores, JALR and FENCE, and other words of SYSTEM.
const NO_WORDS: [u32; 14] = [
    0,
    0xFFFF_FFFF,
    0x02C5_8533,
    0x0205_1513,
    0x4205_5513,
    0x40C5_9533,
    0x60C5_8533,
    0x00B5_2463,
    0x0001_3503,
    0x00A1_3623,
    0x0000_9067,
    0x0000_100F,
    0x0020_0073,
    0x3000_1073,
];

fn are_no_words(rt: &impl Abort, words: &[u32]) {
    for word in words {
        assert!(rt; decode(*word).is_none(), "{word}");
    }
}

#[test]
fn no_instruction(rt: HostRuntime) {
    are_no_words(&rt, &NO_WORDS);
}

/// An operand of an instruction.
#[derive(Clone, Copy)]
enum Operand {
    Register,
    Shift,
    Upper,
    Fence,
    Immediate,
    Branch,
    Jump,
}

/// The ends of each operand's range, and what is past them.
const RANGES: [(Operand, i32, bool); 27] = [
    (Operand::Register, 31, true),
    (Operand::Register, 32, false),
    (Operand::Register, -1, false),
    (Operand::Shift, 31, true),
    (Operand::Shift, 32, false),
    (Operand::Shift, -1, false),
    (Operand::Upper, 0xF_FFFF, true),
    (Operand::Upper, 0x10_0000, false),
    (Operand::Upper, -1, false),
    (Operand::Fence, 0x3F_FFFF, true),
    (Operand::Fence, 0x40_0000, false),
    (Operand::Immediate, 2047, true),
    (Operand::Immediate, 2048, false),
    (Operand::Immediate, -2048, true),
    (Operand::Immediate, -2049, false),
    (Operand::Branch, 4094, true),
    (Operand::Branch, 4096, false),
    (Operand::Branch, -4096, true),
    (Operand::Branch, -4098, false),
    (Operand::Branch, 7, false),
    (Operand::Jump, 0xF_FFFE, true),
    (Operand::Jump, 0x10_0000, false),
    (Operand::Jump, -0x10_0000, true),
    (Operand::Jump, -0x10_0002, false),
    (Operand::Jump, 2048, true),
    (Operand::Jump, -4, true),
    (Operand::Jump, 1, false),
];

/// Whether the operand has the value.
fn holds(operand: Operand, value: i32) -> bool {
    match operand {
        Operand::Register => Register::new(value).is_some(),
        Operand::Shift => Shift::new(value).is_some(),
        Operand::Upper => Upper::new(value).is_some(),
        Operand::Fence => FenceBits::new(value).is_some(),
        Operand::Immediate => Immediate::new(value).is_some(),
        Operand::Branch => BranchOffset::new(value).is_some(),
        Operand::Jump => JumpOffset::new(value).is_some(),
    }
}

fn are_ranges(rt: &impl Abort, rows: &[(Operand, i32, bool)]) {
    for (operand, value, is_held) in rows {
        assert_eq!(rt; holds(*operand, *value), *is_held, "{value}");
    }
}

#[test]
fn ranges(rt: HostRuntime) {
    are_ranges(&rt, &RANGES);
}
