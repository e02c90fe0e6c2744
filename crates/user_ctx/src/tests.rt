// Worked cases, with values from the RISC-V unprivileged specification.
use crate::{Stop, User, Users};
use call_table::{Answer, Bytes, Kind, RIGHT_READ, RIGHT_RUN, RIGHT_WRITE};
use page_set::Pages;
use std::alloc::Global;
use std::process::Abort;

/// Where the words of a process stand, with the right to read and execute.
const CODE: u32 = 0x1000;

/// Where the heap begins.
const BASE: u32 = 0x1_0000;

/// addi a7, x0, 1
const SET_EXIT: u32 = 0x0010_0893;

/// addi a7, x0, 18
const SET_BRK: u32 = 0x0120_0893;

const ECALL: u32 = 0x0000_0073;

/// Two words, a0, a1, and what is then in a2, which is 0 at first.
/// The bytes 80 FF 7F 01 stand at 0x3FFE, over two pages.
const RESULTS: [(u32, u32, u32, u32, u32); 72] = [
    // add
    (0x00B5_0633, 0x0000_0013, 0xFFFF_FFFF, 2, 1),
    // sub
    (0x40B5_0633, 0x0000_0013, 0, 1, 0xFFFF_FFFF),
    // sll by 31
    (0x00B5_1633, 0x0000_0013, 3, 0x1F, 0x8000_0000),
    // sll by 32 is by 0
    (0x00B5_1633, 0x0000_0013, 3, 0x20, 3),
    // slt of the least and the greatest
    (0x00B5_2633, 0x0000_0013, 0x8000_0000, 0x7FFF_FFFF, 1),
    // slt the other way
    (0x00B5_2633, 0x0000_0013, 0x7FFF_FFFF, 0x8000_0000, 0),
    // sltu
    (0x00B5_3633, 0x0000_0013, 0x8000_0000, 0x7FFF_FFFF, 0),
    // sltu the other way
    (0x00B5_3633, 0x0000_0013, 0x7FFF_FFFF, 0x8000_0000, 1),
    // xor
    (
        0x00B5_4633,
        0x0000_0013,
        0xF0F0_F0F0,
        0xFF00_FF00,
        0x0FF0_0FF0,
    ),
    // srl by 31
    (0x00B5_5633, 0x0000_0013, 0x8000_0000, 0x1F, 1),
    // srl by 33 is by 1
    (0x00B5_5633, 0x0000_0013, 0x8000_0000, 0x21, 0x4000_0000),
    // sra by 31
    (0x40B5_5633, 0x0000_0013, 0x8000_0000, 0x1F, 0xFFFF_FFFF),
    // sra by 0
    (0x40B5_5633, 0x0000_0013, 0x8000_0000, 0, 0x8000_0000),
    // sra of a positive number
    (0x40B5_5633, 0x0000_0013, 0x7FFF_FFFF, 0x1E, 1),
    // or
    (
        0x00B5_6633,
        0x0000_0013,
        0xF0F0_F0F0,
        0xFF00_FF00,
        0xFFF0_FFF0,
    ),
    // and
    (
        0x00B5_7633,
        0x0000_0013,
        0xF0F0_F0F0,
        0xFF00_FF00,
        0xF000_F000,
    ),
    // addi -1
    (0xFFF5_0613, 0x0000_0013, 0, 0, 0xFFFF_FFFF),
    // addi 2047
    (0x7FF5_0613, 0x0000_0013, 0xFFFF_FFFF, 0, 0x7FE),
    // slti -2048, at -2049
    (0x8005_2613, 0x0000_0013, 0xFFFF_F7FF, 0, 1),
    // slti -1, at 0
    (0xFFF5_2613, 0x0000_0013, 0, 0, 0),
    // sltiu -1, at 0
    (0xFFF5_3613, 0x0000_0013, 0, 0, 1),
    // sltiu -1, at the greatest
    (0xFFF5_3613, 0x0000_0013, 0xFFFF_FFFF, 0, 0),
    // xori -1
    (0xFFF5_4613, 0x0000_0013, 0x1234_5678, 0, 0xEDCB_A987),
    // ori -2048
    (0x8005_6613, 0x0000_0013, 1, 0, 0xFFFF_F801),
    // andi -16
    (0xFF05_7613, 0x0000_0013, 0x1234_5678, 0, 0x1234_5670),
    // slli by 31
    (0x01F5_1613, 0x0000_0013, 1, 0, 0x8000_0000),
    // slli by 0
    (0x0005_1613, 0x0000_0013, 0xFFFF_FFFF, 0, 0xFFFF_FFFF),
    // srli by 31
    (0x01F5_5613, 0x0000_0013, 0xFFFF_FFFF, 0, 1),
    // srli by 0
    (0x0005_5613, 0x0000_0013, 0x8000_0000, 0, 0x8000_0000),
    // srai by 31
    (0x41F5_5613, 0x0000_0013, 0x8000_0000, 0, 0xFFFF_FFFF),
    // srai by 1
    (0x4015_5613, 0x0000_0013, 0x8000_0000, 0, 0xC000_0000),
    // lui
    (0xFFFF_F637, 0x0000_0013, 0, 0, 0xFFFF_F000),
    // auipc, at 0x1000
    (0xFFFF_F617, 0x0000_0013, 0, 0, 0),
    // a write to x0 is lost
    (0x0055_0013, 0x0000_0013, 7, 0, 0),
    // sll by a register that is 0
    (0x00B5_1633, 0x0000_0013, 0x8000_0001, 0, 0x8000_0001),
    // srl by a register that is 0
    (0x00B5_5633, 0x0000_0013, 0x8000_0001, 0, 0x8000_0001),
    // srai by 0
    (0x4005_5613, 0x0000_0013, 0x8000_0000, 0, 0x8000_0000),
    // fence
    (0x0FF0_000F, 0x0000_0013, 0, 0, 0),
    // fence, with its free bits
    (0xFFFF_8F8F, 0x0000_0013, 0, 0, 0),
    // lb
    (0xFFE5_0603, 0x0000_0013, 0x4000, 0, 0xFFFF_FF80),
    // lb of a positive byte
    (0x0005_0603, 0x0000_0013, 0x4000, 0, 0x7F),
    // lbu
    (0x0005_4603, 0x0000_0013, 0x3FFE, 0, 0x80),
    // lh
    (0x0005_1603, 0x0000_0013, 0x3FFE, 0, 0xFFFF_FF80),
    // lh over two pages
    (0x0005_1603, 0x0000_0013, 0x3FFF, 0, 0x7FFF),
    // lhu
    (0x0005_5603, 0x0000_0013, 0x3FFE, 0, 0xFF80),
    // lw over two pages
    (0x8015_2603, 0x0000_0013, 0x47FD, 0, 0x017F_FF80),
    // lw, read only
    (0x0005_2603, 0x0000_0013, 0x6000, 0, 0),
    // jal over a word keeps the next place
    (0x0080_066F, 0x0010_0613, 0, 0, 0x1004),
    // jalr to 0x1009 goes to 0x1008
    (0x0015_0667, 0x0010_0613, 0x1008, 0, 0x1004),
    // jalr reads its register first
    (0xFFC5_0567, 0x0005_0613, 0x1008, 0, 0x1004),
    // beq, taken
    (0x00B5_0463, 0x0010_0613, 0xFFFF_FFFF, 0xFFFF_FFFF, 0),
    // beq, not taken
    (0x00B5_0463, 0x0010_0613, 0xFFFF_FFFF, 0, 1),
    // bne, taken
    (0x00B5_1463, 0x0010_0613, 0xFFFF_FFFF, 0, 0),
    // bne, not taken
    (0x00B5_1463, 0x0010_0613, 0, 0, 1),
    // blt, taken
    (0x00B5_4463, 0x0010_0613, 0x8000_0000, 0x7FFF_FFFF, 0),
    // blt, not taken
    (0x00B5_4463, 0x0010_0613, 0x7FFF_FFFF, 0x8000_0000, 1),
    // blt, not taken
    (0x00B5_4463, 0x0010_0613, 5, 5, 1),
    // bge, taken
    (0x00B5_5463, 0x0010_0613, 0x7FFF_FFFF, 0x8000_0000, 0),
    // bge, taken
    (0x00B5_5463, 0x0010_0613, 5, 5, 0),
    // bge, not taken
    (0x00B5_5463, 0x0010_0613, 0xFFFF_FFFF, 0, 1),
    // bltu, taken
    (0x00B5_6463, 0x0010_0613, 0x7FFF_FFFF, 0x8000_0000, 0),
    // bltu, not taken
    (0x00B5_6463, 0x0010_0613, 0x8000_0000, 0x7FFF_FFFF, 1),
    // bltu, not taken
    (0x00B5_6463, 0x0010_0613, 5, 5, 1),
    // bgeu, taken
    (0x00B5_7463, 0x0010_0613, 0x8000_0000, 0x7FFF_FFFF, 0),
    // bgeu, taken
    (0x00B5_7463, 0x0010_0613, 5, 5, 0),
    // bgeu, not taken
    (0x00B5_7463, 0x0010_0613, 0, 0xFFFF_FFFF, 1),
    // beq to an odd multiple of 2, not taken
    (0x00B5_0363, 0x0010_0613, 1, 2, 1),
    // sb
    (0x00B5_0023, 0x0005_2603, 0x3000, 0x1234_5678, 0x78),
    // sh
    (0x00B5_10A3, 0x0005_2603, 0x3000, 0x1234_5678, 0x0056_7800),
    // sw
    (0x00B5_2023, 0x0005_2603, 0x3000, 0x1234_5678, 0x1234_5678),
    // sw over two pages
    (0x00B5_2023, 0x0005_2603, 0x3FFE, 0x1234_5678, 0x1234_5678),
    // sh over two pages
    (0x00B5_10A3, 0x0005_2603, 0x3FFE, 0x1234_5678, 0x0156_7880),
];

/// A word, a0, a1, and the signal of its fault.
const FAULTS: [(u32, u32, u32, u8); 18] = [
    // a product
    (0x02C5_8533, 3, 5, 4),
    // a zero word
    (0x0000_0000, 0, 0, 4),
    // ecall with a register
    (0x0000_00F3, 0, 0, 4),
    // slli with another bit
    (0x4015_1613, 0, 0, 4),
    // fence.i
    (0x0000_100F, 0, 0, 4),
    // ebreak
    (0x0010_0073, 0, 0, 5),
    // jal to an odd multiple of 2
    (0x0060_066F, 0, 0, 11),
    // jalr to an odd multiple of 2
    (0x0005_0667, 0x1006, 0, 11),
    // a branch that is taken there
    (0x00B5_0363, 1, 1, 11),
    // jal to an unmapped page, at the fetch there
    (0x0000_166F, 0, 0, 11),
    // lw of an unmapped page
    (0x0005_2603, 0x5000, 0, 11),
    // lw that ends in one
    (0x0005_2603, 0x4FFD, 0, 11),
    // sw to a page that is read only
    (0x00B5_2023, 0x6000, 1, 11),
    // sw that ends in an unmapped page
    (0x00B5_2023, 0x4FFE, 1, 11),
    // sb to the code
    (0x00B5_0023, 0x1000, 1, 11),
    // jalr to a page that is only read, at the fetch there
    (0x0005_0667, 0x6000, 0, 11),
    // lw to x0, of an unmapped page
    (0x0005_2003, 0x5000, 0, 11),
    // sh that ends in an unmapped page
    (0x00B5_1023, 0x4FFF, 1, 11),
];

/// The break goes up, down and up again, with a word stored in between and loaded at the end.
const BREAKS: [u32; 13] = [
    // addi a7, x0, 18
    0x0120_0893,
    // lui a0, 0x12
    0x0001_2537,
    // addi a0, a0, 1
    0x0015_0513,
    // ecall
    0x0000_0073,
    // lui a1, 0x12
    0x0001_25B7,
    // sw a0, 0(a1)
    0x00A5_A023,
    // lui a0, 0x11
    0x0001_1537,
    // ecall
    0x0000_0073,
    // lui a0, 0x13
    0x0001_3537,
    // ecall
    0x0000_0073,
    // lw a2, 0(a1)
    0x0005_A603,
    // addi a7, x0, 1
    0x0010_0893,
    // ecall
    0x0000_0073,
];

/// Hands over four bytes, and has the answer in a2 at its exit.
const WRITES: [u32; 6] = [
    // addi a2, x0, 4
    0x0040_0613,
    // addi a7, x0, 9
    0x0090_0893,
    // ecall
    0x0000_0073,
    // addi a2, a0, 0
    0x0005_0613,
    // addi a7, x0, 1
    0x0010_0893,
    // ecall
    0x0000_0073,
];

/// Asks for three bytes, and has the word there in a2 at its exit.
const READS: [u32; 6] = [
    // addi a2, x0, 3
    0x0030_0613,
    // addi a7, x0, 8
    0x0080_0893,
    // ecall
    0x0000_0073,
    // lw a2, 0(a1)
    0x0005_A603,
    // addi a7, x0, 1
    0x0010_0893,
    // ecall
    0x0000_0073,
];

/// Yields, and has the answer in a2 at its exit; its handler returns.
const HANDLES: [u32; 7] = [
    // addi a7, x0, 19
    0x0130_0893,
    // ecall
    0x0000_0073,
    // addi a2, a0, 0
    0x0005_0613,
    // addi a7, x0, 1
    0x0010_0893,
    // ecall
    0x0000_0073,
    // addi a7, x0, 16, the handler at 0x1014
    0x0100_0893,
    // ecall
    0x0000_0073,
];

/// Has its pid in a1, the answer of a number that no call has in a2 and that of a pipe to no page in a3 at its exit.
const LOCALS: [u32; 12] = [
    // addi a7, x0, 2
    0x0020_0893,
    // ecall
    0x0000_0073,
    // addi a1, a0, 0
    0x0005_0593,
    // addi a7, x0, 77
    0x04D0_0893,
    // ecall
    0x0000_0073,
    // addi a2, a0, 0
    0x0005_0613,
    // addi a0, x0, 0x600
    0x6000_0513,
    // addi a7, x0, 11
    0x00B0_0893,
    // ecall
    0x0000_0073,
    // addi a3, a0, 0
    0x0005_0693,
    // addi a7, x0, 1
    0x0010_0893,
    // ecall
    0x0000_0073,
];

/// Adds 1, 2, 3 and so on to a0, in as many rounds as a1 says: it stores to the word that adds.
const CHANGES_A_WORD: [u32; 11] = [
    // auipc x5, 0
    0x0000_0297,
    // lw x6, 16(x5)
    0x0102_A303,
    // lui x7, 0x100
    0x0010_03B7,
    // addi x0, x0, 0
    0x0000_0013,
    // addi a0, a0, 1, the word that changes
    0x0015_0513,
    // add x6, x6, x7
    0x0073_0333,
    // sw x6, 16(x5)
    0x0062_A823,
    // addi a1, a1, -1
    0xFFF5_8593,
    // bne a1, x0, to the word that changes
    0xFE05_98E3,
    SET_EXIT,
    ECALL,
];

/// Adds 1, 17, 33 and so on to a0, and sets a2 and a3 by turns, in as many rounds as a1 says: it stores to the last byte
/// of the first word and to the first byte of the second.
const CHANGES_TWO_WORDS: [u32; 13] = [
    // auipc x5, 0
    0x0000_0297,
    // lui x6, 1
    0x0000_1337,
    // addi x6, x6, 0x300
    0x3003_0313,
    // lui x7, 8
    0x0000_83B7,
    // addi a0, a0, 1, the first word
    0x0015_0513,
    // addi a2, a2, 1, the second, which is then addi a3, a2, 1
    0x0016_0613,
    // addi x6, x6, 1
    0x0013_0313,
    // xor x6, x6, x7
    0x0073_4333,
    // sh x6, 19(x5)
    0x0062_99A3,
    // addi a1, a1, -1
    0xFFF5_8593,
    // bne a1, x0, to the first word
    0xFE05_94E3,
    SET_EXIT,
    ECALL,
];

/// Adds one to a number from page to page and back, 16 pages apart, in each round.
const COPIES: [u32; 11] = [
    // lui t1, 0x80
    0x0008_0337,
    // lui t2, 0x90
    0x0009_03B7,
    // lw a3, 0(t1)
    0x0003_2683,
    // addi a3, a3, 1
    0x0016_8693,
    // sw a3, 0(t2)
    0x00D3_A023,
    // lw a0, 0(t2)
    0x0003_A503,
    // sw a0, 0(t1)
    0x00A3_2023,
    // addi a1, a1, -1
    0xFFF5_8593,
    // bne a1, x0, -24
    0xFE05_94E3,
    SET_EXIT,
    ECALL,
];

/// Adds one to a number in each of 20 pages, and their sum to a0, in each round.
const VISITS: [u32; 13] = [
    // lui t3, 1
    0x0000_1E37,
    // lui t1, 0x80
    0x0008_0337,
    // lui t2, 0x94
    0x0009_43B7,
    // lw a3, 0(t1)
    0x0003_2683,
    // addi a3, a3, 1
    0x0016_8693,
    // sw a3, 0(t1)
    0x00D3_2023,
    // add a0, a0, a3
    0x00D5_0533,
    // add t1, t1, t3
    0x01C3_0333,
    // bne t1, t2, -20
    0xFE73_16E3,
    // addi a1, a1, -1
    0xFFF5_8593,
    // bne a1, x0, -36
    0xFC05_9EE3,
    SET_EXIT,
    ECALL,
];

/// a0 at a brk, its answer, and how many pages there are then, of five at first; Grows where it maps pages.
const LIMITS: [(u32, u32, u32, Stop); 8] = [
    (0, BASE, 5, Stop::Went),
    (BASE - 1, BASE, 5, Stop::Went),
    (BASE, BASE, 5, Stop::Went),
    (BASE + 1, BASE + 1, 6, Stop::Grows),
    // 1,019 pages more
    (0x40_B000, 0x40_B000, 1024, Stop::Grows),
    (0x40_B001, BASE, 5, Stop::Went),
    (0x7000_0000, BASE, 5, Stop::Went),
    (0x7000_0001, BASE, 5, Stop::Went),
];

/// What is done with a process, and what is then told.
#[derive(Clone, Copy)]
enum Act {
    /// It runs at most so many steps: how many went, and how the last one came out.
    Runs(u32, u32, Stop),
    /// Its step maps pages, and it then has so many.
    Grows(u32),
    /// It asks at a call of this number, with these arguments and bytes.
    Asks(u32, [u32; 6], &'static [u8]),
    /// Its call returns.
    Gives(i32, &'static [u8], Kind),
    /// It enters a handler: signal, handler, restorer, mask.
    Enters(u8, u32, u32, u32),
    /// It has made so many steps.
    Counts(u32),
    /// It runs to its exit, with this in a2.
    Ends(u32),
}

const HEAP: [Act; 5] = [
    Act::Runs(100, 3, Stop::Grows),
    Act::Grows(8),
    Act::Runs(100, 5, Stop::Grows),
    Act::Grows(8),
    Act::Ends(0),
];

const WRITING: [Act; 5] = [
    Act::Runs(100, 2, Stop::AtCall),
    Act::Asks(9, [1, 0x3FFE, 4, 0, 0, 0], &[0x80, 0xFF, 0x7F, 0x01]),
    Act::Gives(-9, &[], Kind::Plain),
    Act::Counts(2),
    Act::Ends(0xFFFF_FFF7),
];

const READING: [Act; 3] = [
    Act::Runs(100, 2, Stop::AtCall),
    Act::Gives(3, &[1, 2, 3], Kind::Plain),
    Act::Ends(0x0103_0201),
];

const HANDLING: [Act; 7] = [
    Act::Runs(100, 1, Stop::AtCall),
    Act::Gives(7, &[], Kind::Plain),
    Act::Enters(10, 0x1014, 0x1234, 0x42),
    Act::Runs(100, 1, Stop::AtCall),
    Act::Asks(16, [0x42, 5, 0, 0, 0, 0], &[]),
    Act::Gives(0, &[], Kind::Return),
    Act::Ends(7),
];

const LOCAL: [Act; 2] = [
    Act::Runs(100, 11, Stop::AtCall),
    Act::Asks(1, [0xFFFF_FFF2, 12, 0xFFFF_FFDA, 0xFFFF_FFF2, 0, 0], &[]),
];

fn map(rt: &impl Abort, pages: &mut Pages, page: u32, rights: u8) {
    assert!(rt; page < 0x10_0000 && rights < 8 && !pages.is_mapped(page));
    assert_eq!(rt; pages.map_zero(page, rights), Ok(()));
}

/// The pages of a process at these words, whose page has these rights, with two pages of data from 0x3000 on and one to be
/// read at 0x6000.
fn pages_with(rt: &impl Abort, alloc: Global, words: &[u32], rights: u8) -> Pages {
    let mut pages = Pages::new(alloc);
    map(rt, &mut pages, 1, rights);
    map(rt, &mut pages, 3, RIGHT_READ | RIGHT_WRITE);
    map(rt, &mut pages, 4, RIGHT_READ | RIGHT_WRITE);
    map(rt, &mut pages, 6, RIGHT_READ);
    map(rt, &mut pages, 0x7_0000, RIGHT_READ);
    pages.write(0x3FFE, &[0x80, 0xFF, 0x7F, 0x01]);
    let mut at = CODE;
    for word in words {
        pages.write(at, &word.to_le_bytes());
        at = at.wrapping_add(4);
    }
    pages
}

/// A process at these words.
fn process(rt: &impl Abort, alloc: Global, words: &[u32], a0: u32, a1: u32) -> User {
    let pages = pages_with(rt, alloc, words, RIGHT_READ | RIGHT_RUN);
    User::new(CODE, 0x5000, a0, a1, pages, BASE)
}

/// What a process asks that is at a forwarded call.
fn asks(
    rt: &impl Abort,
    alloc: Global,
    user: &mut User,
    number: u32,
    args: &[u32; 6],
    bytes: &[u8],
) {
    match user.run(1) {
        (0, Stop::AtCall) => match user.request(alloc) {
            Ok(request) => {
                assert_eq!(rt; (request.number, request.room), (number, true));
                assert_eq!(rt; request.args.as_slice(), args.as_slice());
                assert_eq!(rt; request.bytes.as_slice(), bytes);
            }
            Err(_) => assert!(rt; false),
        },
        _ => assert!(rt; false),
    }
}

/// What a process has in a0, a2 and a3 at its exit.
fn ends(rt: &impl Abort, alloc: Global, user: &mut User) -> (u32, u32, u32) {
    match user.run(10_000) {
        (_, Stop::AtCall) => match user.request(alloc) {
            Ok(request) => (request.args[0], request.args[2], request.args[3]),
            Err(_) => (0, 0, 0),
        },
        _ => {
            assert!(rt; false);
            (0, 0, 0)
        }
    }
}

fn grows(rt: &impl Abort, user: &mut User, need: u32) {
    match user.run(1) {
        (0, Stop::Grows) => assert_eq!(rt; user.grow(), Ok(())),
        _ => assert!(rt; false),
    }
    assert_eq!(rt; user.need(), need);
}

fn gives(rt: &impl Abort, alloc: Global, user: &mut User, value: i32, bytes: &[u8], kind: Kind) {
    match Bytes::from_slice(alloc, bytes) {
        Ok(bytes) => user.give(&Answer { value, bytes, kind }),
        Err(_) => assert!(rt; false),
    }
}

fn enters(rt: &impl Abort, user: &mut User, signal: u8, handler: u32, restorer: u32, mask: u32) {
    assert!(rt; user.frame_room());
    assert!(rt; user.push_frame(signal, handler, restorer, mask));
}

fn does(rt: &impl Abort, alloc: Global, user: &mut User, act: &Act) {
    match *act {
        Act::Runs(most, went, stop) => assert_eq!(rt; user.run(most), (went, stop)),
        Act::Grows(need) => grows(rt, user, need),
        Act::Asks(number, args, bytes) => asks(rt, alloc, user, number, &args, bytes),
        Act::Gives(value, bytes, kind) => gives(rt, alloc, user, value, bytes, kind),
        Act::Enters(signal, handler, restorer, mask) => {
            enters(rt, user, signal, handler, restorer, mask)
        }
        Act::Counts(count) => assert_eq!(rt; user.count(), count),
        Act::Ends(want) => assert_eq!(rt; ends(rt, alloc, user).1, want),
    }
}

fn acts(rt: &impl Abort, alloc: Global, user: &mut User, all: &[Act]) {
    for one in all {
        does(rt, alloc, user, one);
    }
}

/// A process at these words does these.
fn story(rt: &impl Abort, alloc: Global, words: &[u32], a0: u32, a1: u32, all: &[Act]) {
    let mut user = process(rt, alloc, words, a0, a1);
    user.set_pid(12);
    assert_eq!(rt; user.pid(), 12);
    acts(rt, alloc, &mut user, all);
}

#[test]
fn calls_and_their_returns(rt: HostRuntime) {
    let alloc = rt.alloc();
    story(&rt, alloc, &BREAKS, 0, 0, &HEAP);
    story(&rt, alloc, &WRITES, 1, 0x3FFE, &WRITING);
    story(&rt, alloc, &READS, 0, 0x3FFE, &READING);
    story(&rt, alloc, &HANDLES, 0, 5, &HANDLING);
    story(&rt, alloc, &LOCALS, 0, 0, &LOCAL);
}

/// What an instruction leaves in a2.
fn leaves(rt: &impl Abort, alloc: Global, row: &(u32, u32, u32, u32, u32)) {
    let (first, second, a0, a1, want) = *row;
    let mut user = process(rt, alloc, &[first, second, SET_EXIT, ECALL], a0, a1);
    assert_eq!(rt; ends(rt, alloc, &mut user).1, want, "{first}");
}

#[test]
fn each_instruction_has_its_result(rt: HostRuntime) {
    for row in &RESULTS {
        leaves(&rt, rt.alloc(), row);
    }
}

fn faults(rt: &impl Abort, alloc: Global, row: &(u32, u32, u32, u8)) {
    let (word, a0, a1, signal) = *row;
    let mut user = process(rt, alloc, &[word], a0, a1);
    let (went, stop) = user.run(10);
    assert_eq!(rt; stop, Stop::Fault(signal), "{word}");
    assert_eq!(rt; (user.step(), user.count()), (Stop::Fault(signal), went));
}

#[test]
fn each_fault_has_its_signal(rt: HostRuntime) {
    for row in &FAULTS {
        faults(&rt, rt.alloc(), row);
    }
}

/// Runs step by step as many steps as another process made at once.
fn steps(rt: &impl Abort, user: &mut User, count: u32) {
    for _i in 0..count {
        assert_eq!(rt; user.step(), Stop::Went);
    }
    assert_eq!(rt; user.step(), Stop::AtCall);
}

/// A process that changes its own code has these in a0, a2 and a3 at its exit after 100 rounds.
fn changes_itself(rt: &impl Abort, alloc: Global, words: &[u32], want: (u32, u32, u32)) {
    let rights = RIGHT_READ | RIGHT_WRITE | RIGHT_RUN;
    let pages = pages_with(rt, alloc, words, rights);
    let mut user = User::new(CODE, 0x5000, 0, 100, pages, BASE);
    assert_eq!(rt; ends(rt, alloc, &mut user), want);
    assert!(rt; user.count() > 500);
    changes_in_steps(rt, alloc, words, user.count(), want);
}

fn changes_in_steps(
    rt: &impl Abort,
    alloc: Global,
    words: &[u32],
    count: u32,
    want: (u32, u32, u32),
) {
    let rights = RIGHT_READ | RIGHT_WRITE | RIGHT_RUN;
    let pages = pages_with(rt, alloc, words, rights);
    let mut user = User::new(CODE, 0x5000, 0, 100, pages, BASE);
    steps(rt, &mut user, count);
    assert_eq!(rt; ends(rt, alloc, &mut user), want);
}

#[test]
fn code_that_changes_is_executed_as_it_is(rt: HostRuntime) {
    changes_itself(&rt, rt.alloc(), &CHANGES_A_WORD, (5050, 0, 0));
    changes_itself(&rt, rt.alloc(), &CHANGES_TWO_WORDS, (79_300, 50, 51));
}

/// A process over 20 pages of data has these in a0, a2 and a3 at its exit after 50 rounds.
fn uses_pages(rt: &impl Abort, alloc: Global, words: &[u32], want: (u32, u32, u32)) {
    let mut pages = pages_with(rt, alloc, words, RIGHT_READ | RIGHT_RUN);
    for page in 0x80..0x94u32 {
        map(rt, &mut pages, page, RIGHT_READ | RIGHT_WRITE);
    }
    let mut user = User::new(CODE, 0x5000, 0, 50, pages, BASE);
    assert_eq!(rt; ends(rt, alloc, &mut user), want);
}

#[test]
fn many_pages_keep_their_numbers(rt: HostRuntime) {
    uses_pages(&rt, rt.alloc(), &COPIES, (50, 0, 50));
    uses_pages(&rt, rt.alloc(), &VISITS, (25_500, 0, 50));
}

/// A brk at this a0, how it answers, and how many pages there are then.
fn limit(rt: &impl Abort, alloc: Global, row: &(u32, u32, u32, Stop)) {
    let (a0, answer, need, how) = *row;
    // the break's answer is then moved to a2
    let words = [SET_BRK, ECALL, 0x0005_0613, SET_EXIT, ECALL];
    let mut user = process(rt, alloc, &words, a0, 0);
    match how {
        Stop::Grows => {
            assert_eq!(rt; user.run(2), (1, Stop::Grows), "{a0}");
            grows(rt, &mut user, need);
        }
        _ => assert_eq!(rt; user.run(2), (2, Stop::Went), "{a0}"),
    }
    assert_eq!(rt; (user.count(), user.need()), (2, need), "{a0}");
    assert_eq!(rt; ends(rt, alloc, &mut user).1, answer, "{a0}");
}

#[test]
fn a_break_has_its_limits(rt: HostRuntime) {
    for row in &LIMITS {
        limit(&rt, rt.alloc(), row);
    }
}

/// How a brk comes out where the heap begins at 0x6FFFF000.
fn highest(rt: &impl Abort, alloc: Global, a0: u32, went: u32, stop: Stop) {
    let pages = pages_with(rt, alloc, &[SET_BRK, ECALL], RIGHT_READ | RIGHT_RUN);
    let mut user = User::new(CODE, 0x5000, a0, 0, pages, 0x6FFF_F000);
    assert_eq!(rt; user.run(2), (went, stop));
}

/// The heap may end at 0x70000000, and no higher.
#[test]
fn a_break_has_a_highest_address(rt: HostRuntime) {
    highest(&rt, rt.alloc(), 0x7000_0000, 1, Stop::Grows);
    highest(&rt, rt.alloc(), 0x7000_0001, 2, Stop::Went);
}

/// A child and a copy of a process at its call go on by themselves.
fn goes_on(rt: &impl Abort, alloc: Global, user: &User) {
    match user.fork_copy(9) {
        Ok(mut child) => {
            assert_eq!(rt; (child.pid(), child.count(), child.need()), (9, 1, 5));
            assert_eq!(rt; ends(rt, alloc, &mut child).1, 0);
        }
        Err(_) => assert!(rt; false),
    }
    match user.copy() {
        Ok(mut copy) => {
            assert_eq!(rt; (copy.pid(), copy.run(100)), (0, (0, Stop::AtCall)));
            assert_eq!(rt; copy.count(), 1);
        }
        Err(_) => assert!(rt; false),
    }
}

#[test]
fn a_child_goes_on_by_itself(rt: HostRuntime) {
    let mut user = process(&rt, rt.alloc(), &HANDLES, 0, 5);
    assert_eq!(rt; user.run(100), (1, Stop::AtCall));
    goes_on(&rt, rt.alloc(), &user);
    gives(&rt, rt.alloc(), &mut user, 9, &[], Kind::Fork);
    assert_eq!(rt; (user.pid(), ends(&rt, rt.alloc(), &mut user).1), (0, 9));
}

#[test]
fn processes_stand_in_a_list(rt: HostRuntime) {
    let mut users = Users::new(rt.alloc());
    let user = process(&rt, rt.alloc(), &[], 0, 0);
    assert!(rt; users.push(user).is_ok());
    assert_eq!(rt; (users.len(), users.get(0).map(User::pid)), (1, Some(0)));
    assert!(rt; users.pop().is_some());
}
