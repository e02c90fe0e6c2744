// From a word to its instruction.
ghost use Rattle.std.specs.Prelude.{◌≡◌, ◌≢◌, IfSome, IfNone};
ghost use Rattle.rv_decode.specs.Fields.{rd, funct3, rs1, rs2, funct7, immediate_i, immediate_s, immediate_b, immediate_u, immediate_j, shift_amount, fence_bits};
ghost use Rattle.rv_decode.specs.Instructions.{jalr_of, branch_of, load_of, store_of, left_shift_of, right_shift_of, immediate_form_of, plain_form_of, other_form_of, register_form_of, fence_of, system_of, instruction_of, word_of, IsInRange};
ghost use Rattle.rv_decode.specs.declared.instruction.Instr.{Instr};

use crate::instruction::Instr;
use crate::signed::{BranchOffset, Immediate, JumpOffset};
use crate::unsigned::{FenceBits, Register, Shift, Upper};

#[inline(always)]
fn rd(word: u32) -> Register
    ensures { result ≡ rd word }
{
    Register::from_field((word >> 7) % 32)
}

#[inline(always)]
fn funct3(word: u32) -> u32
    ensures { result ≡ funct3 word }
{
    (word >> 12) % 8
}

#[inline(always)]
fn rs1(word: u32) -> Register
    ensures { result ≡ rs1 word }
{
    Register::from_field((word >> 15) % 32)
}

#[inline(always)]
fn rs2(word: u32) -> Register
    ensures { result ≡ rs2 word }
{
    Register::from_field((word >> 20) % 32)
}

#[inline(always)]
fn funct7(word: u32) -> u32
    ensures { result ≡ funct7 word }
{
    (word >> 25) % 128
}

#[inline(always)]
fn shift_amount(word: u32) -> Shift
    ensures { result ≡ shift_amount word }
{
    Shift::from_field((word >> 20) % 32)
}

#[inline(always)]
fn immediate_i(word: u32) -> Immediate
    ensures { result ≡ immediate_i word }
{
    Immediate::from_field((word >> 20) % 4096)
}

#[inline(always)]
fn immediate_s(word: u32) -> Immediate
    ensures { result ≡ immediate_s word }
{
    Immediate::from_field((word >> 25) % 128 * 32 + (word >> 7) % 32)
}

#[inline(always)]
fn immediate_b(word: u32) -> BranchOffset
    ensures { result ≡ immediate_b word }
{
    let high = (word >> 31) % 2 * 4096 + (word >> 7) % 2 * 2048;
    BranchOffset::from_field(high + (word >> 25) % 64 * 32 + (word >> 8) % 16 * 2)
}

#[inline(always)]
fn immediate_u(word: u32) -> Upper
    ensures { result ≡ immediate_u word }
{
    Upper::from_field((word >> 12) % 0x10_0000)
}

#[inline(always)]
fn immediate_j(word: u32) -> JumpOffset
    ensures { result ≡ immediate_j word }
{
    let high = (word >> 31) % 2 * 0x10_0000 + (word >> 12) % 256 * 4096;
    JumpOffset::from_field(high + (word >> 20) % 2 * 2048 + (word >> 21) % 1024 * 2)
}

#[inline(always)]
fn fence_bits(word: u32) -> FenceBits
    ensures { result ≡ fence_bits word }
{
    FenceBits::from_field((word >> 15) % 0x2_0000 * 32 + (word >> 7) % 32)
}

#[inline(always)]
fn jalr(word: u32) -> Option<Instr>
    ensures { result ≡ jalr_of word }
{
    match funct3(word) {
        0 => Some(Instr::Jalr(rd(word), rs1(word), immediate_i(word))),
        _ => None,
    }
}

#[inline(always)]
fn branch(word: u32) -> Option<Instr>
    ensures { result ≡ branch_of word }
{
    match funct3(word) {
        0 => Some(Instr::Beq(rs1(word), rs2(word), immediate_b(word))),
        1 => Some(Instr::Bne(rs1(word), rs2(word), immediate_b(word))),
        4 => Some(Instr::Blt(rs1(word), rs2(word), immediate_b(word))),
        5 => Some(Instr::Bge(rs1(word), rs2(word), immediate_b(word))),
        6 => Some(Instr::Bltu(rs1(word), rs2(word), immediate_b(word))),
        7 => Some(Instr::Bgeu(rs1(word), rs2(word), immediate_b(word))),
        _ => None,
    }
}

#[inline(always)]
fn load(word: u32) -> Option<Instr>
    ensures { result ≡ load_of word }
{
    match funct3(word) {
        0 => Some(Instr::Lb(rd(word), rs1(word), immediate_i(word))),
        1 => Some(Instr::Lh(rd(word), rs1(word), immediate_i(word))),
        2 => Some(Instr::Lw(rd(word), rs1(word), immediate_i(word))),
        4 => Some(Instr::Lbu(rd(word), rs1(word), immediate_i(word))),
        5 => Some(Instr::Lhu(rd(word), rs1(word), immediate_i(word))),
        _ => None,
    }
}

#[inline(always)]
fn store(word: u32) -> Option<Instr>
    ensures { result ≡ store_of word }
{
    match funct3(word) {
        0 => Some(Instr::Sb(rs1(word), rs2(word), immediate_s(word))),
        1 => Some(Instr::Sh(rs1(word), rs2(word), immediate_s(word))),
        2 => Some(Instr::Sw(rs1(word), rs2(word), immediate_s(word))),
        _ => None,
    }
}

#[inline(always)]
fn left_shift(word: u32) -> Option<Instr>
    ensures { result ≡ left_shift_of word }
{
    match funct7(word) {
        0x00 => Some(Instr::Slli(rd(word), rs1(word), shift_amount(word))),
        _ => None,
    }
}

#[inline(always)]
fn right_shift(word: u32) -> Option<Instr>
    ensures { result ≡ right_shift_of word }
{
    match funct7(word) {
        0x00 => Some(Instr::Srli(rd(word), rs1(word), shift_amount(word))),
        0x20 => Some(Instr::Srai(rd(word), rs1(word), shift_amount(word))),
        _ => None,
    }
}

#[inline(always)]
fn immediate_form(word: u32) -> Option<Instr>
    ensures { result ≡ immediate_form_of word }
{
    match funct3(word) {
        0 => Some(Instr::Addi(rd(word), rs1(word), immediate_i(word))),
        1 => left_shift(word),
        2 => Some(Instr::Slti(rd(word), rs1(word), immediate_i(word))),
        3 => Some(Instr::Sltiu(rd(word), rs1(word), immediate_i(word))),
        4 => Some(Instr::Xori(rd(word), rs1(word), immediate_i(word))),
        5 => right_shift(word),
        6 => Some(Instr::Ori(rd(word), rs1(word), immediate_i(word))),
        7 => Some(Instr::Andi(rd(word), rs1(word), immediate_i(word))),
        _ => None,
    }
}

#[inline(always)]
fn plain_form(word: u32) -> Option<Instr>
    ensures { result ≡ plain_form_of word }
{
    match funct3(word) {
        0 => Some(Instr::Add(rd(word), rs1(word), rs2(word))),
        1 => Some(Instr::Sll(rd(word), rs1(word), rs2(word))),
        2 => Some(Instr::Slt(rd(word), rs1(word), rs2(word))),
        3 => Some(Instr::Sltu(rd(word), rs1(word), rs2(word))),
        4 => Some(Instr::Xor(rd(word), rs1(word), rs2(word))),
        5 => Some(Instr::Srl(rd(word), rs1(word), rs2(word))),
        6 => Some(Instr::Or(rd(word), rs1(word), rs2(word))),
        7 => Some(Instr::And(rd(word), rs1(word), rs2(word))),
        _ => None,
    }
}

#[inline(always)]
fn other_form(word: u32) -> Option<Instr>
    ensures { result ≡ other_form_of word }
{
    match funct3(word) {
        0 => Some(Instr::Sub(rd(word), rs1(word), rs2(word))),
        5 => Some(Instr::Sra(rd(word), rs1(word), rs2(word))),
        _ => None,
    }
}

#[inline(always)]
fn register_form(word: u32) -> Option<Instr>
    ensures { result ≡ register_form_of word }
{
    match funct7(word) {
        0x00 => plain_form(word),
        0x20 => other_form(word),
        _ => None,
    }
}

#[inline(always)]
fn fence(word: u32) -> Option<Instr>
    ensures { result ≡ fence_of word }
{
    match funct3(word) {
        0 => Some(Instr::Fence(fence_bits(word))),
        _ => None,
    }
}

#[inline(always)]
fn system(word: u32) -> Option<Instr>
    ensures { result ≡ system_of word }
{
    match word {
        0x0000_0073 => Some(Instr::Ecall),
        0x0010_0073 => Some(Instr::Ebreak),
        _ => None,
    }
}

#[inline(always)]
fn instruction(word: u32) -> Option<Instr>
    ensures { result ≡ instruction_of word }
{
    match word % 128 {
        0x37 => Some(Instr::Lui(rd(word), immediate_u(word))),
        0x17 => Some(Instr::Auipc(rd(word), immediate_u(word))),
        0x6F => Some(Instr::Jal(rd(word), immediate_j(word))),
        0x67 => jalr(word),
        0x63 => branch(word),
        0x03 => load(word),
        0x23 => store(word),
        0x13 => immediate_form(word),
        0x33 => register_form(word),
        0x0F => fence(word),
        0x73 => system(word),
        _ => None,
    }
}

/// The instruction of a word; None exactly where no instruction of RV32I has that word.
#[inline(always)]
#[tactic(auto, using(crate::proofs::Writing::has_no_row))]
pub fn decode(word: u32) -> Option<Instr>
    ensures value { result ≡ instruction_of word }
    ensures encodes { IfSome result (λ instr. word_of instr ≡ word) }
    ensures none { IfNone result ((instr : Instr) → IsInRange instr → word_of instr ≢ word) }
{
    instruction(word)
}
