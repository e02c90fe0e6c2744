// Instructions made ready: operands in place, jumps inside a page by the place of the word.
ghost use Rattle.std.specs.Prelude.{◌≡◌, ◌/◌, ◌%◌, ◌<◌, IfSome, IfNone};
ghost use Rattle.user_ctx.specs.Ops.{work_of, goes, led_to, IsOpOf, IsTarget};

use crate::effect::{is_below, one_if, register, shifted_left, shifted_right, shifted_signed};
use crate::place::{Destination, Place};
use rv_decode::{Instr, Register, Shift};
use user_spec::effect::{Form, Width};

/// An instruction made ready.
#[derive(Clone, Copy)]
pub enum Op {
    /// Not known yet.
    Unknown,
    /// Left to a plain step.
    Slow,
    /// Nothing but the next place.
    Nop,
    Set {
        rd: Destination,
        value: u32,
    },
    Addi {
        rd: Destination,
        a: Register,
        imm: u32,
    },
    Slti {
        rd: Destination,
        a: Register,
        imm: u32,
    },
    Sltiu {
        rd: Destination,
        a: Register,
        imm: u32,
    },
    Xori {
        rd: Destination,
        a: Register,
        imm: u32,
    },
    Ori {
        rd: Destination,
        a: Register,
        imm: u32,
    },
    Andi {
        rd: Destination,
        a: Register,
        imm: u32,
    },
    Slli {
        rd: Destination,
        a: Register,
        k: Shift,
    },
    Srli {
        rd: Destination,
        a: Register,
        k: Shift,
    },
    Srai {
        rd: Destination,
        a: Register,
        k: Shift,
    },
    Add {
        rd: Destination,
        a: Register,
        b: Register,
    },
    Sub {
        rd: Destination,
        a: Register,
        b: Register,
    },
    Sll {
        rd: Destination,
        a: Register,
        b: Register,
    },
    Slt {
        rd: Destination,
        a: Register,
        b: Register,
    },
    Sltu {
        rd: Destination,
        a: Register,
        b: Register,
    },
    Xor {
        rd: Destination,
        a: Register,
        b: Register,
    },
    Srl {
        rd: Destination,
        a: Register,
        b: Register,
    },
    Sra {
        rd: Destination,
        a: Register,
        b: Register,
    },
    Or {
        rd: Destination,
        a: Register,
        b: Register,
    },
    And {
        rd: Destination,
        a: Register,
        b: Register,
    },
    Lb {
        rd: Destination,
        a: Register,
        imm: u32,
    },
    Lh {
        rd: Destination,
        a: Register,
        imm: u32,
    },
    Lw {
        rd: Destination,
        a: Register,
        imm: u32,
    },
    Lbu {
        rd: Destination,
        a: Register,
        imm: u32,
    },
    Lhu {
        rd: Destination,
        a: Register,
        imm: u32,
    },
    Sb {
        a: Register,
        b: Register,
        imm: u32,
    },
    Sh {
        a: Register,
        b: Register,
        imm: u32,
    },
    Sw {
        a: Register,
        b: Register,
        imm: u32,
    },
    Beq {
        a: Register,
        b: Register,
        to: Place,
    },
    Bne {
        a: Register,
        b: Register,
        to: Place,
    },
    Blt {
        a: Register,
        b: Register,
        to: Place,
    },
    Bge {
        a: Register,
        b: Register,
        to: Place,
    },
    Bltu {
        a: Register,
        b: Register,
        to: Place,
    },
    Bgeu {
        a: Register,
        b: Register,
        to: Place,
    },
    Jump {
        to: Place,
    },
    Link {
        rd: Destination,
        to: Place,
    },
    Leap {
        to: u32,
    },
    LeapLink {
        rd: Destination,
        to: u32,
    },
    Return {
        a: Register,
        imm: u32,
    },
    Call {
        rd: Destination,
        a: Register,
        imm: u32,
    },
}

/// What such an instruction does.
#[derive(Clone, Copy)]
pub enum Work {
    /// It is left to a plain step.
    Leaves,
    Sets {
        rd: Destination,
        value: u32,
    },
    Loads {
        rd: Destination,
        addr: u32,
        form: Form,
    },
    Stores {
        addr: u32,
        value: u32,
        width: Width,
    },
    Falls,
    Goes {
        to: Place,
    },
    Links {
        rd: Destination,
        to: Place,
    },
    /// A jump that may lead out of the page.
    Leaps {
        target: u32,
    },
    LeapsFrom {
        rd: Destination,
        target: u32,
    },
}

#[inline(always)]
fn goes(test: bool, to: Place) -> Work
    ensures { result ≡ goes test to }
{
    if test { Work::Goes { to } } else { Work::Falls }
}

/// Where a register and an offset lead.
#[inline(always)]
fn led_to(x: &[u32; 32], a: Register, imm: u32) -> u32
    ensures { result ≡ led_to x.now a imm }
{
    register(x, a).wrapping_add(imm) / 2 * 2
}

/// What an instruction made ready does, at these registers.
#[inline(always)]
pub fn work_done(op: &Op, x: &[u32; 32]) -> Work
    ensures { result ≡ work_of op.now x.now }
{
    match *op {
        Op::Unknown => Work::Leaves,
        Op::Slow => Work::Leaves,
        Op::Nop => Work::Falls,
        Op::Set { rd, value } => Work::Sets { rd, value },
        Op::Addi { rd, a, imm } => Work::Sets {
            rd,
            value: register(x, a).wrapping_add(imm),
        },
        Op::Slti { rd, a, imm } => Work::Sets {
            rd,
            value: one_if(is_below(register(x, a), imm)),
        },
        Op::Sltiu { rd, a, imm } => Work::Sets {
            rd,
            value: one_if(register(x, a) < imm),
        },
        Op::Xori { rd, a, imm } => Work::Sets {
            rd,
            value: register(x, a) ^ imm,
        },
        Op::Ori { rd, a, imm } => Work::Sets {
            rd,
            value: register(x, a) | imm,
        },
        Op::Andi { rd, a, imm } => Work::Sets {
            rd,
            value: register(x, a) & imm,
        },
        Op::Slli { rd, a, k } => Work::Sets {
            rd,
            value: shifted_left(register(x, a), k.number()),
        },
        Op::Srli { rd, a, k } => Work::Sets {
            rd,
            value: shifted_right(register(x, a), k.number()),
        },
        Op::Srai { rd, a, k } => Work::Sets {
            rd,
            value: shifted_signed(register(x, a), k.number()),
        },
        Op::Add { rd, a, b } => Work::Sets {
            rd,
            value: register(x, a).wrapping_add(register(x, b)),
        },
        Op::Sub { rd, a, b } => Work::Sets {
            rd,
            value: register(x, a).wrapping_sub(register(x, b)),
        },
        Op::Sll { rd, a, b } => Work::Sets {
            rd,
            value: shifted_left(register(x, a), register(x, b)),
        },
        Op::Slt { rd, a, b } => Work::Sets {
            rd,
            value: one_if(is_below(register(x, a), register(x, b))),
        },
        Op::Sltu { rd, a, b } => Work::Sets {
            rd,
            value: one_if(register(x, a) < register(x, b)),
        },
        Op::Xor { rd, a, b } => Work::Sets {
            rd,
            value: register(x, a) ^ register(x, b),
        },
        Op::Srl { rd, a, b } => Work::Sets {
            rd,
            value: shifted_right(register(x, a), register(x, b)),
        },
        Op::Sra { rd, a, b } => Work::Sets {
            rd,
            value: shifted_signed(register(x, a), register(x, b)),
        },
        Op::Or { rd, a, b } => Work::Sets {
            rd,
            value: register(x, a) | register(x, b),
        },
        Op::And { rd, a, b } => Work::Sets {
            rd,
            value: register(x, a) & register(x, b),
        },
        Op::Lb { rd, a, imm } => Work::Loads {
            rd,
            addr: register(x, a).wrapping_add(imm),
            form: Form::SignedByte,
        },
        Op::Lh { rd, a, imm } => Work::Loads {
            rd,
            addr: register(x, a).wrapping_add(imm),
            form: Form::SignedHalf,
        },
        Op::Lw { rd, a, imm } => Work::Loads {
            rd,
            addr: register(x, a).wrapping_add(imm),
            form: Form::Word,
        },
        Op::Lbu { rd, a, imm } => Work::Loads {
            rd,
            addr: register(x, a).wrapping_add(imm),
            form: Form::Byte,
        },
        Op::Lhu { rd, a, imm } => Work::Loads {
            rd,
            addr: register(x, a).wrapping_add(imm),
            form: Form::Half,
        },
        Op::Sb { a, b, imm } => Work::Stores {
            addr: register(x, a).wrapping_add(imm),
            value: register(x, b),
            width: Width::One,
        },
        Op::Sh { a, b, imm } => Work::Stores {
            addr: register(x, a).wrapping_add(imm),
            value: register(x, b),
            width: Width::Two,
        },
        Op::Sw { a, b, imm } => Work::Stores {
            addr: register(x, a).wrapping_add(imm),
            value: register(x, b),
            width: Width::Four,
        },
        Op::Beq { a, b, to } => goes(register(x, a) == register(x, b), to),
        Op::Bne { a, b, to } => goes(register(x, a) != register(x, b), to),
        Op::Blt { a, b, to } => goes(is_below(register(x, a), register(x, b)), to),
        Op::Bge { a, b, to } => goes(!is_below(register(x, a), register(x, b)), to),
        Op::Bltu { a, b, to } => goes(register(x, a) < register(x, b), to),
        Op::Bgeu { a, b, to } => goes(register(x, a) >= register(x, b), to),
        Op::Jump { to } => Work::Goes { to },
        Op::Link { rd, to } => Work::Links { rd, to },
        Op::Leap { to } => Work::Leaps { target: to },
        Op::LeapLink { rd, to } => Work::LeapsFrom { rd, target: to },
        Op::Return { a, imm } => Work::Leaps {
            target: led_to(x, a, imm),
        },
        Op::Call { rd, a, imm } => Work::LeapsFrom {
            rd,
            target: led_to(x, a, imm),
        },
    }
}

/// The place of a target in the page of an address.
fn target(at: u32, distance: u32) -> Option<Place>
    ensures { IfSome result (IsTarget at distance) }
{
    let target = at.wrapping_add(distance);
    if target % 4 == 0 && target / 4096 == at / 4096 {
        Some(Place::of(target))
    } else {
        None
    }
}

/// The instruction at an address made ready.
#[tactic(auto, using(crate::proofs::Ready::nop_op, crate::proofs::Ready::leap_op, crate::proofs::Ready::branch_op, crate::proofs::Ready::jump_op, crate::proofs::Ready::link_op))]
pub fn op_of(instr: &Instr, at: u32) -> Op
    ensures { IsOpOf result instr.now at }
{
    match *instr {
        Instr::Lui(rd, imm) => match Destination::of(rd) {
            None => Op::Nop,
            Some(rd) => Op::Set {
                rd,
                value: imm.as_word(),
            }
        },
        Instr::Auipc(rd, imm) => match Destination::of(rd) {
            None => Op::Nop,
            Some(rd) => Op::Set {
                rd,
                value: at.wrapping_add(imm.as_word()),
            }
        },
        Instr::Addi(rd, a, imm) => match Destination::of(rd) {
            None => Op::Nop,
            Some(rd) => Op::Addi {
                rd,
                a,
                imm: imm.as_word(),
            }
        },
        Instr::Slti(rd, a, imm) => match Destination::of(rd) {
            None => Op::Nop,
            Some(rd) => Op::Slti {
                rd,
                a,
                imm: imm.as_word(),
            }
        },
        Instr::Sltiu(rd, a, imm) => match Destination::of(rd) {
            None => Op::Nop,
            Some(rd) => Op::Sltiu {
                rd,
                a,
                imm: imm.as_word(),
            }
        },
        Instr::Xori(rd, a, imm) => match Destination::of(rd) {
            None => Op::Nop,
            Some(rd) => Op::Xori {
                rd,
                a,
                imm: imm.as_word(),
            }
        },
        Instr::Ori(rd, a, imm) => match Destination::of(rd) {
            None => Op::Nop,
            Some(rd) => Op::Ori {
                rd,
                a,
                imm: imm.as_word(),
            }
        },
        Instr::Andi(rd, a, imm) => match Destination::of(rd) {
            None => Op::Nop,
            Some(rd) => Op::Andi {
                rd,
                a,
                imm: imm.as_word(),
            }
        },
        Instr::Slli(rd, a, k) => match Destination::of(rd) {
            None => Op::Nop,
            Some(rd) => Op::Slli { rd, a, k }
        },
        Instr::Srli(rd, a, k) => match Destination::of(rd) {
            None => Op::Nop,
            Some(rd) => Op::Srli { rd, a, k }
        },
        Instr::Srai(rd, a, k) => match Destination::of(rd) {
            None => Op::Nop,
            Some(rd) => Op::Srai { rd, a, k }
        },
        Instr::Add(rd, a, b) => match Destination::of(rd) {
            None => Op::Nop,
            Some(rd) => Op::Add { rd, a, b }
        },
        Instr::Sub(rd, a, b) => match Destination::of(rd) {
            None => Op::Nop,
            Some(rd) => Op::Sub { rd, a, b }
        },
        Instr::Sll(rd, a, b) => match Destination::of(rd) {
            None => Op::Nop,
            Some(rd) => Op::Sll { rd, a, b }
        },
        Instr::Slt(rd, a, b) => match Destination::of(rd) {
            None => Op::Nop,
            Some(rd) => Op::Slt { rd, a, b }
        },
        Instr::Sltu(rd, a, b) => match Destination::of(rd) {
            None => Op::Nop,
            Some(rd) => Op::Sltu { rd, a, b }
        },
        Instr::Xor(rd, a, b) => match Destination::of(rd) {
            None => Op::Nop,
            Some(rd) => Op::Xor { rd, a, b }
        },
        Instr::Srl(rd, a, b) => match Destination::of(rd) {
            None => Op::Nop,
            Some(rd) => Op::Srl { rd, a, b }
        },
        Instr::Sra(rd, a, b) => match Destination::of(rd) {
            None => Op::Nop,
            Some(rd) => Op::Sra { rd, a, b }
        },
        Instr::Or(rd, a, b) => match Destination::of(rd) {
            None => Op::Nop,
            Some(rd) => Op::Or { rd, a, b }
        },
        Instr::And(rd, a, b) => match Destination::of(rd) {
            None => Op::Nop,
            Some(rd) => Op::And { rd, a, b }
        },
        Instr::Lb(rd, a, imm) => match Destination::of(rd) {
            None => Op::Slow,
            Some(rd) => Op::Lb {
                rd,
                a,
                imm: imm.as_word(),
            }
        },
        Instr::Lh(rd, a, imm) => match Destination::of(rd) {
            None => Op::Slow,
            Some(rd) => Op::Lh {
                rd,
                a,
                imm: imm.as_word(),
            }
        },
        Instr::Lw(rd, a, imm) => match Destination::of(rd) {
            None => Op::Slow,
            Some(rd) => Op::Lw {
                rd,
                a,
                imm: imm.as_word(),
            }
        },
        Instr::Lbu(rd, a, imm) => match Destination::of(rd) {
            None => Op::Slow,
            Some(rd) => Op::Lbu {
                rd,
                a,
                imm: imm.as_word(),
            }
        },
        Instr::Lhu(rd, a, imm) => match Destination::of(rd) {
            None => Op::Slow,
            Some(rd) => Op::Lhu {
                rd,
                a,
                imm: imm.as_word(),
            }
        },
        Instr::Sb(a, b, imm) => Op::Sb {
            a,
            b,
            imm: imm.as_word(),
        },
        Instr::Sh(a, b, imm) => Op::Sh {
            a,
            b,
            imm: imm.as_word(),
        },
        Instr::Sw(a, b, imm) => Op::Sw {
            a,
            b,
            imm: imm.as_word(),
        },
        Instr::Beq(a, b, imm) => match target(at, imm.as_word()) {
            None => Op::Slow,
            Some(to) => Op::Beq { a, b, to }
        },
        Instr::Bne(a, b, imm) => match target(at, imm.as_word()) {
            None => Op::Slow,
            Some(to) => Op::Bne { a, b, to }
        },
        Instr::Blt(a, b, imm) => match target(at, imm.as_word()) {
            None => Op::Slow,
            Some(to) => Op::Blt { a, b, to }
        },
        Instr::Bge(a, b, imm) => match target(at, imm.as_word()) {
            None => Op::Slow,
            Some(to) => Op::Bge { a, b, to }
        },
        Instr::Bltu(a, b, imm) => match target(at, imm.as_word()) {
            None => Op::Slow,
            Some(to) => Op::Bltu { a, b, to }
        },
        Instr::Bgeu(a, b, imm) => match target(at, imm.as_word()) {
            None => Op::Slow,
            Some(to) => Op::Bgeu { a, b, to }
        },
        Instr::Jal(rd, imm) => match target(at, imm.as_word()) {
            None => match Destination::of(rd) {
                None => Op::Leap {
                    to: at.wrapping_add(imm.as_word()),
                },
                Some(rd) => Op::LeapLink {
                    rd,
                    to: at.wrapping_add(imm.as_word()),
                },
            },
            Some(to) => match Destination::of(rd) {
                None => Op::Jump { to },
                Some(rd) => Op::Link { rd, to },
            },
        },
        Instr::Jalr(rd, a, imm) => match Destination::of(rd) {
            None => Op::Return {
                a,
                imm: imm.as_word(),
            },
            Some(rd) => Op::Call {
                rd,
                a,
                imm: imm.as_word(),
            },
        },
        Instr::Fence(_) => Op::Nop,
        Instr::Ecall => Op::Slow,
        Instr::Ebreak => Op::Slow,
    }
}
