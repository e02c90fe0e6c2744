// What each instruction does.
ghost use Rattle.std.specs.Prelude.{◌≡◌, ◌<◌, ◌∷◌, drop};
ghost use Rattle.user_spec.specs.User.{with_register};
ghost use Rattle.user_spec.specs.Words.{is_below, one_if, shifted_left, shifted_right, shifted_signed};
ghost use Rattle.user_spec.specs.Instruction.{value_of, jump, branch, sets, effect_of};

use call_table::signal::{SIGSEGV, SIGTRAP};
use rv_decode::{Instr, Register};
use user_spec::effect::{Effect, Form, Width};

#[inline(always)]
pub fn register(registers: &[u32; 32], r: Register) -> u32
    ensures { result ≡ value_of registers.now r }
{
    registers[r.index()]
}

#[inline(always)]
#[tactic(auto, using(crate::proofs::Registers::set_at))]
pub fn set_register(registers: &mut [u32; 32], r: Register, value: u32)
    requires { registers.old ≡ 0 ∷ drop 1 registers.old }
    ensures zero { registers.new ≡ 0 ∷ drop 1 registers.new }
    ensures new { drop 1 registers.new ≡ with_register (drop 1 registers.old) r value }
{
    let number = r.index();
    if number != 0 {
        registers[number] = value;
    }
}

#[inline(always)]
fn zero() -> Register
    ensures { result ≡ 0 }
{
    Register::from_field(0)
}

#[inline(always)]
fn jump(rd: Register, value: u32, target: u32) -> Effect
    ensures { result ≡ jump rd value target }
{
    if target % 4 == 0 {
        Effect::Sets {
            rd,
            value,
            next: target,
        }
    } else {
        Effect::Raises(SIGSEGV)
    }
}

#[inline(always)]
pub fn is_below(a: u32, b: u32) -> bool
    ensures { result ≡ is_below a b }
{
    a.cast_signed() < b.cast_signed()
}

#[inline(always)]
pub fn one_if(b: bool) -> u32
    ensures { result ≡ one_if b }
{
    if b { 1 } else { 0 }
}

#[inline(always)]
pub fn shifted_left(a: u32, k: u32) -> u32
    ensures { result ≡ shifted_left a k }
{
    a << (k % 32)
}

#[inline(always)]
pub fn shifted_right(a: u32, k: u32) -> u32
    ensures { result ≡ shifted_right a k }
{
    a >> (k % 32)
}

#[inline(always)]
pub fn shifted_signed(a: u32, k: u32) -> u32
    ensures { result ≡ shifted_signed a k }
{
    (a.cast_signed() >> (k % 32)).cast_unsigned()
}

#[inline(always)]
fn branch(test: bool, pc: u32, distance: u32) -> Effect
    ensures { result ≡ branch test pc distance }
{
    if test {
        jump(zero(), 0, pc.wrapping_add(distance))
    } else {
        sets(zero(), 0, pc)
    }
}

#[inline(always)]
fn sets(rd: Register, value: u32, pc: u32) -> Effect
    ensures { result ≡ sets rd value pc }
{
    Effect::Sets {
        rd,
        value,
        next: pc.wrapping_add(4),
    }
}

#[inline(always)]
fn loads(rd: Register, addr: u32, form: Form) -> Effect
    ensures { result ≡ Effect.Loads rd addr form }
{
    Effect::Loads { rd, addr, form }
}

#[inline(always)]
fn stores(addr: u32, value: u32, width: Width) -> Effect
    ensures { result ≡ Effect.Stores addr value width }
{
    Effect::Stores { addr, value, width }
}

#[inline(always)]
pub fn effect(instr: &Instr, pc: u32, x: &[u32; 32]) -> Effect
    ensures { result ≡ effect_of instr.now pc x.now }
{
    match *instr {
        Instr::Lui(rd, imm) => sets(rd, imm.as_word(), pc),
        Instr::Auipc(rd, imm) => sets(rd, pc.wrapping_add(imm.as_word()), pc),
        Instr::Jal(rd, imm) => jump(rd, pc.wrapping_add(4), pc.wrapping_add(imm.as_word())),
        Instr::Jalr(rd, a, imm) => jump(
            rd,
            pc.wrapping_add(4),
            register(x, a).wrapping_add(imm.as_word()) / 2 * 2,
        ),
        Instr::Beq(a, b, imm) => branch(register(x, a) == register(x, b), pc, imm.as_word()),
        Instr::Bne(a, b, imm) => branch(register(x, a) != register(x, b), pc, imm.as_word()),
        Instr::Blt(a, b, imm) => branch(
            is_below(register(x, a), register(x, b)),
            pc,
            imm.as_word(),
        ),
        Instr::Bge(a, b, imm) => branch(
            !is_below(register(x, a), register(x, b)),
            pc,
            imm.as_word(),
        ),
        Instr::Bltu(a, b, imm) => branch(register(x, a) < register(x, b), pc, imm.as_word()),
        Instr::Bgeu(a, b, imm) => branch(register(x, a) >= register(x, b), pc, imm.as_word()),
        Instr::Lb(rd, a, imm) => loads(
            rd,
            register(x, a).wrapping_add(imm.as_word()),
            Form::SignedByte,
        ),
        Instr::Lh(rd, a, imm) => loads(
            rd,
            register(x, a).wrapping_add(imm.as_word()),
            Form::SignedHalf,
        ),
        Instr::Lw(rd, a, imm) => loads(rd, register(x, a).wrapping_add(imm.as_word()), Form::Word),
        Instr::Lbu(rd, a, imm) => loads(rd, register(x, a).wrapping_add(imm.as_word()), Form::Byte),
        Instr::Lhu(rd, a, imm) => loads(rd, register(x, a).wrapping_add(imm.as_word()), Form::Half),
        Instr::Sb(a, b, imm) => stores(
            register(x, a).wrapping_add(imm.as_word()),
            register(x, b),
            Width::One,
        ),
        Instr::Sh(a, b, imm) => stores(
            register(x, a).wrapping_add(imm.as_word()),
            register(x, b),
            Width::Two,
        ),
        Instr::Sw(a, b, imm) => stores(
            register(x, a).wrapping_add(imm.as_word()),
            register(x, b),
            Width::Four,
        ),
        Instr::Addi(rd, a, imm) => sets(rd, register(x, a).wrapping_add(imm.as_word()), pc),
        Instr::Slti(rd, a, imm) => sets(rd, one_if(is_below(register(x, a), imm.as_word())), pc),
        Instr::Sltiu(rd, a, imm) => sets(rd, one_if(register(x, a) < imm.as_word()), pc),
        Instr::Xori(rd, a, imm) => sets(rd, register(x, a) ^ imm.as_word(), pc),
        Instr::Ori(rd, a, imm) => sets(rd, register(x, a) | imm.as_word(), pc),
        Instr::Andi(rd, a, imm) => sets(rd, register(x, a) & imm.as_word(), pc),
        Instr::Slli(rd, a, k) => sets(rd, shifted_left(register(x, a), k.number()), pc),
        Instr::Srli(rd, a, k) => sets(rd, shifted_right(register(x, a), k.number()), pc),
        Instr::Srai(rd, a, k) => sets(rd, shifted_signed(register(x, a), k.number()), pc),
        Instr::Add(rd, a, b) => sets(rd, register(x, a).wrapping_add(register(x, b)), pc),
        Instr::Sub(rd, a, b) => sets(rd, register(x, a).wrapping_sub(register(x, b)), pc),
        Instr::Sll(rd, a, b) => sets(rd, shifted_left(register(x, a), register(x, b)), pc),
        Instr::Slt(rd, a, b) => sets(rd, one_if(is_below(register(x, a), register(x, b))), pc),
        Instr::Sltu(rd, a, b) => sets(rd, one_if(register(x, a) < register(x, b)), pc),
        Instr::Xor(rd, a, b) => sets(rd, register(x, a) ^ register(x, b), pc),
        Instr::Srl(rd, a, b) => sets(rd, shifted_right(register(x, a), register(x, b)), pc),
        Instr::Sra(rd, a, b) => sets(rd, shifted_signed(register(x, a), register(x, b)), pc),
        Instr::Or(rd, a, b) => sets(rd, register(x, a) | register(x, b), pc),
        Instr::And(rd, a, b) => sets(rd, register(x, a) & register(x, b), pc),
        Instr::Fence(_) => sets(zero(), 0, pc),
        Instr::Ecall => Effect::Calls,
        Instr::Ebreak => Effect::Raises(SIGTRAP),
    }
}
