// One instruction, on pc, registers and pages.
ghost use Rattle.std.specs.Prelude.{◌≡◌, ◌∷◌, drop, MatchResult, Ok, Err, OnErr, IfSome, true, false};
ghost use Rattle.user_spec.specs.Words.{sign_filled};
ghost use Rattle.user_spec.specs.Instruction.{next_effect, load_as, store_as, one_instruction};
ghost use Rattle.user_ctx.specs.Stopping.{core};
ghost use Rattle.user_ctx.specs.Windows.{Stored};

use crate::effect::{effect, set_register};
use call_table::signal::{SIGILL, SIGSEGV};
use call_table::{RIGHT_READ, RIGHT_RUN};
use page_set::{CachedPages, Pages, Refused};
use rv_decode::decode;
use user_spec::effect::{Effect, Form, Width};
use user_spec::outcome::Outcome;

#[inline(always)]
fn sign_byte(byte: u8) -> u32
    ensures { result ≡ sign_filled 8 byte }
{
    let b = byte as u32;
    if b < 128 { b } else { b + 0xFFFF_FF00 }
}

#[inline(always)]
fn sign_half(half: u16) -> u32
    ensures { result ≡ sign_filled 16 half }
{
    let b = half as u32;
    if b < 0x8000 { b } else { b + 0xFFFF_0000 }
}

#[inline(always)]
pub fn load(pages: &Pages, addr: u32, form: Form) -> Result<u32, Refused>
    ensures { MatchResult result (λ w. load_as form pages.now addr ≡ Ok w) (λ e. load_as form pages.now addr ≡ Err e.addr) }
{
    match form {
        Form::SignedByte => Ok(sign_byte(pages.load_1(addr, RIGHT_READ)?)),
        Form::SignedHalf => Ok(sign_half(pages.load_2(addr, RIGHT_READ)?)),
        Form::Word => pages.load_4(addr, RIGHT_READ),
        Form::Byte => Ok(pages.load_1(addr, RIGHT_READ)? as u32),
        Form::Half => Ok(pages.load_2(addr, RIGHT_READ)? as u32),
    }
}

#[inline(always)]
pub fn store(pages: &mut Pages, addr: u32, value: u32, width: Width) -> Result<(), Refused>
    ensures is { MatchResult result (λ _. store_as width pages.old addr value ≡ Ok pages.new) (λ e. store_as width pages.old addr value ≡ Err e.addr) }
    ensures err { OnErr result (pages.new ≡ pages.old) }
{
    match width {
        Width::One => pages.store_1(addr, value),
        Width::Two => pages.store_2(addr, value),
        Width::Four => pages.store_4(addr, value),
    }
}

/// A load whose bytes lie in one page, where they can be read: nothing is called on the way to a cached page, so LLVM needs
/// no answer in a register where the ways meet.
#[inline(always)]
pub fn load_inside(pages: &mut CachedPages, addr: u32, form: Form) -> Option<u32>
    ensures is { IfSome result (λ w. load_as form pages.old addr ≡ Ok w) }
    ensures same { pages.new ≡ pages.old }
{
    match form {
        Form::SignedByte => Some(sign_byte(pages.load_1(addr)?)),
        Form::SignedHalf => Some(sign_half(pages.load_2(addr)?)),
        Form::Word => pages.load_4(addr),
        Form::Byte => Some(pages.load_1(addr)? as u32),
        Form::Half => Some(pages.load_2(addr)? as u32),
    }
}

/// A store whose bytes lie in one page, where they can be written. Else it is false, and nothing changes.
#[inline(always)]
pub fn store_inside(pages: &mut CachedPages, addr: u32, value: u32, width: Width) -> bool
    ensures is { result ≡ true → store_as width pages.old addr value ≡ Ok pages.new }
    ensures not { result ≡ false → pages.new ≡ pages.old }
{
    match width {
        Width::One => pages.store_1(addr, value),
        Width::Two => pages.store_2(addr, value),
        Width::Four => pages.store_4(addr, value),
    }
}

/// The effect of the next instruction.
#[inline(always)]
pub fn next(pc: u32, x: &[u32; 32], pages: &Pages) -> Effect
    ensures { result ≡ next_effect pc x.now pages.now }
{
    if pc % 4 != 0 {
        return Effect::Raises(SIGSEGV);
    }
    let word = match pages.load_4(pc, RIGHT_RUN) {
        Ok(word) => word,
        Err(_) => return Effect::Raises(SIGSEGV),
    };
    match decode(word) {
        Some(instr) => effect(&instr, pc, x),
        None => Effect::Raises(SIGILL),
    }
}

/// One instruction, and where it stored. Unless it was done nothing changes.
#[inline(always)]
#[tactic(auto, using(crate::proofs::Stored::stored_but))]
pub fn step(pc: &mut u32, x: &mut [u32; 32], pages: &mut Pages) -> (Outcome, Option<u32>)
    requires { x.old ≡ 0 ∷ drop 1 x.old }
    ensures zero { x.new ≡ 0 ∷ drop 1 x.new }
    ensures is { one_instruction (core pc.old x.old pages.old) ≡ record { outcome = result.0; core = core pc.new x.new pages.new } }
    ensures stored { Stored result.1 pages.old pages.new }
{
    match next(*pc, x, pages) {
        Effect::Sets { rd, value, next } => {
            set_register(x, rd, value);
            *pc = next;
            (Outcome::Done, None)
        }
        Effect::Loads { rd, addr, form } => match load(pages, addr, form) {
            Ok(value) => {
                set_register(x, rd, value);
                *pc = (*pc).wrapping_add(4);
                (Outcome::Done, None)
            }
            Err(_) => (Outcome::Fault(SIGSEGV), None),
        },
        Effect::Stores { addr, value, width } => match store(pages, addr, value, width) {
            Ok(()) => {
                *pc = (*pc).wrapping_add(4);
                (Outcome::Done, Some(addr))
            }
            Err(_) => (Outcome::Fault(SIGSEGV), None),
        },
        Effect::Calls => (Outcome::Call, None),
        Effect::Raises(signal) => (Outcome::Fault(signal), None),
    }
}
