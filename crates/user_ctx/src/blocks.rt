// Ready instructions of one page, block by block.
ghost use Rattle.std.specs.Prelude.{ℕ, ◌≡◌, ◌≢◌, ◌≤◌, ◌<◌, ◌+◌, ◌*◌, ◌/◌, ◌%◌, ◌^◌, ◌∷◌, drop, Some, IfSome, IfNone, true, false};
ghost use Rattle.std.specs.List.{slice_get};
ghost use Rattle.user_spec.specs.Instruction.{ran};
ghost use Rattle.user_spec.specs.User.{with_register};
ghost use Rattle.user_ctx.specs.Stopping.{core};
ghost use Rattle.user_ctx.specs.Windows.{IsWindow, IsClear, IsOneOf, AreReady};
ghost use Rattle.user_ctx.specs.Blocks.{pc_after, IsGone, Keeps};

use crate::op::{Op, Work, work_done};
use crate::place::Destination;
use crate::step::{load_inside, store_inside};
use crate::window::Window;
use crate::windows::Windows;
use page_set::CachedPages;

/// A block has no more instructions than this.
const MOST_IN_BLOCK: u32 = 1024;

/// How ready instructions came out.
#[derive(Clone, Copy)]
pub enum Gone {
    /// The last one went, and the next one follows it.
    Next,
    /// It went, and led to another place of the page.
    Jumped,
    /// It went, and led to an address out of the page.
    Away(u32),
    /// It stored at an address, where words may be ready.
    Wrote(u32),
    /// It was not ready, or did not go.
    Left,
}

#[inline(always)]
#[tactic(auto, using(crate::proofs::Registers::set_at))]
fn set_destination(registers: &mut [u32; 32], rd: Destination, value: u32)
    requires { registers.old ≡ 0 ∷ drop 1 registers.old }
    ensures zero { registers.new ≡ 0 ∷ drop 1 registers.new }
    ensures new { drop 1 registers.new ≡ with_register (drop 1 registers.old) rd value }
{
    registers[rd.index()] = value;
}

/// The third address below one, modulo 2^32. It is called, so that it is reckoned once and not at each store.
#[inline(never)]
fn third_below(low: u32) -> u32
    ensures { (result + 3) % 2 ^ 32 ≡ low }
{
    low.wrapping_sub(3)
}

/// Whether four bytes from an address on touch no word from `low` up to `end`. It may say no where they touch none.
#[inline(always)]
#[tactic(auto, using(crate::proofs::Made::is_clear))]
fn is_clear(addr: u32, below: u32, low: u32, end: u32) -> bool
    requires below { (below + 3) % 2 ^ 32 ≡ low }
    requires order { low ≤ end }
    requires end { end < 0xFFFFF001 }
    ensures { result ≡ true → IsClear addr low end }
{
    addr.wrapping_sub(below) >= end - low + 6
}

/// The place of an address in the page from another one on.
#[inline(always)]
fn place_in(target: u32, base: u32) -> Option<usize>
    requires { base % 4096 ≡ 0 }
    ensures { IfSome result (λ to. (to < 1024) × (base + 4 * to ≡ target)) }
{
    if target / 4096 * 4096 == base && target % 4 == 0 {
        Some((target / 4 % 1024) as usize)
    } else {
        None
    }
}

/// One ready instruction, at a place of the page, where words of pages from `low` up to `end` are ready. Each loop has its
/// own: LLVM takes it into a loop only where nothing else calls it.
#[inline(always)]
#[tactic(auto, using(crate::proofs::Stored::same_words))]
fn step_ready<const IS_SHORT: bool>(
    window: &Window,
    below: u32,
    low: u32,
    end: u32,
    place: &mut usize,
    x: &mut [u32; 32],
    pages: &mut CachedPages,
) -> Gone
    requires zero { x.old ≡ 0 ∷ drop 1 x.old }
    requires place { place.old ≤ 1024 }
    requires window { IsWindow pages.old window.now.base window.now.ops }
    requires below { (below + 3) % 2 ^ 32 ≡ low }
    requires order { low ≤ end }
    requires end { end < 0xFFFFF001 }
    ensures zero { x.new ≡ 0 ∷ drop 1 x.new }
    ensures place { place.new ≤ 1024 }
    ensures next { result ≡ Gone.Next → place.new ≡ place.old + 1 }
    ensures idle { result ≢ Gone.Left → slice_get window.now.ops place.old ≢ Some Op.Unknown }
    ensures gone { IsGone result (core (window.now.base + 4 * place.old) x.old pages.old) (core (pc_after result (window.now.base + 4 * place.new)) x.new pages.new) }
    ensures keeps { Keeps result low end pages.old pages.new }
{
    match work_done(&window.ops[*place], x) {
        Work::Sets { rd, value } => {
            set_destination(x, rd, value);
            *place += 1;
            Gone::Next
        }
        Work::Loads { rd, addr, form } => match load_inside(pages, addr, form) {
            Some(value) => {
                set_destination(x, rd, value);
                *place += 1;
                Gone::Next
            }
            None => Gone::Left,
        },
        Work::Stores { addr, value, width } => {
            if !store_inside(pages, addr, value, width) {
                return Gone::Left;
            }
            *place += 1;
            if is_clear(addr, below, low, end) {
                Gone::Next
            } else {
                Gone::Wrote(addr)
            }
        }
        Work::Falls => {
            *place += 1;
            Gone::Next
        }
        Work::Goes { to } => {
            *place = to.index();
            Gone::Jumped
        }
        Work::Links { rd, to } => {
            let back = (window.base + 4 * (*place as u32)).wrapping_add(4);
            set_destination(x, rd, back);
            *place = to.index();
            Gone::Jumped
        }
        Work::Leaps { target } => {
            if target % 4 != 0 {
                return Gone::Left;
            }
            match place_in(target, window.base) {
                Some(to) => {
                    *place = to;
                    Gone::Jumped
                }
                None => Gone::Away(target),
            }
        }
        Work::LeapsFrom { rd, target } => {
            if target % 4 != 0 {
                return Gone::Left;
            }
            let back = (window.base + 4 * (*place as u32)).wrapping_add(4);
            set_destination(x, rd, back);
            match place_in(target, window.base) {
                Some(to) => {
                    *place = to;
                    Gone::Jumped
                }
                None => Gone::Away(target),
            }
        }
        Work::Leaves => Gone::Left,
    }
}

/// The same place, told so that LLVM keeps one variable for it.
#[inline(always)]
fn same_place(place: usize) -> usize
    requires { place ≤ 1024 }
    ensures { result ≡ place }
{
    place % 2048
}

/// The page in a slot.
#[inline(always)]
#[tactic(auto, using(crate::proofs::Made::one_at))]
fn window_at(slots: &[Window; 4], slot: usize) -> &Window
    requires { slot < 4 }
    ensures { IsOneOf result.now slots.now }
{
    &slots[slot]
}

/// Blocks of ready instructions until one was not ready or did not go, led to a page that is not at hand or stored where
/// words may be ready, or until fewer are left than a block may have: how many were done, and how the last one came out.
#[inline(always)]
#[tactic(auto)]
fn run_long(
    windows: &Windows,
    slot: usize,
    pc: &mut u32,
    x: &mut [u32; 32],
    pages: &mut CachedPages,
    n: u32,
) -> (u32, Gone)
    requires zero { x.old ≡ 0 ∷ drop 1 x.old }
    requires slot { slot < 4 }
    requires ready { AreReady pages.old windows.now }
    requires many { 1024 ≤ n }
    ensures zero { x.new ≡ 0 ∷ drop 1 x.new }
    ensures most { result.0 ≤ n }
    ensures some { result.1 ≢ Gone.Left → 0 < result.0 }
    ensures went { ran result.0 (core pc.old x.old pages.old) ≡ Some (core pc.new x.new pages.new) }
    ensures keeps { Keeps result.1 windows.now.low windows.now.end pages.old pages.new }
{
    let low = windows.low;
    let below = third_below(low);
    let high = windows.end;
    let mut window = window_at(&windows.slots, slot);
    let first = *pc;
    let mut at = match place_in(first, window.base) {
        Some(place) => place,
        None => return (0, Gone::Left),
    };
    let mut last = at + n as usize - 1;
    loop {
        let here = at;
        match step_ready::<false>(window, below, low, high, &mut at, x, pages) {
            Gone::Next => at = same_place(at),
            Gone::Jumped => {
                let left = last - here;
                if left < MOST_IN_BLOCK as usize {
                    *pc = window.base + 4 * at as u32;
                    return (n - left as u32, Gone::Jumped);
                }
                last = at + left - 1;
            }
            Gone::Away(to) => {
                let left = last - here;
                let other = window_at(&windows.slots, windows.hint(to));
                match place_in(to, other.base) {
                    Some(place) if left >= MOST_IN_BLOCK as usize => {
                        window = other;
                        at = place;
                        last = place + left - 1;
                    }
                    _ => {
                        *pc = to;
                        return (n - left as u32, Gone::Away(to));
                    }
                }
            }
            Gone::Wrote(addr) => {
                *pc = window.base + 4 * at as u32;
                return (n - (last - here) as u32, Gone::Wrote(addr));
            }
            Gone::Left => {
                *pc = window.base + 4 * at as u32;
                return (n - (last + 1 - here) as u32, Gone::Left);
            }
        }
    }
}

/// Ready instructions of one page until so many were done, or one was not ready or did not go, led out of the page or stored
/// where words may be ready: how many were done, and how the last one came out.
#[inline(never)]
#[tactic(auto)]
fn run_short(
    windows: &Windows,
    slot: usize,
    pc: &mut u32,
    x: &mut [u32; 32],
    pages: &mut CachedPages,
    n: u32,
) -> (u32, Gone)
    requires zero { x.old ≡ 0 ∷ drop 1 x.old }
    requires slot { slot < 4 }
    requires ready { AreReady pages.old windows.now }
    ensures zero { x.new ≡ 0 ∷ drop 1 x.new }
    ensures most { result.0 ≤ n }
    ensures some { result.1 ≢ Gone.Left → 0 < result.0 }
    ensures went { ran result.0 (core pc.old x.old pages.old) ≡ Some (core pc.new x.new pages.new) }
    ensures keeps { Keeps result.1 windows.now.low windows.now.end pages.old pages.new }
{
    let window = window_at(&windows.slots, slot);
    let first = *pc;
    let mut at = match place_in(first, window.base) {
        Some(place) => place,
        None => return (0, Gone::Left),
    };
    let below = third_below(windows.low);
    for i in 0..n {
        match step_ready::<true>(window, below, windows.low, windows.end, &mut at, x, pages) {
            Gone::Next => at = same_place(at),
            Gone::Jumped => {}
            Gone::Away(to) => {
                *pc = to;
                return (i + 1, Gone::Away(to));
            }
            Gone::Wrote(addr) => {
                *pc = window.base + 4 * at as u32;
                return (i + 1, Gone::Wrote(addr));
            }
            Gone::Left => {
                *pc = window.base + 4 * at as u32;
                return (i, Gone::Left);
            }
        }
    }
    *pc = window.base + 4 * at as u32;
    (n, Gone::Left)
}

/// Ready instructions, of which so many are asked for: how many were done, and how the last one came out.
#[inline(always)]
pub fn run_blocks(
    windows: &Windows,
    slot: usize,
    pc: &mut u32,
    x: &mut [u32; 32],
    pages: &mut CachedPages,
    n: u32,
) -> (u32, Gone)
    requires zero { x.old ≡ 0 ∷ drop 1 x.old }
    requires slot { slot < 4 }
    requires ready { AreReady pages.old windows.now }
    ensures zero { x.new ≡ 0 ∷ drop 1 x.new }
    ensures most { result.0 ≤ n }
    ensures some { result.1 ≢ Gone.Left → 0 < result.0 }
    ensures went { ran result.0 (core pc.old x.old pages.old) ≡ Some (core pc.new x.new pages.new) }
    ensures keeps { Keeps result.1 windows.now.low windows.now.end pages.old pages.new }
{
    if n < MOST_IN_BLOCK {
        return run_short(windows, slot, pc, x, pages, n);
    }
    run_long(windows, slot, pc, x, pages, n)
}
