// The pages whose words are ready, and instructions by them.
ghost use Rattle.std.specs.Prelude.{◌≡◌, ◌≢◌, ◌≤◌, ◌<◌, ◌+◌, ◌*◌, ◌/◌, ◌%◌, ◌^◌, ◌∷◌, drop, Some, IfSome, true, false};
ghost use Rattle.user_spec.specs.Instruction.{one_instruction, ran};
ghost use Rattle.page_set.specs.Pages.{PageMap};
ghost use Rattle.user_ctx.specs.Stopping.{core};
ghost use Rattle.user_ctx.specs.Windows.{IsReady, IsReadyBut, AreReady};

use crate::blocks::{Gone, run_blocks};
use crate::step::step;
use crate::window::Window;
use page_set::{CachedPages, Pages};
use user_spec::outcome::Outcome;

/// Pages from this address on are not made ready.
const LAST: u32 = 0xFFFF_F000;

/// The pages whose words are ready: they lie from `low` up to `end`.
#[derive(Drop)]
pub struct Windows {
    pub slots: [Window; 4],
    pub low: u32,
    pub end: u32,
    /// The page that the next new one takes the place of.
    pub next: usize,
    /// Where a page may be, by the low bits of its number.
    pub hints: [u8; 16],
}

/// Forgets the words that four bytes from an address on touch.
#[inline(never)]
#[tactic(auto, using(crate::proofs::Made::forgot_none, crate::proofs::Made::forgot_one, crate::proofs::Made::forgot_all, crate::proofs::Made::but_at))]
fn forget_all(slots: &mut [Window; 4], addr: u32, low: u32, end: u32, pages: &CachedPages)
    requires { IsReadyBut addr pages.now low end slots.old }
    ensures { IsReady pages.now low end slots.new }
{
    for i in 0..4usize {
        slots[i].forget(addr, pages);
    }
}

#[tactic(auto, using(crate::proofs::Made::watched_at, crate::proofs::Made::ready_set))]
fn learn_in(slots: &mut [Window; 4], slot: usize, at: u32, low: u32, end: u32, pages: &Pages)
    requires slot { slot < 4 }
    requires ready { IsReady pages.now low end slots.old }
    ensures { IsReady pages.now low end slots.new }
{
    slots[slot].learn(at, pages);
}

impl Windows {
    /// Nothing is ready, where the first instruction stands at an address.
    #[tactic(auto, using(crate::proofs::Made::ready_new))]
    pub fn new(at: u32) -> Self
        ensures { (pages : PageMap) → AreReady pages result }
    {
        let base = if at < LAST { at / 4096 * 4096 } else { 0 };
        let window = Window::new(base);
        Windows {
            slots: [window; 4],
            low: base,
            end: base + 4096,
            next: 1,
            hints: [0; 16],
        }
    }

    /// Where the page of an address may be.
    #[inline(always)]
    pub fn hint(&self, at: u32) -> usize
        ensures { result < 4 }
    {
        (self.hints[(at / 4096 % 16) as usize] % 4) as usize
    }

    fn find(&self, base: u32) -> Option<usize>
        ensures { IfSome result (λ slot. slot < 4) }
    {
        for i in 0..4usize {
            if self.slots[i].base == base {
                return Some(i);
            }
        }
        None
    }

    /// Takes in a page of which nothing is ready.
    #[inline(never)]
    #[cold]
    #[tactic(auto, using(crate::proofs::Made::ready_renewed))]
    fn renew(&mut self, base: u32) -> usize
        requires aligned { base % 4096 ≡ 0 }
        requires range { base + 4096 < 2 ^ 32 }
        requires next { self.old.next < 4 }
        ensures slot { result < 4 }
        ensures ready { (pages : PageMap) → AreReady pages self.old → AreReady pages self.new }
    {
        let slot = self.next;
        self.slots[slot] = Window::new(base);
        self.low = self.low.min(base);
        self.end = self.end.max(base + 4096);
        self.next = (slot + 1) % 4;
        slot
    }

    /// The place of the page from an address on.
    fn slot_of(&mut self, base: u32) -> usize
        requires aligned { base % 4096 ≡ 0 }
        requires range { base + 4096 < 2 ^ 32 }
        requires next { self.old.next < 4 }
        ensures slot { result < 4 }
        ensures ready { (pages : PageMap) → AreReady pages self.old → AreReady pages self.new }
    {
        let slot = match self.find(base) {
            Some(slot) => slot,
            None => self.renew(base),
        };
        self.hints[(base / 4096 % 16) as usize] = slot as u8;
        slot
    }

    /// Makes the word at an address ready, where that can be.
    #[inline(never)]
    fn learn(&mut self, at: u32, pages: &Pages)
        requires { AreReady pages.now self.old }
        ensures { AreReady pages.now self.new }
    {
        if at >= LAST {
            return;
        }
        let slot = self.slot_of(at / 4096 * 4096);
        learn_in(&mut self.slots, slot, at, self.low, self.end, pages);
    }

    /// Ready instructions, of which so many are asked for: how many were done, and whether the next one is not left to a
    /// plain step.
    #[tactic(auto, using(crate::proofs::Made::ready_same, crate::proofs::Made::ready_but))]
    pub fn run(
        &mut self,
        pc: &mut u32,
        x: &mut [u32; 32],
        pages: &mut CachedPages,
        n: u32,
    ) -> (u32, bool)
        requires zero { x.old ≡ 0 ∷ drop 1 x.old }
        requires ready { AreReady pages.old self.old }
        ensures zero { x.new ≡ 0 ∷ drop 1 x.new }
        ensures ready { AreReady pages.new self.new }
        ensures most { result.0 ≤ n }
        ensures some { result.1 ≡ true → 0 < result.0 }
        ensures went { ran result.0 (core pc.old x.old pages.old) ≡ Some (core pc.new x.new pages.new) }
    {
        let at = *pc;
        if at % 4 != 0 || at >= LAST {
            return (0, false);
        }
        let slot = self.slot_of(at / 4096 * 4096);
        let (went, gone) = run_blocks(&*self, slot, pc, x, pages, n);
        match gone {
            Gone::Left => (went, false),
            Gone::Next => (went, true),
            Gone::Jumped => (went, true),
            Gone::Away(_) => (went, true),
            Gone::Wrote(addr) => {
                forget_all(&mut self.slots, addr, self.low, self.end, pages);
                (went, true)
            }
        }
    }

    /// One instruction as it is written, which is made ready where that can be.
    #[tactic(auto, using(crate::proofs::Made::ready_stored))]
    pub fn step(
        &mut self,
        pc: &mut u32,
        x: &mut [u32; 32],
        pages: CachedPages,
    ) -> (Outcome, CachedPages)
        requires zero { x.old ≡ 0 ∷ drop 1 x.old }
        requires ready { AreReady pages self.old }
        ensures zero { x.new ≡ 0 ∷ drop 1 x.new }
        ensures ready { AreReady result.1 self.new }
        ensures is { one_instruction (core pc.old x.old pages) ≡ record { outcome = result.0; core = core pc.new x.new result.1 } }
    {
        let mut whole = pages.into_pages();
        self.learn(*pc, &whole);
        let (outcome, wrote) = step(pc, x, &mut whole);
        let pages = CachedPages::new(whole);
        match wrote {
            None => {}
            Some(addr) => forget_all(&mut self.slots, addr, self.low, self.end, &pages),
        }
        (outcome, pages)
    }
}
