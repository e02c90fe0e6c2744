// The words of one page, made ready.
ghost use Rattle.std.specs.Prelude.{◌≡◌, ◌<◌, ◌+◌, ◌%◌, ◌^◌};
ghost use Rattle.page_set.specs.Pages.{PageMap};
ghost use Rattle.user_ctx.specs.Windows.{word_of, IsWindow, IsWindowBut, Forgets};

use crate::op::{Op, op_of};
use call_table::RIGHT_RUN;
use page_set::{CachedPages, Pages};
use rv_decode::decode;

/// The words of the page from an address on, made ready. Behind them stands one that is not.
#[derive(Clone, Copy)]
pub struct Window {
    pub ops: [Op; 1025],
    pub base: u32,
}

impl Window {
    /// A page of which nothing is known.
    #[inline(always)]
    #[tactic(auto, using(crate::proofs::Made::nothing))]
    pub fn new(base: u32) -> Self
        requires aligned { base % 4096 ≡ 0 }
        requires range { base + 4096 < 2 ^ 32 }
        ensures is { (pages : PageMap) → IsWindow pages result.base result.ops }
        ensures base { result.base ≡ base }
    {
        Window {
            ops: [Op::Unknown; 1025],
            base,
        }
    }

    /// Makes the word at an address ready, where it lies in the page and is not known yet.
    #[tactic(auto, using(crate::proofs::Made::learned))]
    pub fn learn(&mut self, at: u32, pages: &Pages)
        requires { IsWindow pages.now self.old.base self.old.ops }
        ensures is { IsWindow pages.now self.new.base self.new.ops }
        ensures base { self.new.base ≡ self.old.base }
    {
        if at % 4 != 0 || at / 4096 * 4096 != self.base {
            return;
        }
        let place = (at / 4 % 1024) as usize;
        match self.ops[place] {
            Op::Unknown => {}
            _ => return,
        }
        match pages.load_4(at, RIGHT_RUN) {
            Ok(word) => match decode(word) {
                Some(instr) => {
                    let op = op_of(&instr, at);
                    self.ops[place] = op;
                }
                None => {}
            },
            Err(_) => {}
        }
    }

    /// Forgets one word, where it lies in the page.
    #[tactic(auto, using(crate::proofs::Made::forgets_here, crate::proofs::Made::forgets_elsewhere))]
    fn forget_word(&mut self, word: u32)
        requires word { word % 4 ≡ 0 }
        requires base { self.old.base % 4096 ≡ 0 }
        ensures is { Forgets word self.old.base self.old.ops self.new.ops }
        ensures base { self.new.base ≡ self.old.base }
    {
        if word / 4096 * 4096 == self.base {
            self.ops[(word / 4 % 1024) as usize] = Op::Unknown;
        }
    }

    /// Forgets the words that four bytes from an address on touch.
    #[tactic(auto, using(crate::proofs::Made::forgot))]
    pub fn forget(&mut self, addr: u32, pages: &CachedPages)
        requires { IsWindowBut addr pages.now self.old.base self.old.ops }
        ensures is { IsWindow pages.now self.new.base self.new.ops }
        ensures base { self.new.base ≡ self.old.base }
    {
        self.forget_word(addr / 4 * 4);
        self.forget_word(addr.wrapping_add(3) / 4 * 4);
    }
}
