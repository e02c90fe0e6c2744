// Pages with rights, seen as a map from page numbers.
ghost use Rattle.std.specs.Prelude.{◌≡◌, ◌<◌, ◌≤◌, ◌+◌, ◌/◌, ◌^◌, IfOk, OnOk, OnErr, MatchResult, MatchOption, Ok, Err, Some, None, IsSome, is_some, false, length, ◌⊎◌};
ghost use Rattle.std.specs.FinMap as map;
ghost use Rattle.std.specs.Option.{option_map};
ghost use Rattle.page_set.specs.Pages.{PageMap, WellFormed, NoneFrom, IsNext, flat_at, refusal, loaded, stored, copied_out, copied_in, bytes_1, bytes_2, bytes_4, low_bytes, plain_byte, with_byte, with_bytes, zero_page, changed_page, page_with_rights, page_with_part};

use crate::access::Refused;
use crate::frame::Leaf;
use crate::tree::NoPage;
use crate::{access, copy, tree};
use std::alloc::Global;
use std::marker::Model;

/// Pages by number, each with its bytes and rights.
#[derive(Drop)]
pub struct Pages {
    pub(crate) leaves: Vec<Option<Box<Leaf>>>,
    pub(crate) count: u32,
}

impl Model for Pages {
    ghost use Rattle.std.specs.FinMap as map;
    ghost use Rattle.page_set.specs.Pages.{PageMap, coded_pages};

    ghost Value = { PageMap };

    ghost coded = { coded_pages };

    ghost use Rattle.page_set.specs.Tree.{pages_of, IsCounted};

    ghost view = { λ a. pages_of a.leaves.items };

    ghost invariant = { λ a. IsCounted a.count (pages_of a.leaves.items) };
}

impl Pages {
    /// No page. This takes no memory.
    #[tactic(auto, using(crate::proofs::Kept::no_pages))]
    pub fn new(alloc: Global) -> Pages
        ensures { result ≡ map.empty }
    {
        Pages {
            leaves: Vec::new(alloc),
            count: 0,
        }
    }

    /// Where its memory comes from.
    pub fn allocator(&self) -> Global {
        *self.leaves.allocator()
    }

    /// Equal pages, with memory of their own.
    #[tactic(auto, using(crate::proofs::Kept::same_kept))]
    pub fn copy(&self) -> Result<Pages, NoPage>
        ensures { IfOk result (λ p. p ≡ self.now) }
    {
        Ok(Pages {
            leaves: copy::copy(&self.leaves)?,
            count: self.count,
        })
    }

    /// How many pages there are. It also tells what holds of every set of pages.
    pub fn count(&self) -> u32
        ensures is { result ≡ map.len self.now }
        ensures well_formed { WellFormed self.now }
    {
        self.count
    }

    /// Maps a page of zeros. Where there is no memory for it, nothing changes.
    #[tactic(auto, using(crate::proofs::Maps::len_pages_of))]
    pub fn map_zero(&mut self, page: u32, rights: u8) -> Result<(), NoPage>
        requires page { page < 2 ^ 20 }
        requires rights { rights < 8 }
        requires free { map.get self.old page ≡ None }
        ensures ok { OnOk result (self.new ≡ map.insert self.old page (zero_page rights)) }
        ensures err { OnErr result (self.new ≡ self.old) }
    {
        tree::map_zero(&mut self.leaves, page, rights)?;
        self.count += 1;
        Ok(())
    }

    /// Whether a page is mapped.
    pub fn is_mapped(&self, page: u32) -> bool
        ensures is { result ≡ is_some (map.get self.now page) }
        ensures free { result ≡ false → map.get self.now page ≡ None }
    {
        tree::is_mapped(&self.leaves, page)
    }

    /// The rights of a page. None where it is not mapped.
    pub fn rights(&self, page: u32) -> Option<u8>
        ensures { result ≡ option_map (λ p. p.rights) (map.get self.now page) }
    {
        tree::rights(&self.leaves, page)
    }

    /// Adds rights to a page.
    #[tactic(auto, using(crate::proofs::Kept::number_below))]
    pub fn add_rights(&mut self, page: u32, rights: u8)
        requires mapped { IsSome (map.get self.old page) }
        requires rights { rights < 8 }
        ensures { self.new ≡ changed_page self.old page (page_with_rights rights) (map.get self.old page) }
    {
        tree::add_rights(&mut self.leaves, page, rights);
    }

    /// Unmaps a page. False where it was not mapped.
    #[tactic(auto, using(crate::proofs::Kept::some_there))]
    pub fn unmap(&mut self, page: u32) -> bool
        ensures is { result ≡ is_some (map.get self.old page) }
        ensures new { self.new ≡ map.remove self.old page }
    {
        if tree::unmap(&mut self.leaves, page) {
            self.count -= 1;
            true
        } else {
            false
        }
    }

    /// The first mapped page at a number or after it.
    pub fn next_page(&self, from: u32) -> Option<u32>
        ensures { MatchOption result (NoneFrom self.now from) (IsNext self.now from) }
    {
        tree::next_page(&self.leaves, from)
    }

    /// The byte at an address, whatever the rights. None where its page is not mapped.
    #[inline(always)]
    pub fn byte(&self, addr: u32) -> Option<u8>
        ensures { result ≡ plain_byte self.now addr }
    {
        access::byte(&self.leaves, addr)
    }

    /// Writes a byte, whatever the rights. False where its page is not mapped.
    pub fn set_byte(&mut self, addr: u32, value: u8) -> bool
        ensures is { result ≡ is_some (map.get self.old (addr / 4096)) }
        ensures new { self.new ≡ with_byte self.old addr value }
    {
        access::set_byte(&mut self.leaves, addr, value)
    }

    /// Writes bytes to a mapped page from an offset on, whatever its rights.
    #[tactic(auto, using(crate::proofs::Kept::number_below))]
    pub fn fill(&mut self, page: u32, offset: usize, bytes: &[u8])
        requires mapped { IsSome (map.get self.old page) }
        requires fits { offset + length bytes.now ≤ 4096 }
        ensures { self.new ≡ changed_page self.old page (page_with_part offset bytes.now) (map.get self.old page) }
    {
        tree::fill(&mut self.leaves, page, offset, bytes);
    }

    /// Writes bytes from an address on, modulo 2^32, whatever the rights, where their pages are mapped.
    pub fn write(&mut self, addr: u32, bytes: &[u8])
        ensures { self.new ≡ with_bytes self.old addr bytes.now }
    {
        access::write(&mut self.leaves, addr, bytes);
    }

    /// Whether so many bytes lie below 2^32 and have the right.
    pub fn covers(&self, addr: u32, len: u32, right: u8) -> Result<(), Refused>
        ensures { MatchResult result (λ _. refusal (flat_at self.now right addr len) ≡ None) (λ e. refusal (flat_at self.now right addr len) ≡ Some e.addr) }
    {
        access::covers(&self.leaves, addr, len as usize, right)
    }

    /// A number of 1, 2 or 4 bytes, the lowest first. Addresses are taken modulo 2^32.
    pub fn load(&self, addr: u32, width: u8, right: u8) -> Result<u32, Refused>
        requires { (width ≡ 1) ⊎ ((width ≡ 2) ⊎ (width ≡ 4)) }
        ensures { MatchResult result (λ w. loaded self.now addr width right ≡ Ok w) (λ e. loaded self.now addr width right ≡ Err e.addr) }
    {
        match width {
            1 => Ok(u32::from(self.load_1(addr, right)?)),
            2 => Ok(u32::from(self.load_2(addr, right)?)),
            _ => self.load_4(addr, right),
        }
    }

    /// Stores the low 1, 2 or 4 bytes of a number, the lowest first, where all can be written. Addresses are taken modulo
    /// 2^32.
    pub fn store(&mut self, addr: u32, width: u8, value: u32) -> Result<(), Refused>
        requires { (width ≡ 1) ⊎ ((width ≡ 2) ⊎ (width ≡ 4)) }
        ensures is { MatchResult result (λ _. stored self.old addr (low_bytes width value) ≡ Ok self.new) (λ e. stored self.old addr (low_bytes width value) ≡ Err e.addr) }
        ensures err { OnErr result (self.new ≡ self.old) }
    {
        match width {
            1 => self.store_1(addr, value),
            2 => self.store_2(addr, value),
            _ => self.store_4(addr, value),
        }
    }

    /// The byte at an address.
    #[inline(always)]
    pub fn load_1(&self, addr: u32, right: u8) -> Result<u8, Refused>
        ensures { MatchResult result (λ w. loaded self.now addr 1 right ≡ Ok w) (λ e. loaded self.now addr 1 right ≡ Err e.addr) }
    {
        access::load_1(&self.leaves, addr, right)
    }

    /// The number in the two bytes from an address on.
    #[inline(always)]
    pub fn load_2(&self, addr: u32, right: u8) -> Result<u16, Refused>
        ensures { MatchResult result (λ w. loaded self.now addr 2 right ≡ Ok w) (λ e. loaded self.now addr 2 right ≡ Err e.addr) }
    {
        access::load_2(&self.leaves, addr, right)
    }

    /// The number in the four bytes from an address on.
    #[inline(always)]
    pub fn load_4(&self, addr: u32, right: u8) -> Result<u32, Refused>
        ensures { MatchResult result (λ w. loaded self.now addr 4 right ≡ Ok w) (λ e. loaded self.now addr 4 right ≡ Err e.addr) }
    {
        access::load_4(&self.leaves, addr, right)
    }

    /// Stores the low byte of a number.
    #[inline(always)]
    pub fn store_1(&mut self, addr: u32, value: u32) -> Result<(), Refused>
        ensures is { MatchResult result (λ _. stored self.old addr (bytes_1 value) ≡ Ok self.new) (λ e. stored self.old addr (bytes_1 value) ≡ Err e.addr) }
        ensures err { OnErr result (self.new ≡ self.old) }
    {
        access::store_1(&mut self.leaves, addr, value)
    }

    /// Stores the low two bytes of a number.
    #[inline(always)]
    pub fn store_2(&mut self, addr: u32, value: u32) -> Result<(), Refused>
        ensures is { MatchResult result (λ _. stored self.old addr (bytes_2 value) ≡ Ok self.new) (λ e. stored self.old addr (bytes_2 value) ≡ Err e.addr) }
        ensures err { OnErr result (self.new ≡ self.old) }
    {
        access::store_2(&mut self.leaves, addr, value)
    }

    /// Stores the four bytes of a number.
    #[inline(always)]
    pub fn store_4(&mut self, addr: u32, value: u32) -> Result<(), Refused>
        ensures is { MatchResult result (λ _. stored self.old addr (bytes_4 value) ≡ Ok self.new) (λ e. stored self.old addr (bytes_4 value) ≡ Err e.addr) }
        ensures err { OnErr result (self.new ≡ self.old) }
    {
        access::store_4(&mut self.leaves, addr, value)
    }

    /// Copies bytes out from an address on, where all lie below 2^32 and can be read.
    pub fn copy_out(&self, addr: u32, into: &mut [u8]) -> Result<(), Refused>
        ensures is { MatchResult result (λ _. copied_out self.now addr (length into.old) ≡ Ok into.new) (λ e. copied_out self.now addr (length into.old) ≡ Err e.addr) }
        ensures err { OnErr result (into.new ≡ into.old) }
    {
        access::copy_out(&self.leaves, addr, into)
    }

    /// Copies bytes in from an address on, where all lie below 2^32 and can be written.
    pub fn copy_in(&mut self, addr: u32, bytes: &[u8]) -> Result<(), Refused>
        ensures is { MatchResult result (λ _. copied_in self.old addr bytes.now ≡ Ok self.new) (λ e. copied_in self.old addr bytes.now ≡ Err e.addr) }
        ensures err { OnErr result (self.new ≡ self.old) }
    {
        access::copy_in(&mut self.leaves, addr, bytes)
    }
}
