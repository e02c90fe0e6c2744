// Pages of which some are cached.
ghost use Rattle.std.specs.Prelude.{◌≡◌, Ok, IfSome, true, false};
ghost use Rattle.page_set.specs.Pages.{loaded, stored, bytes_1, bytes_2, bytes_4};

use crate::entry::{self, Entry};
use crate::frame::Leaf;
use crate::pages::Pages;
use std::marker::Model;

/// After so many accesses to pages that are not cached, the page of the last one is.
const UNCACHED_ACCESSES: u32 = 16;

/// Pages of which up to sixteen are cached, so that an access to them is short. Contracts see them as the pages that they are.
#[derive(Drop)]
pub struct CachedPages {
    entries: [Entry; 16],
    leaves: Vec<Option<Box<Leaf>>>,
    count: u32,
    /// How many accesses were not to cached pages since one was cached.
    uncached: u32,
}

impl Model for CachedPages {
    ghost use Rattle.page_set.specs.Pages.{PageMap, coded_pages};

    ghost Value = { PageMap };

    ghost coded = { coded_pages };

    ghost use Rattle.page_set.specs.Tree.{IsCounted};
    ghost use Rattle.page_set.specs.Entries.{AreCached, cached_pages};

    ghost view = { λ a. cached_pages a.entries a.leaves.items };

    ghost invariant = { λ a. (AreCached a.entries a.leaves.items) × (IsCounted a.count (cached_pages a.entries a.leaves.items)) };
}

impl CachedPages {
    /// Pages of which none is cached yet.
    #[tactic(auto, using(crate::proofs::Kept::same_kept))]
    pub fn new(pages: Pages) -> CachedPages
        ensures { result ≡ pages }
    {
        let entries = entry::no_entries(&pages.leaves);
        CachedPages {
            entries,
            leaves: pages.leaves,
            count: pages.count,
            uncached: 0,
        }
    }

    /// The pages, of which none is cached any more.
    #[tactic(auto, using(crate::proofs::Kept::same_kept))]
    pub fn into_pages(self) -> Pages
        ensures { result ≡ self }
    {
        let mut entries = self.entries;
        let mut leaves = self.leaves;
        entry::put_all_back(&mut entries, &mut leaves);
        Pages {
            leaves,
            count: self.count,
        }
    }

    /// Caches the page of an address, where it can be read.
    #[tactic(auto, using(crate::proofs::Kept::same_kept))]
    fn fetch(&mut self, addr: u32)
        ensures { self.new ≡ self.old }
    {
        self.uncached = 0;
        entry::fetch(&mut self.entries, &mut self.leaves, addr / 4096);
    }

    /// Counts an access to a page that is not cached, and caches the page after so many.
    fn count_uncached(&mut self, addr: u32)
        ensures { self.new ≡ self.old }
    {
        self.uncached = self.uncached.wrapping_add(1);
        if self.uncached >= UNCACHED_ACCESSES {
            self.fetch(addr);
        }
    }

    // ---- loads

    /// The byte at an address, where its page is not cached and can be read.
    #[inline(never)]
    #[cold]
    fn uncached_load_1(&mut self, addr: u32) -> Option<u8>
        ensures is { IfSome result (λ w. loaded self.old addr 1 4 ≡ Ok w) }
        ensures same { self.new ≡ self.old }
    {
        let value = entry::uncached_load_1(&self.entries, &self.leaves, addr);
        self.count_uncached(addr);
        value
    }

    /// The byte at an address, where it can be read.
    #[inline(always)]
    pub fn load_1(&mut self, addr: u32) -> Option<u8>
        ensures is { IfSome result (λ w. loaded self.old addr 1 4 ≡ Ok w) }
        ensures same { self.new ≡ self.old }
    {
        match entry::load_1(&self.entries, &self.leaves, addr) {
            Some(value) => Some(value),
            None => self.uncached_load_1(addr),
        }
    }

    /// The two bytes from an address on, where its page is not cached and can be read.
    #[inline(never)]
    #[cold]
    fn uncached_load_2(&mut self, addr: u32) -> Option<u16>
        ensures is { IfSome result (λ w. loaded self.old addr 2 4 ≡ Ok w) }
        ensures same { self.new ≡ self.old }
    {
        let value = entry::uncached_load_2(&self.entries, &self.leaves, addr);
        self.count_uncached(addr);
        value
    }

    /// The two bytes from an address on, where they lie in one page and can be read.
    #[inline(always)]
    pub fn load_2(&mut self, addr: u32) -> Option<u16>
        ensures is { IfSome result (λ w. loaded self.old addr 2 4 ≡ Ok w) }
        ensures same { self.new ≡ self.old }
    {
        match entry::load_2(&self.entries, &self.leaves, addr) {
            Some(value) => Some(value),
            None => self.uncached_load_2(addr),
        }
    }

    /// The four bytes from an address on, where its page is not cached and can be read.
    #[inline(never)]
    #[cold]
    fn uncached_load_4(&mut self, addr: u32) -> Option<u32>
        ensures is { IfSome result (λ w. loaded self.old addr 4 4 ≡ Ok w) }
        ensures same { self.new ≡ self.old }
    {
        let value = entry::uncached_load_4(&self.entries, &self.leaves, addr);
        self.count_uncached(addr);
        value
    }

    /// The four bytes from an address on, where they lie in one page and can be read.
    #[inline(always)]
    pub fn load_4(&mut self, addr: u32) -> Option<u32>
        ensures is { IfSome result (λ w. loaded self.old addr 4 4 ≡ Ok w) }
        ensures same { self.new ≡ self.old }
    {
        match entry::load_4(&self.entries, &self.leaves, addr) {
            Some(value) => Some(value),
            None => self.uncached_load_4(addr),
        }
    }

    // ---- stores

    /// Stores the low byte of a number, where its page is cached and can be written. Else it is false, and nothing changes.
    #[inline(always)]
    fn cached_store_1(&mut self, addr: u32, value: u32) -> bool
        ensures is { result ≡ true → stored self.old addr (bytes_1 value) ≡ Ok self.new }
        ensures not { result ≡ false → self.new ≡ self.old }
    {
        entry::store(
            &mut self.entries,
            &self.leaves,
            addr,
            &[(value % 0x100) as u8],
        )
    }

    /// Stores the low byte of a number, where its page is not cached and can be written. Else it is false, and nothing changes.
    #[inline(never)]
    #[cold]
    fn uncached_store_1(&mut self, addr: u32, value: u32) -> bool
        ensures is { result ≡ true → stored self.old addr (bytes_1 value) ≡ Ok self.new }
        ensures not { result ≡ false → self.new ≡ self.old }
    {
        let is_stored = entry::uncached_store(
            &self.entries,
            &mut self.leaves,
            addr,
            &[(value % 0x100) as u8],
        );
        self.count_uncached(addr);
        is_stored
    }

    /// Stores the low byte of a number, where it can be written. Else it is false, and nothing changes.
    #[inline(always)]
    pub fn store_1(&mut self, addr: u32, value: u32) -> bool
        ensures is { result ≡ true → stored self.old addr (bytes_1 value) ≡ Ok self.new }
        ensures not { result ≡ false → self.new ≡ self.old }
    {
        self.cached_store_1(addr, value) || self.uncached_store_1(addr, value)
    }

    /// Stores the low two bytes of a number, where they lie in one page that is cached and can be written. Else it is false, and nothing changes.
    #[inline(always)]
    fn cached_store_2(&mut self, addr: u32, value: u32) -> bool
        ensures is { result ≡ true → stored self.old addr (bytes_2 value) ≡ Ok self.new }
        ensures not { result ≡ false → self.new ≡ self.old }
    {
        entry::store(
            &mut self.entries,
            &self.leaves,
            addr,
            &[(value % 0x100) as u8, (value / 0x100 % 0x100) as u8],
        )
    }

    /// Stores the low two bytes of a number, where its page is not cached and can be written. Else it is false, and nothing changes.
    #[inline(never)]
    #[cold]
    fn uncached_store_2(&mut self, addr: u32, value: u32) -> bool
        ensures is { result ≡ true → stored self.old addr (bytes_2 value) ≡ Ok self.new }
        ensures not { result ≡ false → self.new ≡ self.old }
    {
        let is_stored = addr % 4096 <= 4096 - 2
            && entry::uncached_store(
                &self.entries,
                &mut self.leaves,
                addr,
                &[(value % 0x100) as u8, (value / 0x100 % 0x100) as u8],
            );
        self.count_uncached(addr);
        is_stored
    }

    /// Stores the low two bytes of a number, where they lie in one page that can be written. Else it is false, and nothing changes.
    #[inline(always)]
    pub fn store_2(&mut self, addr: u32, value: u32) -> bool
        ensures is { result ≡ true → stored self.old addr (bytes_2 value) ≡ Ok self.new }
        ensures not { result ≡ false → self.new ≡ self.old }
    {
        self.cached_store_2(addr, value) || self.uncached_store_2(addr, value)
    }

    /// Stores the four bytes of a number, where they lie in one page that is cached and can be written. Else it is false, and nothing changes.
    #[inline(always)]
    fn cached_store_4(&mut self, addr: u32, value: u32) -> bool
        ensures is { result ≡ true → stored self.old addr (bytes_4 value) ≡ Ok self.new }
        ensures not { result ≡ false → self.new ≡ self.old }
    {
        entry::store(&mut self.entries, &self.leaves, addr, &value.to_le_bytes())
    }

    /// Stores the four bytes of a number, where its page is not cached and can be written. Else it is false, and nothing changes.
    #[inline(never)]
    #[cold]
    fn uncached_store_4(&mut self, addr: u32, value: u32) -> bool
        ensures is { result ≡ true → stored self.old addr (bytes_4 value) ≡ Ok self.new }
        ensures not { result ≡ false → self.new ≡ self.old }
    {
        let is_stored = addr % 4096 <= 4096 - 4
            && entry::uncached_store(&self.entries, &mut self.leaves, addr, &value.to_le_bytes());
        self.count_uncached(addr);
        is_stored
    }

    /// Stores the four bytes of a number, where they lie in one page that can be written. Else it is false, and nothing changes.
    #[inline(always)]
    pub fn store_4(&mut self, addr: u32, value: u32) -> bool
        ensures is { result ≡ true → stored self.old addr (bytes_4 value) ≡ Ok self.new }
        ensures not { result ≡ false → self.new ≡ self.old }
    {
        self.cached_store_4(addr, value) || self.uncached_store_4(addr, value)
    }
}
