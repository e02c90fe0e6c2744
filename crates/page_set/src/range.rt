// Several pages at once, one after another.
ghost use Rattle.std.specs.Prelude.{ℕ, ◌≡◌, ◌<◌, ◌≤◌, ◌-◌, ◌^◌, IsSome, OnOk, OnErr};
ghost use Rattle.std.specs.FinMap as map;
ghost use Rattle.page_set.specs.Pages.{on_pages, without_pages, with_mapped_pages, mapped_count};
ghost use Rattle.page_set.specs.Tree.{without_all, with_filled};

use crate::pages::Pages;
use crate::tree::NoPage;

impl Pages {
    /// How many pages are mapped from one on up to another. What is not mapped costs next to nothing.
    pub fn count_range(&self, first: u32, end: u32) -> u32
        ensures { result ≡ mapped_count self.now first (end - first) }
    {
        let mut from = first;
        let mut count = 0;
        while let Some(page) = self.next_page(from) {
            if page >= end {
                return count;
            }
            count += 1;
            from = page + 1;
        }
        count
    }

    /// Unmaps the pages from one on up to another. What is not mapped costs next to nothing.
    pub fn unmap_range(&mut self, first: u32, end: u32)
        ensures { self.new ≡ without_pages self.old first (end - first) }
    {
        let mut from = first;
        while let Some(page) = self.next_page(from) {
            if page >= end {
                return;
            }
            let _ = self.unmap(page);
            from = page + 1;
        }
    }

    /// Maps the pages from one on up to another: zeros where none was mapped, and where one was, more rights. Where there
    /// is no memory for all of them, nothing changes.
    pub fn map_range(&mut self, first: u32, end: u32, rights: u8) -> Result<(), NoPage>
        requires end { end ≤ 2 ^ 20 }
        requires rights { rights < 8 }
        ensures ok { OnOk result (self.new ≡ with_mapped_pages rights self.old first (end - first)) }
        ensures err { OnErr result (self.new ≡ self.old) }
    {
        let mut added = Vec::new(self.allocator());
        match self.fill_range(first, end, rights, &mut added) {
            Err(refused) => {
                self.unmap_all(&mut added);
                Err(refused)
            }
            Ok(()) => {
                self.add_rights_range(first, end, rights);
                Ok(())
            }
        }
    }

    /// Maps zeros where no page was mapped, and notes its number.
    #[tactic(auto, using(crate::proofs::Ranges::undone_inserted, crate::proofs::Ranges::undone_same, crate::proofs::Ranges::filled_none, crate::proofs::Ranges::filled_some))]
    fn fill_page(&mut self, page: u32, rights: u8, added: &mut Vec<u32>) -> Result<(), NoPage>
        requires page { page < 2 ^ 20 }
        requires rights { rights < 8 }
        ensures ok { OnOk result (self.new ≡ with_filled rights self.old page) }
        ensures undone { without_all self.new added.new.items ≡ without_all self.old added.old.items }
    {
        if self.is_mapped(page) {
            return Ok(());
        }
        added.push(page)?;
        self.map_zero(page, rights)
    }

    /// Does so for the pages from one on up to another.
    fn fill_range(
        &mut self,
        first: u32,
        end: u32,
        rights: u8,
        added: &mut Vec<u32>,
    ) -> Result<(), NoPage>
        requires end { end ≤ 2 ^ 20 }
        requires rights { rights < 8 }
        ensures ok { OnOk result (self.new ≡ on_pages (with_filled rights) self.old first (end - first)) }
        ensures undone { without_all self.new added.new.items ≡ without_all self.old added.old.items }
    {
        for page in first..end {
            self.fill_page(page, rights, added)?;
        }
        Ok(())
    }

    /// Adds rights to pages that are mapped.
    fn add_rights_range(&mut self, first: u32, end: u32, rights: u8)
        requires mapped { (q : ℕ) → first ≤ q → q < end → IsSome (map.get self.old q) }
        requires rights { rights < 8 }
        ensures { self.new ≡ with_mapped_pages rights self.old first (end - first) }
    {
        for page in first..end {
            self.add_rights(page, rights);
        }
    }

    #[tactic(auto, using(crate::proofs::Ranges::without_nothing))]
    fn unmap_all(&mut self, added: &mut Vec<u32>)
        ensures { self.new ≡ without_all self.old added.old.items }
    {
        while let Some(page) = added.pop() {
            let _ = self.unmap(page);
        }
    }
}
