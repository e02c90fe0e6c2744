// The pages of the heap.
ghost use Rattle.std.specs.Prelude.{◌≡◌, ◌≤◌, ◌+◌, ◌-◌, ◌<◌, ℕ, OnOk, OnErr, None, false};
ghost use Rattle.std.specs.FinMap as map;
ghost use Rattle.user_spec.specs.Request.{page_above, without_pages, with_heap_pages, lacks_page};
ghost use Rattle.user_ctx.specs.Heap.{one_if_mapped, mapped_in, with_lacking, rights_at};

use call_table::NoMemory;
use page_set::Pages;

/// From this page on lies what is no heap.
pub const HEAP_END: u32 = 0x7_0000;

/// The first page at or above an address.
pub fn page_above(addr: u32) -> u32
    requires { addr ≤ 0x70000000 }
    ensures is { result ≡ page_above addr }
    ensures limit { result ≤ 0x70000 }
{
    (addr + 4095) / 4096
}

fn one_if_mapped(pages: &Pages, page: u32) -> u32
    ensures is { result ≡ one_if_mapped pages.now page }
    ensures most { result ≤ 1 }
{
    if pages.is_mapped(page) { 1 } else { 0 }
}

#[tactic(auto, using(crate::proofs::Heaps::count_more, crate::proofs::Heaps::count_none, crate::proofs::Heaps::mapped_bounds))]
/// How many pages of a range are mapped.
pub fn mapped_in(pages: &Pages, from: u32, to: u32) -> u32
    requires order { from ≤ to }
    requires limit { to ≤ 0x70000 }
    ensures is { result ≡ mapped_in pages.now from (to - from) }
    ensures most { result ≤ to - from }
    ensures all { result ≤ map.len pages.now }
{
    let mut n = 0;
    for page in from..to {
        n += one_if_mapped(pages, page);
    }
    n
}

#[tactic(auto, using(crate::proofs::Heaps::unmap_more, crate::proofs::Heaps::unmap_none))]
fn unmap_all(pages: &mut Pages, from: u32, to: u32)
    requires order { from ≤ to }
    requires limit { to ≤ 0x70000 }
    ensures { pages.new ≡ without_pages pages.old from (to - from) }
{
    for page in from..to {
        let _ = pages.unmap(page);
    }
}

#[tactic(auto, using(crate::proofs::Heaps::rights_more, crate::proofs::Heaps::rights_mapped, crate::proofs::Heaps::heap_none))]
fn add_rights_all(pages: &mut Pages, from: u32, to: u32)
    requires order { from ≤ to }
    requires limit { to ≤ 0x70000 }
    requires mapped { lacks_page pages.old from (to - from) ≡ false }
    ensures { pages.new ≡ with_heap_pages pages.old from (to - from) }
{
    for page in from..to {
        pages.add_rights(page, 6);
    }
}

/// The first page from which on none is mapped, where none is from `bare` on; not below `first`.
pub fn first_bare(pages: &Pages, first: u32, bare: u32) -> u32
    requires { bare ≤ 0x70000 }
    ensures most { result ≤ bare }
    ensures free { (page : ℕ) → result ≤ page → page < bare → rights_at pages.now page ≡ None }
{
    let mut at = bare;
    while at > first {
        if pages.is_mapped(at - 1) {
            return at;
        }
        at -= 1;
    }
    at
}

/// Makes the mapped pages `low` to `end` part of the heap, and unmaps those from there up to `high`.
#[tactic(auto, using(crate::proofs::Heaps::kept_there))]
pub fn set_heap(pages: &mut Pages, low: u32, end: u32, high: u32)
    requires order { low ≤ end }
    requires above { end ≤ high }
    requires limit { high ≤ 0x70000 }
    requires mapped { lacks_page pages.old low (end - low) ≡ false }
    ensures { pages.new ≡ with_heap_pages (without_pages pages.old end (high - end)) low (end - low) }
{
    unmap_all(pages, end, high);
    add_rights_all(pages, low, end);
}

#[tactic(auto, using(crate::proofs::Heaps::lacking_done, crate::proofs::Heaps::lacking_mapped, crate::proofs::Heaps::lacking_more, crate::proofs::Heaps::lacks_is_none, crate::proofs::Heaps::undone))]
/// Maps the lacking pages of a range. Where memory is not found nothing changes.
pub fn map_lacking(pages: &mut Pages, from: u32, to: u32) -> Result<(), NoMemory>
    requires order { from ≤ to }
    requires limit { to ≤ 0x70000 }
    ensures ok { OnOk result (pages.new ≡ with_lacking pages.old from (to - from)) }
    ensures err { OnErr result (pages.new ≡ pages.old) }
{
    if from == to {
        return Ok(());
    }
    if pages.is_mapped(from) {
        return map_lacking(pages, from + 1, to);
    }
    match pages.map_zero(from, 6) {
        Err(_) => Err(NoMemory),
        Ok(()) => match map_lacking(pages, from + 1, to) {
            Ok(()) => Ok(()),
            Err(e) => {
                let _ = pages.unmap(from);
                Err(e)
            }
        },
    }
}
