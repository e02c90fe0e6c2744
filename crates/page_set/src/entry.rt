// Cached frames: entries in front of the tree, each for the pages whose numbers end in its place.
ghost use Rattle.std.specs.Prelude.{◌≡◌, ◌<◌, ◌≤◌, ◌+◌, ◌/◌, ◌%◌, ◌^◌, Ok, IfSome, IsSome, MatchOption, length, true, false};
ghost use Rattle.page_set.specs.Pages.{loaded, stored};
ghost use Rattle.page_set.specs.Tree.{pages_of, grants};
ghost use Rattle.page_set.specs.Entries.{AreCached, AreMoved, IsFound, Wrote, IsUncached, IsPutBack, IsTaken, cached_pages, frame_of_entry};

use crate::access::{self, number_1, number_2, number_4};
use crate::frame::{Frame, Leaf};
use crate::tree::{frame, has, place, take, write_frame, write_page};

/// A number that no page has.
const NO_PAGE: u64 = 0xFFFF_FFFF_FFFF_FFFF;

const NO_ENTRY: Entry = Entry {
    frame: None,
    readable: NO_PAGE,
    writable: NO_PAGE,
};

/// A cached frame, with the number of its page where that can be read, and where it can be written.
#[derive(Drop)]
pub struct Entry {
    pub frame: Option<Box<Frame>>,
    pub readable: u64,
    pub writable: u64,
}

/// No cached frame.
#[tactic(auto, using(crate::proofs::Entries::none_cached, crate::proofs::Entries::none_same))]
pub fn no_entries(leaves: &Vec<Option<Box<Leaf>>>) -> [Entry; 16]
    ensures cached { AreCached result leaves.now.items }
    ensures same { cached_pages result leaves.now.items ≡ pages_of leaves.now.items }
{
    [
        NO_ENTRY, NO_ENTRY, NO_ENTRY, NO_ENTRY, NO_ENTRY, NO_ENTRY, NO_ENTRY, NO_ENTRY, NO_ENTRY,
        NO_ENTRY, NO_ENTRY, NO_ENTRY, NO_ENTRY, NO_ENTRY, NO_ENTRY, NO_ENTRY,
    ]
}

// ---- loads

/// The number of the page in which bytes end, so many behind the one at an address.
#[inline(always)]
fn page_of_last(addr: u32, more: u32) -> u64
    ensures { result ≡ (addr + more) / 4096 }
{
    (addr as u64 + more as u64) / 4096
}

/// The frame of the page of an address, where it is cached and has so many bytes more behind the one there. One comparison tells both:
/// the page after it has an entry of its own.
#[inline(always)]
#[tactic(auto, using(crate::proofs::Entries::found_at, crate::proofs::Entries::not_bare))]
fn find<'a>(
    entries: &'a [Entry; 16],
    leaves: &Vec<Option<Box<Leaf>>>,
    addr: u32,
    more: u32,
) -> Option<&'a Frame>
    requires more { more < 4096 }
    requires cached { AreCached entries.now leaves.now.items }
    ensures found { IfSome result (λ f. IsFound entries.now leaves.now.items (addr / 4096) f.now) }
    ensures within { IfSome result (λ f. addr % 4096 + more < 4096) }
{
    let entry = &entries[(addr / 4096 % 16) as usize];
    if entry.readable != page_of_last(addr, more) {
        return None;
    }
    match &entry.frame {
        None => unreachable!(),
        Some(frame) => Some(&**frame),
    }
}

/// The byte at an address, where its page is cached.
#[inline(always)]
#[tactic(auto, using(crate::proofs::Entries::cached_loads))]
pub fn load_1(entries: &[Entry; 16], leaves: &Vec<Option<Box<Leaf>>>, addr: u32) -> Option<u8>
    requires { AreCached entries.now leaves.now.items }
    ensures { IfSome result (λ w. loaded (cached_pages entries.now leaves.now.items) addr 1 4 ≡ Ok w) }
{
    match find(entries, leaves, addr, 0) {
        None => None,
        Some(frame) => Some(number_1(frame, (addr % 4096) as usize)),
    }
}

/// The two bytes from an address on, where they lie in one cached page.
#[inline(always)]
#[tactic(auto, using(crate::proofs::Entries::cached_loads))]
pub fn load_2(entries: &[Entry; 16], leaves: &Vec<Option<Box<Leaf>>>, addr: u32) -> Option<u16>
    requires { AreCached entries.now leaves.now.items }
    ensures { IfSome result (λ w. loaded (cached_pages entries.now leaves.now.items) addr 2 4 ≡ Ok w) }
{
    match find(entries, leaves, addr, 1) {
        None => None,
        Some(frame) => Some(number_2(frame, (addr % 4096) as usize)),
    }
}

/// The four bytes from an address on, where they lie in one cached page.
#[inline(always)]
#[tactic(auto, using(crate::proofs::Entries::cached_loads))]
pub fn load_4(entries: &[Entry; 16], leaves: &Vec<Option<Box<Leaf>>>, addr: u32) -> Option<u32>
    requires { AreCached entries.now leaves.now.items }
    ensures { IfSome result (λ w. loaded (cached_pages entries.now leaves.now.items) addr 4 4 ≡ Ok w) }
{
    match find(entries, leaves, addr, 3) {
        None => None,
        Some(frame) => Some(number_4(frame, (addr % 4096) as usize)),
    }
}

// ---- stores

/// Writes bytes to the page of an entry, where it is the one in which they end and can be written.
#[inline(always)]
fn write_entry(entry: &mut Entry, last: u64, at: usize, bytes: &[u8]) -> bool
    requires last { last ≤ 2 ^ 20 }
    requires at { entry.old.writable ≡ last → at + length bytes.now ≤ 4096 }
    requires there { entry.old.writable ≤ 2 ^ 20 → IsSome (frame_of_entry entry.old) }
    ensures { Wrote result last at bytes.now entry.old entry.new }
{
    if entry.writable != last {
        return false;
    }
    match &mut entry.frame {
        None => unreachable!(),
        Some(frame) => {
            write_frame(&mut **frame, at, bytes);
            true
        }
    }
}

/// Stores bytes, where they lie in one page that is cached and can be written. Else nothing changes.
#[inline(always)]
#[tactic(auto, using(crate::proofs::Entries::stored_is, crate::proofs::Entries::not_stored))]
pub fn store(
    entries: &mut [Entry; 16],
    leaves: &Vec<Option<Box<Leaf>>>,
    addr: u32,
    bytes: &[u8],
) -> bool
    requires some { 0 < length bytes.now }
    requires few { length bytes.now ≤ 4096 }
    requires cached { AreCached entries.old leaves.now.items }
    ensures cached { AreCached entries.new leaves.now.items }
    ensures is { result ≡ true → stored (cached_pages entries.old leaves.now.items) addr bytes.now ≡ Ok (cached_pages entries.new leaves.now.items) }
    ensures not { result ≡ false → cached_pages entries.new leaves.now.items ≡ cached_pages entries.old leaves.now.items }
{
    let last = page_of_last(addr, bytes.len() as u32 - 1);
    write_entry(
        &mut entries[(addr / 4096 % 16) as usize],
        last,
        (addr % 4096) as usize,
        bytes,
    )
}

// ---- pages that are not cached

/// Whether the frame of a page is where the tree has it.
#[inline(always)]
#[tactic(auto, using(crate::proofs::Entries::uncached))]
fn is_uncached(entries: &[Entry; 16], leaves: &Vec<Option<Box<Leaf>>>, page: u32) -> bool
    requires { AreCached entries.now leaves.now.items }
    ensures { result ≡ true → IsUncached entries.now page }
{
    entries[(page % 16) as usize].readable != page as u64
}

/// The byte at an address, where its page is not cached and can be read.
#[tactic(auto, using(crate::proofs::Entries::uncached_loads))]
pub fn uncached_load_1(
    entries: &[Entry; 16],
    leaves: &Vec<Option<Box<Leaf>>>,
    addr: u32,
) -> Option<u8>
    requires { AreCached entries.now leaves.now.items }
    ensures { IfSome result (λ w. loaded (cached_pages entries.now leaves.now.items) addr 1 4 ≡ Ok w) }
{
    if !is_uncached(entries, leaves, addr / 4096) {
        return None;
    }
    match access::load_1(leaves, addr, 4) {
        Ok(byte) => Some(byte),
        Err(_) => None,
    }
}

/// The two bytes from an address on, where they lie in one page that is not cached and can be read.
#[tactic(auto, using(crate::proofs::Entries::uncached_loads))]
pub fn uncached_load_2(
    entries: &[Entry; 16],
    leaves: &Vec<Option<Box<Leaf>>>,
    addr: u32,
) -> Option<u16>
    requires { AreCached entries.now leaves.now.items }
    ensures { IfSome result (λ w. loaded (cached_pages entries.now leaves.now.items) addr 2 4 ≡ Ok w) }
{
    if addr % 4096 > 4096 - 2 || !is_uncached(entries, leaves, addr / 4096) {
        return None;
    }
    match access::load_2(leaves, addr, 4) {
        Ok(half) => Some(half),
        Err(_) => None,
    }
}

/// The four bytes from an address on, where they lie in one page that is not cached and can be read.
#[tactic(auto, using(crate::proofs::Entries::uncached_loads))]
pub fn uncached_load_4(
    entries: &[Entry; 16],
    leaves: &Vec<Option<Box<Leaf>>>,
    addr: u32,
) -> Option<u32>
    requires { AreCached entries.now leaves.now.items }
    ensures { IfSome result (λ w. loaded (cached_pages entries.now leaves.now.items) addr 4 4 ≡ Ok w) }
{
    if addr % 4096 > 4096 - 4 || !is_uncached(entries, leaves, addr / 4096) {
        return None;
    }
    match access::load_4(leaves, addr, 4) {
        Ok(word) => Some(word),
        Err(_) => None,
    }
}

/// Stores bytes that lie in one page, where it is not cached and can be written. Else nothing changes.
#[tactic(auto, using(crate::proofs::Entries::uncached_cached, crate::proofs::Entries::uncached_stored, crate::proofs::Entries::uncached_kept))]
pub fn uncached_store(
    entries: &[Entry; 16],
    leaves: &mut Vec<Option<Box<Leaf>>>,
    addr: u32,
    bytes: &[u8],
) -> bool
    requires some { 0 < length bytes.now }
    requires fits { addr % 4096 + length bytes.now ≤ 4096 }
    requires cached { AreCached entries.now leaves.old.items }
    ensures cached { AreCached entries.now leaves.new.items }
    ensures is { result ≡ true → stored (cached_pages entries.now leaves.old.items) addr bytes.now ≡ Ok (cached_pages entries.now leaves.new.items) }
    ensures not { result ≡ false → cached_pages entries.now leaves.new.items ≡ cached_pages entries.now leaves.old.items }
{
    let page = addr / 4096;
    if !is_uncached(entries, leaves, page) {
        return false;
    }
    write_page(leaves, page, 2, (addr % 4096) as usize, bytes)
}

// ---- into the tree, and out of it

/// Puts the frame of an entry, if any, back into the tree.
#[tactic(auto, using(crate::proofs::Entries::has_leaf, crate::proofs::Entries::put_back_bare, crate::proofs::Entries::put_back_none, crate::proofs::Entries::put_back_some))]
fn put_back(entries: &mut [Entry; 16], leaves: &mut Vec<Option<Box<Leaf>>>, at: usize)
    requires at { at < 16 }
    requires cached { AreCached entries.old leaves.old.items }
    ensures { IsPutBack at entries.old leaves.old.items entries.new leaves.new.items }
{
    if entries[at].readable == NO_PAGE {
        return;
    }
    let entry = std::mem::replace(&mut entries[at], NO_ENTRY);
    let number = entry.readable;
    match entry.frame {
        None => {}
        Some(frame) => place(leaves, number as u32, Some(frame)),
    }
}

/// Puts every frame back into the tree.
#[tactic(auto, using(crate::proofs::Entries::put_none, crate::proofs::Entries::put_more, crate::proofs::Entries::put_all))]
pub fn put_all_back(entries: &mut [Entry; 16], leaves: &mut Vec<Option<Box<Leaf>>>)
    requires { AreCached entries.old leaves.old.items }
    ensures { pages_of leaves.new.items ≡ cached_pages entries.old leaves.old.items }
{
    for at in 0..16usize {
        put_back(entries, leaves, at);
    }
}

/// The number of a page, where it can be written.
fn writable_as(frame: &Frame, page: u32) -> u64
    ensures { result ≤ 2 ^ 20 → (result ≡ page) × (grants 2 frame.now ≡ true) }
{
    if has(frame, 2) { page as u64 } else { NO_PAGE }
}

/// Takes the frame of a page out of the tree, where it can be read.
#[tactic(auto, using(crate::proofs::Entries::readable_leaf, crate::proofs::Entries::taken))]
fn take_out(leaves: &mut Vec<Option<Box<Leaf>>>, page: u32) -> Option<Entry>
    requires { page < 2 ^ 20 }
    ensures { MatchOption result (leaves.new.items ≡ leaves.old.items) (λ e. IsTaken page leaves.old.items leaves.new.items e) }
{
    let writable = match frame(leaves, page) {
        Some(frame) if has(frame, 4) => writable_as(frame, page),
        _ => return None,
    };
    let frame = take(leaves, page);
    Some(Entry {
        frame,
        readable: page as u64,
        writable,
    })
}

/// Caches a page, where it can be read.
#[tactic(auto, using(crate::proofs::Entries::fetched_none, crate::proofs::Entries::fetched))]
pub fn fetch(entries: &mut [Entry; 16], leaves: &mut Vec<Option<Box<Leaf>>>, page: u32)
    requires page { page < 2 ^ 20 }
    requires cached { AreCached entries.old leaves.old.items }
    ensures { AreMoved entries.old leaves.old.items entries.new leaves.new.items }
{
    let at = (page % 16) as usize;
    put_back(entries, leaves, at);
    match take_out(leaves, page) {
        None => {}
        Some(entry) => entries[at] = entry,
    }
}
