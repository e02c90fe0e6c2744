// The pages that a process starts with.
ghost use Rattle.std.specs.Prelude.{◌≡◌, ◌≤◌, ◌<◌, ◌+◌, ◌*◌, ◌/◌, ◌^◌, ℕ, true, false, None, MatchResult, OnOk};
ghost use Rattle.std.specs.List.{list_any};
ghost use Rattle.std.specs.FinMap as map;
ghost use Rattle.elf_load.specs.Image.{touches, touched, is_start_page, is_out_of_range, start_page};
ghost use Rattle.elf_load.specs.Parts.{byte_from, from_to, is_page, IsPart, Added, IsFull, IsWhole};

use crate::content::{PAGE_SIZE, page_bytes, page_rights};
use crate::fault::{ImageFault, LoadError};
use crate::header::{end_of, is_segment};
use crate::image::Header;
use call_table::limit::PAGES;
use page_set::Pages;
use std::alloc::Global;

/// The first page of the stack, and the page after its last.
const STACK_PAGES: (u32, u32) = (0x7fff0, 0x80000);

/// Maps a page with its bytes and rights.
#[tactic(auto, using(crate::proofs::Started::put_is, crate::proofs::Started::is_mapped))]
fn put_page(
    pages: &mut Pages,
    page: u32,
    rights: u8,
    bytes: &[u8; PAGE_SIZE],
) -> Result<(), LoadError>
    requires page { page < 2 ^ 20 }
    requires rights { rights < 8 }
    requires free { map.get pages.old page ≡ None }
    ensures { MatchResult result (λ _. pages.new ≡ map.insert pages.old page (record { bytes = bytes.now; rights = rights })) (λ e. e ≡ LoadError.NoMemory) }
{
    match pages.map_zero(page, rights) {
        Ok(()) => {}
        Err(_) => return Err(LoadError::NoMemory),
    }
    pages.fill(page, 0, bytes);
    Ok(())
}

/// Maps a page with what it starts from, where it is not mapped yet.
#[tactic(auto, using(crate::proofs::Started::added_before, crate::proofs::Started::added_now, crate::proofs::Started::full_now, crate::proofs::Started::start_page_is))]
fn add_page(
    pages: &mut Pages,
    page: u32,
    file: &[u8],
    headers: &[Header],
    table: u32,
    stack: &[u8],
) -> Result<(), LoadError>
    requires page { page < 2 ^ 20 }
    requires here { is_start_page headers.now page ≡ true }
    requires part { IsPart (start_page file.now headers.now (byte_from table stack.now)) pages.old }
    ensures { MatchResult result (λ _. Added (start_page file.now headers.now (byte_from table stack.now)) (is_page page) pages.old pages.new) (λ e. IsFull (start_page file.now headers.now (byte_from table stack.now)) e) }
{
    if pages.is_mapped(page) {
        return Ok(());
    }
    if pages.count() >= PAGES {
        return Err(LoadError::Image(ImageFault::TooManyPages));
    }
    let rights = page_rights(headers, page);
    let bytes = page_bytes(page, file, headers, table, stack);
    put_page(pages, page, rights, &bytes)?;
    Ok(())
}

/// Maps the pages from `first` up to `end` that are not mapped yet.
#[tactic(auto, using(crate::proofs::Started::added_none, crate::proofs::Started::added_more, crate::proofs::Started::added_fewer))]
fn add_pages(
    pages: &mut Pages,
    first: u32,
    end: u32,
    file: &[u8],
    headers: &[Header],
    table: u32,
    stack: &[u8],
) -> Result<(), LoadError>
    requires order { first ≤ end }
    requires end { end ≤ 2 ^ 20 }
    requires here { (q : ℕ) → first ≤ q → q < end → is_start_page headers.now q ≡ true }
    requires part { IsPart (start_page file.now headers.now (byte_from table stack.now)) pages.old }
    ensures { MatchResult result (λ _. Added (start_page file.now headers.now (byte_from table stack.now)) (from_to first end) pages.old pages.new) (λ e. IsFull (start_page file.now headers.now (byte_from table stack.now)) e) }
{
    for page in first..end {
        add_page(pages, page, file, headers, table, stack)?;
    }
    Ok(())
}

/// Maps the pages that a segment touches and that are not mapped yet.
#[tactic(auto, using(crate::proofs::Segmented::touch_none, crate::proofs::Segmented::touch_all, crate::proofs::Segmented::end_within, crate::proofs::Segmented::is_touched))]
fn add_segment(
    pages: &mut Pages,
    h: &Header,
    file: &[u8],
    headers: &[Header],
    table: u32,
    stack: &[u8],
) -> Result<(), LoadError>
    requires range { is_out_of_range h.now ≡ false }
    requires here { (q : ℕ) → touches h.now q ≡ true → is_start_page headers.now q ≡ true }
    requires part { IsPart (start_page file.now headers.now (byte_from table stack.now)) pages.old }
    ensures { MatchResult result (λ _. Added (start_page file.now headers.now (byte_from table stack.now)) (touches h.now) pages.old pages.new) (λ e. IsFull (start_page file.now headers.now (byte_from table stack.now)) e) }
{
    if !is_segment(h) {
        return Ok(());
    }
    let first = h.addr / 4096;
    let end = end_of(h).div_ceil(4096) as u32;
    add_pages(pages, first, end, file, headers, table, stack)?;
    Ok(())
}

/// Maps the pages that the segments touch and that are not mapped yet.
#[tactic(auto, using(crate::proofs::Segmented::touched_none, crate::proofs::Segmented::touched_more, crate::proofs::Segmented::touched_all, crate::proofs::Segmented::in_range, crate::proofs::Segmented::start_of))]
fn add_segments(
    pages: &mut Pages,
    file: &[u8],
    headers: &[Header],
    table: u32,
    stack: &[u8],
) -> Result<(), LoadError>
    requires range { list_any is_out_of_range headers.now ≡ false }
    requires part { IsPart (start_page file.now headers.now (byte_from table stack.now)) pages.old }
    ensures { MatchResult result (λ _. Added (start_page file.now headers.now (byte_from table stack.now)) (touched headers.now) pages.old pages.new) (λ e. IsFull (start_page file.now headers.now (byte_from table stack.now)) e) }
{
    for h in headers {
        add_segment(pages, h, file, headers, table, stack)?;
    }
    Ok(())
}

/// The pages that a process starts with.
#[tactic(auto, using(crate::proofs::Segmented::empty_part, crate::proofs::Segmented::stack_start, crate::proofs::Segmented::whole_is))]
pub fn start_pages(
    alloc: Global,
    file: &[u8],
    headers: &[Header],
    table: u32,
    stack: &[u8],
) -> Result<Pages, LoadError>
    requires { list_any is_out_of_range headers.now ≡ false }
    ensures { MatchResult result (λ p. IsWhole (start_page file.now headers.now (byte_from table stack.now)) p) (λ e. IsFull (start_page file.now headers.now (byte_from table stack.now)) e) }
{
    let mut pages = Pages::new(alloc);
    let (first, end) = STACK_PAGES;
    add_pages(&mut pages, first, end, file, headers, table, stack)?;
    add_segments(&mut pages, file, headers, table, stack)?;
    Ok(pages)
}
