// What one page starts from: its bytes and its rights.
ghost use Rattle.std.specs.Prelude.{◌≡◌, ◌≤◌, ◌<◌, ◌+◌, ◌*◌, ◌^◌, ◌%◌, ℕ, bit_or, length, take, drop, slice_index, if◌then◌else◌};
ghost use Rattle.elf_load.specs.Image.{contains, segment_byte, placed_byte, touches, page_rights, stack_rights};
ghost use Rattle.elf_load.specs.Parts.{after_write, byte_from, covers, IsSeenFrom};

use crate::header::{end_of, is_load, is_segment};
use crate::image::Header;

pub const PAGE_SIZE: usize = 4096;

/// Writes `source` from `at` on, and zeros behind it up to `end`.
#[tactic(auto, using(crate::proofs::Runs::run_is))]
fn write_run(bytes: &mut [u8; PAGE_SIZE], at: usize, end: usize, source: &[u8])
    requires order { at ≤ end }
    requires end { end ≤ 4096 }
    ensures { (k : ℕ) → k < 4096 → slice_index bytes.new k ≡ after_write bytes.old at end source.now k }
{
    let len = source.len().min(end - at);
    bytes[at..at + len].copy_from_slice(&source[..len]);
    bytes[at + len..end].fill(0);
}

/// At most `limit` bytes of a file from a place on.
#[tactic(auto, using(crate::proofs::Runs::part_is))]
fn part_of(file: &[u8], from: usize, limit: usize) -> &[u8]
    ensures { result.now ≡ take limit (drop from file.now) }
{
    let (_, rest) = file.split_at(from.min(file.len()));
    let (part, _) = rest.split_at(limit.min(rest.len()));
    part
}

/// Writes on a page what a segment places there: the file's bytes, and zeros past the file's part.
#[tactic(auto, using(crate::proofs::Segments::segment_written, crate::proofs::Segments::segment_not_load, crate::proofs::Segments::segment_elsewhere))]
fn write_segment(bytes: &mut [u8; PAGE_SIZE], page: u32, file: &[u8], h: &Header)
    requires { page < 2 ^ 20 }
    ensures { (k : ℕ) → k < 4096 → slice_index bytes.new k ≡ (if contains h.now (page * 4096 + k) then segment_byte file.now h.now (page * 4096 + k) else slice_index bytes.old k) }
{
    if !is_load(h) {
        return;
    }
    let first = page as usize * PAGE_SIZE;
    let start = first.max(h.addr as usize);
    let end = (end_of(h) as usize).min(first + PAGE_SIZE);
    if end <= start {
        return;
    }
    let skipped = start - h.addr as usize;
    let limit = (h.file_size as usize).saturating_sub(skipped);
    let part = part_of(file, h.offset as usize + skipped, limit);
    write_run(bytes, start - first, end - first, part);
}

/// Writes on a page what the segments place there, in table order.
#[tactic(auto, using(crate::proofs::Segments::placed_more, crate::proofs::Segments::placed_all))]
fn write_segments(bytes: &mut [u8; PAGE_SIZE], page: u32, file: &[u8], headers: &[Header])
    requires { page < 2 ^ 20 }
    ensures { (k : ℕ) → k < 4096 → slice_index bytes.new k ≡ placed_byte file.now headers.now (page * 4096 + k) (slice_index bytes.old k) }
{
    for h in headers {
        write_segment(bytes, page, file, h);
    }
}

/// Whether a segment fills a page.
fn covers(h: &Header, page: u32) -> bool
    requires { page < 2 ^ 20 }
    ensures { result ≡ covers h.now page }
{
    if !is_load(h) {
        return false;
    }
    let first = page as u64 * PAGE_SIZE as u64;
    h.addr as u64 <= first && first + PAGE_SIZE as u64 <= end_of(h)
}

/// The place of the last segment that fills a page, before which none shows on it; 0 where none fills it.
#[tactic(auto, using(crate::proofs::Covered::seen_whole, crate::proofs::Covered::seen_from))]
fn first_seen(headers: &[Header], page: u32) -> usize
    requires { page < 2 ^ 20 }
    ensures { IsSeenFrom headers.now page result }
{
    for i in (0..headers.len()).rev() {
        if covers(&headers[i], page) {
            return i;
        }
    }
    0
}

/// Writes on a page what shows there of the segments.
#[tactic(auto, using(crate::proofs::Covered::seen_bytes))]
fn write_seen(bytes: &mut [u8; PAGE_SIZE], page: u32, file: &[u8], headers: &[Header])
    requires { page < 2 ^ 20 }
    ensures { (k : ℕ) → k < 4096 → slice_index bytes.new k ≡ placed_byte file.now headers.now (page * 4096 + k) (slice_index bytes.old k) }
{
    let (_, seen) = headers.split_at(first_seen(headers, page));
    write_segments(bytes, page, file, seen);
}

/// The bytes of a page on which nothing but the stack's bytes stands, which begin at `table`.
#[tactic(auto, using(crate::proofs::Segments::stack_written, crate::proofs::Segments::stack_above))]
fn stack_page(page: u32, table: u32, stack: &[u8]) -> [u8; PAGE_SIZE]
    requires { page < 2 ^ 20 }
    ensures { (k : ℕ) → k < 4096 → slice_index result k ≡ byte_from table stack.now (page * 4096 + k) }
{
    let mut bytes = [0; PAGE_SIZE];
    let first = page as usize * PAGE_SIZE;
    let start = first.max(table as usize);
    if start < first + PAGE_SIZE {
        let part = part_of(stack, start - table as usize, PAGE_SIZE);
        write_run(&mut bytes, start - first, PAGE_SIZE, part);
    }
    bytes
}

/// The bytes that a page starts from.
pub fn page_bytes(
    page: u32,
    file: &[u8],
    headers: &[Header],
    table: u32,
    stack: &[u8],
) -> [u8; PAGE_SIZE]
    requires { page < 2 ^ 20 }
    ensures { (k : ℕ) → k < 4096 → slice_index result k ≡ placed_byte file.now headers.now (page * 4096 + k) (byte_from table stack.now (page * 4096 + k)) }
{
    let mut bytes = stack_page(page, table, stack);
    write_seen(&mut bytes, page, file, headers);
    bytes
}

fn touches(h: &Header, page: u32) -> bool
    ensures { result ≡ touches h.now page }
{
    if !is_segment(h) {
        return false;
    }
    h.addr / 4096 <= page && (page as u64) < end_of(h).div_ceil(4096)
}

/// The rights of a page after those of a segment are added, where it touches the page.
#[tactic(auto, using(crate::proofs::Segments::rights_small))]
fn with_rights(rights: u8, h: &Header, page: u32) -> u8
    requires { rights < 8 }
    ensures is { result ≡ (if touches h.now page then bit_or rights (h.now.flags % 8) else rights) }
    ensures small { result < 8 }
{
    if touches(h, page) {
        rights | (h.flags % 8) as u8
    } else {
        rights
    }
}

/// The rights that a page starts with: those of the segments that touch it, and of the stack.
#[tactic(auto, using(crate::proofs::Segments::rights_more, crate::proofs::Segments::rights_all))]
pub fn page_rights(headers: &[Header], page: u32) -> u8
    ensures is { result ≡ page_rights headers.now page (stack_rights page) }
    ensures small { result < 8 }
{
    let mut rights = if 0x7fff0 <= page && page < 0x80000 {
        6
    } else {
        0
    };
    for h in headers {
        rights = with_rights(rights, h, page);
    }
    rights
}
