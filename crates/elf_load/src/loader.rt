// From a file and the words of its line to a process.
ghost use Rattle.std.specs.Prelude.{◌≡◌, ◌≤◌, ◌+◌, ◌*◌, ◌<◌, ◌^◌, false, length, MatchResult};
ghost use Rattle.std.specs.List.{list_any};
ghost use Rattle.std.specs.Option.{option_or};
ghost use Rattle.std.specs.FinMap as map;
ghost use Rattle.elf_load.specs.Image.{start_size, header_count, table_at, headers_of, is_out_of_range, entry_of, is_bad_entry, segment_fault, page_fault, start_page, stack_byte, start_pages, start_user, image_or, image_of};
ghost use Rattle.elf_load.specs.Faults.{Loads};
ghost use Rattle.elf_load.specs.Parts.{IsWhole, IsFull};

use crate::fault::{ImageFault, LoadError};
use crate::image::Header;
use crate::{header, stack, start};
use call_table::Words;
use page_set::Pages;
use std::alloc::Global;
use user_ctx::User;

/// Whether the entry is not a multiple of 4, or its page cannot be executed.
#[tactic(auto, using(crate::proofs::Loaded::not_mapped, crate::proofs::Loaded::mapped))]
fn is_bad_entry(file: &[u8], pages: &Pages) -> bool
    requires { 52 ≤ length file.now }
    ensures { result ≡ is_bad_entry (entry_of file.now) pages.now }
{
    let entry = header::entry(file);
    if entry % 4 != 0 {
        return true;
    }
    match pages.rights(entry / 4096) {
        None => true,
        Some(rights) => rights & 1 != 1,
    }
}

/// The pages of a file whose headers are in order.
#[tactic(auto, using(crate::proofs::Loaded::stack_is))]
pub fn image_pages(
    alloc: Global,
    file: &[u8],
    headers: &[Header],
    words: &Words,
) -> Result<Pages, LoadError>
    requires range { list_any is_out_of_range headers.now ≡ false }
    requires words { start_size words.now ≤ 8192 }
    ensures { MatchResult result (λ p. IsWhole (start_page file.now headers.now (stack_byte words.now)) p) (λ e. IsFull (start_page file.now headers.now (stack_byte words.now)) e) }
{
    let table = stack::table_start(words);
    match stack::stack_bytes(alloc, words) {
        Ok(stack) => start::start_pages(alloc, file, headers, table, stack.as_slice()),
        Err(_) => Err(LoadError::NoMemory),
    }
}

/// The process of a file whose program headers lie within it, or the first fault that they or the pages show.
fn load_segments(
    alloc: Global,
    file: &[u8],
    headers: &[Header],
    words: &Words,
) -> Result<User, LoadError>
    requires long { 52 ≤ length file.now }
    requires headers { headers.now ≡ headers_of file.now }
    requires words { start_size words.now ≤ 8192 }
    ensures { Loads result (image_or (option_or (segment_fault file.now (headers_of file.now)) (page_fault file.now (start_pages file.now words.now))) (start_user file.now words.now)) }
{
    match header::segment_fault(file, headers) {
        Some(fault) => return Err(LoadError::Image(fault)),
        None => {}
    }
    let pages = image_pages(alloc, file, headers, words)?;
    if is_bad_entry(file, &pages) {
        return Err(LoadError::Image(ImageFault::Entry));
    }
    let table = stack::table_start(words);
    let base = header::base(headers);
    Ok(User::new(
        header::entry(file),
        table / 16 * 16,
        stack::word_count(words),
        table,
        pages,
        base,
    ))
}

/// The process that starts from an executable, with the words of its line on its stack, the image's name first.
///
/// The file is an ELF file of 32 bits for RISC-V, little endian, with its segments from 0x1000 to 0x70000000
/// (System V ABI, 'Object Files', the ELF header and the program header). A file that is not accepted gives the first
/// of its faults in the order of `ImageFault`.
pub fn load(alloc: Global, bytes: &[u8], words: &Words) -> Result<User, LoadError>
    requires { start_size words.now ≤ 8192 }
    ensures { Loads result (image_of bytes.now words.now) }
{
    match header::header_fault(bytes) {
        Some(fault) => return Err(LoadError::Image(fault)),
        None => {}
    }
    match header::headers(alloc, bytes) {
        Ok(headers) => load_segments(alloc, bytes, headers.as_slice(), words),
        Err(_) => Err(LoadError::NoMemory),
    }
}
