// The headers of a file, and the faults that they show.
ghost use Rattle.std.specs.Prelude.{◌≡◌, ◌<◌, ◌≤◌, ◌+◌, ◌*◌, ◌%◌, ◌^◌, false, IfOk, IfNone, length};
ghost use Rattle.std.specs.List.{list_any};
ghost use Rattle.std.specs.Option.{option_map};
ghost use Rattle.elf_load.specs.Image.{number_at, entry_of, table_at, header_count, header_at, headers_from, headers_of, is_load, is_dynamic, is_segment, is_bad_table, header_fault, field_fault, is_elf, base_of, is_out_of_file, is_out_of_range, segment_fault, greatest_end, end_of};
ghost use Rattle.elf_load.specs.Faults.{fault_number};

use crate::fault::ImageFault;
use crate::image::Header;
use byteorder::{ByteOrder, LittleEndian};
use call_table::NoMemory;
use std::alloc::Global;

/// How an ELF file of 32 bits begins that is little endian: the magic number, the class, the order of bytes, the version.
const MAGIC: [u8; 7] = [0x7F, b'E', b'L', b'F', 1, 1, 1];

const HEADER_SIZE: usize = 52;

const PROGRAM_HEADER_SIZE: usize = 32;

const EXECUTABLE: u16 = 2;

const RISCV: u16 = 243;

const LOAD: u32 = 1;

const DYNAMIC: u32 = 2;

const INTERPRETER: u32 = 3;

/// The number in the two bytes at `at`.
#[tactic(auto, using(crate::proofs::Numbers::number_is))]
fn number_2(file: &[u8], at: usize) -> u16
    requires { at + 2 ≤ length file.now }
    ensures { result ≡ number_at 2 file.now at }
{
    LittleEndian::read_u16(&file[at..])
}

/// The number in the four bytes at `at`.
#[tactic(auto, using(crate::proofs::Numbers::number_is))]
fn number_4(file: &[u8], at: usize) -> u32
    requires { at + 4 ≤ length file.now }
    ensures { result ≡ number_at 4 file.now at }
{
    LittleEndian::read_u32(&file[at..])
}

/// Where the program starts.
pub fn entry(file: &[u8]) -> u32
    requires { 52 ≤ length file.now }
    ensures { result ≡ entry_of file.now }
{
    number_4(file, 24)
}

fn table_at(file: &[u8]) -> usize
    requires { 52 ≤ length file.now }
    ensures is { result ≡ table_at file.now }
    ensures small { result < 2 ^ 32 }
{
    number_4(file, 28) as usize
}

fn header_count(file: &[u8]) -> usize
    requires { 52 ≤ length file.now }
    ensures is { result ≡ header_count file.now }
    ensures small { result < 2 ^ 16 }
{
    number_2(file, 44) as usize
}

/// Whether the program headers are not 32 bytes long, or end past the file.
fn is_bad_table(file: &[u8]) -> bool
    requires { 52 ≤ length file.now }
    ensures { result ≡ is_bad_table file.now }
{
    let count = header_count(file);
    if count == 0 {
        return false;
    }
    number_2(file, 42) != 32 || file.len() < table_at(file) + PROGRAM_HEADER_SIZE * count
}

fn is_elf(file: &[u8]) -> bool
    requires { 52 ≤ length file.now }
    ensures { result ≡ is_elf file.now }
{
    file.starts_with(&MAGIC) && number_4(file, 20) == 1
}

/// The first of the faults of the type, the machine, the flags and the table of an ELF file.
fn field_fault(file: &[u8]) -> Option<ImageFault>
    requires { 52 ≤ length file.now }
    ensures is { option_map fault_number result ≡ field_fault file.now }
    ensures table { IfNone result (0 < header_count file.now → table_at file.now + 32 * header_count file.now ≤ length file.now) }
{
    if number_2(file, 16) != EXECUTABLE {
        return Some(ImageFault::NotExec);
    }
    if number_2(file, 18) != RISCV {
        return Some(ImageFault::NotRiscv);
    }
    if number_4(file, 36) % 16 != 0 {
        return Some(ImageFault::Flags);
    }
    if is_bad_table(file) {
        return Some(ImageFault::Header);
    }
    None
}

/// The first of the faults that the file's own header shows.
pub fn header_fault(file: &[u8]) -> Option<ImageFault>
    ensures is { option_map fault_number result ≡ header_fault file.now }
    ensures long { IfNone result (52 ≤ length file.now) }
    ensures table { IfNone result (0 < header_count file.now → table_at file.now + 32 * header_count file.now ≤ length file.now) }
{
    if file.len() < HEADER_SIZE {
        return Some(ImageFault::Short);
    }
    if !is_elf(file) {
        return Some(ImageFault::NotElf32Le);
    }
    field_fault(file)
}

fn header(file: &[u8], at: usize) -> Header
    requires { at + 32 ≤ length file.now }
    ensures { result ≡ header_at file.now at }
{
    Header {
        kind: number_4(file, at),
        offset: number_4(file, at + 4),
        addr: number_4(file, at + 8),
        file_size: number_4(file, at + 16),
        memory_size: number_4(file, at + 20),
        flags: number_4(file, at + 24),
    }
}

/// The program headers, in table order.
#[tactic(auto, using(crate::proofs::Headers::headers_none, crate::proofs::Headers::headers_more))]
pub fn headers(alloc: Global, file: &[u8]) -> Result<Vec<Header>, NoMemory>
    requires long { 52 ≤ length file.now }
    requires table { 0 < header_count file.now → table_at file.now + 32 * header_count file.now ≤ length file.now }
    ensures { IfOk result (λ v. v.items ≡ headers_of file.now) }
{
    let first = table_at(file);
    let mut headers = Vec::new(alloc);
    for i in 0..header_count(file) {
        headers.push(header(file, first + PROGRAM_HEADER_SIZE * i))?;
    }
    Ok(headers)
}

// ---- one program header

pub fn is_load(h: &Header) -> bool
    ensures { result ≡ is_load h.now }
{
    h.kind == LOAD
}

fn is_dynamic(h: &Header) -> bool
    ensures { result ≡ is_dynamic h.now }
{
    h.kind == DYNAMIC || h.kind == INTERPRETER
}

/// Whether it is a segment of at least one byte.
pub fn is_segment(h: &Header) -> bool
    ensures { result ≡ is_segment h.now }
{
    is_load(h) && 0 < h.memory_size
}

/// The address after the segment's last byte.
pub fn end_of(h: &Header) -> u64
    ensures is { result ≡ end_of h.now }
    ensures small { result < 2 ^ 33 }
{
    h.addr as u64 + h.memory_size as u64
}

/// Whether the segment's part of the file is too large for it, or ends past the file.
fn is_out_of_file(file: &[u8], h: &Header) -> bool
    ensures { result ≡ is_out_of_file file.now h.now }
{
    if !is_load(h) {
        return false;
    }
    if h.memory_size < h.file_size {
        return true;
    }
    0 < h.file_size && (file.len() as u64) < h.offset as u64 + h.file_size as u64
}

/// Whether the segment does not lie from 0x1000 to 0x70000000.
fn is_out_of_range(h: &Header) -> bool
    ensures { result ≡ is_out_of_range h.now }
{
    is_segment(h) && (h.addr < 0x1000 || 0x7000_0000 < end_of(h))
}

// ---- all program headers

fn any_dynamic(headers: &[Header]) -> bool
    ensures { result ≡ list_any is_dynamic headers.now }
{
    headers.iter().any(|h| is_dynamic(h))
}

fn any_out_of_file(file: &[u8], headers: &[Header]) -> bool
    ensures { result ≡ list_any (is_out_of_file file.now) headers.now }
{
    headers.iter().any(|h| is_out_of_file(file, h))
}

fn any_out_of_range(headers: &[Header]) -> bool
    ensures { result ≡ list_any is_out_of_range headers.now }
{
    headers.iter().any(|h| is_out_of_range(h))
}

/// The first of the faults that the program headers show.
pub fn segment_fault(file: &[u8], headers: &[Header]) -> Option<ImageFault>
    ensures is { option_map fault_number result ≡ segment_fault file.now headers.now }
    ensures range { IfNone result (list_any is_out_of_range headers.now ≡ false) }
{
    if any_dynamic(headers) {
        return Some(ImageFault::Dynamic);
    }
    if any_out_of_file(file, headers) {
        return Some(ImageFault::Segment);
    }
    if any_out_of_range(headers) {
        return Some(ImageFault::Range);
    }
    None
}

/// The greatest end of a segment.
#[tactic(auto, using(crate::proofs::Headers::greatest_more, crate::proofs::Headers::greatest_all))]
fn greatest_end(headers: &[Header]) -> u64
    ensures is { result ≡ greatest_end headers.now 0 }
    ensures small { result < 2 ^ 33 }
{
    let mut most = 0;
    for h in headers {
        if is_segment(h) {
            most = most.max(end_of(h));
        }
    }
    most
}

/// Where the heap begins: after the last segment, at a page.
#[tactic(auto, using(crate::proofs::Headers::greatest_in_range))]
pub fn base(headers: &[Header]) -> u32
    requires { list_any is_out_of_range headers.now ≡ false }
    ensures is { result ≡ base_of headers.now }
    ensures multiple { result % 4096 ≡ 0 }
    ensures limit { result ≤ 0x70000000 }
{
    greatest_end(headers).div_ceil(4096) as u32 * 4096
}
