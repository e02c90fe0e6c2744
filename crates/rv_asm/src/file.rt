// The file of a program.
ghost use Rattle.std.specs.Prelude.{◌≡◌, ◌+◌, ◌++◌, slice_index, IfOk, OnOk};
ghost use Rattle.rv_asm.specs.File.{word, elf_header, program_header, file_of};

use crate::code::push_word;
use call_table::{Bytes, NoMemory};
use std::alloc::Global;

// The ELF header: an executable of RISC-V with one program header.
const ELF_HEADER: [u8; 52] = [
    0x7F, b'E', b'L', b'F', 1, 1, 1, 0, 0, 0, 0, 0, 0, 0, 0, 0, // 32 bits, little endian
    2, 0, 243, 0, 1, 0, 0, 0, // an executable, RISC-V, version 1
    0, 0, 1, 0, 52, 0, 0, 0, // entry 0x10000, program headers at 52
    0, 0, 0, 0, 0, 0, 0, 0, // no section headers, no flags
    52, 0, 32, 0, 1, 0, 0, 0, 0, 0, 0, 0, // sizes and counts
];

// The address that the first byte is loaded at.
const BASE: u32 = 0x1_0000;

fn push_elf_header(out: &mut Bytes) -> Result<(), NoMemory>
    ensures { OnOk result (out.new ≡ out.old ++ elf_header) }
{
    out.push_slice(&ELF_HEADER)
}

fn push_two(out: &mut Bytes, first: u32, second: u32) -> Result<(), NoMemory>
    ensures { OnOk result (out.new ≡ out.old ++ (word first ++ word second)) }
{
    push_word(out, first)?;
    push_word(out, second)
}

fn push_four(out: &mut Bytes, words: [u32; 4]) -> Result<(), NoMemory>
    ensures { OnOk result (out.new ≡ out.old ++ ((word (slice_index words 0) ++ word (slice_index words 1)) ++ (word (slice_index words 2) ++ word (slice_index words 3)))) }
{
    push_two(out, words[0], words[1])?;
    push_two(out, words[2], words[3])
}

// The program header: bytes 84 and on of the file, with all rights.
fn push_program_header(out: &mut Bytes, file_size: u32, memory_size: u32) -> Result<(), NoMemory>
    ensures { OnOk result (out.new ≡ out.old ++ program_header file_size memory_size) }
{
    push_four(out, [1, 84, BASE, BASE])?;
    push_four(out, [file_size, memory_size, 7, 4])
}

fn push_headers(out: &mut Bytes, file_size: u32, memory_size: u32) -> Result<(), NoMemory>
    ensures { OnOk result (out.new ≡ out.old ++ (elf_header ++ program_header file_size memory_size)) }
{
    push_elf_header(out)?;
    push_program_header(out, file_size, memory_size)
}

/// The file of these bytes, behind which so many zeros stand in memory. Sizes are told modulo 2^32.
#[tactic(auto, using(crate::proofs::FileLemmas::is_file))]
pub fn write_file(alloc: Global, bytes: &Bytes, bss: u32) -> Result<Bytes, NoMemory>
    ensures { IfOk result (λ file. file ≡ file_of bytes.now bss) }
{
    let file_size = (bytes.len() % 0x1_0000_0000) as u32;
    let mut out = Bytes::new(alloc);
    push_headers(&mut out, file_size, file_size.wrapping_add(bss))?;
    out.push_slice(bytes.as_slice())?;
    Ok(out)
}
