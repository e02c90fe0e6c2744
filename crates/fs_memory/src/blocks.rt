// Reading and writing in the blocks of a file.
ghost use Rattle.std.specs.Prelude.{◌≡◌, ◌<◌, ◌≤◌, ◌+◌, ◌*◌, ◌/◌, ◌%◌, [], ◌++◌, length, take, drop, OnOk, OnErr, IfOk, vec_len, slice_range};
ghost use Rattle.fs_memory.specs.Blocks.{flat, spliced, IsGrown};

use crate::block::{Block, zero_block};
use call_table::NoMemory;
use call_table::limit::FILE_BYTES;
use std::alloc::Global;

fn put(bytes: &mut [u8], at: usize, part: &[u8])
    requires { at + length part.now ≤ length bytes.old }
    ensures { bytes.new ≡ spliced bytes.old at part.now }
{
    bytes[at..at + part.len()].copy_from_slice(part);
}

fn put_in(block: &mut Block, at: usize, part: &[u8])
    requires { at + length part.now ≤ 4096 }
    ensures { block.new.bytes ≡ spliced block.old.bytes at part.now }
{
    put(&mut block.bytes, at, part);
}

/// Writes a part that lies in one block.
fn write_part(blocks: &mut Vec<Box<Block>>, place: usize, part: &[u8])
    requires within { place % 4096 + length part.now ≤ 4096 }
    requires there { place / 4096 < vec_len blocks.old }
    ensures is { flat blocks.new.items ≡ spliced (flat blocks.old.items) place part.now }
    ensures len { vec_len blocks.new ≡ vec_len blocks.old }
{
    put_in(&mut *blocks[place / 4096], place % 4096, part);
}

/// Writes bytes from a place on, block by block.
pub fn write(blocks: &mut Vec<Box<Block>>, at: usize, bytes: &[u8])
    requires within { at + length bytes.now ≤ 4096 * vec_len blocks.old }
    requires small { at + length bytes.now ≤ FILE_BYTES }
    ensures is { flat blocks.new.items ≡ spliced (flat blocks.old.items) at bytes.now }
    ensures len { vec_len blocks.new ≡ vec_len blocks.old }
{
    let mut done = 0;
    while done < bytes.len() {
        let place = at + done;
        let count = (4096 - place % 4096).min(bytes.len() - done);
        write_part(blocks, place, &bytes[done..done + count]);
        done += count;
    }
}

fn append_part(
    out: &mut Vec<u8>,
    blocks: &[Box<Block>],
    place: usize,
    count: usize,
) -> Result<(), NoMemory>
    requires within { place % 4096 + count ≤ 4096 }
    requires there { place / 4096 < length blocks.now }
    ensures { OnOk result (out.new.items ≡ out.old.items ++ take count (drop place (flat blocks.now))) }
{
    let block = &blocks[place / 4096];
    let first = place % 4096;
    out.extend_from_slice(&block.bytes[first..first + count])?;
    Ok(())
}

/// The bytes from a place on, block by block.
pub fn read(
    alloc: Global,
    blocks: &[Box<Block>],
    at: usize,
    len: usize,
) -> Result<Vec<u8>, NoMemory>
    requires within { at + len ≤ 4096 * length blocks.now }
    requires small { at + len ≤ FILE_BYTES }
    ensures { IfOk result (λ v. v.items ≡ take len (drop at (flat blocks.now))) }
{
    let mut out = Vec::with_capacity(alloc, len)?;
    let mut done = 0;
    while done < len {
        let place = at + done;
        let count = (4096 - place % 4096).min(len - done);
        append_part(&mut out, blocks, place, count)?;
        done += count;
    }
    Ok(out)
}

/// Adds blocks of zeros until there are so many.
pub fn grow(alloc: Global, blocks: &mut Vec<Box<Block>>, count: usize) -> Result<(), NoMemory>
    ensures grown { IsGrown blocks.old.items blocks.new.items }
    ensures ok { OnOk result (count ≤ vec_len blocks.new) }
{
    'growing: while blocks.len() < count {
        let block = zero_block(alloc)?;
        blocks.push(block)?;
    }
    Ok(())
}
