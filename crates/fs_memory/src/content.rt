// The bytes of a file.
ghost use Rattle.std.specs.Prelude.{◌≡◌, ◌<◌, ◌≤◌, ◌+◌, [], length, take, drop, OnOk, OnErr, IfOk};
ghost use Rattle.fs_memory.specs.Blocks.{written};

use crate::block::Block;
use crate::blocks;
use call_table::limit::FILE_BYTES;
use call_table::{Bytes, NoMemory};
use std::alloc::Global;
use std::marker::Model;

/// The bytes of a file, in blocks that no write moves. Contracts see the list of the bytes.
#[derive(Drop)]
pub struct Content {
    blocks: Vec<Box<Block>>,
    len: usize,
}

impl Model for Content {
    ghost use Rattle.std.specs.Prelude.{List, ℕ, take};

    ghost Value = { List ℕ };

    ghost use Rattle.fs_memory.specs.Blocks.{flat, IsContent};

    ghost view = { λ c. take c.len (flat c.blocks.items) };

    ghost invariant = { λ c. IsContent c.blocks.items c.len };
}

impl Content {
    /// No bytes.
    pub fn new(alloc: Global) -> Content
        ensures { result ≡ [] }
    {
        Content {
            blocks: Vec::new(alloc),
            len: 0,
        }
    }

    /// How many bytes there are.
    pub fn len(&self) -> usize
        ensures { result ≡ length self.now }
    {
        self.len
    }

    /// The bytes from `at` to the end, or the first `len` of them where there are more.
    pub fn read(&self, at: usize, len: usize) -> Result<Bytes, NoMemory>
        requires { length self.now ≤ FILE_BYTES }
        ensures { IfOk result (λ b. b ≡ take len (drop at self.now)) }
    {
        let alloc = *self.blocks.allocator();
        if at >= self.len {
            return Ok(Bytes::new(alloc));
        }
        let count = len.min(self.len - at);
        let bytes = blocks::read(alloc, &self.blocks, at, count)?;
        Ok(Bytes::from_vec(bytes))
    }

    /// Writes `bytes` from `at` on, with zeros in a gap.
    pub fn write(&mut self, at: usize, bytes: &[u8]) -> Result<(), NoMemory>
        requires { at + length bytes.now ≤ FILE_BYTES }
        ensures ok { OnOk result (self.new ≡ written self.old at bytes.now) }
        ensures err { OnErr result (self.new ≡ self.old) }
    {
        if bytes.is_empty() {
            return Ok(());
        }
        let end = at + bytes.len();
        let alloc = *self.blocks.allocator();
        blocks::grow(alloc, &mut self.blocks, end.div_ceil(4096))?;
        blocks::write(&mut self.blocks, at, bytes);
        self.len = self.len.max(end);
        Ok(())
    }

    /// Takes all bytes away.
    pub fn clear(&mut self)
        ensures { self.new ≡ [] }
    {
        self.blocks.clear();
        self.len = 0;
    }
}
