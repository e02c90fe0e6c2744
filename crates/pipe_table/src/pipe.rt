// One pipe.
ghost use Rattle.std.specs.Prelude.{◌≡◌, ◌-◌, ◌≤◌, ◌<◌, ◌^◌, min, [], ◌++◌, length, take, drop, IfOk, OnErr, vec_len};
ghost use Rattle.circular_buffer.specs.Buffer.{buffer};

use call_table::limit::PIPE_BYTES;
use call_table::{Bytes, NoMemory};
use circular_buffer::HeapCircularBuffer;
use std::alloc::Global;
use std::marker::Model;

/// A pipe, whose room for 4,096 bytes is taken with it. Contracts see the bytes that it holds, oldest first.
#[derive(Drop)]
pub struct Pipe {
    ring: HeapCircularBuffer<u8>,
}

impl Model for Pipe {
    ghost use Rattle.std.specs.Prelude.{List, ℕ, ◌≡◌, ◌≤◌, length};
    ghost use Rattle.call_table.specs.declared.limit.TheConstants.{PIPE_BYTES};

    ghost Value = { List ℕ };

    ghost view = { λ p. p.ring.items };

    ghost invariant = { λ p. (p.ring.capacity ≡ PIPE_BYTES) × (length p.ring.items ≤ PIPE_BYTES) };
}

impl Pipe {
    /// An empty pipe.
    pub fn new(alloc: Global) -> Result<Pipe, NoMemory>
        ensures { IfOk result (λ pipe. pipe ≡ []) }
    {
        Ok(Pipe {
            ring: HeapCircularBuffer::with_capacity(alloc, PIPE_BYTES as usize)?,
        })
    }

    /// How many bytes it holds.
    pub fn held(&self) -> usize
        ensures held { result ≡ length self.now }
        ensures within { result ≤ PIPE_BYTES }
    {
        self.ring.len()
    }

    /// Appends as many of the first bytes as fit, and answers how many. It takes no memory.
    pub fn put(&mut self, bytes: &[u8]) -> usize
        ensures count { result ≡ min (length bytes.now) (PIPE_BYTES - length self.old) }
        ensures bytes { self.new ≡ self.old ++ take result bytes.now }
        ensures within { length self.new ≤ PIPE_BYTES }
    {
        self.ring.fill_from_slice(bytes)
    }

    /// Takes out the first `len` bytes, or all where there are fewer. Where memory is not found nothing changes.
    pub fn take(&mut self, alloc: Global, len: usize) -> Result<Bytes, NoMemory>
        ensures bytes { IfOk result (λ bytes. bytes ≡ take len self.old) }
        ensures rest { IfOk result (λ bytes. self.new ≡ drop len self.old) }
        ensures err { OnErr result (self.new ≡ self.old) }
        ensures within { length self.new ≤ PIPE_BYTES }
    {
        let count = len.min(self.ring.len());
        let mut bytes = vec![in alloc; 0u8; count]?;
        read_all(&mut self.ring, &mut bytes);
        Ok(Bytes::from_vec(bytes))
    }
}

/// Moves the first bytes of a ring into `bytes`, as many as there are places.
fn read_all(ring: &mut HeapCircularBuffer<u8>, bytes: &mut Vec<u8>)
    requires { vec_len bytes.old ≤ length ring.old.items }
    ensures bytes { bytes.new.items ≡ take (vec_len bytes.old) ring.old.items }
    ensures ring { ring.new ≡ buffer (drop (vec_len bytes.old) ring.old.items) ring.old.capacity }
{
    ring.read_into(bytes.as_mut_slice());
}
