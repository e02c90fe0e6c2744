// What is typed at the terminal.
ghost use Rattle.std.specs.Prelude.{◌≡◌, ◌≤◌, true, IfOk, OnOk, OnErr, length};
ghost use Rattle.kernel_spec.specs.Kernel.{Input, no_input, fed};
ghost use Rattle.kernel_spec.specs.Calls.{typed, untyped};

use call_table::limit::TRANSFER_BYTES;
use call_table::{Bytes, NoMemory};
use std::alloc::Global;
use std::marker::Model;

/// The bytes that were typed and not read yet, and whether no more comes.
#[derive(Drop)]
pub struct Typed {
    bytes: Bytes,
    // How many of them were read.
    read: usize,
    ended: bool,
}

impl Model for Typed {
    ghost use Rattle.std.specs.Prelude.{◌≤◌, length, drop};
    ghost use Rattle.kernel_spec.specs.Kernel.{Input, coded_input};

    ghost Value = { Input };

    ghost coded = { coded_input };

    ghost view = { λ t. record { bytes = drop t.read t.bytes; ended = t.ended } };

    ghost invariant = { λ t. t.read ≤ length t.bytes };
}

impl Typed {
    /// Nothing typed.
    pub fn new(alloc: Global) -> Typed
        ensures { result ≡ no_input }
    {
        Typed {
            bytes: Bytes::new(alloc),
            read: 0,
            ended: false,
        }
    }

    /// More is typed. After the end nothing changes.
    pub fn feed(&mut self, bytes: &[u8]) -> Result<(), NoMemory>
        ensures ok { OnOk result (self.new ≡ fed bytes.now self.old) }
        ensures err { OnErr result (self.new ≡ self.old) }
    {
        if self.ended {
            return Ok(());
        }
        self.bytes.push_slice(bytes)
    }

    /// No more comes.
    pub fn end(&mut self)
        ensures { self.new ≡ record self.old { ended = true } }
    {
        self.ended = true;
    }

    /// Whether no more comes.
    pub fn has_ended(&self) -> bool
        ensures { result ≡ self.now.ended }
    {
        self.ended
    }

    /// How many bytes wait to be read.
    pub fn len(&self) -> usize
        ensures { result ≡ length self.now.bytes }
    {
        self.bytes.len() - self.read
    }

    /// Takes out at most so many bytes, and at most 4,096.
    pub fn take(&mut self, alloc: Global, len: u32) -> Result<Bytes, NoMemory>
        ensures bytes { IfOk result (λ bytes. bytes ≡ typed self.old len) }
        ensures ok { OnOk result (self.new ≡ untyped self.old len) }
        ensures err { OnErr result (self.new ≡ self.old) }
        ensures few { IfOk result (λ bytes. length bytes ≤ TRANSFER_BYTES) }
    {
        let count = self.len().min(len.min(TRANSFER_BYTES) as usize);
        let bytes = &self.bytes.as_slice()[self.read..self.read + count];
        let taken = Bytes::from_slice(alloc, bytes)?;
        self.read += count;
        Ok(taken)
    }
}
