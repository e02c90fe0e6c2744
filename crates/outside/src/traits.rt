// What is handed in: a source, images and a sink, each with a count of faults that never falls.
ghost use Rattle.std.specs.Prelude.{◌≡◌, ◌≤◌, ◌+◌, List, ℕ, Option, length, take, IfOk};
ghost use Rattle.outside.specs.Outside.{Takes, HasCause, Appends, NamedFile, Loaded, LoadCause};

use call_table::Bytes;
use std::alloc::Global;

/// The outside failed.
#[derive(Clone, Copy, Debug, PartialEq, Eq)]
pub struct Failed;

/// Why an image was not had.
#[derive(Clone, Copy, Debug, PartialEq, Eq)]
pub enum LoadFault {
    /// No file has the name.
    Absent,
    /// The file has more than 16,777,216 bytes.
    TooLong,
    Failed,
    NoMemory,
}

/// Bytes that are read. `left` is what is still to be read, where it is told.
pub trait Source {
    ghost left: { Self → Option (List ℕ) };

    ghost faults: { Self → ℕ };

    /// The next bytes, at least one where `into` is not empty; `Ok(0)` is the end of input.
    /// `Failed` takes no byte, and comes only where the count of faults rose.
    fn read(&mut self, into: &mut [u8]) -> Result<usize, Failed>
        ensures bound { IfOk result (λ n. n ≤ length into.new) }
        ensures bytes { Takes (left self.old) (left self.new) into.new result }
        ensures cause { HasCause (faults self.old) (faults self.new) result };
}

/// Files by name. `files` is all of them, where they are told; no call changes them.
pub trait Images {
    ghost files: { Self → Option (List NamedFile) };

    ghost faults: { Self → ℕ };

    /// The bytes of a name's file. `Absent` and `TooLong` come exactly by the files where they are told;
    /// `Failed` only where the count of faults rose, and before both.
    fn load(&mut self, alloc: Global, name: &str) -> Result<Bytes, LoadFault>
        ensures files { files self.new ≡ files self.old }
        ensures bytes { Loaded (files self.old) name.now result }
        ensures cause { LoadCause (faults self.old) (faults self.new) result };
}

/// Bytes that are written. `written` is all of them, where they are told.
pub trait Sink {
    ghost written: { Self → Option (List ℕ) };

    ghost faults: { Self → ℕ };

    /// Appends the bytes. `Failed` comes only where the count of faults rose; a front of the bytes was appended then.
    fn write_all(&mut self, bytes: &[u8]) -> Result<(), Failed>
        ensures bytes { Appends (written self.old) (written self.new) bytes.now result }
        ensures cause { HasCause (faults self.old) (faults self.new) result };
}
