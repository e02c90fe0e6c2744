// The outside in memory, which fails at listed calls.
ghost use Rattle.std.specs.Prelude.{◌≡◌, ◌++◌, ◌+◌, ◌≤◌, IfOk, [], Some, length, vec_len, vec_capacity, take, drop};
ghost use Rattle.std.specs.Option.{option_copied};
ghost use Rattle.outside.specs.Outside.{file_named, NamedFile, Rose, Takes, HasCause, Appends, Loaded, LoadCause};
ghost use Rattle.outside.specs.Fails.{fresh};
ghost use Rattle.outside.specs.Memory.{Reads, Writes, Loads, LoadedOr};

use crate::plan::{Calls, Plan, fails, plan_of};
use crate::traits::{Failed, Images, LoadFault, Sink, Source};
use call_table::limit::IMAGE_BYTES;
use call_table::{Bytes, Named, Names, NoMemory};
use std::alloc::Global;
use std::marker::Model;

/// Files longer than this are refused.

// ---- a source

/// A source in memory. Contracts see the bytes that are left, and its calls.
#[derive(Debug, Drop)]
pub struct MemSource {
    bytes: Bytes,
    at: usize,
    plan: Plan,
}

impl Model for MemSource {
    ghost use Rattle.std.specs.Prelude.{◌≤◌, length, drop};
    ghost use Rattle.outside.specs.Memory.{SourceState, coded_source};

    ghost Value = { SourceState };

    ghost coded = { coded_source };

    ghost view = { λ s. record { left = drop s.at s.bytes; plan = s.plan } };

    ghost invariant = { λ s. s.at ≤ length s.bytes };
}

impl MemSource {
    /// A source of these bytes, where the listed calls fail.
    pub fn new(bytes: Bytes, fails: Calls) -> MemSource
        ensures { result ≡ record { left = bytes; plan = fresh fails } }
    {
        MemSource {
            bytes,
            at: 0,
            plan: plan_of(fails),
        }
    }

    /// How many calls failed.
    pub fn faults(&self) -> u64
        ensures { result ≡ self.now.plan.faults }
    {
        self.plan.faults
    }
}

impl Source for MemSource {
    ghost use Rattle.std.specs.Prelude.{Some};

    ghost left = { λ s. Some s.left };

    ghost faults = { λ s. s.plan.faults };

    /// The next bytes, as many as there are and fit. `Failed` exactly where the call is listed.
    fn read(&mut self, into: &mut [u8]) -> Result<usize, Failed>
        ensures bound { IfOk result (λ n. n ≤ length into.new) }
        ensures bytes { Takes (Some self.old.left) (Some self.new.left) into.new result }
        ensures cause { HasCause self.old.plan.faults self.new.plan.faults result }
        ensures exact { Reads self.old into.old result self.new into.new }
    {
        if fails(&mut self.plan, false) {
            return Err(Failed);
        }
        let bytes = self.bytes.as_slice();
        let count = into.len().min(bytes.len() - self.at);
        into[..count].copy_from_slice(&bytes[self.at..self.at + count]);
        self.at += count;
        Ok(count)
    }
}

// ---- a sink

/// A sink in memory. Contracts see what was written, how many bytes it holds at most, and its calls.
#[derive(Debug, Drop)]
pub struct MemSink {
    bytes: Vec<u8>,
    room: usize,
    plan: Plan,
}

impl Model for MemSink {
    ghost use Rattle.std.specs.Prelude.{◌≤◌, vec_len, vec_capacity};
    ghost use Rattle.outside.specs.Memory.{SinkState, coded_sink};

    ghost Value = { SinkState };

    ghost coded = { coded_sink };

    ghost view = { λ s. record { written = s.bytes.items; room = s.room; plan = s.plan } };

    ghost invariant = { λ s. (vec_len s.bytes ≤ s.room) × (s.room ≤ vec_capacity s.bytes) };
}

/// Appends bytes, for which there is memory.
fn append(bytes: &mut Vec<u8>, more: &[u8])
    requires { vec_len bytes.old + length more.now ≤ vec_capacity bytes.old }
    ensures items { bytes.new.items ≡ bytes.old.items ++ more.now }
    ensures len { vec_len bytes.new ≡ vec_len bytes.old + length more.now }
    ensures capacity { vec_capacity bytes.new ≡ vec_capacity bytes.old }
{
    for byte in more {
        bytes.push_reserved(*byte);
    }
}

impl MemSink {
    /// A sink of so many bytes, where the listed calls fail. It takes its memory at once.
    pub fn new(alloc: Global, fails: Calls, room: usize) -> Result<MemSink, NoMemory>
        ensures { IfOk result (λ s. s ≡ record { written = []; room = room; plan = fresh fails }) }
    {
        Ok(MemSink {
            bytes: Vec::with_capacity(alloc, room)?,
            room,
            plan: plan_of(fails),
        })
    }

    /// What was written.
    pub fn bytes(&self) -> &[u8]
        ensures { result.now ≡ self.now.written }
    {
        self.bytes.as_slice()
    }

    /// How many calls failed.
    pub fn faults(&self) -> u64
        ensures { result ≡ self.now.plan.faults }
    {
        self.plan.faults
    }
}

impl Sink for MemSink {
    ghost use Rattle.std.specs.Prelude.{Some};

    ghost written = { λ s. Some s.written };

    ghost faults = { λ s. s.plan.faults };

    /// Appends the bytes. `Failed` exactly where the call is listed or the bytes would pass the room; nothing is written then.
    fn write_all(&mut self, bytes: &[u8]) -> Result<(), Failed>
        ensures bytes { Appends (Some self.old.written) (Some self.new.written) bytes.now result }
        ensures cause { HasCause self.old.plan.faults self.new.plan.faults result }
        ensures exact { Writes self.old bytes.now result self.new }
    {
        let room = self.room - self.bytes.len();
        if fails(&mut self.plan, bytes.len() > room) {
            return Err(Failed);
        }
        append(&mut self.bytes, bytes);
        Ok(())
    }
}

// ---- files

/// Files in memory. Contracts see the files and the calls.
#[derive(Debug, Drop)]
pub struct MemImages {
    files: Names,
    plan: Plan,
}

impl Model for MemImages {
    ghost use Rattle.outside.specs.Memory.{ImagesState, coded_images};

    ghost Value = { ImagesState };

    ghost coded = { coded_images };

    ghost view = { λ s. record { files = s.files; plan = s.plan } };
}

/// The file of a name: the first counts.
fn find<'a>(files: &'a [Named], name: &[u8]) -> Option<&'a Bytes>
    ensures { option_copied result ≡ file_named files.now name.now }
{
    for file in files {
        if name == file.name.as_slice() {
            return Some(&file.bytes);
        }
    }
    None
}

/// A copy of the file of a name.
fn copy_of(alloc: Global, files: &Names, name: &[u8]) -> Result<Bytes, LoadFault>
    ensures { LoadedOr (file_named files.now name.now) result }
{
    let Some(bytes) = find(files.as_slice(), name) else {
        return Err(LoadFault::Absent);
    };
    if bytes.as_slice().len() > IMAGE_BYTES as usize {
        return Err(LoadFault::TooLong);
    }
    match bytes.copy(alloc) {
        Ok(copy) => Ok(copy),
        Err(_) => Err(LoadFault::NoMemory),
    }
}

impl MemImages {
    /// These files, where the listed calls fail.
    pub fn new(files: Names, fails: Calls) -> MemImages
        ensures { result ≡ record { files = files; plan = fresh fails } }
    {
        MemImages {
            files,
            plan: plan_of(fails),
        }
    }

    /// How many calls failed.
    pub fn faults(&self) -> u64
        ensures { result ≡ self.now.plan.faults }
    {
        self.plan.faults
    }
}

impl Images for MemImages {
    ghost use Rattle.std.specs.Prelude.{Some};

    ghost files = { λ s. Some s.files };

    ghost faults = { λ s. s.plan.faults };

    /// The bytes of the first file of that name. `Failed` exactly where the call is listed.
    fn load(&mut self, alloc: Global, name: &str) -> Result<Bytes, LoadFault>
        ensures files { self.new.files ≡ self.old.files }
        ensures bytes { Loaded (Some self.old.files) name.now result }
        ensures cause { LoadCause self.old.plan.faults self.new.plan.faults result }
        ensures exact { Loads self.old name.now result self.new }
    {
        if fails(&mut self.plan, false) {
            return Err(LoadFault::Failed);
        }
        match copy_of(alloc, &self.files, name.as_bytes()) {
            Ok(bytes) => Ok(bytes),
            Err(e) => Err(e),
        }
    }
}
