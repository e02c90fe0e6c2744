// The real outside: it tells nothing of its bytes, and counts its faults.
ghost use Rattle.std.specs.Prelude.{◌+◌, ◌≡◌, ◌≤◌, None, Err, true, length, take, IfOk, IfErr, IfSome, OnOk};
ghost use Rattle.std.specs.Io.KnownBytes.{ReadConsumes, Appends};
ghost use Rattle.outside.specs.Outside.{Takes, HasCause, Loaded, LoadCause, has_slash};
ghost use Rattle.outside.specs.Outside.{Appends as SinkAppends};
ghost use Rattle.outside.specs.Fails.{Counts, CountsLoad};
ghost use Rattle.call_table.specs.declared.limit.TheConstants.{IMAGE_BYTES};

use crate::plan::one_more;
use crate::traits::{Failed, Images, LoadFault, Sink, Source};
use call_table::Bytes;
use call_table::limit::IMAGE_BYTES;
use std::alloc::Global;
use std::fs::File;
use std::io::{self, ErrorKind, Read, Write};
use std::rt::Files;

/// One byte more than is loaded: enough to see that a file is too long.
const READ_BYTES: u64 = IMAGE_BYTES as u64 + 1;

/// Standard input, or any other reader.
#[derive(Drop)]
pub struct StdSource<R: Read + Drop> {
    inner: R,
    faults: u64,
}

impl<R: Read + Drop> StdSource<R> {
    /// A source over a reader.
    pub fn new(inner: R) -> StdSource<R>
        ensures { result ≡ record { inner = inner; faults = 0 } }
    {
        StdSource { inner, faults: 0 }
    }

    /// How many reads failed.
    pub fn faults(&self) -> u64
        ensures { result ≡ self.now.faults }
    {
        self.faults
    }
}

impl<R: Read + Drop> Source for StdSource<R> {
    ghost use Rattle.std.specs.Prelude.{None};

    ghost left = { λ s. None };

    ghost faults = { λ s. s.faults };

    /// What the reader gives, where it tells its bytes. The count rises by one exactly at `Failed`.
    fn read(&mut self, into: &mut [u8]) -> Result<usize, Failed>
        ensures bound { IfOk result (λ n. n ≤ length into.new) }
        ensures bytes { Takes None None into.new result }
        ensures cause { HasCause self.old.faults self.new.faults result }
        ensures counts { Counts self.old.faults self.new.faults result }
        ensures through { ReadConsumes (R.remaining self.old.inner) (R.remaining self.new.inner) result into.new }
    {
        match self.inner.read(into) {
            Ok(count) => Ok(count),
            Err(_) => {
                self.faults = one_more(self.faults);
                Err(Failed)
            }
        }
    }
}

/// Standard output, or any other writer.
#[derive(Drop)]
pub struct StdSink<W: Write + Drop> {
    inner: W,
    faults: u64,
}

impl<W: Write + Drop> StdSink<W> {
    /// A sink over a writer.
    pub fn new(inner: W) -> StdSink<W>
        ensures { result ≡ record { inner = inner; faults = 0 } }
    {
        StdSink { inner, faults: 0 }
    }

    /// How many writes failed.
    pub fn faults(&self) -> u64
        ensures { result ≡ self.now.faults }
    {
        self.faults
    }
}

impl<W: Write + Drop> Sink for StdSink<W> {
    ghost use Rattle.std.specs.Prelude.{None};

    ghost written = { λ s. None };

    ghost faults = { λ s. s.faults };

    /// Hands all bytes to the writer. The count rises by one exactly at `Failed`.
    fn write_all(&mut self, bytes: &[u8]) -> Result<(), Failed>
        ensures bytes { SinkAppends None None bytes.now result }
        ensures cause { HasCause self.old.faults self.new.faults result }
        ensures counts { Counts self.old.faults self.new.faults result }
        ensures through { OnOk result (Appends (W.contents self.old.inner) (W.contents self.new.inner) bytes.now) }
    {
        match self.inner.write_all(bytes) {
            Ok(()) => Ok(()),
            Err(_) => {
                self.faults = one_more(self.faults);
                Err(Failed)
            }
        }
    }
}

/// Whether a name has a `/`, so that its file may be in another folder.
fn has_slash(name: &str) -> bool
    ensures { result ≡ has_slash name.now }
{
    name.as_bytes().iter().any(|byte| *byte == b'/')
}

/// What a reader gives, up to one byte past the longest file that is loaded.
fn read_front<R: Read + Drop>(alloc: Global, reader: R) -> io::Result<Vec<u8>>
    ensures { IfOk result (λ bytes. IfSome (R.remaining reader) (λ left. bytes.items ≡ take (IMAGE_BYTES + 1) left)) }
{
    let mut bytes = Vec::new(alloc);
    reader.take(READ_BYTES).read_to_end(&mut bytes)?;
    Ok(bytes)
}

/// The front of a file.
fn read_file<F: Files>(files: &F, alloc: Global, name: &str) -> io::Result<Vec<u8>> {
    read_front(alloc, File::open(files, name)?)
}

/// Files of the working folder.
#[derive(Drop)]
pub struct FileImages<F: Files + Drop> {
    files: F,
    faults: u64,
}

impl<F: Files + Drop> FileImages<F> {
    /// The working folder of a runtime.
    pub fn new(files: F) -> FileImages<F>
        ensures { result ≡ record { files = files; faults = 0 } }
    {
        FileImages { files, faults: 0 }
    }

    /// How many loads failed.
    pub fn faults(&self) -> u64
        ensures { result ≡ self.now.faults }
    {
        self.faults
    }
}

impl<F: Files + AllocGlobal + Drop> Images for FileImages<F> {
    ghost use Rattle.std.specs.Prelude.{None};

    ghost files = { λ s. None };

    ghost faults = { λ s. s.faults };

    /// The bytes of the file of that name. A name with a `/` and a file that is missing or too long count as faults,
    /// want of memory does not.
    fn load(&mut self, alloc: Global, name: &str) -> Result<Bytes, LoadFault>
        ensures bytes { Loaded None name.now result }
        ensures cause { LoadCause self.old.faults self.new.faults result }
        ensures counts { CountsLoad self.old.faults self.new.faults result }
        ensures elsewhere { has_slash name.now ≡ true → result ≡ Err LoadFault.Failed }
        ensures short { IfOk result (λ bytes. length bytes ≤ IMAGE_BYTES) }
    {
        if !has_slash(name) {
            match read_file(&self.files, alloc, name) {
                Ok(bytes) if bytes.len() <= IMAGE_BYTES as usize => return Ok(Bytes::from_vec(
                    bytes,
                )),
                Err(e) if e.kind() == ErrorKind::OutOfMemory => return Err(LoadFault::NoMemory),
                _ => {}
            }
        }
        self.faults = one_more(self.faults);
        Err(LoadFault::Failed)
    }
}
