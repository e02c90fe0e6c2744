use super::*;
use call_table::{Bytes, Named, Names, NoMemory};
use std::alloc::Global;
use std::fs::{self, File};
use std::io::{self, ErrorKind, Read, Write};
use std::test::Fail;
use std::time::{Duration, Instant};
use std::{env, process};

fn calls(alloc: Global, numbers: &[u64]) -> Result<Calls, NoMemory> {
    Ok(Calls::from_vec(numbers.to_vec(alloc)?))
}

/// The length of the buffer of each read, what it gives, None where it fails, and the faults afterwards.
const READS: [(usize, Option<&[u8]>, u64); 8] = [
    (3, Some(b"abc"), 0),
    (3, None, 1),
    (0, Some(b""), 1),
    (3, Some(b"def"), 1),
    (3, None, 2),
    (3, Some(b"g"), 2),
    (3, Some(b""), 2),
    (0, Some(b""), 2),
];

#[test]
fn a_source_in_memory(rt: HostRuntime) -> Result<(), Fail> {
    let alloc = rt.alloc();
    let bytes = Bytes::from_slice(alloc, b"abcdefg")?;
    let mut source = MemSource::new(bytes, calls(alloc, &[5, 2, 100])?);
    assert_eq!(rt; source.faults(), 0);
    for (i, (len, want, faults)) in READS.iter().enumerate() {
        let mut into = [b'-'; 3];
        match (source.read(&mut into[..*len]), want) {
            (Ok(count), Some(bytes)) => {
                assert!(rt; &into[..count] == *bytes, "at read {i}");
                assert!(rt; into[count..].iter().all(|b| *b == b'-'));
            }
            (Err(Failed), None) => assert_eq!(rt; into, [b'-'; 3]),
            _ => assert!(rt; false, "at read {i}"),
        }
        assert_eq!(rt; source.faults(), *faults, "after read {i}");
    }
    Ok(())
}

/// What each write hands over, whether it is written, what stands there and the faults afterwards; there is room for 8 bytes.
const WRITES: [(&[u8], bool, &[u8], u64); 8] = [
    (b"abc", false, b"", 1),
    (b"abc", true, b"abc", 1),
    (b"defghi", false, b"abc", 2),
    (b"defgh", false, b"abc", 3),
    (b"defgh", true, b"abcdefgh", 3),
    (b"", true, b"abcdefgh", 3),
    (b"i", false, b"abcdefgh", 4),
    (b"", false, b"abcdefgh", 5),
];

#[test]
fn a_sink_in_memory(rt: HostRuntime) -> Result<(), Fail> {
    let alloc = rt.alloc();
    let mut sink = MemSink::new(alloc, calls(alloc, &[1, 4, 8])?, 8)?;
    assert_eq!(rt; (sink.bytes().len(), sink.faults()), (0, 0));
    for (i, (bytes, is_written, want, faults)) in WRITES.iter().enumerate() {
        assert_eq!(rt; sink.write_all(bytes).is_ok(), *is_written, "at write {i}");
        assert!(rt; sink.bytes() == *want, "after write {i}");
        assert_eq!(rt; sink.faults(), *faults, "after write {i}");
    }
    let mut small = MemSink::new(alloc, Calls::new(alloc), 0)?;
    assert_eq!(rt; small.write_all(b""), Ok(()));
    assert_eq!(rt; small.write_all(b"a"), Err(Failed));
    Ok(())
}

fn file(alloc: Global, name: &[u8], bytes: &[u8]) -> Result<Named, NoMemory> {
    Ok(Named {
        name: Bytes::from_slice(alloc, name)?,
        bytes: Bytes::from_slice(alloc, bytes)?,
    })
}

/// The name of each load, the length of what it gives or why it gives nothing, and the faults afterwards.
const LOADS: [(&str, Result<usize, LoadFault>, u64); 6] = [
    ("a", Ok(1), 0),
    ("c", Err(LoadFault::Absent), 0),
    ("a", Err(LoadFault::Failed), 1),
    ("c", Err(LoadFault::Failed), 2),
    ("b", Ok(0), 2),
    ("", Err(LoadFault::Absent), 2),
];

#[test]
fn files_in_memory(rt: HostRuntime) -> Result<(), Fail> {
    let alloc = rt.alloc();
    let mut files = Names::new(alloc);
    files.push(file(alloc, b"a", b"x")?)?;
    files.push(file(alloc, b"b", b"")?)?;
    files.push(file(alloc, b"a", b"yz")?)?;
    let mut images = MemImages::new(files, calls(alloc, &[3, 4])?);
    assert_eq!(rt; images.faults(), 0);
    for (i, (name, want, faults)) in LOADS.iter().enumerate() {
        let got = images.load(alloc, name).map(|bytes| bytes.len());
        assert_eq!(rt; got, *want, "at load {i}");
        assert_eq!(rt; images.faults(), *faults, "after load {i}");
    }
    Ok(())
}

/// A reader and writer of one byte at a time, of which every second call fails.
#[derive(Drop)]
struct Flaky {
    byte: u8,
    fails: bool,
}

impl Flaky {
    /// Whether the call fails.
    fn turn(&mut self) -> bool {
        self.fails = !self.fails;
        !self.fails
    }
}

impl Read for Flaky {
    fn read(&mut self, into: &mut [u8]) -> io::Result<usize> {
        if self.turn() {
            return Err(io::Error::from(ErrorKind::BrokenPipe));
        }
        match into.first_mut() {
            Some(place) => {
                *place = self.byte;
                Ok(1)
            }
            None => Ok(0),
        }
    }
}

impl Write for Flaky {
    fn write(&mut self, bytes: &[u8]) -> io::Result<usize> {
        if self.turn() {
            return Err(io::Error::from(ErrorKind::BrokenPipe));
        }
        Ok(bytes.len().min(1))
    }

    fn flush(&mut self) -> io::Result<()> {
        Ok(())
    }
}

fn starts() -> Flaky {
    Flaky {
        byte: 7,
        fails: false,
    }
}

#[test]
fn a_real_source(rt: HostRuntime) {
    let mut source = StdSource::new(b"abcd".as_slice());
    for want in [3, 1, 0] {
        let mut into = [b'-'; 3];
        assert_eq!(rt; source.read(&mut into), Ok(want));
        assert!(rt; b"abcd-".iter().any(|b| *b == into[0]));
    }
    assert_eq!(rt; source.faults(), 0);
    let mut source = StdSource::new(starts());
    for (want, faults) in [(Ok(1), 0), (Err(Failed), 1), (Ok(1), 1), (Err(Failed), 2)] {
        assert_eq!(rt; source.read(&mut [0; 4]), want);
        assert_eq!(rt; source.faults(), faults);
    }
}

#[test]
fn a_real_sink(rt: HostRuntime) {
    let mut written = Vec::new(rt.alloc());
    let mut sink = StdSink::new(&mut written);
    assert_eq!(rt; sink.write_all(b"abc"), Ok(()));
    assert_eq!(rt; sink.write_all(b"de"), Ok(()));
    assert_eq!(rt; sink.faults(), 0);
    assert_eq!(rt; written.as_slice(), b"abcde".as_slice());
    let mut sink = StdSink::new(starts());
    for (bytes, is_written, faults) in [(1, true, 0), (1, false, 1), (2, false, 2), (0, true, 2)] {
        assert_eq!(rt; sink.write_all(&[0; 2][..bytes]).is_ok(), is_written);
        assert_eq!(rt; sink.faults(), faults);
    }
}

/// The name of each load, what it gives, None where it fails, and the faults afterwards.
const REAL_LOADS: [(&str, Option<&[u8]>, u64); 12] = [
    ("short", Some(b"abc"), 0),
    ("empty", Some(b""), 0),
    ("absent", None, 1),
    ("", None, 2),
    (".", None, 3),
    ("..", None, 4),
    ("inner", None, 5),
    ("./short", None, 6),
    ("inner/short", None, 7),
    ("/dev/zero", None, 8),
    ("long", None, 9),
    ("short", Some(b"abc"), 9),
];

/// Makes files in the working folder.
fn make_files(rt: &HostRuntime) -> Result<(), Fail> {
    fs::write(rt, "short", b"abc".as_slice())?;
    fs::write(rt, "empty", b"".as_slice())?;
    fs::create_dir(rt, "inner")?;
    fs::write(rt, "inner/short", b"abc".as_slice())?;
    File::create(rt, "full")?.set_len(16_777_216)?;
    File::create(rt, "long")?.set_len(16_777_217)?;
    Ok(())
}

#[test]
fn real_files(rt: HostRuntime) -> Result<(), Fail> {
    let alloc = rt.alloc();
    let id = process::id(rt.process());
    let folder = format!(in alloc; "/tmp/mosixsim_outside_{id}")?;
    fs::create_dir(&rt, folder.as_str())?;
    env::set_current_dir(&rt, folder.as_str())?;
    make_files(&rt)?;
    let mut images = FileImages::new(rt.clone()?);
    for (i, (name, want, faults)) in REAL_LOADS.iter().enumerate() {
        match (images.load(alloc, name), want) {
            (Ok(bytes), Some(want)) => assert!(rt; bytes.as_slice() == *want, "at load {i}"),
            (Err(LoadFault::Failed), None) => {}
            _ => assert!(rt; false, "at load {i}"),
        }
        assert_eq!(rt; images.faults(), *faults, "after load {i}");
    }
    let full = images.load(alloc, "full").map(|bytes| {
        let is_zero = bytes.as_slice().iter().all(|byte| *byte == 0);
        (bytes.len(), is_zero)
    });
    assert_eq!(rt; full, Ok((16_777_216, true)));
    env::set_current_dir(&rt, "/")?;
    fs::remove_dir_all(&rt, folder.as_str())?;
    Ok(())
}

/// A gate takes turns of nodes; one that shares it may be called from any thread.
fn takes_turns<G: Gate + Sync>(gate: &G) {
    for node in 0..8u8 {
        gate.turn(node, false);
        gate.turn(node, true);
    }
}

#[test]
fn gates(rt: HostRuntime) -> Result<(), Fail> {
    takes_turns(&StillGate);
    let start = Instant::now(&rt)?;
    takes_turns(&YieldGate::new(rt.clone()?));
    let slept = start.elapsed(&rt)?;
    assert!(rt; slept >= Duration::from_micros(800));
    Ok(())
}
