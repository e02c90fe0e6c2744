// Answers of calls.
ghost use Rattle.std.specs.Prelude.{◌≡◌, ◌≤◌, None, length, IfOk};
ghost use Rattle.std.specs.Int.{w32, cast_signed};
ghost use Rattle.kernel_spec.specs.Kernel.{value_answer};
ghost use Rattle.kernel_spec.specs.Processes.{status_number, status_bytes};
ghost use Rattle.kernel_spec.specs.Calls.{bytes_answer, fork_answer};

use call_table::limit::{LAST_LAUNCHED, TRANSFER_BYTES};
use call_table::{Answer, Bytes, End, Kind, NoMemory};
use std::alloc::Global;

/// What a call comes to.
#[derive(Debug, Drop)]
pub enum Served {
    /// It waits for what other calls leave.
    Blocks,
    /// Its answer, and another live process at which it raised a signal that is not ignored there.
    Done { answer: Answer, raised: Option<u32> },
}

/// An answer of a value alone.
pub fn value_answer(alloc: Global, value: i32) -> Answer
    ensures { result ≡ value_answer value }
{
    Answer {
        value,
        bytes: Bytes::new(alloc),
        kind: Kind::Plain,
    }
}

/// An answer of bytes and their count.
pub fn bytes_answer(bytes: Bytes) -> Answer
    requires { length bytes ≤ TRANSFER_BYTES }
    ensures { result ≡ bytes_answer bytes }
{
    Answer {
        value: bytes.len() as i32,
        bytes,
        kind: Kind::Plain,
    }
}

/// The answer of a fork: the pid of the child.
pub fn fork_answer(alloc: Global, child: u32) -> Answer
    requires { child ≤ LAST_LAUNCHED }
    ensures { result ≡ fork_answer child }
{
    Answer {
        value: child as i32,
        bytes: Bytes::new(alloc),
        kind: Kind::Fork,
    }
}

/// The answer of a wait: the pid of a child, and the bytes that tell how it ended.
pub fn child_answer(child: u32, bytes: Bytes) -> Answer
    ensures { result ≡ record { value = cast_signed w32 child; bytes = bytes; kind = Kind.Plain } }
{
    Answer {
        value: child.cast_signed(),
        bytes,
        kind: Kind::Plain,
    }
}

/// A call that is done and raised no signal at another process.
pub fn done(answer: Answer) -> Served
    ensures { result ≡ Served.Done answer None }
{
    Served::Done {
        answer,
        raised: None,
    }
}

/// A call that is done, with an answer of a value alone.
pub fn value(alloc: Global, value: i32) -> Served
    ensures { result ≡ Served.Done (value_answer value) None }
{
    done(value_answer(alloc, value))
}

/// How an end is told to a parent that waits: 256 times the code of an exit, or the signal.
fn status_number(end: Option<End>) -> u32
    ensures { result ≡ status_number end }
{
    match end {
        Some(End::Exit(code)) => 256 * code as u32,
        Some(End::Signal(signal)) => signal as u32,
        None => 0,
    }
}

/// The bytes that a wait writes: none where its address is 0.
pub fn status_bytes(alloc: Global, status: u32, end: Option<End>) -> Result<Bytes, NoMemory>
    ensures { IfOk result (λ bytes. bytes ≡ status_bytes status end) }
{
    if status == 0 {
        return Ok(Bytes::new(alloc));
    }
    let bytes = status_number(end).to_le_bytes();
    Ok(Bytes::from_slice(alloc, &bytes)?)
}
