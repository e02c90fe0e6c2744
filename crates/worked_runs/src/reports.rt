// How a report is cut into writes: a sink that fails at a call has what was written before it.
use crate::in_memory::named;
use call_table::{Bytes, NamedFiles, NoMemory, PidState, Replies, Statuses};
use node_event::{Events, Script};
use outside::{Calls, MemSink};
use shell_text::{Last, Run, print_report};
use std::alloc::Global;
use std::process::Abort;
use std::test::Fail;

fn run_of(
    alloc: Global,
    terminal: &[u8],
    statuses: Statuses,
    files: NamedFiles,
) -> Result<Run, NoMemory> {
    Ok(Run {
        events: Events::new(alloc),
        statuses,
        terminal: Bytes::from_slice(alloc, terminal)?,
        files,
        replies: Replies::new(alloc),
        last: Last::Done,
    })
}

/// How many bytes of a run's report are written before the call of this number, which fails.
fn written_before(alloc: Global, run: &Run, call: u64) -> Result<usize, NoMemory> {
    let mut calls = Calls::new(alloc);
    calls.push(call)?;
    let mut sink = MemSink::new(alloc, calls, 131_072)?;
    let script = Script::new(alloc);
    match print_report(alloc, run, &script, false, &mut sink) {
        Ok(()) => Ok(sink.bytes().len()),
        Err(_) => Ok(sink.bytes().len()),
    }
}

/// A report is written by calls of these lengths.
fn writes(rt: &impl Abort, alloc: Global, run: &Run, lengths: &[usize]) -> Result<(), NoMemory> {
    let mut before = 0usize;
    let mut call = 0u64;
    for length in lengths {
        call = call.saturating_add(1);
        assert_eq!(rt; written_before(alloc, run, call)?, before);
        before = before.saturating_add(*length);
    }
    assert_eq!(rt; written_before(alloc, run, 1000)?, before);
    Ok(())
}

/// One process of each state.
const STATES: [(u32, PidState); 4] = [
    (1, PidState::Exit(3)),
    (2, PidState::Signal(9)),
    (3, PidState::Blocked(8)),
    (4, PidState::Live),
];

fn statuses_of(alloc: Global, states: &[(u32, PidState)]) -> Result<Statuses, NoMemory> {
    let mut statuses = Statuses::new(alloc);
    for state in states {
        statuses.push(*state)?;
    }
    Ok(statuses)
}

/// The lengths of `terminal 2`, `ab`, a newline, the lines of the states, `file f 3`, `xyz`, a newline and `done`.
const STATE_LENGTHS: [usize; 11] = [11, 2, 1, 17, 19, 20, 15, 9, 3, 1, 5];

#[test]
fn a_write_for_each_line(rt: HostRuntime) -> Result<(), Fail> {
    let alloc = rt.alloc();
    let mut files = NamedFiles::new(alloc);
    files.push(named(alloc, b"f", b"xyz")?)?;
    let run = run_of(alloc, b"ab", statuses_of(alloc, &STATES)?, files)?;
    writes(&rt, alloc, &run, &STATE_LENGTHS)?;
    Ok(())
}

fn terminal_writes(
    rt: &impl Abort,
    alloc: Global,
    terminal: &[u8],
    lengths: &[usize],
) -> Result<(), NoMemory> {
    let run = run_of(
        alloc,
        terminal,
        Statuses::new(alloc),
        NamedFiles::new(alloc),
    )?;
    writes(rt, alloc, &run, lengths)
}

/// A write has 65,536 bytes at most, and no bytes make no write of their own.
#[test]
fn writes_of_a_terminal(rt: HostRuntime) -> Result<(), Fail> {
    let alloc = rt.alloc();
    terminal_writes(&rt, alloc, b"", &[11, 1, 5])?;
    let long = vec![in alloc; b'z'; 65_537]?;
    terminal_writes(&rt, alloc, &long.as_slice()[..65_536], &[15, 65_536, 1, 5])?;
    terminal_writes(&rt, alloc, long.as_slice(), &[15, 65_536, 1, 1, 5])?;
    Ok(())
}
