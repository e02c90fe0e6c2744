// The report, printed a piece at a time.
ghost use Rattle.std.specs.Prelude.{◌≡◌, ℕ, List, ◌++◌, length, IfOk};
ghost use Rattle.std.specs.List.{flat_map};
ghost use Rattle.shell_text.specs.Printing.{Prints};
ghost use Rattle.shell_text.specs.Report.{terminal_line, status_line, length_text, file_line, last_line, events_line, line_of_event, block_writes, status_writes, file_writes, outcome_writes, open_writes, event_writes, state_writes, move_writes, listing, end_writes, report_writes};

use crate::open::open_line;
use crate::outcome::outcome_line;
use crate::run::{Last, Run};
use crate::writing::{PrintFault, write_bytes, write_made, write_piece, write_some};
use call_table::{Bytes, Named, NoMemory, PidState};
use node_event::{Event, Script, ScriptLine};
use outside::Sink;
use std::alloc::Global;

fn terminal_line(alloc: Global, count: usize) -> Result<Bytes, NoMemory>
    ensures { IfOk result (λ b. b ≡ terminal_line count) }
{
    let line = format!(in alloc; "terminal {count}\n")?;
    Ok(Bytes::from_vec(line.into_bytes()))
}

fn status_line(alloc: Global, status: &(u32, PidState)) -> Result<Bytes, NoMemory>
    ensures { IfOk result (λ b. b ≡ status_line status.now) }
{
    let pid = status.0;
    let line = match status.1 {
        PidState::Exit(code) => format!(in alloc; "process {pid} exit {code}\n")?,
        PidState::Signal(signal) => format!(in alloc; "process {pid} signal {signal}\n")?,
        PidState::Blocked(number) => format!(in alloc; "process {pid} blocked {number}\n")?,
        PidState::Live => format!(in alloc; "process {pid} live\n")?,
    };
    Ok(Bytes::from_vec(line.into_bytes()))
}

/// The length of a file and the end of its line.
fn length_text(alloc: Global, len: usize) -> Result<Bytes, NoMemory>
    ensures { IfOk result (λ b. b ≡ length_text len) }
{
    let text = format!(in alloc; " {len}\n")?;
    Ok(Bytes::from_vec(text.into_bytes()))
}

fn file_line(alloc: Global, file: &Named) -> Result<Bytes, NoMemory>
    ensures { IfOk result (λ b. b ≡ file_line file.now) }
{
    let mut line = Bytes::from_slice(alloc, b"file ")?;
    line.push_slice(file.name.as_slice())?;
    let length = length_text(alloc, file.bytes.len())?;
    line.push_slice(length.as_slice())?;
    Ok(line)
}

pub fn last_line(alloc: Global, last: Last) -> Result<Bytes, NoMemory>
    ensures { IfOk result (λ b. b ≡ last_line last) }
{
    let line = match last {
        Last::Done => format!(in alloc; "done\n")?,
        Last::Stuck => format!(in alloc; "stuck\n")?,
        Last::Full(node) => format!(in alloc; "full {node}\n")?,
    };
    Ok(Bytes::from_vec(line.into_bytes()))
}

fn events_line(alloc: Global, count: usize) -> Result<Bytes, NoMemory>
    ensures { IfOk result (λ b. b ≡ events_line count) }
{
    let line = format!(in alloc; "events {count}\n")?;
    Ok(Bytes::from_vec(line.into_bytes()))
}

fn line_of_event(alloc: Global, event: &Event) -> Result<Bytes, NoMemory>
    ensures { IfOk result (λ b. b ≡ line_of_event event.now) }
{
    let line = format!(in alloc; "{event}\n")?;
    Ok(Bytes::from_vec(line.into_bytes()))
}

/// Prints a line that was made, bytes in pieces and a newline.
fn print_block<O: Sink>(
    out: &mut O,
    line: Result<Bytes, NoMemory>,
    bytes: &[u8],
) -> Result<(), PrintFault>
    ensures { (text : List ℕ) → IfOk line (λ b. b ≡ text) → Prints O.written O.faults (block_writes text bytes.now) out.old out.new result }
{
    match write_made(out, line) {
        Ok(()) => {}
        Err(e) => return Err(e),
    }
    match write_bytes(out, bytes) {
        Ok(()) => {}
        Err(e) => return Err(e),
    }
    match write_piece(out, b"\n") {
        Ok(()) => Ok(()),
        Err(e) => Err(e),
    }
}

fn print_statuses<O: Sink>(
    alloc: Global,
    statuses: &[(u32, PidState)],
    out: &mut O,
) -> Result<(), PrintFault>
    ensures { Prints O.written O.faults (flat_map status_writes statuses.now) out.old out.new result }
{
    for status in statuses {
        match write_made(out, status_line(alloc, status)) {
            Ok(()) => {}
            Err(e) => return Err(e),
        }
    }
    Ok(())
}

fn print_files<O: Sink>(alloc: Global, files: &[Named], out: &mut O) -> Result<(), PrintFault>
    ensures { Prints O.written O.faults (flat_map file_writes files.now) out.old out.new result }
{
    for file in files {
        match print_block(out, file_line(alloc, file), file.bytes.as_slice()) {
            Ok(()) => {}
            Err(e) => return Err(e),
        }
    }
    Ok(())
}

/// Prints the outcomes of moves in the order of the events.
fn print_outcomes<O: Sink>(
    alloc: Global,
    events: &[Event],
    script: &[ScriptLine],
    out: &mut O,
) -> Result<(), PrintFault>
    ensures { Prints O.written O.faults (flat_map (outcome_writes script.now) events.now) out.old out.new result }
{
    for event in events {
        match write_some(out, outcome_line(alloc, script, event)) {
            Ok(()) => {}
            Err(e) => return Err(e),
        }
    }
    Ok(())
}

/// Prints the moves without an outcome in the order of their lines.
fn print_opens<O: Sink>(
    alloc: Global,
    events: &[Event],
    script: &[ScriptLine],
    out: &mut O,
) -> Result<(), PrintFault>
    ensures { Prints O.written O.faults (flat_map (open_writes events.now) script.now) out.old out.new result }
{
    for ordered in script {
        match write_some(out, open_line(alloc, events, ordered)) {
            Ok(()) => {}
            Err(e) => return Err(e),
        }
    }
    Ok(())
}

fn print_events<O: Sink>(alloc: Global, events: &[Event], out: &mut O) -> Result<(), PrintFault>
    ensures { Prints O.written O.faults (flat_map event_writes events.now) out.old out.new result }
{
    for event in events {
        match write_made(out, line_of_event(alloc, event)) {
            Ok(()) => {}
            Err(e) => return Err(e),
        }
    }
    Ok(())
}

/// Prints the lines of the events behind their number, where they are asked for.
fn print_listing<O: Sink>(
    alloc: Global,
    events: &[Event],
    is_asked: bool,
    out: &mut O,
) -> Result<(), PrintFault>
    ensures { Prints O.written O.faults (listing is_asked events.now) out.old out.new result }
{
    if !is_asked {
        return Ok(());
    }
    match write_made(out, events_line(alloc, events.len())) {
        Ok(()) => {}
        Err(e) => return Err(e),
    }
    match print_events(alloc, events, out) {
        Ok(()) => Ok(()),
        Err(e) => Err(e),
    }
}

/// Prints the terminal, the processes and the files.
fn print_state<O: Sink>(alloc: Global, run: &Run, out: &mut O) -> Result<(), PrintFault>
    ensures { Prints O.written O.faults (state_writes run.now) out.old out.new result }
{
    let terminal = run.terminal.as_slice();
    let statuses = run.statuses.as_slice();
    let files = run.files.as_slice();
    match print_block(out, terminal_line(alloc, terminal.len()), terminal) {
        Ok(()) => {}
        Err(e) => return Err(e),
    }
    match print_statuses(alloc, statuses, out) {
        Ok(()) => {}
        Err(e) => return Err(e),
    }
    match print_files(alloc, files, out) {
        Ok(()) => Ok(()),
        Err(e) => Err(e),
    }
}

/// Prints what became of the moves.
fn print_moves<O: Sink>(
    alloc: Global,
    events: &[Event],
    script: &[ScriptLine],
    out: &mut O,
) -> Result<(), PrintFault>
    ensures { Prints O.written O.faults (flat_map (outcome_writes script.now) events.now ++ flat_map (open_writes events.now) script.now) out.old out.new result }
{
    match print_outcomes(alloc, events, script, out) {
        Ok(()) => {}
        Err(e) => return Err(e),
    }
    match print_opens(alloc, events, script, out) {
        Ok(()) => Ok(()),
        Err(e) => Err(e),
    }
}

/// Prints how the run ended, and the lines of its events where they are asked for.
fn print_end<O: Sink>(
    alloc: Global,
    run: &Run,
    is_asked: bool,
    out: &mut O,
) -> Result<(), PrintFault>
    ensures { Prints O.written O.faults (end_writes run.now is_asked) out.old out.new result }
{
    let happened = run.events.as_slice();
    match write_made(out, last_line(alloc, run.last)) {
        Ok(()) => {}
        Err(e) => return Err(e),
    }
    match print_listing(alloc, happened, is_asked, out) {
        Ok(()) => Ok(()),
        Err(e) => Err(e),
    }
}

/// Prints the report of a run of this script, with the lines of the events where they are asked for. Each line and each newline behind
/// bytes is a write of its own, and bytes are written in pieces of at most 65,536. Where the sink fails or memory is wanting, a front
/// of these writes was made.
pub fn print_report<O: Sink>(
    alloc: Global,
    run: &Run,
    script: &Script,
    events: bool,
    out: &mut O,
) -> Result<(), PrintFault>
    ensures { Prints O.written O.faults (report_writes run.now script.now events) out.old out.new result }
{
    let happened = run.events.as_slice();
    let orders = script.as_slice();
    match print_state(alloc, run, out) {
        Ok(()) => {}
        Err(e) => return Err(e),
    }
    match print_moves(alloc, happened, orders, out) {
        Ok(()) => {}
        Err(e) => return Err(e),
    }
    match print_end(alloc, run, events, out) {
        Ok(()) => Ok(()),
        Err(e) => Err(e),
    }
}
