// The summary of a run, printed a line at a time.
ghost use Rattle.std.specs.Prelude.{◌≡◌, ℕ, List, [], ◌∷◌, length, IfOk};
ghost use Rattle.shell_text.specs.Printing.{Prints};
ghost use Rattle.shell_text.specs.Summary.{code_of, code_sum, is_land, land_count, count_line, process_writes, output_writes, close_writes, summary_writes};

use crate::report::last_line;
use crate::run::{Last, Run};
use crate::writing::{PrintFault, write_made};
use call_table::{Bytes, NoMemory, PidState};
use node_event::{Event, What};
use outside::Sink;
use std::alloc::Global;

/// The code that a process left by `exit`, and 0 for another.
fn code_of(state: PidState) -> u8
    ensures { result ≡ code_of state }
{
    match state {
        PidState::Exit(code) => code,
        _ => 0,
    }
}

/// The sum of the exit codes.
fn code_sum(statuses: &[(u32, PidState)]) -> u128
    ensures { result ≡ code_sum statuses.now }
{
    let mut sum = 0;
    for status in statuses {
        sum += code_of(status.1) as u128;
    }
    sum
}

fn is_land(event: &Event) -> bool
    ensures { result ≡ is_land event.now }
{
    matches!(event.what, What::Land { .. })
}

/// How many moves landed.
fn land_count(events: &[Event]) -> usize
    ensures { result ≡ land_count events.now }
{
    events.iter().filter(|event| is_land(event)).count()
}

/// A word and a number.
fn count_line(alloc: Global, word: &str, count: u128) -> Result<Bytes, NoMemory>
    ensures { IfOk result (λ b. b ≡ count_line word.now count) }
{
    let line = format!(in alloc; "{word} {count}\n")?;
    Ok(Bytes::from_vec(line.into_bytes()))
}

/// Prints two lines that were made.
fn print_two<O: Sink>(
    out: &mut O,
    first: Result<Bytes, NoMemory>,
    second: Result<Bytes, NoMemory>,
) -> Result<(), PrintFault>
    ensures { (one two : List ℕ) → IfOk first (λ b. b ≡ one) → IfOk second (λ b. b ≡ two) → Prints O.written O.faults (one ∷ two ∷ []) out.old out.new result }
{
    match write_made(out, first) {
        Ok(()) => {}
        Err(e) => return Err(e),
    }
    match write_made(out, second) {
        Ok(()) => Ok(()),
        Err(e) => Err(e),
    }
}

/// Prints how many processes there were, and the sum of their exit codes.
fn print_processes<O: Sink>(
    alloc: Global,
    statuses: &[(u32, PidState)],
    out: &mut O,
) -> Result<(), PrintFault>
    ensures { Prints O.written O.faults (process_writes statuses.now) out.old out.new result }
{
    let processes = count_line(alloc, "processes", statuses.len() as u128);
    let exits = count_line(alloc, "exits", code_sum(statuses));
    match print_two(out, processes, exits) {
        Ok(()) => Ok(()),
        Err(e) => Err(e),
    }
}

/// Prints how many bytes the terminal got, and how many files have a name.
fn print_output<O: Sink>(alloc: Global, run: &Run, out: &mut O) -> Result<(), PrintFault>
    ensures { Prints O.written O.faults (output_writes (length run.now.terminal) (length run.now.files)) out.old out.new result }
{
    let bytes = count_line(alloc, "bytes", run.terminal.len() as u128);
    let files = count_line(alloc, "files", run.files.len() as u128);
    match print_two(out, bytes, files) {
        Ok(()) => Ok(()),
        Err(e) => Err(e),
    }
}

/// Prints how many moves landed, and how the run ended.
fn print_close<O: Sink>(
    alloc: Global,
    events: &[Event],
    last: Last,
    out: &mut O,
) -> Result<(), PrintFault>
    ensures { Prints O.written O.faults (close_writes events.now last) out.old out.new result }
{
    let moves = count_line(alloc, "moves", land_count(events) as u128);
    match print_two(out, moves, last_line(alloc, last)) {
        Ok(()) => Ok(()),
        Err(e) => Err(e),
    }
}

/// Prints the summary of a run: how many processes there were, the sum of the codes that they left by `exit`, how many bytes the terminal
/// got, how many files have a name, how many moves landed, each a line, and how the run ended. Each line is a write of its own. Where the
/// sink fails or memory is wanting, a front of these writes was made.
pub fn print_summary<O: Sink>(alloc: Global, run: &Run, out: &mut O) -> Result<(), PrintFault>
    ensures { Prints O.written O.faults (summary_writes run.now) out.old out.new result }
{
    let statuses = run.statuses.as_slice();
    let happened = run.events.as_slice();
    match print_processes(alloc, statuses, out) {
        Ok(()) => {}
        Err(e) => return Err(e),
    }
    match print_output(alloc, run, out) {
        Ok(()) => {}
        Err(e) => return Err(e),
    }
    match print_close(alloc, happened, run.last, out) {
        Ok(()) => Ok(()),
        Err(e) => Err(e),
    }
}
