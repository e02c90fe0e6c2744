// Moves of the script that were carried out and have no outcome.
ghost use Rattle.std.specs.Prelude.{◌≡◌, IfOk};
ghost use Rattle.shell_text.specs.Opens.{commanded, answered, closed, stepped, after, progress_from, is_open, open_move, open_line};

use crate::outcome::ordered_move;
use call_table::{Bytes, NoMemory};
use node_event::{Event, Kept, ScriptLine, Unsent, What};
use std::alloc::Global;

/// How far the move of a line of the script has come.
#[derive(Clone, Copy, Debug, PartialEq, Eq)]
pub enum Progress {
    /// It was not carried out.
    Unsent,
    /// It was asked for.
    Sent,
    /// It is kept until an answer comes.
    Kept,
    /// It began.
    Begun,
    /// It has an outcome.
    Over,
}

fn commanded(unsent: Option<Unsent>) -> Progress
    ensures { result ≡ commanded unsent }
{
    match unsent {
        Some(_) => Progress::Over,
        None => Progress::Sent,
    }
}

/// How far a move has come after its process got an answer.
fn answered(progress: Progress, kept: Option<Kept>) -> Progress
    ensures { result ≡ answered progress kept }
{
    match progress {
        Progress::Kept => match kept {
            Some(Kept::Begins) => Progress::Begun,
            Some(Kept::Ended) => Progress::Over,
            None => Progress::Kept,
        },
        Progress::Unsent => Progress::Unsent,
        Progress::Sent => Progress::Sent,
        Progress::Begun => Progress::Begun,
        Progress::Over => Progress::Over,
    }
}

/// How far a move has come after its process stayed or landed.
fn closed(progress: Progress) -> Progress
    ensures { result ≡ closed progress }
{
    match progress {
        Progress::Begun => Progress::Over,
        Progress::Unsent => Progress::Unsent,
        Progress::Sent => Progress::Sent,
        Progress::Kept => Progress::Kept,
        Progress::Over => Progress::Over,
    }
}

fn stepped(is_it: bool, old: Progress, new: Progress) -> Progress
    ensures { result ≡ stepped is_it old new }
{
    if is_it { new } else { old }
}

/// How far the move of this line and process has come after a further event.
fn after(number: u32, mover: u32, progress: Progress, what: What) -> Progress
    ensures { result ≡ after number mover progress what }
{
    match what {
        What::Command { line, unsent, .. } => stepped(line == number, progress, commanded(unsent)),
        What::Keep { line, .. } => stepped(line == number, progress, Progress::Kept),
        What::Begin { line, .. } => stepped(line == number, progress, Progress::Begun),
        What::Refused { line, .. } => stepped(line == number, progress, Progress::Over),
        What::Got { pid, kept, .. } => { stepped(pid == mover, progress, answered(progress, kept)) }
        What::Stay { pid, .. } => stepped(pid == mover, progress, closed(progress)),
        What::Land { pid, .. } => stepped(pid == mover, progress, closed(progress)),
        _ => progress,
    }
}

/// How far the move of this line and process has come in these events.
fn progress_in(events: &[Event], number: u32, mover: u32) -> Progress
    ensures { result ≡ progress_from number mover Progress.Unsent events.now }
{
    let mut progress = Progress::Unsent;
    for event in events {
        progress = after(number, mover, progress, event.what);
    }
    progress
}

fn is_open(progress: Progress) -> bool
    ensures { result ≡ is_open progress }
{
    match progress {
        Progress::Unsent => false,
        Progress::Over => false,
        Progress::Sent => true,
        Progress::Kept => true,
        Progress::Begun => true,
    }
}

fn open_move(alloc: Global, pid: u32, to: u8) -> Result<Bytes, NoMemory>
    ensures { IfOk result (λ line. line ≡ open_move pid to) }
{
    let line = format!(in alloc; "open {pid} {to}\n")?;
    Ok(Bytes::from_vec(line.into_bytes()))
}

/// The line of a move that was carried out and has no outcome.
pub fn open_line(
    alloc: Global,
    events: &[Event],
    ordered: &ScriptLine,
) -> Result<Option<Bytes>, NoMemory>
    ensures { IfOk result (λ line. line ≡ open_line events.now ordered.now) }
{
    let Some((pid, to)) = ordered_move(&ordered.order) else {
        return Ok(None);
    };
    if is_open(progress_in(events, ordered.line, pid)) {
        return Ok(Some(open_move(alloc, pid, to)?));
    }
    Ok(None)
}
