// The lines of the outcomes of moves.
ghost use Rattle.std.specs.Prelude.{◌≡◌, IfOk};
ghost use Rattle.shell_text.specs.Outcomes.{ordered_move, move_on, moved_line, pages_line, refused_line, moving_line, stay_line, none_line, denied_line, got_line, unsent_line, outcome_line};

use call_table::{Bytes, NoMemory};
use node_event::{Event, Kept, Order, Refusal, ScriptLine, Unsent, What};
use std::alloc::Global;

/// The process and the node of a `move`.
pub fn ordered_move(order: &Order) -> Option<(u32, u8)>
    ensures { result ≡ ordered_move order.now }
{
    match order {
        Order::Move { pid, to } => Some((*pid, *to)),
        _ => None,
    }
}

/// The process and the node of the `move` on the line of this number.
fn move_on(script: &[ScriptLine], number: u32) -> Option<(u32, u8)>
    ensures { result ≡ move_on script.now number }
{
    for ordered in script {
        if ordered.line == number {
            return ordered_move(&ordered.order);
        }
    }
    None
}

fn moved_line(alloc: Global, pid: u32, source: u8, to: u8) -> Result<Bytes, NoMemory>
    ensures { IfOk result (λ line. line ≡ moved_line pid source to) }
{
    let line = format!(in alloc; "move {pid} {source} {to}\n")?;
    Ok(Bytes::from_vec(line.into_bytes()))
}

fn pages_line(alloc: Global, pid: u32, to: u8, need: u32, free: u32) -> Result<Bytes, NoMemory>
    ensures { IfOk result (λ line. line ≡ pages_line pid to need free) }
{
    let line = format!(in alloc; "refused {pid} {to} pages {need} {free}\n")?;
    Ok(Bytes::from_vec(line.into_bytes()))
}

fn refused_line(alloc: Global, pid: u32, to: u8) -> Result<Bytes, NoMemory>
    ensures { IfOk result (λ line. line ≡ refused_line pid to) }
{
    let line = format!(in alloc; "refused {pid} {to} ended\n")?;
    Ok(Bytes::from_vec(line.into_bytes()))
}

fn moving_line(alloc: Global, pid: u32, to: u8) -> Result<Bytes, NoMemory>
    ensures { IfOk result (λ line. line ≡ moving_line pid to) }
{
    let line = format!(in alloc; "refused {pid} {to} moving\n")?;
    Ok(Bytes::from_vec(line.into_bytes()))
}

fn stay_line(alloc: Global, pid: u32, to: u8) -> Result<Bytes, NoMemory>
    ensures { IfOk result (λ line. line ≡ stay_line pid to) }
{
    let line = format!(in alloc; "stay {pid} {to}\n")?;
    Ok(Bytes::from_vec(line.into_bytes()))
}

fn none_line(alloc: Global, pid: u32) -> Result<Bytes, NoMemory>
    ensures { IfOk result (λ line. line ≡ none_line pid) }
{
    let line = format!(in alloc; "none {pid}\n")?;
    Ok(Bytes::from_vec(line.into_bytes()))
}

/// The line of a move that was refused.
fn denied_line(alloc: Global, pid: u32, to: u8, why: Refusal) -> Result<Bytes, NoMemory>
    ensures { IfOk result (λ line. line ≡ denied_line pid to why) }
{
    match why {
        Refusal::Ended => refused_line(alloc, pid, to),
        Refusal::Moving => moving_line(alloc, pid, to),
        Refusal::There => stay_line(alloc, pid, to),
    }
}

/// The line of a kept move whose process had ended.
fn got_line(
    alloc: Global,
    pid: u32,
    kept: Option<Kept>,
    to: Option<u8>,
) -> Result<Option<Bytes>, NoMemory>
    ensures { IfOk result (λ line. line ≡ got_line pid kept to) }
{
    let Some(to) = to else {
        return Ok(None);
    };
    match kept {
        Some(Kept::Ended) => Ok(Some(refused_line(alloc, pid, to)?)),
        Some(Kept::Begins) => Ok(None),
        None => Ok(None),
    }
}

/// The line of a command that sent nothing.
fn unsent_line(
    alloc: Global,
    ordered: Option<(u32, u8)>,
    unsent: Option<Unsent>,
) -> Result<Option<Bytes>, NoMemory>
    ensures { IfOk result (λ line. line ≡ unsent_line ordered unsent) }
{
    let Some((pid, to)) = ordered else {
        return Ok(None);
    };
    match unsent {
        Some(Unsent::Ended) => Ok(Some(refused_line(alloc, pid, to)?)),
        Some(Unsent::Never) => Ok(Some(none_line(alloc, pid)?)),
        None => Ok(None),
    }
}

/// The line of the outcome that an event is, where it is one.
pub fn outcome_line(
    alloc: Global,
    script: &[ScriptLine],
    event: &Event,
) -> Result<Option<Bytes>, NoMemory>
    ensures { IfOk result (λ line. line ≡ outcome_line script.now event.now) }
{
    match event.what {
        What::Command { line, unsent, .. } => unsent_line(alloc, move_on(script, line), unsent),
        What::Got { pid, kept, to, .. } => got_line(alloc, pid, kept, to),
        What::Stay {
            pid,
            to,
            need,
            free,
        } => Ok(Some(pages_line(alloc, pid, to, need, free)?)),
        What::Land { pid, source } => Ok(Some(moved_line(alloc, pid, source, event.node)?)),
        What::Refused { pid, to, why, .. } => Ok(Some(denied_line(alloc, pid, to, why)?)),
        _ => Ok(None),
    }
}
