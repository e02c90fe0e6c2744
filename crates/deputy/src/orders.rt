// The script's orders to kill and to move, and what home hears of moves.
ghost use Rattle.std.specs.Prelude.{◌≡◌, [], Some, None, OnErr, IfOk, if◌then◌else◌};
ghost use Rattle.kernel_spec.specs.Kernel.{with_raised};
ghost use Rattle.deputy.specs.Moves.{kill_poke, killed_in, go_mail, go_acted, is_later, told_turn, missed_acted};

use crate::fitting::was_given;
use crate::posting::{alone, letter, poke_to};
use crate::rows::Rows;
use crate::serving::post_poke;
use call_forward::{Acted, Mail, Message};
use call_table::NoMemory;
use home_kernel::Kernel;
use node_event::{Refusal, Unsent, What};
use std::alloc::Global;

/// An order of a line of the script: why nothing was sent, and the process that is poked.
fn ordered(line: u32, unsent: Option<Unsent>, poked: Option<u32>) -> What
    ensures { result ≡ What.Command line None unsent poked }
{
    What::Command {
        line,
        launched: None,
        unsent,
        poked,
    }
}

/// A process, if it is to be poked.
fn some_if(pokes: bool, pid: u32) -> Option<u32>
    ensures { result ≡ (if pokes then Some pid else None) }
{
    if pokes { Some(pid) } else { None }
}

/// Raises a signal: the process that is to be poked.
fn raise(kernel: &mut Kernel, rows: &Rows, pid: u32, signal: u8) -> Option<u32>
    ensures poked { result ≡ kill_poke kernel.old rows.now.list pid signal }
    ensures raised { kernel.new ≡ with_raised kernel.old pid signal }
{
    let counts = kernel.raise(pid, signal);
    some_if(counts && !rows.is_held(pid), pid)
}

/// Raises a signal for a line of the script. Want of memory changes nothing.
pub fn kill(
    kernel: &mut Kernel,
    rows: &Rows,
    alloc: Global,
    pid: u32,
    signal: u8,
    line: u32,
) -> Result<Acted, NoMemory>
    ensures ok { IfOk result (λ acted. killed_in (record { kernel = kernel.old; rows = rows.now.list }) pid signal line ≡ record { home = record { kernel = kernel.new; rows = rows.now.list }; acted = acted }) }
    ensures err { OnErr result (kernel.new ≡ kernel.old) }
{
    let mut mail = Vec::with_capacity(alloc, 1)?;
    let poked = raise(kernel, rows, pid, signal);
    post_poke(&mut mail, rows, poked);
    Ok(Acted {
        what: ordered(line, None, poked),
        mail: Mail::from_vec(mail),
    })
}

/// The order to move, to where the process is believed to be.
fn go_mail(rows: &Rows, alloc: Global, pid: u32, to: u8, line: u32) -> Result<Mail, NoMemory>
    ensures { IfOk result (λ mail. mail ≡ go_mail rows.now.list pid to line) }
{
    let message = Message::Go {
        pid,
        to,
        hops: rows.hops(pid),
        line,
    };
    Ok(letter(alloc, rows.place(pid), message)?)
}

/// What becomes of an order to move.
pub fn go(
    kernel: &Kernel,
    rows: &Rows,
    alloc: Global,
    pid: u32,
    to: u8,
    line: u32,
) -> Result<Acted, NoMemory>
    ensures { IfOk result (λ acted. acted ≡ go_acted (record { kernel = kernel.now; rows = rows.now.list }) pid to line) }
{
    if kernel.live(pid) {
        let what = ordered(line, None, None);
        let mail = go_mail(rows, alloc, pid, to, line)?;
        return Ok(Acted { what, mail });
    }
    if was_given(kernel, pid) {
        return Ok(alone(alloc, ordered(line, Some(Unsent::Ended), None)));
    }
    Ok(alone(alloc, ordered(line, Some(Unsent::Never), None)))
}

/// Where a process landed, from where, how many its landings are now, and the line of the script that asked for the move, if one did.
#[derive(Clone, Copy, Debug, PartialEq, Eq)]
pub struct Landing {
    pub at: u8,
    pub source: u8,
    pub hops: u32,
    pub line: Option<u32>,
}

/// A process that landed: it is believed there only where its landings are more than were told. Want of memory changes nothing.
pub fn land(
    kernel: &Kernel,
    rows: &mut Rows,
    alloc: Global,
    pid: u32,
    landing: Landing,
) -> Result<Acted, NoMemory>
    ensures ok { IfOk result (λ acted. told_turn (is_later rows.old.list pid landing.hops) (record { kernel = kernel.now; rows = rows.old.list }) landing.at pid landing.source landing.hops landing.line ≡ record { home = record { kernel = kernel.now; rows = rows.new.list }; acted = acted }) }
    ensures err { OnErr result (rows.new.list ≡ rows.old.list) }
{
    let later = rows.hops(pid) < landing.hops;
    let place = if later { landing.at } else { rows.place(pid) };
    let poked = some_if(kernel.deliverable(pid).is_some(), pid);
    let mail = poke_to(alloc, place, poked)?;
    if later {
        rows.land(pid, landing.at, landing.hops);
    }
    let what = What::Told {
        pid,
        at: landing.at,
        source: landing.source,
        hops: landing.hops,
        line: landing.line,
        poked,
    };
    Ok(Acted { what, mail })
}

/// A refused move.
fn refused(alloc: Global, pid: u32, to: u8, why: Refusal, line: u32) -> Acted
    ensures { result ≡ record { what = What.Refused pid to why line; mail = [] } }
{
    alone(alloc, What::Refused { pid, to, why, line })
}

/// What becomes of an order to move that missed its process.
pub fn miss(
    kernel: &Kernel,
    rows: &Rows,
    alloc: Global,
    pid: u32,
    to: u8,
    hops: u32,
    line: u32,
) -> Result<Acted, NoMemory>
    ensures { IfOk result (λ acted. acted ≡ missed_acted (record { kernel = kernel.now; rows = rows.now.list }) pid to hops line) }
{
    if !kernel.live(pid) {
        return Ok(refused(alloc, pid, to, Refusal::Ended, line));
    }
    if rows.hops(pid) <= hops {
        return Ok(refused(alloc, pid, to, Refusal::Moving, line));
    }
    let place = rows.place(pid);
    let what = What::Again {
        pid,
        to,
        place,
        line,
    };
    let mail = go_mail(rows, alloc, pid, to, line)?;
    Ok(Acted { what, mail })
}
