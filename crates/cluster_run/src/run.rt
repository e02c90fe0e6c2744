// A run of seats on one thread.
ghost use Rattle.std.specs.Prelude.{◌≡◌, ◌<◌, ◌≤◌, length, IfOk};
ghost use Rattle.node_machine.specs.Policy.{given_by};
ghost use Rattle.cluster_run.specs.Standing.{AreLinked};
ghost use Rattle.cluster_run.specs.Running.{why_of, AreOver, AreFull, IsWhy, IsWithin, OverAfter};

use crate::full::{first_awaited, first_full};
use crate::over::OverWhy;
use crate::pass::{Passed, pass};
use crate::seat::{Rest, Seat};
use crate::seats::meet_all;
use crate::still::is_still;
use call_table::NoMemory;
use node_core::Node;
use node_links::Carrier;
use policy_box::{Chooser, Policy};
use std::alloc::Global;

/// Why a run is over, by the last answer of home.
fn why_of(rest: Rest) -> OverWhy
    ensures { result ≡ why_of rest }
{
    match rest {
        Rest::Over => OverWhy::Done,
        _ => OverWhy::Stuck,
    }
}

/// Why a run is over in which nothing is left to be done.
fn why_still<C>(seats: &[Seat<Node, C>]) -> OverWhy
    requires some { 1 ≤ length seats.now }
    ensures { IsWhy result seats.now }
{
    why_of(seats[0].rest)
}

/// Why a run is over that stopped at a node with a full journal.
fn why_full<C: Carrier, P: Chooser>(
    alloc: Global,
    seats: &mut [Seat<Node, C>],
    node: u8,
    nodes: u8,
    policy: &Policy<P>,
) -> Result<OverWhy, NoMemory>
    requires within { node < length seats.old }
    requires nodes { nodes ≡ length seats.old }
    requires linked { AreLinked C.pair seats.old }
    ensures { IfOk result (λ why. AreFull (given_by (P.answers policy.now)) C.puts C.gives node why seats.old seats.new) }
{
    let first = first_full(alloc, seats, node, policy)?;
    let least = first_awaited(seats, first, nodes)?;
    let _none = meet_all(seats, nodes)?;
    Ok(OverWhy::Full { node: least })
}

/// After a pass or a shift: why the run is over, or None where it goes on.
pub(crate) fn over_after<C: Carrier, P: Chooser>(
    alloc: Global,
    seats: &mut [Seat<Node, C>],
    passed: Passed,
    nodes: u8,
    policy: &Policy<P>,
) -> Result<Option<OverWhy>, NoMemory>
    requires some { 1 ≤ nodes }
    requires nodes { nodes ≡ length seats.old }
    requires within { IsWithin nodes passed }
    requires linked { AreLinked C.pair seats.old }
    ensures { IfOk result (λ over. OverAfter (given_by (P.answers policy.now)) C.puts C.gives C.pair nodes passed over seats.old seats.new) }
{
    match passed {
        Passed::Full { node } => {
            let why = why_full(alloc, seats, node, nodes, policy)?;
            Ok(Some(why))
        }
        Passed::Whole => {
            let still = is_still(seats, nodes)?;
            if still {
                Ok(Some(why_still(seats)))
            } else {
                Ok(None)
            }
        }
    }
}

/// The nodes make turns one after another, round and round, until each rests and nothing lies on the way, or a journal is full where more is due.
pub(crate) fn run_seats<C: Carrier, P: Chooser>(
    alloc: Global,
    seats: &mut [Seat<Node, C>],
    nodes: u8,
    policy: &Policy<P>,
) -> Result<OverWhy, NoMemory>
    requires some { 1 ≤ nodes }
    requires nodes { nodes ≡ length seats.old }
    requires linked { AreLinked C.pair seats.old }
    ensures { IfOk result (λ why. AreOver (given_by (P.answers policy.now)) C.puts C.gives why seats.old seats.new) }
{
    for _ in 0..u64::MAX {
        let passed = pass(alloc, seats, nodes, policy)?;
        let over = over_after(alloc, seats, passed, nodes, policy)?;
        if let Some(why) = over {
            return Ok(why);
        }
    }
    Err(NoMemory)
}
