// A pass over all seats: before each turn the carriers of its node meet those of the others.
ghost use Rattle.std.specs.Prelude.{◌≡◌, ◌<◌, ◌≤◌, length, IfOk};
ghost use Rattle.node_machine.specs.Policy.{given_by};
ghost use Rattle.cluster_run.specs.Standing.{AreLinked};
ghost use Rattle.cluster_run.specs.Passing.{RoundAt, PassedAs};

use crate::seat::{Rest, Seat};
use crate::seats::meet_row;
use call_table::NoMemory;
use node_core::Node;
use node_links::Carrier;
use policy_box::{Chooser, Policy};
use std::alloc::Global;

/// How a pass ends.
#[derive(Clone, Copy, Debug, PartialEq, Eq)]
pub(crate) enum Passed {
    /// Each node made its turn.
    Whole,
    /// The turn of this node found its journal full.
    Full { node: u8 },
}

/// A round of one seat.
fn round_at<C: Carrier, P: Chooser>(
    alloc: Global,
    seats: &mut [Seat<Node, C>],
    at: u8,
    nodes: u8,
    policy: &Policy<P>,
) -> Result<Rest, NoMemory>
    requires within { at < length seats.old }
    ensures { IfOk result (λ rest. RoundAt (given_by (P.answers policy.now)) C.puts C.gives C.pair rest at seats.old seats.new) }
{
    let rest = seats[at as usize].round(alloc, nodes, policy)?;
    Ok(rest)
}

/// The carriers of a node meet those of the others, and its seat makes a round.
fn turn_at<C: Carrier, P: Chooser>(
    alloc: Global,
    seats: &mut [Seat<Node, C>],
    at: u8,
    nodes: u8,
    policy: &Policy<P>,
) -> Result<Rest, NoMemory>
    requires within { at < length seats.old }
    requires nodes { nodes ≤ length seats.old }
    requires linked { AreLinked C.pair seats.old }
    ensures { IfOk result (λ rest. RoundAt (given_by (P.answers policy.now)) C.puts C.gives C.pair rest at seats.old seats.new) }
{
    meet_row(seats, at, nodes)?;
    let rest = round_at(alloc, seats, at, nodes, policy)?;
    Ok(rest)
}

/// Each node in order makes a turn, up to one that finds its journal full.
pub(crate) fn pass<C: Carrier, P: Chooser>(
    alloc: Global,
    seats: &mut [Seat<Node, C>],
    nodes: u8,
    policy: &Policy<P>,
) -> Result<Passed, NoMemory>
    requires nodes { nodes ≤ length seats.old }
    requires linked { AreLinked C.pair seats.old }
    ensures { IfOk result (λ passed. PassedAs (given_by (P.answers policy.now)) C.puts C.gives C.pair nodes passed seats.old seats.new) }
{
    for at in 0..nodes {
        match turn_at(alloc, seats, at, nodes, policy)? {
            Rest::Full => return Ok(Passed::Full { node: at }),
            _ => {}
        }
    }
    Ok(Passed::Whole)
}
