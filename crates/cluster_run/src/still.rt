// Whether anything is left to be done.
ghost use Rattle.std.specs.Prelude.{◌≡◌, ◌<◌, ◌≤◌, length, IfOk};
ghost use Rattle.cluster_run.specs.Standing.{AreLinked};
ghost use Rattle.cluster_run.specs.Passing.{LookedAt, LookedAll, Stilled};

use crate::seat::Seat;
use crate::seats::meet_all;
use call_table::NoMemory;
use node_core::Node;
use node_links::Carrier;

/// Whether the last turn of a seat found nothing due, and no letter waits there.
fn is_at_rest<C: Carrier>(seats: &mut [Seat<Node, C>], at: u8) -> bool
    requires within { at < length seats.old }
    ensures { LookedAt C.puts C.gives C.pair at result seats.old seats.new }
{
    seats[at as usize].is_at_rest()
}

/// Whether this is so at each seat.
fn all_at_rest<C: Carrier>(seats: &mut [Seat<Node, C>], nodes: u8) -> bool
    requires nodes { nodes ≤ length seats.old }
    ensures { LookedAll C.puts C.gives C.pair nodes result seats.old seats.new }
{
    for at in 0..nodes {
        if !is_at_rest(seats, at) {
            return false;
        }
    }
    true
}

/// Whether nothing is left to be done: the last turn of each node found nothing due, no letter waits, and nothing lies on any link.
pub(crate) fn is_still<C: Carrier>(seats: &mut [Seat<Node, C>], nodes: u8) -> Result<bool, NoMemory>
    requires nodes { nodes ≤ length seats.old }
    requires linked { AreLinked C.pair seats.old }
    ensures { IfOk result (λ still. Stilled C.puts C.gives C.pair nodes still seats.old seats.new) }
{
    let rests = all_at_rest(seats, nodes);
    if rests {
        let none = meet_all(seats, nodes)?;
        Ok(none)
    } else {
        Ok(false)
    }
}
