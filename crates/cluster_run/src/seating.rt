// Nodes take their seats, and rise from them.
ghost use Rattle.std.specs.Prelude.{◌≡◌, ◌<◌, ◌≤◌, ◌-◌, length, map, IfOk};
ghost use Rattle.cluster_run.specs.Seating.{seat_of, seats_of, node_of, side_of};

use crate::over::Nodes;
use crate::seat::{Rest, Seat};
use call_table::NoMemory;
use node_core::Node;
use node_links::{Carriers, Side};
use std::alloc::Global;

/// A node with its side of the carriers, before it made a turn. The search for a letter begins after the source `last`.
fn seat_of<C>(node: Node, side: Side<C>, last: u8) -> Seat<Node, C>
    ensures { result ≡ seat_of last node side }
{
    Seat {
        node,
        waits: None,
        side,
        source: last,
        rest: Rest::Busy,
        failed: false,
    }
}

/// The nodes at their seats, each with its side of the carriers.
pub(crate) fn seated<C: Drop>(
    alloc: Global,
    nodes: Nodes,
    carriers: Carriers<C>,
    last: u8,
) -> Result<Vec<Seat<Node, C>>, NoMemory>
    ensures { IfOk result (λ seats. seats.items ≡ seats_of last nodes carriers) }
{
    let mut sides = carriers.into_vec();
    sides.reverse();
    let mut seats = Vec::new(alloc);
    for node in nodes.into_vec() {
        if let Some(side) = sides.pop() {
            seats.push(seat_of(node, side, last))?;
        }
    }
    Ok(seats)
}

/// The nodes and the carriers of all seats.
pub(crate) fn risen<C: Drop>(
    alloc: Global,
    seats: Vec<Seat<Node, C>>,
) -> Result<(Nodes, Carriers<C>), NoMemory>
    ensures nodes { IfOk result (λ r. r.0 ≡ map node_of seats.items) }
    ensures carriers { IfOk result (λ r. r.1 ≡ map side_of seats.items) }
{
    let mut nodes = Vec::new(alloc);
    let mut sides = Vec::new(alloc);
    for seat in seats {
        let Seat { node, side, .. } = seat;
        nodes.push(node)?;
        sides.push(side)?;
    }
    Ok((Nodes::from_vec(nodes), Carriers::from_vec(sides)))
}
