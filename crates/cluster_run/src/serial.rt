// The serial runner.
ghost use Rattle.std.specs.Prelude.{◌≡◌, ◌≤◌, ℕ, length, IfOk};
ghost use Rattle.call_table.specs.declared.limit.TheConstants.{NODES};
ghost use Rattle.node_links.specs.Sides.{InPairs, EachIs, IsFresh};
ghost use Rattle.node_machine.specs.Plan.{Plan};
ghost use Rattle.node_machine.specs.Policy.{IsFitting, given_by};
ghost use Rattle.cluster_run.specs.Over.{Begins, Ran};

use crate::over::{Nodes, Over};
use crate::run::run_seats;
use crate::seating::{risen, seated};
use call_table::NoMemory;
use node_links::{Carrier, Carriers};
use policy_box::{Chooser, Policy};
use std::alloc::Global;

/// A run on one thread: the nodes make turns one after another, round and round, until each rests and nothing lies on the way, or a journal is full where
/// more is due. The nodes and carriers come back in the same places. Whatever cluster they are of, all laws hold of the run.
pub fn run_serial<C: Carrier + Drop, P: Chooser>(
    alloc: Global,
    nodes: Nodes,
    carriers: Carriers<C>,
    policy: &Policy<P>,
) -> Result<Over<C>, NoMemory>
    requires least { 1 ≤ length nodes }
    requires most { length nodes ≤ NODES }
    requires pairs { InPairs C.pair (length nodes) carriers }
    requires fresh { EachIs (IsFresh C.puts C.gives C.total) carriers }
    ensures { IfOk result (λ over. (plan : Plan) (room : ℕ) → Begins plan room nodes → IsFitting (given_by (P.answers policy.now)) → Ran (given_by (P.answers policy.now)) plan room over.why over.nodes) }
{
    let count = nodes.len() as u8;
    let mut seats = seated(alloc, nodes, carriers, count - 1)?;
    let why = run_seats(alloc, &mut seats, count, policy)?;
    let (nodes, carriers) = risen(alloc, seats)?;
    Ok(Over {
        nodes,
        carriers,
        why,
    })
}
