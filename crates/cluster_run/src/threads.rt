// The runner on threads.
ghost use Rattle.std.specs.Prelude.{◌≡◌, ◌≤◌, ℕ, length, IfOk};
ghost use Rattle.call_table.specs.declared.limit.TheConstants.{NODES};
ghost use Rattle.node_links.specs.Sides.{InPairs, EachIs, IsFresh};
ghost use Rattle.node_machine.specs.Plan.{Plan};
ghost use Rattle.node_machine.specs.Policy.{IsFitting, given_by};
ghost use Rattle.cluster_run.specs.Over.{Begins, Ran};
ghost use Rattle.cluster_run.specs.Running.{AreOver};
ghost use Rattle.cluster_run.specs.Standing.{AreLinked};

use crate::over::{Nodes, Over, OverWhy};
use crate::run::over_after;
use crate::seat::Seat;
use crate::seating::{risen, seated};
use crate::shift::shift;
use call_table::NoMemory;
use node_core::Node;
use node_links::{Carrier, Carriers};
use outside::Gate;
use policy_box::{Chooser, Policy};
use std::alloc::Global;
use std::sync::Wait;
use std::thread::Threads;

/// Shift after shift, until each node rests and nothing lies on the way, or a journal is full where more is due.
fn run_shifts<R: Threads + Wait + Sync, C: Carrier + Send, G: Gate + Sync, P: Chooser + Sync>(
    rt: &R,
    alloc: Global,
    seats: &mut [Seat<Node, C>],
    nodes: u8,
    gate: &G,
    policy: &Policy<P>,
) -> Result<OverWhy, NoMemory>
    requires some { 1 ≤ nodes }
    requires nodes { nodes ≡ length seats.old }
    requires linked { AreLinked C.pair seats.old }
    ensures { IfOk result (λ why. AreOver (given_by (P.answers policy.now)) C.puts C.gives why seats.old seats.new) }
{
    for _ in rt.forever() {
        let passed = shift(rt, alloc, seats, nodes, gate, policy)?;
        let over = over_after(alloc, seats, passed, nodes, policy)?;
        if let Some(why) = over {
            return Ok(why);
        }
    }
    unreachable!()
}

/// A run on threads: in each shift every node, with its side of the carriers, makes turns on a thread of its own, and between two shifts all carriers
/// meet. The gate is called before each turn. It is over as a run on one thread is, and the nodes and carriers come back in the same places.
/// Whatever cluster they are of and however the turns fell in time, all laws hold of the run. That it returns is not promised.
pub fn run_threads<
    R: Threads + Wait + Sync,
    C: Carrier + Drop + Send,
    G: Gate + Sync,
    P: Chooser + Sync,
>(
    rt: &R,
    alloc: Global,
    nodes: Nodes,
    carriers: Carriers<C>,
    gate: &G,
    policy: &Policy<P>,
) -> Result<Over<C>, NoMemory>
    requires least { 1 ≤ length nodes }
    requires most { length nodes ≤ NODES }
    requires pairs { InPairs C.pair (length nodes) carriers }
    requires fresh { EachIs (IsFresh C.puts C.gives C.total) carriers }
    ensures { IfOk result (λ over. (plan : Plan) (room : ℕ) → Begins plan room nodes → IsFitting (given_by (P.answers policy.now)) → Ran (given_by (P.answers policy.now)) plan room over.why over.nodes) }
{
    let count = nodes.len() as u8;
    let mut seats = seated(alloc, nodes, carriers, count - 1)?;
    let why = run_shifts(rt, alloc, &mut seats, count, gate, policy)?;
    let (nodes, carriers) = risen(alloc, seats)?;
    Ok(Over {
        nodes,
        carriers,
        why,
    })
}
