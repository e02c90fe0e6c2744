// A shift of all seats: each makes turns on a thread of its own.
ghost use Rattle.std.specs.Prelude.{◌≡◌, ◌≢◌, ◌<◌, ◌≤◌, ℕ, length, slice_get, slice_index_or, false, Some, IfOk, OnOk};
ghost use Rattle.node_core.specs.declared.node.Node.{Node};
ghost use Rattle.node_machine.specs.Policy.{given_by};
ghost use Rattle.cluster_run.specs.declared.seat.Seat.{Seat};
ghost use Rattle.cluster_run.specs.Passing.{PassedAs};
ghost use Rattle.cluster_run.specs.Standing.{AreLinked};
ghost use Rattle.cluster_run.specs.Shifting.{Shifted, FirstStopped};

use crate::pass::Passed;
use crate::round::is_rest;
use crate::seat::{Rest, Seat};
use crate::seats::meet_all;
use call_table::NoMemory;
use node_core::Node;
use node_links::Carrier;
use outside::Gate;
use policy_box::{Chooser, Policy};
use std::alloc::Global;
use std::thread;
use std::thread::Threads;

/// How many turns of a node a shift has at most.
pub const SHIFT_TURNS: u32 = 65_536;

/// After so many turns in a row that find nothing due the shift of a node ends.
pub const SHIFT_IDLE_TURNS: u32 = 1024;

impl<C: Carrier> Seat<Node, C> {
    /// Turn after turn, with the gate called before each, until the shift ends.
    fn work<G: Gate, P: Chooser>(
        &mut self,
        alloc: Global,
        nodes: u8,
        gate: &G,
        policy: &Policy<P>,
    ) -> Result<(), NoMemory>
        ensures { OnOk result (Shifted (given_by (P.answers policy.now)) C.puts C.gives C.pair self.old self.new) }
    {
        let mut idle = 0u32;
        for _ in 0..SHIFT_TURNS {
            if idle >= SHIFT_IDLE_TURNS {
                return Ok(());
            }
            gate.turn(self.node.id(), idle > 0);
            let rest = self.round(alloc, nodes, policy)?;
            match rest {
                Rest::Full => return Ok(()),
                _ => idle = if is_rest(rest) {
                    idle.saturating_add(1)
                } else {
                    0
                },
            }
        }
        Ok(())
    }

    /// A shift of this seat. It keeps whether memory was wanting.
    fn shift<G: Gate, P: Chooser>(&mut self, alloc: Global, nodes: u8, gate: &G, policy: &Policy<P>)
        ensures { self.new.failed ≡ false → Shifted (given_by (P.answers policy.now)) C.puts C.gives C.pair self.old self.new }
    {
        match self.work(alloc, nodes, gate, policy) {
            Ok(()) => {}
            Err(_) => self.failed = true,
        }
    }
}

/// A shift of all seats, each on a thread of its own. Nothing is said of how their turns fall in time.
fn work_all<R: Threads + Sync, C: Carrier + Send, G: Gate + Sync, P: Chooser + Sync>(
    rt: &R,
    alloc: Global,
    seats: &mut [Seat<Node, C>],
    nodes: u8,
    gate: &G,
    policy: &Policy<P>,
)
    requires some { 1 ≤ nodes }
    ensures { (i : ℕ) (d : Seat Node C) → i < length seats.old → (slice_index_or seats.new i d).failed ≡ false → Shifted (given_by (P.answers policy.now)) C.puts C.gives C.pair (slice_index_or seats.old i d) (slice_index_or seats.new i d) }
{
    thread::for_each_mut(
        rt,
        seats,
        nodes as usize,
        &|_, seat| { seat.shift(alloc, nodes, gate, policy) },
    );
}

/// Whether memory was wanting at any seat.
fn has_failed<C>(seats: &[Seat<Node, C>]) -> bool
    ensures { result ≡ false → (k : ℕ) (s : Seat Node C) → slice_get seats.now k ≡ Some s → s.failed ≡ false }
{
    for seat in seats {
        if seat.failed {
            return true;
        }
    }
    false
}

/// The first seat that stopped at a full journal.
fn first_stopped<C>(seats: &[Seat<Node, C>], nodes: u8) -> Passed
    requires nodes { nodes ≡ length seats.now }
    ensures { FirstStopped nodes result seats.now }
{
    for at in 0..nodes {
        if seats[at as usize].rest == Rest::Full {
            return Passed::Full { node: at };
        }
    }
    Passed::Whole
}

/// All carriers meet; then all nodes make turns, each on a thread of its own, until each has ended its shift.
pub(crate) fn shift<R: Threads + Sync, C: Carrier + Send, G: Gate + Sync, P: Chooser + Sync>(
    rt: &R,
    alloc: Global,
    seats: &mut [Seat<Node, C>],
    nodes: u8,
    gate: &G,
    policy: &Policy<P>,
) -> Result<Passed, NoMemory>
    requires some { 1 ≤ nodes }
    requires nodes { nodes ≡ length seats.old }
    requires linked { AreLinked C.pair seats.old }
    ensures { IfOk result (λ passed. PassedAs (given_by (P.answers policy.now)) C.puts C.gives C.pair nodes passed seats.old seats.new) }
{
    let _none = meet_all(seats, nodes)?;
    work_all(rt, alloc, seats, nodes, gate, policy);
    if has_failed(seats) {
        return Err(NoMemory);
    }
    Ok(first_stopped(seats, nodes))
}
