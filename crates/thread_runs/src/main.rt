// A run of three nodes on threads, in which the first turns of two nodes wait for each other.
#![tactic(auto)]

ghost use Rattle.std.specs.Prelude.{◌≡◌, length, IfOk};

use call_table::NoMemory;
use cluster_run::{Nodes, Over, OverWhy, run_threads};
use node_core::{Node, Plan, Shape};
use node_event::Script;
use node_links::{RingCarrier, ring_carriers};
use outside::Gate;
use policy_box::never_policy;
use std::alloc::{AllocGlobal, Global};
use std::sync::Wait;
use std::sync::atomic::{AtomicU64, Ordering};
use std::thread::Threads;
use std::time::{Clock, Duration};
use std::{io, thread};
use user_ctx::Users;

/// How often a node looks for the other's flag, once each millisecond.
const LOOKS: u32 = 5_000;

/// At its first turn node 1 raises its flag and waits for that of node 2, and node 2 for that of node 1.
#[derive(Drop)]
struct FlagGate<'a, C> {
    clock: &'a C,
    one: AtomicU64,
    two: AtomicU64,
    seen: AtomicU64,
}

impl<'a, C: Clock> FlagGate<'a, C> {
    /// Raises a flag, and where it was not raised before waits for the other one, for five seconds at most.
    fn meet(&self, own: &AtomicU64, other: &AtomicU64) {
        if own.swap(1, Ordering::SeqCst) == 1 {
            return;
        }
        for _ in 0..LOOKS {
            if other.load(Ordering::SeqCst) == 1 {
                self.seen.fetch_add(1, Ordering::SeqCst);
                return;
            }
            thread::sleep(self.clock, Duration::from_millis(1));
        }
    }
}

impl<'a, C: Clock> Gate for FlagGate<'a, C> {
    fn turn(&self, node: u8, _idle: bool) {
        match node {
            1 => self.meet(&self.one, &self.two),
            2 => self.meet(&self.two, &self.one),
            _ => {}
        }
    }
}

/// A cluster of three nodes.
const SHAPE: Shape = Shape {
    nodes: 3,
    cap: 1024,
    quantum: 16384,
    journal: 100,
    word: 1,
};

/// Three nodes, of which home has nothing to carry out.
fn three_nodes(alloc: Global) -> Result<Nodes, NoMemory>
    ensures { IfOk result (λ nodes. length nodes ≡ 3) }
{
    let plan = Plan {
        script: Script::new(alloc),
        users: Users::new(alloc),
    };
    let mut nodes = Nodes::new(alloc);
    nodes.push(Node::home(alloc, SHAPE, plan)?)?;
    nodes.push(Node::away(alloc, 1, SHAPE)?)?;
    nodes.push(Node::away(alloc, 2, SHAPE)?)?;
    Ok(nodes)
}

/// Runs them on threads.
fn run<R: Threads + Wait + Sync, G: Gate + Sync>(
    rt: &R,
    alloc: Global,
    gate: &G,
) -> Result<Over<RingCarrier>, NoMemory> {
    let nodes = three_nodes(alloc)?;
    let carriers = ring_carriers(alloc, 3)?;
    let over = run_threads(rt, alloc, nodes, carriers, gate, &never_policy())?;
    Ok(over)
}

fn main(rt: HostRuntime) -> io::Result<()> {
    let gate = FlagGate {
        clock: &rt,
        one: AtomicU64::new(0),
        two: AtomicU64::new(0),
        seen: AtomicU64::new(0),
    };
    match run(&rt, rt.alloc(), &gate) {
        Ok(over) => {
            let seen = gate.seen.load(Ordering::SeqCst);
            let done = over.why == OverWhy::Done;
            println!(rt; "{seen} flags were seen; done: {done}")
        }
        Err(NoMemory) => println!(rt; "out of memory"),
    }
}
