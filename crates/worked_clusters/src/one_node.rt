// hello on one node.
ghost use Rattle.std.specs.Prelude.{◌≡◌, length, IfOk};

use call_table::Words;
use cluster_run::{Nodes, Over, OverWhy, run_serial};
use elf_load::load;
use node_core::{Node, Plan, Shape};
use node_event::{Order, Script, ScriptLine};
use node_links::{Carrier, RingCarrier, ring_carriers};
use policy_box::never_policy;
use std::alloc::Global;
use std::process::Abort;
use std::test::Fail;
use user_ctx::Users;

/// A program of 123 bytes that writes `hi` and a newline, and exits with 0.
const HELLO: [u8; 123] = [
    0x7F, 0x45, 0x4C, 0x46, 1, 1, 1, 0, 0, 0, 0, 0, 0, 0, 0, 0, 2, 0, 0xF3, 0, 1, 0, 0, 0, 0, 0, 1,
    0, 52, 0, 0, 0, 0, 0, 0, 0, 0, 0, 0, 0, 52, 0, 32, 0, 1, 0, 0, 0, 0, 0, 0, 0, 1, 0, 0, 0, 84,
    0, 0, 0, 0, 0, 1, 0, 0, 0, 1, 0, 0x27, 0, 0, 0, 0x27, 0, 0, 0, 7, 0, 0, 0, 4, 0, 0, 0, 0x13,
    0x05, 0x10, 0x00, 0xb7, 0x05, 0x01, 0x00, 0x93, 0x85, 0x45, 0x02, 0x13, 0x06, 0x30, 0x00, 0x93,
    0x08, 0x90, 0x00, 0x73, 0, 0, 0, 0x13, 0x05, 0, 0, 0x93, 0x08, 0x10, 0x00, 0x73, 0, 0, 0, 0x68,
    0x69, 0x0a,
];

/// A cluster of one node.
fn shape(journal: u32) -> Shape {
    Shape {
        nodes: 1,
        cap: 1024,
        quantum: 16384,
        journal,
        word: 1,
    }
}

/// What home carries out: it runs hello.
fn plan(alloc: Global) -> Result<Plan, Fail> {
    let mut script = Script::new(alloc);
    script.push(ScriptLine {
        line: 1,
        order: Order::Run {
            words: Words::new(alloc),
        },
    })?;
    let mut users = Users::new(alloc);
    users.push(load(alloc, &HELLO, &Words::new(alloc))?)?;
    Ok(Plan { script, users })
}

/// Home alone, with room for so many events.
fn home_alone(alloc: Global, journal: u32) -> Result<Nodes, Fail>
    ensures { IfOk result (λ nodes. length nodes ≡ 1) }
{
    let mut nodes = Nodes::new(alloc);
    nodes.push(Node::home(alloc, shape(journal), plan(alloc)?)?)?;
    Ok(nodes)
}

/// Its run over rings, under the policy that moves nothing.
fn run(alloc: Global, journal: u32) -> Result<Over<RingCarrier>, Fail> {
    let nodes = home_alone(alloc, journal)?;
    let carriers = ring_carriers(alloc, 1)?;
    let over = run_serial(alloc, nodes, carriers, &never_policy())?;
    Ok(over)
}

/// How many letters home took from itself.
fn taken(rt: &impl Abort, over: &Over<RingCarrier>) -> u64 {
    let side = over.carriers.get(0).expect(rt, "a side");
    side.get(0).expect(rt, "a carrier").carrier.taken()
}

/// How many events home made.
fn events(rt: &impl Abort, over: &Over<RingCarrier>) -> usize {
    over.nodes.get(0).expect(rt, "a node").journal().len()
}

/// hello runs to its end in nine events, and its two calls and their replies went over the link from home to itself.
#[test]
fn hello_is_done(rt: HostRuntime) -> Result<(), Fail> {
    let over = run(rt.alloc(), 100)?;
    assert_eq!(rt; over.why, OverWhy::Done);
    assert_eq!(rt; (events(&rt, &over), taken(&rt, &over)), (9, 4));
    Ok(())
}

/// With room for five events the journal of home is full where more is due.
#[test]
fn a_full_journal(rt: HostRuntime) -> Result<(), Fail> {
    let over = run(rt.alloc(), 5)?;
    assert_eq!(rt; over.why, OverWhy::Full { node: 0 });
    assert_eq!(rt; events(&rt, &over), 5);
    Ok(())
}
