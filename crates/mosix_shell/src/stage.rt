// The run of a script by the processes of its `run` lines.
ghost use Rattle.std.specs.Prelude.{◌≡◌, ◌≤◌, ℕ, IfOk, length};
ghost use Rattle.node_machine.specs.Policy.{given_by};
ghost use Rattle.node_machine.specs.Plan.{Plan as run_plan, IsPlan};
ghost use Rattle.cluster_run.specs.Over.{Begins};
ghost use Rattle.mosix_shell.specs.Headline.{Headline};
ghost use Rattle.mosix_shell.specs.Stage.{shape_of, seeds_of, first_nodes, plan_of, last_of, BeginsSome, IsRun};
ghost use Rattle.mosix_shell.specs.Ranges.{IsInRange};

use crate::chance::seeds_of;
use crate::copying::copied_script;
use crate::left::told_by;
use call_table::NoMemory;
use cluster_run::{Nodes, OverWhy, run_serial};
use mosix_words::Settings;
use node_core::{Node, Plan, Shape};
use node_event::{Script, ScriptLine};
use node_links::ring_carriers;
use policy_box::{Chooser, Policy};
use rand_core::Rng;
use shell_text::{Last, Run};
use std::alloc::Global;
use user_ctx::Users;

/// The shape of the cluster, with the seed of one node.
fn shape_of(settings: &Settings, word: u64) -> Shape
    ensures { result ≡ shape_of settings.now word }
{
    Shape {
        nodes: settings.nodes,
        cap: settings.pages,
        quantum: settings.quantum,
        journal: settings.journal,
        word,
    }
}

/// Home with the script and the processes of its `run` lines, and the other nodes.
fn first_nodes(
    alloc: Global,
    settings: &Settings,
    seeds: &[u64],
    script: Script,
    users: Users,
) -> Result<Nodes, NoMemory>
    requires least { 1 ≤ settings.now.nodes }
    requires seeds { length seeds.now ≡ settings.now.nodes }
    ensures { IfOk result (λ nodes. nodes ≡ first_nodes settings.now seeds.now script users) }
{
    let mut nodes = Nodes::new(alloc);
    let plan = Plan { script, users };
    nodes.push(Node::home(alloc, shape_of(settings, seeds[0]), plan)?)?;
    for id in 1..settings.nodes {
        let shape = shape_of(settings, seeds[id as usize]);
        nodes.push(Node::away(alloc, id, shape)?)?;
    }
    Ok(nodes)
}

/// How a run ended.
pub(crate) fn last_of(why: OverWhy) -> Last
    ensures { result ≡ last_of why }
{
    match why {
        OverWhy::Done => Last::Done,
        OverWhy::Stuck => Last::Stuck,
        OverWhy::Full { node } => Last::Full(node),
    }
}

/// The nodes of a run before anything happened.
#[tactic(auto, using(crate::proofs::Telling::words_count))]
pub(crate) fn staged<R: Rng>(
    alloc: Global,
    settings: &Settings,
    orders: &[ScriptLine],
    users: Users,
    rng: &mut R,
) -> Result<Nodes, NoMemory>
    requires { 1 ≤ settings.now.nodes }
    ensures { IfOk result (λ nodes. nodes ≡ first_nodes settings.now (seeds_of settings.now (R.stream rng.old)) orders.now users) }
{
    let seeds = seeds_of(alloc, settings, rng)?;
    let script = copied_script(alloc, orders)?;
    let nodes = first_nodes(alloc, settings, seeds.as_slice(), script, users)?;
    Ok(nodes)
}

/// The run of nodes that have done nothing, to what they tell at its end.
fn played<P: Chooser>(
    alloc: Global,
    settings: &Settings,
    nodes: Nodes,
    policy: &Policy<P>,
) -> Result<Run, NoMemory>
    requires range { IsInRange settings.now }
    requires count { length nodes ≡ settings.now.nodes }
    requires begins { BeginsSome nodes }
    ensures { IfOk result (λ run. (plan : run_plan) (room : ℕ) → Begins plan room nodes → Headline (given_by (P.answers policy.now)) plan room run) }
{
    policy.is_fitting();
    let carriers = ring_carriers(alloc, settings.nodes)?;
    let over = run_serial(alloc, nodes, carriers, policy)?;
    let last = last_of(over.why);
    let told = told_by(alloc, last, over.nodes)?;
    Ok(told)
}

/// A run of orders by the processes of their `run` lines.
pub fn run_users<R: Rng, P: Chooser>(
    alloc: Global,
    settings: &Settings,
    orders: &Script,
    users: Users,
    rng: &mut R,
    policy: &Policy<P>,
) -> Result<Run, NoMemory>
    requires range { IsInRange settings.now }
    requires plan { IsPlan (plan_of (R.stream rng.old) settings.now orders.now users) }
    ensures { IfOk result (IsRun (given_by (P.answers policy.now)) (R.stream rng.old) settings.now orders.now users) }
{
    let nodes = staged(alloc, settings, orders.as_slice(), users, rng)?;
    let whole = played(alloc, settings, nodes, policy)?;
    Ok(whole)
}
