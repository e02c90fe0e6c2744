// Runs of random scripts on threads, each beside a run of the same script on one node by one thread. It prints how many runs there were, how many of them gave
// the terminal, the files and the ends of one node, and the first that gave others.
#![tactic(auto)]

ghost use Rattle.std.specs.Prelude.{◌≤◌};

mod case;
mod compare;
mod replay;
mod worked;

use call_table::{NoMemory, Text, Words};
use case::{NoCase, case_of};
use compare::{is_same, is_told_by};
use mosix_shell::usher::mosix_usher;
use outside::{Calls, MemImages, MemSink, MemSource, StillGate};
use rand_core::SeedableRng;
use rand_pcg::Pcg32;
use replay::replayed;
use shell_text::Run;
use std::alloc::{AllocGlobal, Global};
use std::io;
use std::sync::Wait;
use std::thread::Threads;
use std::time::{Clock, Duration, Instant};

/// How many scripts there are. Each runs on 2 to 8 nodes.
const SCRIPTS: u64 = 144;

/// How many runs these are.
const RUNS: u32 = 1008;

/// No script is begun after so many seconds.
const SECONDS: u64 = 90;

/// How much a sink holds.
const ROOM: usize = 65_536;

/// The words of the run on one node.
const ONE: &str = "--nodes 1 --serial run";

/// How many runs there were, how many were the same, and the seed and the nodes of the first that was not.
#[derive(Clone, Copy)]
struct Count {
    runs: u32,
    same: u32,
    first: Option<(u64, u8)>,
}

impl Count {
    /// One run more.
    fn add(&mut self, seed: u64, nodes: u8, is_same: bool) {
        self.runs = self.runs.saturating_add(1);
        if is_same {
            self.same = self.same.saturating_add(1);
        } else if self.first.is_none() {
            self.first = Some((seed, nodes));
        }
    }
}

fn words_of(alloc: Global, text: &str) -> Result<Words, NoMemory> {
    let mut words = Words::new(alloc);
    for word in text.split(' ') {
        words.push(Text::new(alloc, word)?)?;
    }
    Ok(words)
}

/// The words of a run on threads.
fn words_on(alloc: Global, nodes: u8) -> Result<Words, NoMemory> {
    let text = format!(in alloc; "--nodes {nodes} --quantum 4096 --journal 16384 run")?;
    let words = words_of(alloc, text.as_str())?;
    Ok(words)
}

/// The run of a seed's script for so many nodes. None where it was not made or its report not written.
fn run<H: Threads + Wait + Sync>(
    rt: &H,
    alloc: Global,
    words: &Words,
    seed: u64,
    nodes: u8,
) -> Result<Option<Run>, NoCase>
    requires { 1 ≤ nodes }
{
    let case = case_of(alloc, seed, nodes)?;
    let mut source = MemSource::new(case.script, Calls::new(alloc));
    let mut images = MemImages::new(case.images, Calls::new(alloc));
    let mut sink = MemSink::new(alloc, Calls::new(alloc), ROOM)?;
    let mut chance = Pcg32::seed_from_u64(seed);
    let ended = mosix_usher(
        rt,
        alloc,
        words,
        &mut source,
        &mut images,
        &mut sink,
        &mut chance,
        &StillGate,
    );
    Ok(ended.run)
}

/// Whether the run of a script on so many nodes comes to what it came to on one, and to what its own events come to there.
fn is_as_one<H: Threads + Wait + Sync>(
    rt: &H,
    alloc: Global,
    seed: u64,
    nodes: u8,
    one: &Run,
) -> Result<bool, NoCase>
    requires { 1 ≤ nodes }
{
    let Some(other) = run(rt, alloc, &words_on(alloc, nodes)?, seed, nodes)? else {
        return Ok(false);
    };
    let Some(outcome) = replayed(alloc, seed, nodes, other.events.as_slice())? else {
        return Ok(false);
    };
    Ok(is_same(one, &other) && is_told_by(&other, &outcome))
}

/// The runs of one script.
fn runs_of<H: Threads + Wait + Sync>(
    rt: &H,
    alloc: Global,
    seed: u64,
    count: &mut Count,
) -> Result<(), NoCase> {
    let Some(one) = run(rt, alloc, &words_of(alloc, ONE)?, seed, 1)? else {
        return Err(NoCase);
    };
    for nodes in 2..9u8 {
        let is_same = is_as_one(rt, alloc, seed, nodes, &one)?;
        count.add(seed, nodes, is_same);
    }
    Ok(())
}

/// The runs of all scripts, or of those that were begun in time.
fn all_runs<H: Threads + Wait + Sync + Clock + AllocGlobal>(rt: &H) -> io::Result<Option<Count>> {
    let mut count = Count {
        runs: 0,
        same: 0,
        first: None,
    };
    let start = Instant::now(rt)?;
    for seed in 1..SCRIPTS + 1 {
        if start.elapsed(rt)? > Duration::from_secs(SECONDS) {
            return Ok(Some(count));
        }
        if runs_of(rt, rt.alloc(), seed, &mut count).is_err() {
            return Ok(None);
        }
    }
    Ok(Some(count))
}

fn main(rt: HostRuntime) -> io::Result<()> {
    let Some(count) = all_runs(&rt)? else {
        return println!(rt; "out of memory, or a text that the assembler refuses");
    };
    println!(rt;
        "{} runs on threads, {} of them as on one node",
        count.runs, count.same
    )?;
    if count.runs < RUNS {
        println!(rt; "the rest was not begun in time")?;
    }
    if let Some((seed, nodes)) = count.first {
        println!(rt; "the first other one: seed {seed} on {nodes} nodes")?;
    }
    Ok(())
}
