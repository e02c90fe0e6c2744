// What a run left: as home has it, and as the journals of the nodes tell it.
ghost use Rattle.std.specs.Prelude.{◌≡◌, IfOk, OnOk};
ghost use Rattle.run_laws.specs.Ends.{end_state, live_state};
ghost use Rattle.mosix_shell.specs.Left.{going_state, state_at, states_at, reply_in, reply_of, and_reply, replies_in, journals_of, HasHome, IsHomeOf, HomeTells, TellsEnd};

use call_table::{Bytes, End, NamedFiles, NoMemory, PidState, Replies, Reply3, Statuses};
use cluster_run::Nodes;
use deputy::Deputies;
use node_core::Node;
use node_event::{Event, What};
use shell_text::{Last, Run};
use std::alloc::Global;
use weave::{Journals, weave};

fn end_state(end: Option<End>) -> PidState
    ensures { result ≡ end_state end }
{
    match end {
        None => PidState::Live,
        Some(End::Exit(code)) => PidState::Exit(code),
        Some(End::Signal(signal)) => PidState::Signal(signal),
    }
}

fn live_state(held: Option<u32>) -> PidState
    ensures { result ≡ live_state held }
{
    match held {
        None => PidState::Live,
        Some(number) => PidState::Blocked(number),
    }
}

/// What is told of a process that has not ended.
fn going_state(last: Last, held: Option<u32>) -> PidState
    ensures { result ≡ going_state last held }
{
    match last {
        Last::Full(_) => PidState::Live,
        Last::Done => live_state(held),
        Last::Stuck => live_state(held),
    }
}

fn state_at(last: Last, home: &Deputies, pid: u32) -> PidState
    ensures { result ≡ state_at last home.now pid }
{
    let kernel = home.kernel();
    if kernel.live(pid) {
        going_state(last, home.held(pid))
    } else {
        end_state(kernel.ended(pid))
    }
}

/// The state of each pid ever given.
fn states_at(alloc: Global, last: Last, home: &Deputies) -> Result<Statuses, NoMemory>
    ensures { IfOk result (λ statuses. statuses ≡ states_at last home.now) }
{
    let mut statuses = Statuses::new(alloc);
    for before in 0..home.kernel().given() {
        let pid = before + 1;
        statuses.push((pid, state_at(last, home, pid)))?;
    }
    Ok(statuses)
}

/// What home tells of a run.
#[derive(Drop)]
struct Shown {
    statuses: Statuses,
    terminal: Bytes,
    files: NamedFiles,
}

fn shown_at(alloc: Global, last: Last, home: &Deputies) -> Result<Shown, NoMemory>
    ensures { IfOk result (λ shown. HomeTells shown last home.now) }
{
    let kernel = home.kernel();
    Ok(Shown {
        statuses: states_at(alloc, last, home)?,
        terminal: Bytes::from_slice(alloc, kernel.terminal())?,
        files: kernel.named_files()?,
    })
}

/// The value that a call answered, where the event tells one.
fn reply_in(what: &What) -> Option<Reply3>
    ensures { result ≡ reply_in what.now }
{
    match *what {
        What::Served {
            pid,
            number: Some(number),
            value: Some(value),
            ..
        } => Some(Reply3 { pid, number, value }),
        _ => None,
    }
}

/// The reply that an event tells, if it does, after the others.
fn add_reply(replies: &mut Replies, event: &Event) -> Result<(), NoMemory>
    ensures { OnOk result (replies.new ≡ and_reply replies.old (reply_of event.now)) }
{
    match reply_in(&event.what) {
        Some(reply) => replies.push(reply)?,
        None => {}
    }
    Ok(())
}

#[tactic(auto, using(crate::proofs::Telling::reply_next))]
fn replies_in(alloc: Global, events: &[Event]) -> Result<Replies, NoMemory>
    ensures { IfOk result (λ replies. replies ≡ replies_in events.now) }
{
    let mut replies = Replies::new(alloc);
    for event in events {
        add_reply(&mut replies, event)?;
    }
    Ok(replies)
}

fn journals_of(alloc: Global, nodes: Nodes) -> Result<Journals, NoMemory>
    ensures { IfOk result (λ journals. journals ≡ journals_of nodes) }
{
    let mut journals = Journals::new(alloc);
    for node in nodes.into_vec() {
        journals.push(node.into_journal())?;
    }
    Ok(journals)
}

/// The home side of home, which is the first node.
fn home_of(nodes: &[Node]) -> &Deputies
    requires { HasHome nodes.now }
    ensures { IsHomeOf nodes.now result.now }
{
    match nodes[0].deputies() {
        Some(home) => home,
        None => unreachable!(),
    }
}

/// What nodes that come back from a run tell of it: the first of them is home.
pub fn told_by(alloc: Global, last: Last, nodes: Nodes) -> Result<Run, NoMemory>
    requires { HasHome nodes }
    ensures { IfOk result (TellsEnd nodes last) }
{
    let shown = shown_at(alloc, last, home_of(nodes.as_slice()))?;
    let journals = journals_of(alloc, nodes)?;
    let events = weave(alloc, &journals)?;
    let replies = replies_in(alloc, events.as_slice())?;
    Ok(Run {
        events,
        statuses: shown.statuses,
        terminal: shown.terminal,
        files: shown.files,
        replies,
        last,
    })
}
