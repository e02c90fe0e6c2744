// A run's own events, played on the plain system on one node.
ghost use Rattle.std.specs.Prelude.{◌≤◌};

use crate::case::{NoCase, case_of};
use call_table::NoMemory;
use mosix_shell::images::load_users;
use mosix_shell::orders::orders_of;
use node_event::{Event, Order, ScriptLine, Way, What};
use one_node::home::Outcome;
use one_node::play::play;
use one_node::{Feeds, Setup, Step};
use outside::{Calls, MemImages};
use std::alloc::Global;

/// What an order does, behind so many starts and so many lines typed.
fn order_step(order: &Order, starts: u32, typed: u32) -> Option<Step> {
    match order {
        Order::Run { .. } => Some(Step::Launch(starts)),
        Order::Kill { pid, signal } => Some(Step::Raise {
            pid: *pid,
            signal: *signal,
        }),
        Order::Feed { .. } => Some(Step::Feed(typed)),
        Order::Eof => Some(Step::Eof),
        _ => None,
    }
}

/// What the order of a line does.
fn line_step(orders: &[ScriptLine], line: u32) -> Option<Step> {
    let mut starts = 0u32;
    let mut typed = 0u32;
    for ordered in orders {
        if ordered.line == line {
            return order_step(&ordered.order, starts, typed);
        }
        match ordered.order {
            Order::Run { .. } => starts = starts.saturating_add(1),
            Order::Feed { .. } => typed = typed.saturating_add(1),
            _ => {}
        }
    }
    None
}

fn call_step(pid: u32, way: Way) -> Option<Step> {
    match way {
        Way::Did => Some(Step::Do(pid)),
        Way::Broke => Some(Step::Break(pid)),
        Way::Fell => Some(Step::Fall(pid)),
        Way::Paused => None,
    }
}

/// The steps of one event: at most that of a line, of a process or of its call, and then that of a signal which is taken.
fn event_steps(orders: &[ScriptLine], event: &Event) -> (Option<Step>, Option<Step>) {
    match event.what {
        What::Command { line, .. } => (line_step(orders, line), None),
        What::Steps { pid, k } => (Some(Step::Steps { pid, k }), None),
        What::Served {
            pid,
            way,
            taken,
            ..
        } => (call_step(pid, way), taken.map(|_| Step::Take(pid))),
        _ => (None, None),
    }
}

fn steps_of(alloc: Global, orders: &[ScriptLine], events: &[Event]) -> Result<Vec<Step>, NoMemory> {
    let mut steps = Vec::new(alloc);
    for event in events {
        let (first, second) = event_steps(orders, event);
        if let Some(step) = first {
            steps.push(step)?;
        }
        if let Some(step) = second {
            steps.push(step)?;
        }
    }
    Ok(steps)
}

fn feeds_of(alloc: Global, orders: &[ScriptLine]) -> Result<Feeds, NoMemory> {
    let mut feeds = Feeds::new(alloc);
    for ordered in orders {
        if let Order::Feed { text } = &ordered.order {
            feeds.push(text.copy(alloc)?)?;
        }
    }
    Ok(feeds)
}

/// What events of a seed's script for so many nodes come to on one node. None where one of them is not enabled there.
pub fn replayed(
    alloc: Global,
    seed: u64,
    nodes: u8,
    events: &[Event],
) -> Result<Option<Outcome>, NoCase>
    requires { 1 ≤ nodes }
{
    let case = case_of(alloc, seed, nodes)?;
    let Ok(orders) = orders_of(alloc, case.script.as_slice(), nodes) else {
        return Err(NoCase);
    };
    let mut images = MemImages::new(case.images, Calls::new(alloc));
    let Ok(users) = load_users(alloc, &mut images, orders.as_slice()) else {
        return Err(NoCase);
    };
    let setup = Setup {
        users,
        feeds: feeds_of(alloc, orders.as_slice())?,
    };
    let steps = steps_of(alloc, orders.as_slice(), events)?;
    Ok(play(alloc, &setup, steps.as_slice()).ok())
}
