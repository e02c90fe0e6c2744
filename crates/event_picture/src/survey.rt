// What has to be known of all events before the first is drawn.
ghost use Rattle.std.specs.Prelude.{◌≡◌, ◌≤◌, ◌<◌, IfSome};
ghost use Rattle.call_table.specs.declared.limit.TheConstants.{NODES, LAST_LAUNCHED, STAMPS};

use call_table::limit;
use node_event::{Event, What};

/// How many events there are, the nodes and pids that they name, and their stamps.
#[derive(Clone, Copy, Debug, PartialEq, Eq)]
pub struct Survey {
    pub events: u32,
    /// One more than the greatest node.
    pub nodes: u8,
    /// The greatest pid.
    pub pids: u32,
    /// The stamps of the first and of the last event.
    pub first: u64,
    pub last: u64,
    ghost ordered: { first ≤ last },
    ghost short: { last < STAMPS },
    ghost few: { nodes ≤ NODES },
    ghost known: { pids ≤ LAST_LAUNCHED },
}

/// The greatest other node that an event names.
fn other_node(what: &What) -> u8 {
    match *what {
        What::Begin { to, .. }
        | What::Keep { to, .. }
        | What::Missed { to, .. }
        | What::Depart { to, .. }
        | What::Stay { to, .. }
        | What::Refused { to, .. } => to,
        What::Again { to, place, .. } => to.max(place),
        What::Allow { from, .. } | What::Deny { from, .. } => from,
        What::Land { source, .. } => source,
        What::Told { at, source, .. } => at.max(source),
        What::Half { other, to, .. } | What::Heard { other, to, .. } => other.max(to.unwrap_or(0)),
        What::Got { to, .. } => to.unwrap_or(0),
        _ => 0,
    }
}

/// The greatest pid that an event is about.
fn pid_of(what: &What) -> u32 {
    match *what {
        What::Command { launched, .. } => launched.unwrap_or(0),
        What::Got { pid, child, .. } => pid.max(child.unwrap_or(0)),
        What::Half { pid, .. } | What::Heard { pid, .. } => pid.unwrap_or(0),
        What::Steps { pid, .. }
        | What::Sent { pid, .. }
        | What::Heed { pid }
        | What::Held { pid, .. }
        | What::Served { pid, .. }
        | What::Poked { pid, .. }
        | What::Begin { pid, .. }
        | What::Keep { pid, .. }
        | What::Missed { pid, .. }
        | What::Again { pid, .. }
        | What::Allow { pid, .. }
        | What::Deny { pid, .. }
        | What::Depart { pid, .. }
        | What::Stay { pid, .. }
        | What::Land { pid, .. }
        | What::Told { pid, .. }
        | What::Refused { pid, .. } => pid,
        _ => 0,
    }
}

impl Survey {
    /// That of no event.
    pub fn new() -> Survey {
        Survey {
            events: 0,
            nodes: 1,
            pids: 0,
            first: 0,
            last: 0,
        }
    }

    /// That of one event more. None where the event has a node or a pid that no cluster has, or a stamp that none has or that is
    /// less than the one before.
    pub fn with(self, event: &Event) -> Option<Survey>
        ensures last { IfSome result (λ survey. survey.last ≡ event.now.stamp) }
        ensures ordered { IfSome result (λ survey. self.last ≤ event.now.stamp) }
        ensures within { IfSome result (λ survey. event.now.node < survey.nodes) }
    {
        let node = event.node.max(other_node(&event.what));
        let pid = pid_of(&event.what);
        if node >= limit::NODES || pid > limit::LAST_LAUNCHED {
            return None;
        }
        if event.stamp >= limit::STAMPS || event.stamp < self.last {
            return None;
        }
        Some(Survey {
            events: self.events.saturating_add(1),
            nodes: self.nodes.max(node + 1),
            pids: self.pids.max(pid),
            first: if self.events == 0 {
                event.stamp
            } else {
                self.first
            },
            last: event.stamp,
        })
    }
}
