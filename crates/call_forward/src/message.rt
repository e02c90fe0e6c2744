// The messages of the protocol between nodes.
ghost use Rattle.std.specs.Prelude.{◌≡◌};
ghost use Rattle.std.specs.List.{list_all};
ghost use Rattle.call_forward.specs.Messages.{is_to_home, pid_of, nodes_of, node_of_entry, are_below};

use call_table::{Answer, Entry, Request, Taken};
use user_ctx::User;

/// What a reply brings: the answer, None after a pause and after a fault; the signal that was taken, if one was; whether the process is gone; and whether a further signal is deliverable.
#[derive(Debug, Drop)]
pub struct Done {
    pub answer: Option<Answer>,
    pub taken: Option<Taken>,
    pub ended: bool,
    pub more: bool,
}

/// A message between nodes. `to` and `source` are nodes, `need` and `free` pages, `line` a line of the script, and `hops` the number of times that the process has landed.
#[derive(Drop)]
pub enum Message {
    /// To home: a forwarded call, or a fault.
    Call {
        pid: u32,
        request: Request,
    },
    /// To home: the process stopped between two steps so that a signal may be taken; whether it has room for a signal's frame.
    Pause {
        pid: u32,
        room: bool,
    },
    /// From home: what a call or a pause came to.
    Reply {
        pid: u32,
        done: Done,
    },
    /// From home: a signal is deliverable.
    Poke {
        pid: u32,
    },
    /// From home: the process is to move.
    Go {
        pid: u32,
        to: u8,
        hops: u32,
        line: u32,
    },
    /// To home: the process that was to move is not here.
    NotHere {
        pid: u32,
        to: u8,
        hops: u32,
        line: u32,
    },
    /// To the target of a move: is there room for so many pages?
    Ask {
        pid: u32,
        need: u32,
    },
    /// From the target: there is, and it is kept.
    Allow {
        pid: u32,
    },
    /// From the target: there is not.
    Deny {
        pid: u32,
        need: u32,
        free: u32,
    },
    /// To the target: the process itself.
    Move {
        pid: u32,
        user: User,
        hops: u32,
        line: Option<u32>,
    },
    /// To home: the process landed at the sender, coming from `source`.
    Landed {
        pid: u32,
        source: u8,
        hops: u32,
        line: Option<u32>,
    },
    /// To home: the move of that line is over without a move.
    NoMove {
        line: u32,
    },
    /// Half of what the sender knows of the nodes' loads.
    Half {
        places: [Option<Entry>; 4],
    },
}

/// Whether what an entry speaks of, if there is one, is a node below `nodes`.
fn is_entry_below(entry: &Option<Entry>, nodes: u8) -> bool
    ensures { result ≡ are_below nodes (node_of_entry entry.now) }
{
    match entry {
        Some(entry) => entry.node < nodes,
        None => true,
    }
}

/// Whether what each of these entries speaks of is a node below `nodes`.
fn are_entries_below(places: &[Option<Entry>], nodes: u8) -> bool
    ensures { result ≡ list_all (λ entry. are_below nodes (node_of_entry entry)) places.now }
{
    places.iter().all(|entry| is_entry_below(entry, nodes))
}

impl Message {
    /// Whether the message is one that goes to home alone.
    pub fn is_to_home(&self) -> bool
        ensures { result ≡ is_to_home self.now }
    {
        matches!(
            self,
            Message::Call { .. }
                | Message::Pause { .. }
                | Message::NotHere { .. }
                | Message::Landed { .. }
                | Message::NoMove { .. }
        )
    }

    /// The process that the message speaks of. None exactly for NoMove and Half, which speak of none.
    pub fn pid(&self) -> Option<u32>
        ensures { result ≡ pid_of self.now }
    {
        match self {
            Message::Call { pid, .. }
            | Message::Pause { pid, .. }
            | Message::Reply { pid, .. }
            | Message::Poke { pid }
            | Message::Go { pid, .. }
            | Message::NotHere { pid, .. }
            | Message::Ask { pid, .. }
            | Message::Allow { pid }
            | Message::Deny { pid, .. }
            | Message::Move { pid, .. }
            | Message::Landed { pid, .. } => Some(*pid),
            Message::NoMove { .. } | Message::Half { .. } => None,
        }
    }

    /// Whether each node that the message names, beside its sender and its receiver, is below `nodes`.
    pub fn is_below(&self, nodes: u8) -> bool
        ensures { result ≡ are_below nodes (nodes_of self.now) }
    {
        match self {
            Message::Go { to, .. } | Message::NotHere { to, .. } => *to < nodes,
            Message::Landed { source, .. } => *source < nodes,
            Message::Half { places } => are_entries_below(places, nodes),
            _ => true,
        }
    }
}
