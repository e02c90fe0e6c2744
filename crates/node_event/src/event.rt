// The events of a run.
use call_table::{End, ListOf};

/// Why a command sent nothing: its process had ended, or never was.
#[derive(Clone, Copy, Debug, PartialEq, Eq)]
pub enum Unsent {
    Ended,
    Never,
}

/// How a call was served: it was done, a signal broke it, it fell by a fault or at its process's end, or it paused to wait.
#[derive(Clone, Copy, Debug, PartialEq, Eq)]
pub enum Way {
    Did,
    Broke,
    Fell,
    Paused,
}

/// What came of a move that was kept until an answer came.
#[derive(Clone, Copy, Debug, PartialEq, Eq)]
pub enum Kept {
    Begins,
    Ended,
}

/// Why a move was refused: the process had ended, is moving, or is there already.
#[derive(Clone, Copy, Debug, PartialEq, Eq)]
pub enum Refusal {
    Ended,
    Moving,
    There,
}

/// What an event is. `line` is a line of the script, `to`, `from`, `at`, `source` and `place` are nodes.
#[derive(Clone, Copy, Debug, PartialEq, Eq)]
pub enum What {
    Command {
        line: u32,
        launched: Option<u32>,
        unsent: Option<Unsent>,
        poked: Option<u32>,
    },
    Steps {
        pid: u32,
        k: u32,
    },
    Sent {
        pid: u32,
        number: u32,
    },
    Heed {
        pid: u32,
    },
    Held {
        pid: u32,
        number: u32,
    },
    Served {
        pid: u32,
        way: Way,
        number: Option<u32>,
        value: Option<i32>,
        taken: Option<u8>,
        end: Option<End>,
        more: bool,
        poked: Option<u32>,
        poked_too: Option<u32>,
    },
    Got {
        pid: u32,
        child: Option<u32>,
        ended: bool,
        kept: Option<Kept>,
        to: Option<u8>,
    },
    Poked {
        pid: u32,
        used: bool,
    },
    Begin {
        pid: u32,
        to: u8,
        line: u32,
    },
    Keep {
        pid: u32,
        to: u8,
        line: u32,
    },
    Missed {
        pid: u32,
        to: u8,
        line: u32,
    },
    Again {
        pid: u32,
        to: u8,
        place: u8,
        line: u32,
    },
    Allow {
        pid: u32,
        from: u8,
        need: u32,
    },
    Deny {
        pid: u32,
        from: u8,
        need: u32,
        free: u32,
    },
    Depart {
        pid: u32,
        to: u8,
    },
    Stay {
        pid: u32,
        to: u8,
        need: u32,
        free: u32,
    },
    Land {
        pid: u32,
        source: u8,
    },
    Told {
        pid: u32,
        at: u8,
        source: u8,
        hops: u32,
        line: Option<u32>,
        poked: Option<u32>,
    },
    Refused {
        pid: u32,
        to: u8,
        why: Refusal,
        line: u32,
    },
    Closed {
        line: u32,
    },
    Half {
        other: u8,
        pid: Option<u32>,
        to: Option<u8>,
    },
    Heard {
        other: u8,
        pid: Option<u32>,
        to: Option<u8>,
    },
    Strange,
}

/// One event of a run: its stamp, the node that it happened at, and what it is.
#[derive(Clone, Copy, Debug, PartialEq, Eq)]
pub struct Event {
    pub stamp: u64,
    pub node: u8,
    pub what: What,
}

/// A list of events, the oldest first.
pub type Events = ListOf<Event>;
