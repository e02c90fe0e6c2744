// What a run left.
use call_table::{Bytes, NamedFiles, Replies, Statuses};
use node_event::Events;

/// How a run ended: all was done, nothing could go on, or the journal of this node was full.
#[derive(Clone, Copy, Debug, PartialEq, Eq)]
pub enum Last {
    Done,
    Stuck,
    Full(u8),
}

/// What a run left: its events in order, the states of its processes by pid, the terminal's bytes, the files by name, the answers of
/// its calls in the order of their events, and how it ended.
#[derive(Debug, Drop)]
pub struct Run {
    pub events: Events,
    pub statuses: Statuses,
    pub terminal: Bytes,
    pub files: NamedFiles,
    pub replies: Replies,
    pub last: Last,
}
