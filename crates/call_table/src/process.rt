// What is said of processes and nodes.
use crate::list::ListOf;

/// How a process ended: by `exit` with this code, or by this signal.
#[derive(Clone, Copy, Debug, PartialEq, Eq)]
pub enum End {
    Exit(u8),
    Signal(u8),
}

/// What is said of a process at the end of a run. Blocked is at a forwarded call of this number that waits.
#[derive(Clone, Copy, Debug, PartialEq, Eq)]
pub enum PidState {
    Exit(u8),
    Signal(u8),
    Blocked(u32),
    Live,
}

/// The value that a forwarded call of this process and number answered.
#[derive(Clone, Copy, Debug, PartialEq, Eq)]
pub struct Reply3 {
    pub pid: u32,
    pub number: u32,
    pub value: i32,
}

/// What a node knows of a node: its processes, its free pages, and the stamp at which that was so.
#[derive(Clone, Copy, Debug, PartialEq, Eq)]
pub struct Entry {
    pub node: u8,
    pub load: u32,
    pub free: u32,
    pub stamp: u64,
}

/// The pids of a run with their states, by pid.
pub type Statuses = ListOf<(u32, PidState)>;

/// The values that forwarded calls answered, in the order of their events.
pub type Replies = ListOf<Reply3>;
