// What a node sees, and what it chooses.
use call_table::{Entry, ListOf};

/// Entries of nodes.
pub type Entries = ListOf<Entry>;

/// Processes that may move, each with its pages.
pub type Movables = ListOf<(u32, u32)>;

/// What a node sees: itself, its pages and the free ones of them, its processes, the newest entry of each other node in the order of the
/// nodes, and the pid and the pages of each process that may move, by pid.
#[derive(Debug, Drop)]
pub struct Sight {
    pub node: u8,
    pub cap: u32,
    pub free: u32,
    pub load: u32,
    pub known: Entries,
    pub movable: Movables,
}

/// A process that is to move, and the node that it goes to.
#[derive(Clone, Copy, Debug, PartialEq, Eq)]
pub struct Choice {
    pub pid: u32,
    pub to: u8,
}
