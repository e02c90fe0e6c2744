// What a node is made of.
use node_event::Script;
use user_ctx::Users;

/// The shape of a cluster: how many nodes it has, the pages of each, the most steps of a turn, the events that a journal has room for; and the seed of
/// this node's words of chance.
#[derive(Clone, Copy, Debug, PartialEq, Eq)]
pub struct Shape {
    pub nodes: u8,
    pub cap: u32,
    pub quantum: u32,
    pub journal: u32,
    pub word: u64,
}

/// What home carries out: the script, and the context of each of its `run` lines, in their order.
#[derive(Drop)]
pub struct Plan {
    pub script: Script,
    pub users: Users,
}
