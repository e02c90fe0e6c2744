// A process at the node that hosts it.
use user_ctx::User;

/// A move that was ordered while the process waits, and begins once the reply is here: to node `to`, for line `line` of the script.
#[derive(Clone, Copy, Debug, PartialEq, Eq)]
pub struct KeptMove {
    pub to: u8,
    pub line: u32,
}

/// How a process stands where it is hosted. Running makes steps. Waiting sent a pause home where `pause` is true, else a call or a fault, and makes no step until the reply.
/// Asking asked node `to` for room and makes no step until its answer, for the move of script line `line`, or of the node's own policy.
#[derive(Clone, Copy, Debug, PartialEq, Eq)]
pub enum Stance {
    Running,
    Waiting { pause: bool, kept: Option<KeptMove> },
    Asking { to: u8, line: Option<u32> },
}

/// A process at the node that hosts it: its pid, its state, how many times it landed, and whether a signal is known to be deliverable that it has not heeded.
#[derive(Drop)]
pub struct Context {
    pub pid: u32,
    pub user: User,
    pub hops: u32,
    pub poked: bool,
    pub state: Stance,
}
