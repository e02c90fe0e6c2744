// How a process stands at the node that hosts it.

/// Running makes steps; Waiting has sent a call or a pause home and makes none until the reply; Asking has asked `to` for room and makes none until the answer, for the move of script line `line`, or of the node's own policy.
#[derive(Clone, Copy, Debug, PartialEq, Eq)]
pub enum State {
    Running,
    Waiting,
    Asking { to: u8, line: Option<u32> },
}
