// What becomes of an order to move.
ghost use Rattle.std.specs.Prelude.{◌≡◌};
ghost use Rattle.migrate_proto.specs.Moves.{go_answer};

use call_forward::State;

/// What a node answers to the order that a process moves.
#[derive(Clone, Copy, Debug, PartialEq, Eq)]
pub enum GoAnswer {
    /// The move begins.
    Begin,
    /// The move is kept until the process's call returns.
    Keep,
    /// The process is at the target already.
    There,
    /// Another move of the process is under way.
    Moving,
    /// The process is not here.
    Missed,
}

/// The answer at node `here` to the order that a process moves to node `to`. `state` is how the process stands here, None where it is not here, and `kept` whether a move of it is kept.
pub fn on_go(state: Option<State>, kept: bool, here: u8, to: u8) -> GoAnswer
    ensures { result ≡ go_answer state kept here to }
{
    match state {
        None => GoAnswer::Missed,
        Some(State::Asking { .. }) => GoAnswer::Moving,
        Some(_) if kept => GoAnswer::Moving,
        Some(_) if to == here => GoAnswer::There,
        Some(State::Waiting) => GoAnswer::Keep,
        Some(State::Running) => GoAnswer::Begin,
    }
}
