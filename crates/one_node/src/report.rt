// What is told of a process at the end.
ghost use Rattle.std.specs.Prelude.{◌≡◌};
ghost use Rattle.one_node.specs.Machine.{state_of};

use call_table::{End, PidState};

/// The state of a process, from how it ended and the call at which it is blocked.
pub fn state_of(end: Option<End>, call: Option<u32>) -> PidState
    ensures { result ≡ state_of end call }
{
    match end {
        Some(End::Exit(code)) => PidState::Exit(code),
        Some(End::Signal(signal)) => PidState::Signal(signal),
        None => match call {
            Some(number) => PidState::Blocked(number),
            None => PidState::Live,
        },
    }
}
