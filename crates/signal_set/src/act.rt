// What is done at a signal.
ghost use Rattle.std.specs.Prelude.{◌≡◌};
ghost use Rattle.signal_set.specs.Acts.{ignores, taken_by};

use call_table::Taken;
use call_table::signal::SIGCHLD;

/// What a process does at a signal. By default it dies of it, save that 17 is ignored.
#[derive(Clone, Copy, Debug, PartialEq, Eq)]
pub enum Act {
    Default,
    Ignore,
    Handler { entry: u32, restorer: u32 },
}

/// Whether this action ignores `signal`.
pub fn is_ignored(act: Act, signal: u8) -> bool
    ensures { result ≡ ignores act signal }
{
    match act {
        Act::Default => signal == SIGCHLD,
        Act::Ignore => true,
        Act::Handler { .. } => false,
    }
}

/// How `signal` is taken by this action, under the mask that stands before.
pub fn taken_by(act: Act, signal: u8, mask: u32) -> Taken
    ensures { result ≡ taken_by act signal mask }
{
    match act {
        Act::Handler { entry, restorer } => Taken::Enters {
            signal,
            handler: entry,
            restorer,
            mask,
        },
        Act::Default | Act::Ignore => Taken::Dies(signal),
    }
}
