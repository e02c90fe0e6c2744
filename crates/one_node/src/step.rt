// What the one-node machine is told.
use call_table::{Bytes, ListOf};
use user_ctx::Users;

/// The bytes that the lines of a script feed to the terminal's input.
pub type Feeds = ListOf<Bytes>;

/// What a run starts from: the loaded contexts and the fed bytes, by line.
#[derive(Drop)]
pub struct Setup {
    pub users: Users,
    pub feeds: Feeds,
}

/// One step of the one-node machine.
#[derive(Clone, Copy, Debug, PartialEq, Eq)]
pub enum Step {
    /// The next process starts from the setup's context of this index.
    Launch(u32),
    /// A signal is raised at a process.
    Raise { pid: u32, signal: u8 },
    /// The setup's bytes of this index are typed at the terminal.
    Feed(u32),
    /// Nothing more is typed.
    Eof,
    /// A process makes so many steps.
    Steps { pid: u32, k: u32 },
    /// The forwarded call of a process is served.
    Do(u32),
    /// The blocking call of a process is broken off by a signal.
    Break(u32),
    /// A process takes a signal.
    Take(u32),
    /// A process ends by its fault.
    Fall(u32),
}
