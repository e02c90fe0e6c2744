// Calls of the simulated kernel as they travel between a process and its home: their shared types and the table of their buffers.
#![tactic(auto)]

mod bytes;
pub mod call;
pub mod error;
mod files;
pub mod limit;
mod list;
mod memory;
mod process;
mod request;
pub mod signal;
mod table;
mod text;

pub use bytes::Bytes;
pub use files::{Named, NamedFiles, Names};
pub use list::ListOf;
pub use memory::NoMemory;
pub use process::{End, Entry, PidState, Replies, Reply3, Statuses};
pub use request::{Answer, Kind, Need, Request, Taken};
pub use table::{
    FRAME_SIZE, NAME_LOOK, RIGHT_READ, RIGHT_RUN, RIGHT_WRITE, is_local, is_signal, need_of,
};
pub use text::{Text, Words};
