// What the nodes of a cluster send to one another: messages, letters and answers, and how a process stands where it is hosted.
#![tactic(auto)]

mod acted;
mod letter;
mod message;
mod state;
#[cfg(test)]
mod tests;

pub use acted::Acted;
pub use letter::{Letter, Mail};
pub use message::{Done, Message};
pub use state::State;
