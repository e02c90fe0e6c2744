// Descriptors of processes and the descriptions that they share.
#![tactic(auto)]

mod description;
mod descriptions;
mod fds;
mod held;
mod processes;
#[cfg(test)]
mod tests;

pub use description::{Look, Target};
pub use fds::Fds;
