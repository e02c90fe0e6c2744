// The contexts that a node hosts: processes with what is kept of each where it runs.
#![tactic(auto)]

mod context;
mod hosted;
mod mail;
mod pids;
mod place;
mod quantum;
mod replies;
mod sending;
mod standing;
#[cfg(test)]
mod tests;

pub use context::{Context, KeptMove, Stance};
pub use hosted::Hosted;
pub use quantum::Ran;
pub use standing::child_in;
