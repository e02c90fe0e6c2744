// The processes of a system by pid: their parents, which are live, which are zombies, and how each one ended.
#![tactic(auto)]

mod process;
mod rows;
#[cfg(test)]
mod tests;
mod tree;

pub use process::{Process, State};
pub use tree::Tree;
