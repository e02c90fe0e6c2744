// What a node decides on the moves of processes: what becomes of an order to move, and whether there is room for a process that asks.
#![tactic(auto)]

mod go;
mod reserve;
#[cfg(test)]
mod tests;

pub use go::{GoAnswer, on_go};
pub use reserve::{Decision, Reserve, free};
