// What a node sees of itself and of the others, and which process it then moves to which node.
#![tactic(auto)]

mod best;
mod choice;
mod sight;

pub use choice::{one_best_choice, usher_choice};
pub use sight::{Choice, Entries, Movables, Sight};

#[cfg(test)]
mod tests;
