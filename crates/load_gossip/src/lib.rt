// What a node knows of the load of the nodes, and how it tells the others.
#![tactic(auto)]

mod law;
mod vector;

pub use call_table::Entry;
pub use law::honest_vectors;
pub use vector::Vector;

#[cfg(test)]
mod tests;
