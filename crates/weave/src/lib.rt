// One list of the events of all nodes, in order.
#![tactic(auto)]

mod merging;
mod weaving;

pub use weaving::{Journals, weave};

#[cfg(test)]
mod tests;
