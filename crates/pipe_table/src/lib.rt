// The pipes of a system: at most 64, each with at most 4,096 bytes, taken in the order in which they were put.
#![tactic(auto)]

mod pipe;
mod pipes;
mod slots;
#[cfg(test)]
mod tests;

pub use pipes::Pipes;
