// The outside: what a run reads and writes, as traits, in memory, and for real.
#![tactic(auto)]

mod gate;
mod memory;
mod plan;
mod real;
#[cfg(test)]
mod tests;
mod traits;

pub use gate::{Gate, StillGate, YieldGate};
pub use memory::{MemImages, MemSink, MemSource};
pub use plan::Calls;
pub use real::{FileImages, StdSink, StdSource};
pub use traits::{Failed, Images, LoadFault, Sink, Source};
