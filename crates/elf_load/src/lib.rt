// The loader of executables: ELF32 files for RISC-V.
#![tactic(auto)]

mod content;
mod fault;
mod header;
pub mod image;
mod loader;
mod stack;
mod start;

pub use fault::{ImageFault, LoadError};
pub use loader::load;

#[cfg(test)]
mod tests;
