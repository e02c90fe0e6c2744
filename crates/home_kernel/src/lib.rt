// The kernel at the home: files, descriptors, pipes, the terminal, and processes with their signals, and all calls on them.
#![tactic(auto)]

mod answers;
#[cfg(test)]
mod file_tests;
mod flags;
mod io;
mod kernel;
mod masks;
mod names;
#[cfg(test)]
mod pipe_tests;
mod places;
#[cfg(test)]
mod process_tests;
mod processes;
#[cfg(test)]
mod signal_tests;
mod terminal;
#[cfg(test)]
mod terminal_tests;
mod typed;
#[cfg(test)]
mod worked;

pub use answers::Served;
pub use kernel::{Kernel, Took};
