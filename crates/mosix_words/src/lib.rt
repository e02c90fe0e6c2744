// The words of the program, as one simple command of `clap` takes them.
#![tactic(auto)]

mod command;
mod number;
mod settings;

pub use settings::{Mode, Settings, WordsError, mode_of};

#[cfg(test)]
mod tests;
