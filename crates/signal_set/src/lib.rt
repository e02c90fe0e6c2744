// The signals of one process: which are pending, which are masked, and what is done at each.
#![tactic(auto)]

mod act;
mod signals;
#[cfg(test)]
mod tests;

pub use act::Act;
pub use signals::Signals;
