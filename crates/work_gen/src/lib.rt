// Generated work: from a seed to sixteen programs and the script that runs them.
#![tactic(auto)]

mod draw;
mod error;
mod image;
mod made;
mod making;
mod script;
mod text;

pub use draw::{Draw, Kind};
pub use error::WorkError;
pub use made::Work;
pub use making::work;

#[cfg(test)]
mod tests;
