// A chooser of moves that is stored with what holds of it.
#![tactic(auto)]

mod chooser;
mod never;
mod policy;
mod usher;

pub use chooser::Chooser;
pub use mem_usher::{Choice, Sight};
pub use never::{Never, never_policy};
pub use policy::Policy;
pub use usher::{Usher, usher_policy};

#[cfg(test)]
mod tests;
