// The plain system on one node: a kernel, the contexts of its processes and the replies of their calls.
#![tactic(auto)]

pub mod going;
pub mod home;
pub mod play;
mod report;
pub mod step;

pub use crate::step::{Feeds, Setup, Step};
