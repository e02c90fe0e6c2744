// A user process: its registers, its pages, and its steps.
#![tactic(auto)]

mod blocks;
mod effect;
mod frame;
mod heap;
mod op;
mod place;
mod plan;
mod step;
mod steps;
#[cfg(test)]
mod tests;
mod user;
mod window;
mod windows;

pub use user::{User, Users};
pub use user_spec::outcome::Stop;
