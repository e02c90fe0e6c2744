// The home side of all processes: the kernel, and what home keeps of each process.
#![tactic(auto)]

mod asks;
mod deputies;
mod fitting;
mod orders;
mod outcome;
mod pokes;
mod posting;
mod row;
mod rows;
mod serving;

pub use deputies::Deputies;
pub use row::{HeldCall, Row};
