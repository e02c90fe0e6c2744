// The definitions of a user process: its state, an instruction, a step, a request and its return.
#![tactic(auto)]

pub mod effect;
pub mod outcome;
