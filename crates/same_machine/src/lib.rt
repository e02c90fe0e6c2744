// The one-node machine of the program is the one of the laws.
#![tactic(auto)]

mod laws;

pub use laws::one_machine;
