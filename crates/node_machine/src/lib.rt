// The one-node machine that the program runs, as the laws of a run take it: the user states and the kernel of a plan, under a policy.
#![tactic(auto)]

mod laws;

pub use laws::{
    end_of_journals, end_of_runs, laws_of_journals, laws_of_runs, machine_is_able,
    machine_is_sound, no_odd_letters, none_skipped, runs_of_one_node,
};
