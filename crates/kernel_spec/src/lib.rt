// The definitions of the kernel: files, descriptors and pipes, processes and signals, its state and its calls; and laws of them.
#![tactic(auto)]

mod laws;

pub use laws::{
    answers_fit, blocks_until_it_comes, child_shares, launches_add_one, none_above, others_stay,
    pids_only_grow, signals_count_where_heeded, what_may_come,
};
