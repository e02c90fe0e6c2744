// Compares the kernel with a plain one over lists, on 2,000 random lists of steps of up to six live processes.
#![tactic(auto)]

mod calls;
mod compared;
mod paths;
mod plain;
mod signals;
mod steps;

use call_table::NoMemory;
use compared::{Counts, compare_list};
use rand_core::SeedableRng;
use rand_pcg::Pcg32;
use std::alloc::Global;
use std::io;

const LISTS: u32 = 2_000;

const STEPS: u32 = 150;

/// All lists, from one seed each.
fn all_lists(alloc: Global) -> Result<Counts, NoMemory> {
    let mut counts = Counts::NONE;
    for list in 0..LISTS {
        let mut rng = Pcg32::seed_from_u64(list as u64);
        compare_list(&mut rng, alloc, list, STEPS, &mut counts)?;
    }
    Ok(counts)
}

fn main(rt: HostRuntime) -> io::Result<()> {
    match all_lists(rt.alloc()) {
        Ok(counts) => {
            println!(rt;
                "{LISTS} lists, {} steps, {} answered, {} blocked, {} differ",
                counts.steps, counts.answered, counts.blocked, counts.differing
            )?;
            println!(rt;
                "the first that differs: list {}, step {}",
                counts.first.0, counts.first.1
            )
        }
        Err(_) => println!(rt; "out of memory"),
    }
}
