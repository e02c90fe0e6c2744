// The words of chance of a run: a seed for each node.
ghost use Rattle.std.specs.Prelude.{◌≡◌, IfOk};
ghost use Rattle.mosix_shell.specs.Stage.{words_from, seeds_of};

use call_table::NoMemory;
use mosix_words::Settings;
use rand_core::{Rng, SeedableRng};
use rand_pcg::Pcg32;
use std::alloc::Global;

fn words_from<R: Rng>(alloc: Global, rng: &mut R, count: u8) -> Result<Vec<u64>, NoMemory>
    ensures { IfOk result (λ words. words.items ≡ words_from count (R.stream rng.old)) }
{
    let mut words = Vec::new(alloc);
    for _i in 0..count {
        words.push(rng.next_u64())?;
    }
    Ok(words)
}

/// A seed for each node: from a generator of the words' seed, if they give one, else from the caller's.
pub fn seeds_of<R: Rng>(
    alloc: Global,
    settings: &Settings,
    rng: &mut R,
) -> Result<Vec<u64>, NoMemory>
    ensures { IfOk result (λ seeds. seeds.items ≡ seeds_of settings.now (R.stream rng.old)) }
{
    match settings.seed {
        Some(seed) => {
            let seeds = words_from(alloc, &mut Pcg32::seed_from_u64(seed), settings.nodes)?;
            Ok(seeds)
        }
        None => {
            let seeds = words_from(alloc, rng, settings.nodes)?;
            Ok(seeds)
        }
    }
}
