// What is drawn for each image.
ghost use Rattle.std.specs.Prelude.{◌≡◌, IfOk};
ghost use Rattle.work_gen.specs.Draws.{kind_of, size_of, drawn, after, draws_from, draws_of};

use call_table::NoMemory;
use rand_core::SeedableRng;
use rand_core::utils::NextWord;
use rand_pcg::Pcg32;
use std::alloc::Global;

/// How many images there are.
pub const IMAGES: u32 = 16;

/// What a program does before it ends.
#[derive(Clone, Copy, Debug, PartialEq, Eq)]
pub enum Kind {
    /// It counts down.
    Counts,
    /// It forks, and reads from its child through a pipe.
    Pipes,
    /// It writes a file.
    Writes,
    /// It handles a signal that it sends itself.
    Signals,
}

/// What is drawn for an image: its kind, and its size from 1 to 1,000.
#[derive(Clone, Copy, Debug, PartialEq, Eq)]
pub struct Draw {
    pub kind: Kind,
    pub size: u32,
}

fn kind_of(word: u32) -> Kind
    ensures { result ≡ kind_of word }
{
    match word % 4 {
        0 => Kind::Counts,
        1 => Kind::Pipes,
        2 => Kind::Writes,
        _ => Kind::Signals,
    }
}

fn size_of(word: u32) -> u32
    ensures { result ≡ size_of word }
{
    1 + word % 1000
}

/// Draws for one image.
fn next_draw(chance: &mut Pcg32) -> Draw
    ensures is { result ≡ drawn chance.old }
    ensures rest { chance.new ≡ after chance.old }
{
    let first: u32 = chance.next_word();
    let second: u32 = chance.next_word();
    Draw {
        kind: kind_of(first),
        size: size_of(second),
    }
}

fn draws_from(alloc: Global, chance: &mut Pcg32, count: u32) -> Result<Vec<Draw>, NoMemory>
    ensures { IfOk result (λ draws. draws.items ≡ draws_from count chance.old) }
{
    let mut draws = Vec::new(alloc);
    for _i in 0..count {
        draws.push(next_draw(chance))?;
    }
    Ok(draws)
}

/// The draws of a seed, one for each image.
pub fn draws_of(alloc: Global, seed: u64) -> Result<Vec<Draw>, NoMemory>
    ensures { IfOk result (λ draws. draws.items ≡ draws_of seed) }
{
    let draws = draws_from(alloc, &mut Pcg32::seed_from_u64(seed), IMAGES)?;
    Ok(draws)
}
