// Compares the choice of the usher with a plain search over every pair of a process and a node, on 10,000 random sights of small numbers.
#![tactic(auto)]

ghost use Rattle.std.specs.Prelude.{◌<◌};

mod search;

use call_table::{Entry, NoMemory};
use mem_usher::{Entries, Movables, Sight, usher_choice};
use rand_core::{Rng, SeedableRng};
use rand_pcg::Pcg32;
use search::searched;
use std::alloc::Global;
use std::io;

const SIGHTS: u32 = 10_000;

/// A number below `end`.
fn below(rng: &mut Pcg32, end: u32) -> u32
    requires { 0 < end }
    ensures { result < end }
{
    rng.next_u32() % end
}

fn random_known(rng: &mut Pcg32, alloc: Global) -> Result<Entries, NoMemory> {
    let mut known = Entries::new(alloc);
    for node in 1..8u8 {
        let load = below(rng, 6);
        let free = below(rng, 48);
        if below(rng, 2) == 0 {
            known.push(Entry {
                node,
                load,
                free,
                stamp: 1,
            })?;
        }
    }
    Ok(known)
}

fn random_movable(rng: &mut Pcg32, alloc: Global) -> Result<Movables, NoMemory> {
    let mut movable = Movables::new(alloc);
    for pid in 1..9u32 {
        let pages = 1 + below(rng, 12);
        if below(rng, 2) == 0 {
            movable.push((pid, pages))?;
        }
    }
    Ok(movable)
}

/// A sight of node 0 with up to seven other nodes and eight processes.
fn random_sight(rng: &mut Pcg32, alloc: Global) -> Result<Sight, NoMemory> {
    let cap = below(rng, 400);
    let free = below(rng, 40);
    let load = below(rng, 9);
    let known = random_known(rng, alloc)?;
    let movable = random_movable(rng, alloc)?;
    Ok(Sight {
        node: 0,
        cap,
        free,
        load,
        known,
        movable,
    })
}

/// How many sights had a choice, and on how many the two differ.
fn compared(alloc: Global) -> Result<(u32, u32), NoMemory> {
    let mut rng = Pcg32::seed_from_u64(1);
    let mut chosen = 0u32;
    let mut differing = 0u32;
    for _ in 0..SIGHTS {
        let sight = random_sight(&mut rng, alloc)?;
        let choice = usher_choice(&sight);
        if choice.is_some() {
            chosen = chosen.saturating_add(1);
        }
        if choice != searched(&sight) {
            differing = differing.saturating_add(1);
        }
    }
    Ok((chosen, differing))
}

fn main(rt: HostRuntime) -> io::Result<()> {
    match compared(rt.alloc()) {
        Ok((chosen, differing)) => {
            println!(rt; "{SIGHTS} sights, {chosen} with a choice, {differing} differ")
        }
        Err(_) => println!(rt; "out of memory"),
    }
}
