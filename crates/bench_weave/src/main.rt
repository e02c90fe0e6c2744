// Weaves eight journals, as often as the first argument says, of as many events as the second says, for bench/weave.sh.
#![tactic(auto)]

use call_table::NoMemory;
use node_event::{Event, Journal, What};
use std::alloc::Global;
use std::{env, io};
use weave::{Journals, weave};

const NODES: u8 = 8;

/// A journal whose stamps rise by 1 to 15.
fn journal_of(alloc: Global, node: u8, events: u32) -> Result<Journal, NoMemory> {
    let mut journal = Journal::new(alloc, events)?;
    let mut stamp = 0u64;
    let mut word = node as u32;
    for k in 0..events {
        word = word.wrapping_mul(1_664_525).wrapping_add(1_013_904_223);
        stamp = stamp.saturating_add(1 + (word >> 16) as u64 % 15);
        let what = What::Steps { pid: word, k };
        let _ = journal.push(Event { stamp, node, what });
    }
    Ok(journal)
}

fn journals_of(alloc: Global, events: u32) -> Result<Journals, NoMemory> {
    let mut journals = Journals::new(alloc);
    for node in 0..NODES {
        journals.push(journal_of(alloc, node, events)?)?;
    }
    Ok(journals)
}

/// How many events were woven in the last round, and the stamp of the last one.
fn run(alloc: Global, rounds: u32, events: u32) -> Result<(usize, u64), NoMemory> {
    let journals = journals_of(alloc, events)?;
    let mut told = (0, 0);
    for _ in 0..rounds {
        let woven = weave(alloc, &journals)?;
        let last = woven.as_slice().last().map_or(0, |event| event.stamp);
        told = (woven.len(), last);
    }
    Ok(told)
}

fn main(rt: HostRuntime) -> io::Result<()> {
    let mut numbers = [1, 1000];
    let mut place = 0usize;
    for word in env::args(&rt)?.skip(1) {
        match word.parse::<u32>() {
            Ok(number) if place < 2 => numbers[place] = number,
            _ => {}
        }
        place = place.saturating_add(1);
    }
    match run(rt.alloc(), numbers[0], numbers[1]) {
        Ok((count, last)) => println!(rt; "{count} events, the last at {last}"),
        Err(_) => println!(rt; "out of memory"),
    }
}
