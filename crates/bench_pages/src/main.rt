// Loads and stores over 64 pages, as many rounds as the argument says, for bench/pages.sh.
#![tactic(auto)]

use page_set::Pages;
use std::{env, io};

const FIRST: u32 = 16;

const END: u32 = 80;

/// One load and one store in each round, at addresses that jump about. The sum of what was loaded.
fn run(pages: &mut Pages, rounds: u32) -> u32 {
    let mut sum = 0u32;
    let mut place = 1u32;
    for i in 0..rounds {
        place = place.wrapping_mul(1_664_525).wrapping_add(1_013_904_223);
        let addr = FIRST * 4096 + place % 0x1_0000 * 4;
        match pages.load_4(addr, 4) {
            Ok(word) => sum = sum.wrapping_add(word),
            Err(_) => {}
        }
        let _ = pages.store_4(addr, sum ^ i);
    }
    sum
}

fn main(rt: HostRuntime) -> io::Result<()> {
    let mut rounds = 100_000u32;
    for word in env::args(&rt)?.skip(1) {
        match word.parse::<u32>() {
            Ok(number) => rounds = number,
            Err(_) => {}
        }
    }
    let mut pages = Pages::new(rt.alloc());
    match pages.map_range(FIRST, END, 6) {
        Ok(()) => println!(rt; "{} rounds, sum {}", rounds, run(&mut pages, rounds)),
        Err(_) => println!(rt; "out of memory"),
    }
}
