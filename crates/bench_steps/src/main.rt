// Makes the steps of a small program, for bench/steps.sh: the arguments are its name and how many rounds.
// With a third argument it prints the words of the program.
#![tactic(auto)]

ghost use Rattle.std.specs.Prelude.{◌<◌, ◌^◌};

use page_set::Pages;
use std::alloc::Global;
use std::{env, io};
use user_ctx::{Stop, User};

/// Where the program begins, and its first page.
const START: u32 = 0x1_0000;

/// Where its data begin, six pages.
const DATA: u32 = 0x2_0000;

const MOST_ROUNDS: u32 = 0x10_0000;

/// Counts up to as many times 4,096 as the rounds say, and mixes the numbers.
const LOOP: [u32; 9] = [
    0x00000337, // lui x6, 0
    0x00128293, // addi x5, x5, 1
    0x0053C3B3, // xor x7, x7, x5
    0x00339E13, // slli x28, x7, 3
    0x01CE8EB3, // add x29, x29, x28
    0xFE62E8E3, // bltu x5, x6, L
    0x000E8513, // addi x10, x29, 0
    0x00100893, // addi x17, x0, 1
    0x00000073, // ecall
];

/// The primes below 8,192, found in each round anew.
const SIEVE: [u32; 29] = [
    0x00000937, // lui x18, 0
    0x00C95913, // srli x18, x18, 12
    0x00020437, // lui x8, 0x20
    0x000024B7, // lui x9, 2
    0x00040293, // addi x5, x8, 0
    0x00940333, // add x6, x8, x9
    0x0002A023, // sw x0, 0(x5)
    0x00428293, // addi x5, x5, 4
    0xFE62ECE3, // bltu x5, x6, clear
    0x00200293, // addi x5, x0, 2
    0x00000F13, // addi x30, x0, 0
    0x005403B3, // add x7, x8, x5
    0x0003CE03, // lbu x28, 0(x7)
    0x020E1263, // bne x28, x0, skip
    0x001F0F13, // addi x30, x30, 1
    0x00528EB3, // add x29, x5, x5
    0x009EFC63, // bgeu x29, x9, skip
    0x01D403B3, // add x7, x8, x29
    0x00100F93, // addi x31, x0, 1
    0x01F38023, // sb x31, 0(x7)
    0x005E8EB3, // add x29, x29, x5
    0xFEDFF06F, // j mark
    0x00128293, // addi x5, x5, 1
    0xFC92E8E3, // bltu x5, x9, next
    0xFFF90913, // addi x18, x18, -1
    0xFA0916E3, // bne x18, x0, outer
    0x000F0513, // addi x10, x30, 0
    0x00100893, // addi x17, x0, 1
    0x00000073, // ecall
];

/// Copies 2,048 words in each round, and sums them up.
const COPY: [u32; 16] = [
    0x00000937, // lui x18, 0
    0x00C95913, // srli x18, x18, 12
    0x000202B7, // lui x5, 0x20
    0x00022337, // lui x6, 0x22
    0x000223B7, // lui x7, 0x22
    0x0002AE03, // lw x28, 0(x5)
    0x01CE8EB3, // add x29, x29, x28
    0x01D32023, // sw x29, 0(x6)
    0x00428293, // addi x5, x5, 4
    0x00430313, // addi x6, x6, 4
    0xFE72E6E3, // bltu x5, x7, copy
    0xFFF90913, // addi x18, x18, -1
    0xFC091CE3, // bne x18, x0, outer
    0x000E8513, // addi x10, x29, 0
    0x00100893, // addi x17, x0, 1
    0x00000073, // ecall
];

/// Loads, adds, stores and mixes the same words, as many times 4,096 as the rounds say.
const MEM: [u32; 12] = [
    0x000002B7, // lui x5, 0
    0x00020437, // lui x8, 0x20
    0x00042E03, // lw x28, 0(x8)
    0x01CE8EB3, // add x29, x29, x28
    0x01D42223, // sw x29, 4(x8)
    0x00544F03, // lbu x30, 5(x8)
    0x01EFCFB3, // xor x31, x31, x30
    0xFFF28293, // addi x5, x5, -1
    0xFE0294E3, // bne x5, x0, L
    0x000E8513, // addi x10, x29, 0
    0x00100893, // addi x17, x0, 1
    0x00000073, // ecall
];

/// The same with its data in the page of the code.
const OWN: [u32; 13] = [
    0x000002B7, // lui x5, 0
    0x00010437, // lui x8, 0x10
    0x40040413, // addi x8, x8, 0x400
    0x00042E03, // lw x28, 0(x8)
    0x01CE8EB3, // add x29, x29, x28
    0x01D42223, // sw x29, 4(x8)
    0x00544F03, // lbu x30, 5(x8)
    0x01EFCFB3, // xor x31, x31, x30
    0xFFF28293, // addi x5, x5, -1
    0xFE0294E3, // bne x5, x0, L
    0x000E8513, // addi x10, x29, 0
    0x00100893, // addi x17, x0, 1
    0x00000073, // ecall
];

/// The twelfth Fibonacci number by calls, in each round anew.
const CALLS: [u32; 25] = [
    0x00000937, // lui x18, 0
    0x00C95913, // srli x18, x18, 12
    0x00026137, // lui x2, 0x26
    0x00C00513, // addi x10, x0, 12
    0x014000EF, // jal x1, fib
    0xFFF90913, // addi x18, x18, -1
    0xFE091AE3, // bne x18, x0, outer
    0x00100893, // addi x17, x0, 1
    0x00000073, // ecall
    0x00252293, // slti x5, x10, 2
    0x02029C63, // bne x5, x0, leaf
    0xFF010113, // addi x2, x2, -16
    0x00112023, // sw x1, 0(x2)
    0x00A12223, // sw x10, 4(x2)
    0xFFF50513, // addi x10, x10, -1
    0xFE9FF0EF, // jal x1, fib
    0x00A12423, // sw x10, 8(x2)
    0x00412503, // lw x10, 4(x2)
    0xFFE50513, // addi x10, x10, -2
    0xFD9FF0EF, // jal x1, fib
    0x00812283, // lw x5, 8(x2)
    0x00550533, // add x10, x10, x5
    0x00012083, // lw x1, 0(x2)
    0x01010113, // addi x2, x2, 16
    0x00008067, // jalr x0, 0(x1)
];

/// Calls a function, as many times 4,096 as the rounds say.
const FAR: [u32; 9] = [
    0x000002B7, // lui x5, 0
    0x018000EF, // jal x1, f
    0xFFF28293, // addi x5, x5, -1
    0xFE029CE3, // bne x5, x0, L
    0x000E8513, // addi x10, x29, 0
    0x00100893, // addi x17, x0, 1
    0x00000073, // ecall
    0x001E8E93, // addi x29, x29, 1
    0x00008067, // jalr x0, 0(x1)
];

/// Fills 512 words, sorts them, and takes a checksum of their bytes, in each round anew: what gcc makes of bench/compiled.c.
const COMPILED: [u32; 92] = [
    0x00000937, 0x00C95913, 0x00026137, 0x130000EF, 0xFFF90913, 0xFE091CE3, 0x00100893, 0x00000073,
    0x92D697B7, 0x00021637, 0x000206B7, 0xCA278793, 0x80060613, 0x00D79713, 0x00F747B3, 0x0117D713,
    0x00F74733, 0x00571793, 0x00E7C7B3, 0x00F6A023, 0x00468693, 0xFEC690E3, 0x00008067, 0x0AB57063,
    0xFF010113, 0x00912223, 0x00112623, 0x00812423, 0x00058493, 0x40A487B3, 0x4037D793, 0x00279793,
    0x00F507B3, 0x0007A703, 0x00048593, 0x00050413, 0x0285E863, 0x00042783, 0x0005A683, 0x02E7FA63,
    0x00442783, 0x00440413, 0xFEE7ECE3, 0x00D77863, 0xFFC5A683, 0xFFC58593, 0xFED76CE3, 0x0085FC63,
    0xF9DFF0EF, 0x02947263, 0x00040513, 0xFA9FF06F, 0xFED760E3, 0x00D42023, 0x00F5A023, 0x00440413,
    0xFFC58593, 0xFADFF06F, 0x00C12083, 0x00812403, 0x00412483, 0x01010113, 0x00008067, 0x00008067,
    0x02B05863, 0x000017B7, 0x00050713, 0x00B505B3, 0x50578513, 0x00074783, 0x00551693, 0x00A68533,
    0x00170713, 0x00A78533, 0xFEB716E3, 0x00008067, 0x00001537, 0x50550513, 0x00008067, 0xFF010113,
    0x00112623, 0xEDDFF0EF, 0x000205B7, 0x7FC58593, 0x00020537, 0xF09FF0EF, 0x00C12083, 0x000015B7,
    0x80058593, 0x00020537, 0x01010113, 0xF95FF06F,
];

fn program(name: &str) -> &'static [u32] {
    match name {
        "sieve" => &SIEVE,
        "copy" => &COPY,
        "mem" => &MEM,
        "own" => &OWN,
        "calls" => &CALLS,
        "far" => &FAR,
        "compiled" => &COMPILED,
        _ => &LOOP,
    }
}

/// Where a program begins: the function that `far` calls is the first of the second page.
fn start(name: &str) -> u32 {
    match name {
        "far" => START + 4096 - 28,
        _ => START,
    }
}

/// So many steps are asked for at once.
fn most(name: &str) -> u32 {
    match name {
        "short" => 1000,
        _ => 0x400_0000,
    }
}

/// The word at `i`: the first takes the rounds as its upper immediate.
fn word_at(words: &[u32], i: usize, rounds: u32) -> u32 {
    match words.get(i) {
        None => 0,
        Some(word) => {
            if i == 0 {
                word.wrapping_add((rounds % MOST_ROUNDS) * 4096)
            } else {
                *word
            }
        }
    }
}

fn map(pages: &mut Pages, page: u32, rights: u8)
    requires page { page < 2 ^ 20 }
    requires rights { rights < 8 }
{
    if !pages.is_mapped(page) {
        let _ = pages.map_zero(page, rights);
    }
}

fn loaded(alloc: Global, start: u32, words: &[u32], rounds: u32) -> Pages {
    let mut pages = Pages::new(alloc);
    map(&mut pages, START / 4096, 7);
    map(&mut pages, START / 4096 + 1, 7);
    for page in 0..6 {
        map(&mut pages, DATA / 4096 + page, 6);
    }
    let mut at = start;
    for i in 0..words.len() {
        pages.write(at, &word_at(words, i, rounds).to_le_bytes());
        at = at.wrapping_add(4);
    }
    pages
}

fn main(rt: HostRuntime) -> io::Result<()> {
    let mut name = String::new(rt.alloc());
    let mut rounds = 1;
    let mut prints = false;
    for (i, word) in env::args(&rt)?.skip(1).enumerate() {
        if i == 0 {
            name = word;
        } else if i == 1 {
            rounds = match word.parse::<u32>() {
                Ok(number) => number,
                Err(_) => 1,
            };
        } else {
            prints = true;
        }
    }
    let words = program(name.as_str());
    if prints {
        for i in 0..words.len() {
            println!(rt; "{:08x}", word_at(words, i, rounds))?;
        }
        return Ok(());
    }
    let first = start(name.as_str());
    let pages = loaded(rt.alloc(), first, words, rounds);
    let mut user = User::new(first, 0, 0, 0, pages, DATA);
    match answer(rt.alloc(), &mut user, most(name.as_str())) {
        Some(answer) => println!(rt; "{} steps, answer {answer}", user.count()),
        None => println!(rt; "{} steps, no answer", user.count()),
    }
}

/// What a program has in a0 at its exit, where so many steps are asked for at once.
fn answer(alloc: Global, user: &mut User, most: u32) -> Option<u32> {
    for _ in 0..0x2_0000u32 {
        match user.run(most) {
            (_, Stop::Went) => {}
            (_, Stop::AtCall) => {
                return match user.request(alloc) {
                    Ok(request) => Some(request.args[0]),
                    Err(_) => None,
                };
            }
            _ => return None,
        }
    }
    None
}
