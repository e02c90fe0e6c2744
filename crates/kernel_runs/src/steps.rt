// Random steps on a kernel.
ghost use Rattle.std.specs.Prelude.{◌<◌};

use crate::signals::NUMBERS;
use call_table::NoMemory;
use call_table::call::{
    CLOSE, DUP, EXIT, FORK, GETPPID, KILL, LSEEK, OPEN, PIPE, READ, SIGACT, SIGMASK, SIGRETURN,
    UNLINK, WAIT, WRITE, YIELD,
};
use rand_core::Rng;
use rand_pcg::Pcg32;
use std::alloc::Global;

/// One step of a list.
#[derive(Drop)]
pub(crate) enum Step {
    Launch,
    Call {
        pid: u32,
        number: u32,
        args: [u32; 3],
        bytes: Vec<u8>,
    },
    Raise {
        pid: u32,
        signal: u8,
    },
    Take {
        pid: u32,
        room: bool,
    },
    Fall {
        pid: u32,
        signal: u8,
    },
    Feed(Vec<u8>),
    EndInput,
}

/// A number below `end`.
pub(crate) fn below(rng: &mut Pcg32, end: u32) -> u32
    requires { 0 < end }
    ensures { result < end }
{
    rng.next_u32() % end
}

/// One of these, or `other` where there is none.
fn one_of(rng: &mut Pcg32, numbers: &[u32], other: u32) -> u32 {
    let place = rng.next_u32() as usize;
    match numbers.get(place % numbers.len().max(1)) {
        Some(number) => *number,
        None => other,
    }
}

/// Calls that are made often, so that pipes, forks and signals meet.
const OFTEN: [u32; 24] = [
    OPEN, CLOSE, READ, READ, READ, WRITE, WRITE, WRITE, LSEEK, PIPE, PIPE, DUP, UNLINK, KILL, KILL,
    SIGACT, SIGACT, SIGMASK, SIGRETURN, WAIT, WAIT, GETPPID, YIELD, OPEN,
];

fn number(rng: &mut Pcg32, may_fork: bool) -> u32 {
    match below(rng, 40) {
        0 => EXIT,
        1 => below(rng, 24),
        2 | 3 | 4 => if may_fork { FORK } else { WAIT },
        _ => one_of(rng, &OFTEN, YIELD),
    }
}

fn signal(rng: &mut Pcg32) -> u32 {
    if below(rng, 12) == 0 {
        return below(rng, 40);
    }
    one_of(rng, &NUMBERS, 9)
}

fn descriptor(rng: &mut Pcg32) -> u32 {
    if below(rng, 20) == 0 {
        one_of(rng, &[15, 16, 17, u32::MAX], 99)
    } else {
        below(rng, 9)
    }
}

fn length(rng: &mut Pcg32) -> u32 {
    if below(rng, 8) == 0 {
        one_of(rng, &[0, 4095, 4096, 4097, 100_000], 1)
    } else {
        below(rng, 12)
    }
}

/// Three arguments of a call, so that most of them have a meaning.
fn arguments(rng: &mut Pcg32, number: u32, given: u32) -> [u32; 3] {
    match number {
        EXIT => [below(rng, 600), 0, 0],
        WAIT => [below(rng, 2) * 8, 0, 0],
        CLOSE | DUP => [descriptor(rng), 0, 0],
        READ | WRITE => [descriptor(rng), 0, length(rng)],
        LSEEK => [descriptor(rng), place(rng), below(rng, 4)],
        KILL => [below(rng, given.min(100) + 2), signal(rng), 0],
        SIGACT => [signal(rng), handler(rng), 0x2000],
        SIGMASK | SIGRETURN => [mask(rng), 0, 0],
        _ => [below(rng, 4), 0, flags(rng)],
    }
}

fn place(rng: &mut Pcg32) -> u32 {
    match below(rng, 12) {
        0 => one_of(
            rng,
            &[1_048_570, 1_048_576, 1_048_577, u32::MAX, 1 << 31],
            0,
        ),
        1 | 2 | 3 => 0u32.wrapping_sub(below(rng, 9)),
        _ => below(rng, 20),
    }
}

fn handler(rng: &mut Pcg32) -> u32 {
    one_of(rng, &[0, 0, 1, 0x1000, 0x1004], 2)
}

fn mask(rng: &mut Pcg32) -> u32 {
    if below(rng, 3) == 0 {
        0
    } else {
        rng.next_u32() & rng.next_u32()
    }
}

fn flags(rng: &mut Pcg32) -> u32 {
    if below(rng, 6) == 0 {
        below(rng, 40)
    } else {
        one_of(rng, &[1, 2, 3, 5, 6, 7, 14, 15, 22], 7)
    }
}

/// A name: one of three mostly, else a bad one.
fn name(rng: &mut Pcg32, alloc: Global) -> Result<Vec<u8>, NoMemory> {
    let word: &[u8] = match below(rng, 12) {
        0 => b"a/b",
        1 => b"",
        2 => &[b'n'; 65],
        3 => &[b'n'; 64],
        4 | 5 | 6 => b"a",
        7 | 8 => b"b",
        _ => b"c.0",
    };
    Ok(word.to_vec(alloc)?)
}

/// So many random bytes, 4,096 at most.
fn text(rng: &mut Pcg32, alloc: Global, len: u32) -> Result<Vec<u8>, NoMemory> {
    let mut bytes = Vec::new(alloc);
    for _ in 0..len.min(4096) {
        bytes.push((rng.next_u32() % 256) as u8)?;
    }
    Ok(bytes)
}

fn call(
    rng: &mut Pcg32,
    alloc: Global,
    pid: u32,
    given: u32,
    may_fork: bool,
) -> Result<Step, NoMemory> {
    let number = number(rng, may_fork);
    let mut args = arguments(rng, number, given);
    let bytes = match number {
        OPEN | UNLINK => name(rng, alloc)?,
        WRITE => text(rng, alloc, args[2])?,
        _ => Vec::new(alloc),
    };
    if number == OPEN || number == UNLINK {
        args[1] = bytes.len().min(65) as u32;
    }
    Ok(Step::Call {
        pid,
        number,
        args,
        bytes,
    })
}

/// A step, of the processes that were given so far.
pub(crate) fn random_step(
    rng: &mut Pcg32,
    alloc: Global,
    given: u32,
    lives: u32,
) -> Result<Step, NoMemory> {
    if given == 0 {
        return Ok(Step::Launch);
    }
    let pid = 1 + below(rng, given.min(100));
    let few = lives < 6;
    match below(rng, 60) {
        0 if few => Ok(Step::Launch),
        1 | 2 => Ok(Step::Raise {
            pid,
            signal: signal(rng).min(31) as u8,
        }),
        3 | 4 | 5 => Ok(Step::Take {
            pid,
            room: below(rng, 3) != 0,
        }),
        6 => Ok(Step::Fall { pid, signal: 11 }),
        7 | 8 => {
            let len = below(rng, 9);
            Ok(Step::Feed(text(rng, alloc, len)?))
        }
        9 if below(rng, 8) == 0 => Ok(Step::EndInput),
        _ => call(rng, alloc, pid, given, few),
    }
}
