// A script and its images, by a seed.
ghost use Rattle.std.specs.Prelude.{◌≤◌};

use crate::worked::worked;
use call_table::{Bytes, Named, Names, NoMemory};
use rand_core::{Rng, SeedableRng};
use rand_pcg::Pcg32;
use rv_asm::{AsmError, assemble};
use std::alloc::Global;
use work_gen::{Work, WorkError, work};

/// Memory was wanting, or the assembler refused a text.
#[derive(Clone, Copy)]
pub struct NoCase;

impl From<NoMemory> for NoCase {
    fn from(_fault: NoMemory) -> NoCase {
        NoCase
    }
}

impl From<WorkError> for NoCase {
    fn from(_fault: WorkError) -> NoCase {
        NoCase
    }
}

impl From<AsmError> for NoCase {
    fn from(_fault: AsmError) -> NoCase {
        NoCase
    }
}

/// Programs of generated work, as many as are drawn, each started and followed by the move of one that was.
fn drawn_script(alloc: Global, seed: u64, nodes: u8) -> Result<Bytes, NoMemory>
    requires { 1 ≤ nodes }
{
    let mut chance = Pcg32::seed_from_u64(seed);
    let mut script = Bytes::new(alloc);
    for pid in 1..2 + chance.next_u32() % 6 {
        let image = chance.next_u32() % 16;
        let moved = 1 + chance.next_u32() % pid;
        let to = chance.next_u32() % nodes as u32;
        let lines = format!(in alloc; "run g{image}\nmove {moved} {to}\n")?;
        script.push_slice(lines.as_bytes())?;
    }
    Ok(script)
}

/// A worked program, which is moved twice.
fn worked_case(alloc: Global, seed: u64, nodes: u8) -> Result<Work, NoCase>
    requires { 1 ≤ nodes }
{
    let (text, rest) = worked(seed);
    let file = assemble(alloc, text)?;
    let to = seed % nodes as u64;
    let next = (seed / 8) % nodes as u64;
    let script = script_of(alloc, to, next, rest)?;
    let mut images = Names::new(alloc);
    images.push(Named {
        name: Bytes::from_slice(alloc, b"worked")?,
        bytes: file,
    })?;
    Ok(Work { script, images })
}

fn script_of(alloc: Global, to: u64, next: u64, rest: &str) -> Result<Bytes, NoMemory> {
    let script = format!(in alloc; "run worked\nmove 1 {to}\nmove 1 {next}\n{rest}")?;
    Ok(Bytes::from_vec(script.into_bytes()))
}

/// The script and the images of a seed, with moves among so many nodes: generated work, its programs in a script that is drawn, or a worked program.
pub fn case_of(alloc: Global, seed: u64, nodes: u8) -> Result<Work, NoCase>
    requires { 1 ≤ nodes }
{
    if seed % 3 == 2 {
        let case = worked_case(alloc, seed / 3, nodes)?;
        return Ok(case);
    }
    let whole = work(alloc, seed, nodes)?;
    if seed % 6 == 0 {
        return Ok(whole);
    }
    let script = drawn_script(alloc, seed, nodes)?;
    Ok(Work {
        script,
        images: whole.images,
    })
}
