// Generated work, by the words.
ghost use Rattle.std.specs.Prelude.{◌≡◌, ◌≤◌, IfOk, IfErr};
ghost use Rattle.work_gen.specs.Work.{IsWork};
ghost use Rattle.mosix_shell.specs.Generating.{seed_of, IsUnmade};

use crate::why::Why;
use mosix_words::Settings;
use std::alloc::Global;
use work_gen::{Work, WorkError, work};

/// The seed of the work, where the words give none.
const SEED: u64 = 1;

fn seed_of(seed: Option<u64>) -> u64
    ensures { result ≡ seed_of seed }
{
    match seed {
        Some(seed) => seed,
        None => SEED,
    }
}

/// The work that the words ask for, or the fault of the assembler at one of its texts.
pub fn work_of(alloc: Global, settings: &Settings) -> Result<Work, Why>
    requires { 1 ≤ settings.now.nodes }
    ensures work { IfOk result (IsWork (seed_of settings.now.seed) settings.now.nodes) }
    ensures none { IfErr result (IsUnmade (seed_of settings.now.seed)) }
{
    match work(alloc, seed_of(settings.seed), settings.nodes) {
        Ok(work) => Ok(work),
        Err(WorkError::Refused { line, kind }) => Err(Why::BadSource { line, kind }),
        Err(WorkError::NoMemory) => Err(Why::NoMemory),
    }
}
