// The simulated cluster: reads its words and standard input, and ends with the status of the run.
#![tactic(auto)]

ghost use Rattle.mosix_words.specs.Settings.{settings_of};
ghost use Rattle.mosix_shell.specs.Told.{seen};
ghost use Rattle.mosixsim.specs.Exits.{Exits};

use call_table::{NoMemory, Text, Words};
use mosix_shell::status;
use mosix_shell::usher::mosix_usher;
use outside::{FileImages, Gate, Images, Sink, Source, StdSink, StdSource, YieldGate};
use rand_core::SeedableRng;
use rand_pcg::Pcg32;
use std::alloc::Global;
use std::io::ErrorKind;
use std::process::ExitCode;
use std::rt::Env;
use std::sync::Wait;
use std::thread::Threads;
use std::{env, io};

/// The seed of the words of chance, where the program's words give none.
const SEED: u64 = 1;

/// The words of the program without its own name. A word that is not UTF-8 makes them no words at all,
/// which no command line is.
fn words<R: Env + AllocGlobal>(rt: &R) -> Result<Words, NoMemory> {
    let mut words = Words::new(rt.alloc());
    let args = match env::args(rt) {
        Ok(args) => args,
        Err(e) if e.kind() == ErrorKind::OutOfMemory => return Err(NoMemory),
        Err(_) => return Ok(words),
    };
    for word in args.skip(1) {
        words.push(Text::new(rt.alloc(), word.as_str())?)?;
    }
    Ok(words)
}

/// All that the program does, over any outside: the status by which it ends.
fn status_by<H: Threads + Wait + Sync, S: Source, I: Images, O: Sink, G: Gate + Sync>(
    rt: &H,
    alloc: Global,
    words: &Words,
    script: &mut S,
    images: &mut I,
    out: &mut O,
    gate: &G,
) -> u8
    ensures { Exits (settings_of words.now) (seen S.left S.faults script.old script.new) (seen I.files I.faults images.old images.new) (seen O.written O.faults out.old out.new) result }
{
    let mut rng = Pcg32::seed_from_u64(SEED);
    let ended = mosix_usher(rt, alloc, words, script, images, out, &mut rng, gate);
    ended.status
}

fn main(rt: HostRuntime) -> ExitCode {
    let alloc = rt.alloc();
    let Ok(words) = words(&rt) else {
        return ExitCode::from(status::NO_MEMORY);
    };
    let mut source = StdSource::new(rt.reader());
    let mut images = FileImages::new(rt.clone().unwrap());
    let mut sink = StdSink::new(io::writer(&rt));
    let gate = YieldGate::new(rt.clone().unwrap());
    let status = status_by(
        &rt,
        alloc,
        &words,
        &mut source,
        &mut images,
        &mut sink,
        &gate,
    );
    ExitCode::from(status)
}
