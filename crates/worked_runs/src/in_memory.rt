// A run in memory, and what it tells.
use call_table::{Bytes, Named, Names, NoMemory, Text, Words};
use mosix_shell::mosix::{Ended, mosix_serial};
use mosix_shell::why::Why;
use outside::{Calls, MemImages, MemSink, MemSource};
use policy_box::never_policy;
use rand_core::SeedableRng;
use rand_pcg::Pcg32;
use std::alloc::Global;
use std::process::Abort;

/// The words of a run.
pub const RUN: [&str; 3] = ["--nodes", "1", "run"];

/// How much the sink holds.
const ROOM: usize = 131_072;

/// Which call of the source and which of the sink fails, 0 for none.
pub type Failing = (u64, u64);

pub const NEVER: Failing = (0, 0);

/// What a run answers, and what it wrote.
#[derive(Drop)]
pub struct Told {
    pub status: u8,
    pub why: Why,
    pub output: Bytes,
}

/// The status and the bytes that are told.
pub fn tells(rt: &impl Abort, told: &Told, status: u8, output: &[u8]) {
    assert_eq!(rt; told.status, status);
    assert_eq!(rt; told.output.as_slice(), output);
}

pub fn words_of(alloc: Global, list: &[&str]) -> Result<Words, NoMemory> {
    let mut words = Words::new(alloc);
    for word in list {
        words.push(Text::new(alloc, word)?)?;
    }
    Ok(words)
}

pub fn named(alloc: Global, name: &[u8], bytes: &[u8]) -> Result<Named, NoMemory> {
    Ok(Named {
        name: Bytes::from_slice(alloc, name)?,
        bytes: Bytes::from_slice(alloc, bytes)?,
    })
}

fn calls(alloc: Global, number: u64) -> Result<Calls, NoMemory> {
    let mut calls = Calls::new(alloc);
    if number > 0 {
        calls.push(number)?;
    }
    Ok(calls)
}

fn source_of(alloc: Global, input: &[u8], failing: u64) -> Result<MemSource, NoMemory> {
    let fails = calls(alloc, failing)?;
    Ok(MemSource::new(Bytes::from_slice(alloc, input)?, fails))
}

fn sink_of(alloc: Global, failing: u64) -> Result<MemSink, NoMemory> {
    MemSink::new(alloc, calls(alloc, failing)?, ROOM)
}

/// One run of these words, to its answer and its run.
pub fn run_to_end(
    alloc: Global,
    words: &[&str],
    source: &mut MemSource,
    images: &mut MemImages,
    sink: &mut MemSink,
) -> Result<Ended, NoMemory> {
    let words = words_of(alloc, words)?;
    let mut rng = Pcg32::seed_from_u64(1);
    let policy = never_policy();
    Ok(mosix_serial(alloc, &words, source, images, sink, &mut rng, &policy))
}

/// The status of one run, and why.
pub fn answer(
    alloc: Global,
    words: &[&str],
    source: &mut MemSource,
    images: &mut MemImages,
    sink: &mut MemSink,
) -> Result<(u8, Why), NoMemory> {
    let ended = run_to_end(alloc, words, source, images, sink)?;
    Ok((ended.status, ended.why))
}

/// One run of these words over this input and these files.
pub fn run_in_memory(
    alloc: Global,
    words: &[&str],
    input: &[u8],
    files: Names,
    failing: Failing,
) -> Result<Told, NoMemory> {
    let mut images = MemImages::new(files, Calls::new(alloc));
    let mut source = source_of(alloc, input, failing.0)?;
    let mut sink = sink_of(alloc, failing.1)?;
    let (status, why) = answer(alloc, words, &mut source, &mut images, &mut sink)?;
    Ok(Told {
        status,
        why,
        output: Bytes::from_slice(alloc, sink.bytes())?,
    })
}

/// One text assembled.
pub fn assembled(alloc: Global, text: &[u8], failing: Failing) -> Result<Told, NoMemory> {
    run_in_memory(alloc, &["asm"], text, Names::new(alloc), failing)
}

/// The run of a file alone.
fn run_file(alloc: Global, file: &[u8]) -> Result<Told, NoMemory> {
    let mut files = Names::new(alloc);
    files.push(named(alloc, b"program", file)?)?;
    run_in_memory(alloc, &RUN, b"run program\n", files, NEVER)
}

/// The run of a text's program.
fn run_text(alloc: Global, text: &[u8]) -> Result<Told, NoMemory> {
    let file = assembled(alloc, text, NEVER)?;
    run_file(alloc, file.output.as_slice())
}

/// Texts, and the status and the bytes that the runs of their programs tell.
pub fn texts_tell(
    rt: &impl Abort,
    alloc: Global,
    rows: &[(&[u8], u8, &[u8])],
) -> Result<(), NoMemory> {
    for row in rows {
        let told = run_text(alloc, row.0)?;
        tells(rt, &told, row.1, row.2);
    }
    Ok(())
}
