// One play of a row.
use crate::form::seen;
use crate::record::Record;
use call_table::{Bytes, Named, Names, NoMemory, Text, Words};
use mosix_shell::threads::mosix;
use mosix_shell::usher::mosix_usher;
use outside::{Calls, MemImages, MemSink, MemSource, StillGate};
use policy_box::never_policy;
use rand_core::SeedableRng;
use rand_pcg::Pcg32;
use std::alloc::Global;
use std::sync::Wait;
use std::thread::Threads;

/// How many bytes a sink has room for: more than any of these reports has.
const ROOM: usize = 1_000_000;

/// The words of a text, with one blank between two of them.
fn words_of(alloc: Global, text: &str) -> Result<Words, NoMemory> {
    let mut words = Words::new(alloc);
    for word in text.split(' ') {
        words.push(Text::new(alloc, word)?)?;
    }
    Ok(words)
}

fn copies(alloc: Global, files: &Names) -> Result<Names, NoMemory> {
    let mut names = Names::new(alloc);
    for file in files.as_slice() {
        names.push(Named {
            name: file.name.copy(alloc)?,
            bytes: file.bytes.copy(alloc)?,
        })?;
    }
    Ok(names)
}

/// The status of a run by the call that the program makes.
fn status_by<H: Threads + Wait + Sync>(
    rt: &H,
    alloc: Global,
    words: &Words,
    source: &mut MemSource,
    images: &mut MemImages,
    sink: &mut MemSink,
) -> u8 {
    let mut rng = Pcg32::seed_from_u64(1);
    let ended = mosix_usher(rt, alloc, words, source, images, sink, &mut rng, &StillGate);
    ended.status
}

/// The status of a run in which no node chooses a move.
fn bare_status<H: Threads + Wait + Sync>(
    rt: &H,
    alloc: Global,
    words: &Words,
    source: &mut MemSource,
    images: &mut MemImages,
    sink: &mut MemSink,
) -> u8 {
    let mut rng = Pcg32::seed_from_u64(1);
    let policy = never_policy();
    let ended = mosix(
        rt, alloc, words, source, images, sink, &mut rng, &StillGate, &policy,
    );
    ended.status
}

/// The status of a run of a script, which writes into the sink.
fn run_in_memory<H: Threads + Wait + Sync>(
    rt: &H,
    alloc: Global,
    play: (&str, &str),
    script: Bytes,
    files: &Names,
    sink: &mut MemSink,
) -> Result<u8, NoMemory> {
    let words = words_of(alloc, play.1)?;
    let mut source = MemSource::new(script, Calls::new(alloc));
    let mut images = MemImages::new(copies(alloc, files)?, Calls::new(alloc));
    if play.0 == "bare" {
        return Ok(bare_status(rt, alloc, &words, &mut source, &mut images, sink));
    }
    let status = status_by(rt, alloc, &words, &mut source, &mut images, sink);
    Ok(status)
}

/// The script, or the script without its moves.
fn script_of(alloc: Global, script: &[u8], verb: &str) -> Result<Bytes, NoMemory> {
    match verb {
        "still" => seen(alloc, script, "parts"),
        _ => Bytes::from_slice(alloc, script),
    }
}

/// Whether an output tells of a move.
fn has_move(output: &[u8]) -> bool {
    output
        .windows(6)
        .any(|front| front == b"\nmove ".as_slice())
}

/// Bytes as a text on one line, with a bar for each end of a line.
fn shown(alloc: Global, bytes: &[u8]) -> Result<String, NoMemory> {
    let mut text = String::new(alloc);
    for byte in bytes {
        text.push(if *byte == b'\n' { '|' } else { *byte as char })?;
    }
    Ok(text)
}

/// Compares the status and the output of a play with what is wanted.
fn compared(
    alloc: Global,
    record: &Record,
    play: (&str, &str),
    status: u8,
    output: &[u8],
) -> Result<String, NoMemory> {
    let (verb, rest) = play;
    let (wanted, words) = rest.split_once(' ').unwrap_or((rest, ""));
    let found = seen(alloc, output, record.form.as_str())?;
    let is_so = found.as_slice() == record.wanted.as_slice();
    let has_moved = verb != "moved" || has_move(output);
    if is_so && has_moved && wanted.parse::<u8>() == Ok(status) {
        return Ok(format!(in alloc; "  {verb} {words}: ok")?);
    }
    let text = shown(alloc, output)?;
    Ok(format!(in alloc; "  {verb} {words}: {status} {text}")?)
}

/// Plays a row by the words behind a status, and tells what came of it.
pub fn played<H: Threads + Wait + Sync>(
    rt: &H,
    alloc: Global,
    record: &Record,
    verb: &str,
    rest: &str,
) -> Result<String, NoMemory> {
    let (_, words) = rest.split_once(' ').unwrap_or((rest, ""));
    let script = script_of(alloc, record.script.as_slice(), verb)?;
    let mut sink = MemSink::new(alloc, Calls::new(alloc), ROOM)?;
    let status = run_in_memory(rt, alloc, (verb, words), script, &record.files, &mut sink)?;
    compared(alloc, record, (verb, rest), status, sink.bytes())
}
