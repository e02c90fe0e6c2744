// Reads scripts and prints event lines, for bench/texts.sh: the arguments are `comments`, `words` or `long` and how often such a
// script is read, or `events` and how many event lines are printed.
#![tactic(auto)]

use call_table::{Bytes, NamedFiles, NoMemory, Replies, Statuses};
use node_event::{Event, Events, Script, What};
use outside::StdSink;
use shell_text::{Last, Run, print_report, read_script};
use std::alloc::Global;
use std::io::BufWriter;
use std::{env, io};

/// Lines of a script, and bytes of each before its newline.
const LINES: usize = 1000;

const LINE_BYTES: usize = 64;

/// A line: a word, and a byte as often as there is room.
fn push_line(script: &mut Vec<u8>, word: &[u8], byte: u8, len: usize) -> Result<(), NoMemory> {
    script.extend_from_slice(word)?;
    for _ in word.len()..len {
        script.push(byte)?;
    }
    Ok(())
}

/// A script of this kind.
fn script_of(alloc: Global, name: &str) -> Result<Vec<u8>, NoMemory> {
    let mut script = Vec::new(alloc);
    if name == "long" {
        push_line(&mut script, b"", b'x', (LINE_BYTES + 1) * LINES)?;
        return Ok(script);
    }
    for _ in 0..LINES {
        if name == "words" {
            push_line(&mut script, b"eof", b' ', LINE_BYTES)?;
        } else {
            push_line(&mut script, b"#", b'x', LINE_BYTES)?;
        }
        script.push(b'\n')?;
    }
    Ok(script)
}

/// So many events.
fn events_of(alloc: Global, count: u32) -> Result<Events, NoMemory> {
    let mut events = Events::new(alloc);
    for at in 0..count {
        events.push(Event {
            stamp: at as u64,
            node: (at % 8) as u8,
            what: What::Steps {
                pid: at % 1000,
                k: 16_384,
            },
        })?;
    }
    Ok(events)
}

fn run_of(alloc: Global, count: u32) -> Result<Run, NoMemory> {
    Ok(Run {
        events: events_of(alloc, count)?,
        statuses: Statuses::new(alloc),
        terminal: Bytes::new(alloc),
        files: NamedFiles::new(alloc),
        replies: Replies::new(alloc),
        last: Last::Done,
    })
}

fn main(rt: HostRuntime) -> io::Result<()> {
    let alloc = rt.alloc();
    let mut name = String::new(alloc);
    let mut count = 1;
    for (i, word) in env::args(&rt)?.skip(1).enumerate() {
        if i == 0 {
            name = word;
        } else {
            count = word.parse::<u32>().unwrap_or(1);
        }
    }
    if name.as_str() == "events" {
        if let Ok(run) = run_of(alloc, count) {
            let mut out = StdSink::new(BufWriter::new(alloc, rt.stdout())?);
            let _ = print_report(alloc, &run, &Script::new(alloc), true, &mut out);
        }
        return Ok(());
    }
    let mut orders = 0u64;
    let Ok(script) = script_of(alloc, name.as_str()) else {
        return Ok(());
    };
    for _ in 0..count {
        if let Ok(script) = read_script(alloc, script.as_slice(), 4) {
            orders = orders.saturating_add(script.len() as u64);
        }
    }
    println!(rt; "{} bytes, {orders} orders", script.len())
}
