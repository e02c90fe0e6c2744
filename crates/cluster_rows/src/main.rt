// Plays the worked rows of the cluster by the call that the program makes, with script, images and report in memory. Standard input has them, line by line. A
// line that is empty or begins with two blanks is text, and belongs to the line before it that is none:
// `row NAME` begins a row; `program NAME` has the text of an assembler program, whose image stays for all rows; `script` has a script; `report`, `parts`,
// `events WORD ..` and `counts WORD ..` have what is wanted: the whole report, the report without the outcomes of moves, the event lines of these words without
// their stamps, or how many there are of each.
// `run STATUS WORD ..` plays the script by these words of the program, and prints whether status and report are as wanted; `moved` is the same where a process has
// to move, `still` plays the script without its moves, and `bare` has a policy that chooses no move.
#![tactic(auto)]

mod form;
mod playing;
mod record;

use call_table::NoMemory;
use playing::played;
use record::Record;
use std::alloc::Global;
use std::io;
use std::sync::Wait;
use std::thread::Threads;

/// What is printed for a line. None where it tells of a row alone.
fn told<H: Threads + Wait + Sync>(
    rt: &H,
    alloc: Global,
    record: &mut Record,
    line: &str,
) -> Result<Option<String>, NoMemory> {
    if let Some(text) = line.strip_prefix("  ") {
        record.add_text(text)?;
        return Ok(None);
    }
    if line.is_empty() {
        record.add_text(line)?;
        return Ok(None);
    }
    record.begin(alloc, line)?;
    let (word, rest) = line.split_once(' ').unwrap_or((line, ""));
    match word {
        "row" => Ok(Some(String::from_str(alloc, rest)?)),
        "run" | "bare" | "moved" | "still" => Ok(Some(played(rt, alloc, record, word, rest)?)),
        _ => Ok(None),
    }
}

fn main(rt: HostRuntime) -> io::Result<()> {
    let alloc = rt.alloc();
    let mut record = Record::new(alloc);
    for line in rt.lines(alloc) {
        let line = line?;
        match told(&rt, alloc, &mut record, line.as_str()) {
            Ok(Some(text)) => println!(rt; "{text}")?,
            Ok(None) => {}
            Err(_) => println!(rt; "out of memory")?,
        }
    }
    Ok(())
}
