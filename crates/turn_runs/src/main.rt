// Plays turns of one node, and calls of the home side and of reservations alone, by letters made by hand, and tells where something else came than was
// wanted. Standard input has them, a line each: `case NAME` begins a case and `want TEXT` says what the last line comes to; `turns` and `posts` in
// `telling` say how that is told. All numbers of a message stand after its word, as `messages` reads them.
#![tactic(auto)]

mod alone;
mod messages;
mod programs;
mod stage;
mod telling;
mod turning;

use call_table::NoMemory;
use stage::{Stage, carry_out};
use std::alloc::Global;
use std::io;

/// What is printed at the end of a case.
fn verdict(alloc: Global, stage: &Stage) -> Result<String, NoMemory> {
    let name = stage.name.as_str();
    if stage.wrong.as_str().is_empty() {
        return Ok(format!(in alloc; "{name}: ok, {} lines", stage.wants)?);
    }
    Ok(format!(in alloc; "{name}: {}", stage.wrong.as_str())?)
}

/// Compares what came with what was wanted.
fn compare(alloc: Global, stage: &mut Stage, want: &str) -> Result<(), NoMemory> {
    stage.wants = stage.wants.saturating_add(1);
    if stage.told.as_str() != want {
        let text = format!(in alloc; "wanted [{want}] came [{}]; ", stage.told.as_str())?;
        stage.wrong.push_str(text.as_str())?;
    }
    Ok(())
}

/// What is printed for a line. None where nothing is.
fn line(alloc: Global, stage: &mut Stage, line: &str) -> Result<Option<String>, NoMemory> {
    let (word, rest) = line.split_once(' ').unwrap_or((line, ""));
    match word {
        "case" => {
            stage.begin(alloc, rest)?;
            Ok(None)
        }
        "want" => {
            compare(alloc, stage, rest)?;
            Ok(None)
        }
        "end" => Ok(Some(verdict(alloc, stage)?)),
        _ => {
            carry_out(alloc, stage, word, rest)?;
            Ok(None)
        }
    }
}

/// Plays each line of the input.
fn play<R: Input + Print>(rt: &R, alloc: Global, stage: &mut Stage) -> io::Result<()> {
    for text in rt.lines(alloc) {
        let text = text?;
        match line(alloc, stage, text.as_str()) {
            Ok(Some(told)) => println!(rt; "{told}")?,
            Ok(None) => {}
            Err(_) => println!(rt; "out of memory")?,
        }
    }
    Ok(())
}

fn main(rt: HostRuntime) -> io::Result<()> {
    let mut stage = Stage::new(rt.alloc());
    play(&rt, rt.alloc(), &mut stage)
}
