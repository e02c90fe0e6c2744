// Plays programs on the plain system on one node, and tells what they came to. Standard input has them, line by line: `program NAME` begins one, and a line
// that begins with two blanks is one of its text; `type TEXT` is a line that may be typed, `outside STEP` a step that is made where no process can go; `run` plays
// the program to its end, `play STEP, STEP` these steps from the start, and `tell STEP, STEP` says what each of them told.
#![tactic(auto)]

mod driver;
mod record;
mod telling;

use call_table::NoMemory;
use driver::steps;
use one_node::home::Home;
use record::Record;
use std::alloc::Global;
use std::io;
use telling::{played, steps_of, told_by_each};

/// What is printed for a line that has something played.
fn answer(alloc: Global, record: &mut Record, word: &str, rest: &str) -> Result<String, NoMemory> {
    record.load(alloc)?;
    if word == "run" {
        let steps = steps(alloc, &record.setup, record.outside.as_slice())?;
        return played(alloc, &record.setup, steps.as_slice());
    }
    let steps = steps_of(alloc, rest)?;
    if word == "play" {
        return played(alloc, &record.setup, steps.as_slice());
    }
    let mut home = Home::new(alloc);
    told_by_each(alloc, &mut home, &record.setup, steps.as_slice())
}

/// A line that tells of the program.
fn tell(alloc: Global, record: &mut Record, word: &str, rest: &str) -> Result<(), NoMemory> {
    match word {
        "program" => *record = Record::new(alloc),
        "type" => record.add_feed(alloc, rest)?,
        "outside" => record.add_outside(rest)?,
        _ => {}
    }
    Ok(())
}

/// What is printed for a line. None where it tells of the program alone.
fn told(alloc: Global, record: &mut Record, line: &str) -> Result<Option<String>, NoMemory> {
    if let Some(code) = line.strip_prefix("  ") {
        record.add_code(code)?;
        return Ok(None);
    }
    let (word, rest) = line.split_once(' ').unwrap_or((line, ""));
    if word == "run" || word == "play" || word == "tell" {
        return Ok(Some(answer(alloc, record, word, rest)?));
    }
    tell(alloc, record, word, rest)?;
    Ok(None)
}

fn main(rt: HostRuntime) -> io::Result<()> {
    let alloc = rt.alloc();
    let mut record = Record::new(alloc);
    for line in rt.lines(alloc) {
        let line = line?;
        match told(alloc, &mut record, line.as_str()) {
            Ok(Some(text)) if line.as_str() == "run" => println!(rt; "{text}")?,
            Ok(Some(text)) => println!(rt; "{}: {text}", line.as_str())?,
            Ok(None) if line.as_str().starts_with("program ") => println!(rt; "{}", line.as_str())?,
            Ok(None) => {}
            Err(_) => println!(rt; "out of memory")?,
        }
    }
    Ok(())
}
