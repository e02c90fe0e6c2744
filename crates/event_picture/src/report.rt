// The events of a report.
ghost use Rattle.std.specs.Prelude.{◌≡◌, ◌<◌, ◌≤◌, IfSome, length};

use crate::survey::Survey;
use call_table::NoMemory;
use node_event::{Events, read_event};
use std::alloc::Global;

/// Why no events were read.
#[derive(Clone, Copy, Debug, PartialEq, Eq)]
pub enum ReportError {
    /// The first faulty line, counted from 1; one more than there are where a line is missing.
    Faulty { line: u32 },
    NoMemory,
}

impl From<NoMemory> for ReportError {
    fn from(_e: NoMemory) -> ReportError {
        ReportError::NoMemory
    }
}

/// The events of a report, and their survey.
#[derive(Debug, Drop)]
pub struct Listing {
    pub events: Events,
    pub survey: Survey,
}

/// A text that is read line by line, and how many lines of it were read.
#[derive(Clone, Copy, Debug, PartialEq, Eq)]
struct Lines<'a> {
    rest: &'a [u8],
    read: u32,
}

fn newlines(bytes: &[u8]) -> u32 {
    let mut count = 0u32;
    for byte in bytes {
        if *byte == b'\n' {
            count = count.saturating_add(1);
        }
    }
    count
}

fn find_byte(bytes: &[u8], wanted: u8) -> Option<usize>
    ensures { IfSome result (λ at. at < length bytes.now) }
{
    bytes.iter().position(|byte| *byte == wanted)
}

/// What stands before and behind the first such byte.
fn split_once(bytes: &[u8], byte: u8) -> Option<(&[u8], &[u8])>
    ensures { IfSome result (λ parts. length parts.1.now < length bytes.now) }
{
    let at = find_byte(bytes, byte)?;
    Some((&bytes[..at], &bytes[at + 1..]))
}

/// The first word of a line, and what stands behind the blank after it.
fn split_word(line: &[u8]) -> (&[u8], &[u8]) {
    match split_once(line, b' ') {
        Some(parts) => parts,
        None => (line, &line[..0]),
    }
}

fn number_of(word: &[u8]) -> Option<u32> {
    let text = str::from_utf8(word).ok()?;
    text.parse::<u32>().ok()
}

impl<'a> Lines<'a> {
    fn new(text: &'a [u8]) -> Lines<'a> {
        Lines {
            rest: text,
            read: 0,
        }
    }

    /// The next line, without its newline. None where no newline is left.
    fn take(&mut self) -> Option<&'a [u8]>
        ensures { IfSome result (λ line. length self.new.rest.now < length self.old.rest.now) }
    {
        let (line, rest) = split_once(self.rest, b'\n')?;
        self.rest = rest;
        self.read = self.read.saturating_add(1);
        Some(line)
    }

    /// Passes over so many bytes and a newline.
    fn pass(&mut self, count: usize) -> Result<(), ReportError> {
        let (block, behind) = self.rest.split_at_checked(count).ok_or(self.missing())?;
        self.read = self.read.saturating_add(newlines(block));
        let [b'\n', rest @ ..] = behind else {
            return Err(self.missing());
        };
        self.rest = rest;
        self.read = self.read.saturating_add(1);
        Ok(())
    }

    /// The last line that was read is faulty.
    fn faulty(&self) -> ReportError {
        ReportError::Faulty { line: self.read }
    }

    /// The line behind the last one that was read is missing, or should not be there.
    fn missing(&self) -> ReportError {
        ReportError::Faulty {
            line: self.read.saturating_add(1),
        }
    }
}

/// Passes over the terminal's line and bytes.
fn pass_terminal(lines: &mut Lines<'_>) -> Result<(), ReportError> {
    let line = lines.take().ok_or(lines.missing())?;
    let (word, rest) = split_word(line);
    if word != b"terminal".as_slice() {
        return Err(lines.faulty());
    }
    let count = number_of(rest).ok_or(lines.faulty())?;
    lines.pass(count as usize)
}

/// Passes over a file's bytes, behind the word of its line.
fn pass_file(lines: &mut Lines<'_>, rest: &[u8]) -> Result<(), ReportError> {
    let (_name, length) = split_word(rest);
    let count = number_of(length).ok_or(lines.faulty())?;
    lines.pass(count as usize)
}

/// Whether a line with this first word stands before the events and has no bytes behind it.
fn is_told(word: &[u8]) -> bool {
    match word {
        b"process" | b"move" | b"refused" | b"stay" | b"none" | b"open" => true,
        b"done" | b"stuck" | b"full" => true,
        _ => false,
    }
}

/// Passes over what stands before the events, and gives how many there are.
fn pass_front(lines: &mut Lines<'_>) -> Result<u32, ReportError> {
    pass_terminal(lines)?;
    for _ in 0..lines.rest.len() {
        let line = lines.take().ok_or(lines.missing())?;
        let (word, rest) = split_word(line);
        if word == b"events".as_slice() {
            return number_of(rest).ok_or(lines.faulty());
        }
        if word == b"file".as_slice() {
            pass_file(lines, rest)?;
        } else if !is_told(word) {
            return Err(lines.faulty());
        }
    }
    Err(lines.missing())
}

/// The next so many lines, each of which is that of an event.
fn take_events(alloc: Global, lines: &mut Lines<'_>, count: u32) -> Result<Listing, ReportError> {
    let mut events = Events::new(alloc);
    let mut survey = Survey::new();
    for _ in 0..count {
        let line = lines.take().ok_or(lines.missing())?;
        let event = read_event(line).ok_or(lines.faulty())?;
        survey = survey.with(&event).ok_or(lines.faulty())?;
        events.push(event)?;
    }
    Ok(Listing { events, survey })
}

/// The events of a report that lists them.
pub fn read_report(alloc: Global, text: &[u8]) -> Result<Listing, ReportError> {
    let mut lines = Lines::new(text);
    let count = pass_front(&mut lines)?;
    let listing = take_events(alloc, &mut lines, count)?;
    if !lines.rest.is_empty() {
        return Err(lines.missing());
    }
    Ok(listing)
}
