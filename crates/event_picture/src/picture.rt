// The top call: from a report to its picture.
ghost use Rattle.std.specs.Prelude.{◌≡◌, ◌≤◌, true, false, IfOk, IfErr, OnErr, string_bytes};
ghost use Rattle.outside.specs.Outside.{Rose};
ghost use Rattle.event_picture.specs.Drawn.{Draws, Ends, bad_report, ended_by, status_of, was_read};

use crate::drawing::Drawing;
use crate::ended::Ended;
use crate::head::head_text;
use crate::marks::Marks;
use crate::report::{Listing, ReportError, read_report};
use crate::svg::{foot_text, marks_text};
use call_table::{Bytes, NoMemory};
use node_event::Event;
use outside::{Sink, Source};
use shell_text::{PrintFault, write_bytes};
use std::alloc::{AllocError, Global};

/// The status of a program that ends so.
pub fn status_of(ended: Ended) -> u8
    ensures { result ≡ status_of ended }
{
    match ended {
        Ended::Done => 0,
        Ended::BadReport { .. } => 3,
        Ended::ReadFault => 5,
        Ended::WriteFault => 6,
        Ended::NoMemory => 7,
    }
}

/// Bytes that are read at once.
const CHUNK: usize = 4096;

/// Why nothing was read.
#[derive(Clone, Copy, Debug, PartialEq, Eq)]
enum ReadError {
    Failed,
    NoMemory,
}

/// All that a source gives. What takes more than 4,294,967,295 reads wants more memory than there is.
fn read_all<S: Source>(alloc: Global, source: &mut S) -> Result<Bytes, ReadError>
    ensures failed { IfErr result (λ e. e ≡ ReadError.Failed → Rose (S.faults source.old) (S.faults source.new)) }
{
    let mut bytes = Bytes::new(alloc);
    let mut chunk = [0u8; CHUNK];
    for _ in 0..u32::MAX {
        let count = match source.read(&mut chunk) {
            Ok(count) => count,
            Err(_) => return Err(ReadError::Failed),
        };
        if count == 0 {
            return Ok(bytes);
        }
        if bytes.push_slice(&chunk[..count]).is_err() {
            return Err(ReadError::NoMemory);
        }
    }
    Err(ReadError::NoMemory)
}

/// Writes a text that was made, where there was memory for it.
fn write_text<O: Sink>(out: &mut O, made: Result<String, AllocError>) -> Result<(), PrintFault>
    ensures { Draws O.written O.faults out.old out.new result }
{
    let text = match made {
        Ok(text) => text,
        Err(_) => return Err(PrintFault::NoMemory),
    };
    match write_bytes(out, text.as_bytes()) {
        Ok(()) => Ok(()),
        Err(e) => Err(e),
    }
}

/// Draws what an event adds. Nothing is written where it adds nothing.
fn draw_marks<O: Sink>(
    alloc: Global,
    marks: &Marks,
    event: &Event,
    out: &mut O,
) -> Result<(), PrintFault>
    ensures { Draws O.written O.faults out.old out.new result }
{
    if marks.is_empty() {
        return Ok(());
    }
    match write_text(out, marks_text(alloc, marks, event)) {
        Ok(()) => Ok(()),
        Err(e) => Err(e),
    }
}

/// Draws events one after the other.
fn draw_events<O: Sink>(
    alloc: Global,
    drawing: &mut Drawing,
    events: &[Event],
    out: &mut O,
) -> Result<(), PrintFault>
    ensures { Draws O.written O.faults out.old out.new result }
{
    for event in events {
        let marks = drawing.add_event(event);
        match draw_marks(alloc, &marks, event, out) {
            Ok(()) => {}
            Err(e) => return Err(e),
        }
    }
    Ok(())
}

/// Draws the picture of a listing.
fn draw_listing<O: Sink>(alloc: Global, listing: &Listing, out: &mut O) -> Result<(), PrintFault>
    ensures { Draws O.written O.faults out.old out.new result }
{
    let mut drawing = match Drawing::new(alloc, &listing.survey) {
        Ok(drawing) => drawing,
        Err(_) => return Err(PrintFault::NoMemory),
    };
    match write_text(out, head_text(alloc, &listing.survey)) {
        Ok(()) => {}
        Err(e) => return Err(e),
    }
    match draw_events(alloc, &mut drawing, listing.events.as_slice(), out) {
        Ok(()) => {}
        Err(e) => return Err(e),
    }
    match write_text(out, foot_text(alloc, &drawing.open_bars())) {
        Ok(()) => Ok(()),
        Err(e) => Err(e),
    }
}

fn ended_by(fault: PrintFault) -> Ended
    ensures is { result ≡ ended_by fault }
    ensures read { was_read result ≡ true }
{
    match fault {
        PrintFault::Failed => Ended::WriteFault,
        PrintFault::NoMemory => Ended::NoMemory,
    }
}

/// The line in place of a picture.
fn bad_report(alloc: Global, line: u32) -> Result<Bytes, NoMemory>
    ensures { IfOk result (λ text. text ≡ bad_report line) }
{
    let text = format!(in alloc; "bad report {line}\n")?;
    Ok(Bytes::from_vec(text.into_bytes()))
}

/// Writes the line in place of a picture.
fn refuse<O: Sink>(alloc: Global, line: u32, out: &mut O) -> Ended
    ensures ends { Ends O.written O.faults out.old out.new result }
    ensures read { was_read result ≡ true }
{
    let text = match bad_report(alloc, line) {
        Ok(text) => text,
        Err(_) => return Ended::NoMemory,
    };
    match write_bytes(out, text.as_slice()) {
        Ok(()) => Ended::BadReport { line },
        Err(fault) => ended_by(fault),
    }
}

/// Draws the picture of a listing to its end.
fn draw_whole<O: Sink>(alloc: Global, listing: &Listing, out: &mut O) -> Ended
    ensures ends { Ends O.written O.faults out.old out.new result }
    ensures read { was_read result ≡ true }
{
    match draw_listing(alloc, listing, out) {
        Ok(()) => Ended::Done,
        Err(fault) => ended_by(fault),
    }
}

/// Draws the picture of a report's text, or refuses it.
fn draw_text<O: Sink>(alloc: Global, text: &[u8], out: &mut O) -> Ended
    ensures ends { Ends O.written O.faults out.old out.new result }
    ensures read { was_read result ≡ true }
{
    match read_report(alloc, text) {
        Ok(listing) => draw_whole(alloc, &listing, out),
        Err(ReportError::Faulty { line }) => refuse(alloc, line, out),
        Err(ReportError::NoMemory) => Ended::NoMemory,
    }
}

/// Reads a report with its events and writes its picture, or the line that names its first faulty line.
pub fn draw_report<S: Source, O: Sink>(alloc: Global, source: &mut S, out: &mut O) -> Ended
    // What was written, and that no write failed unless the answer says so.
    ensures drawn { Ends O.written O.faults out.old out.new result }
    ensures read { was_read result ≡ false → Rose (S.faults source.old) (S.faults source.new) }
{
    match read_all(alloc, source) {
        Ok(text) => draw_text(alloc, text.as_slice(), out),
        Err(ReadError::Failed) => Ended::ReadFault,
        Err(ReadError::NoMemory) => Ended::NoMemory,
    }
}
