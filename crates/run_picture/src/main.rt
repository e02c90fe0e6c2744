// Draws a run: reads a report with its events from standard input, and writes its picture to standard output.
#![tactic(auto)]

use event_picture::{draw_report, status_of};
use outside::{StdSink, StdSource};
use std::io;
use std::process::ExitCode;

fn main(rt: HostRuntime) -> ExitCode {
    let alloc = rt.alloc();
    let mut source = StdSource::new(rt.reader());
    let mut sink = StdSink::new(io::writer(&rt));
    let ended = draw_report(alloc, &mut source, &mut sink);
    ExitCode::from(status_of(ended))
}
