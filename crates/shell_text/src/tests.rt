use super::*;
use call_table::{Bytes, Named, NamedFiles, NoMemory, PidState, Replies, Statuses};
use node_event::{Event, Events, Kept, Order, Refusal, Script, ScriptLine, Unsent, What};
use outside::{Calls, MemSink};
use std::alloc::Global;
use std::test::Fail;

/// The words behind `run`.
fn run_text(alloc: Global, words: &call_table::Words) -> Result<String, Fail> {
    let mut text = String::from_str(alloc, "run")?;
    for word in words.as_slice() {
        text.push_str(" ")?;
        text.push_str(word.as_str())?;
    }
    Ok(text)
}

/// An order as text.
fn order_text(alloc: Global, order: &Order) -> Result<String, Fail> {
    Ok(match order {
        Order::Run { words } => run_text(alloc, words)?,
        Order::Kill { pid, signal } => format!(in alloc; "kill {pid} {signal}")?,
        Order::Move { pid, to } => format!(in alloc; "move {pid} {to}")?,
        Order::Feed { text } => {
            let text = str::from_utf8(text.as_slice()).unwrap_or("?");
            format!(in alloc; "type [{text}]")?
        }
        Order::Eof => String::from_str(alloc, "eof")?,
        Order::Wait { pid } => format!(in alloc; "wait {pid}")?,
        Order::After { pid, count } => format!(in alloc; "after {pid} {count}")?,
        Order::Held { pid } => format!(in alloc; "held {pid}")?,
        Order::Slots { count } => format!(in alloc; "slots {count}")?,
    })
}

/// A script's orders, each behind the number of its line.
fn script_text(alloc: Global, lines: &[ScriptLine]) -> Result<String, Fail> {
    let mut text = String::new(alloc);
    for ScriptLine { line, order } in lines {
        let order = order_text(alloc, order)?;
        text.push_str(format!(in alloc; "{line} {order};")?.as_str())?;
    }
    Ok(text)
}

/// What comes of bytes on four nodes: the orders, or the line and the kind of the first fault.
fn outcome(alloc: Global, bytes: &[u8]) -> Result<String, Fail> {
    match read_script(alloc, bytes, 4) {
        Ok(script) => script_text(alloc, script.as_slice()),
        Err(ScriptError::Fault { line, kind }) => Ok(format!(in alloc; "fault {line} {kind}")?),
        Err(ScriptError::NoMemory) => Ok(String::from_str(alloc, "no memory")?),
    }
}

/// Scripts and what comes of them.
const SCRIPTS: [(&[u8], &str); 60] = [
    (b"", ""),
    (b"\n", ""),
    (b"run hello", "1 run hello;"),
    (b"run hello\n", "1 run hello;"),
    (b"run hello\r\n", "1 run hello;"),
    (b"run hello\r", "fault 1 2"),
    (b"run hello\r\r\n", "fault 1 2"),
    (b"run\rhello\n", "fault 1 2"),
    (b"\r\neof\n", "2 eof;"),
    (b"\t run  a\tb #c \n", "1 run a b #c;"),
    (b"# run\n \t\n#\neof\n", "4 eof;"),
    (b"  #eof\nwait 1", "2 wait 1;"),
    (b"type", "1 type [\n];"),
    (b"type ", "1 type [\n];"),
    (b"type x", "1 type [x\n];"),
    (b" type  x  ", "1 type [ x  \n];"),
    (b"type\tx y", "1 type [x y\n];"),
    (b"type #\n#", "1 type [#\n];"),
    (b"kill 1 9\nmove 2 3", "1 kill 1 9;2 move 2 3;"),
    (b"eof\nwait 32767\nheld 1", "1 eof;2 wait 32767;3 held 1;"),
    (
        b"after 7 1000000\nslots 64\n",
        "1 after 7 1000000;2 slots 64;",
    ),
    (b"wait 0000000007", "1 wait 7;"),
    (b"wait 00000000007", "fault 1 4"),
    (b"move 1 0000000003", "1 move 1 3;"),
    (b"move 1 00000000003", "fault 1 4"),
    (b"kill 1 0000000009", "1 kill 1 9;"),
    (b"move 1 9999999999", "fault 1 5"),
    (b"kill 1 9999999999", "fault 1 6"),
    (b"jump 1", "fault 1 3"),
    (b"Run a", "fault 1 3"),
    (b"runs a", "fault 1 3"),
    (b"wait 0", "fault 1 4"),
    (b"wait 32768", "fault 1 4"),
    (b"wait +1", "fault 1 4"),
    (b"wait 1x", "fault 1 4"),
    (b"after 1 0", "fault 1 4"),
    (b"after 1 1000001", "fault 1 4"),
    (b"slots 0", "fault 1 4"),
    (b"slots 65", "fault 1 4"),
    (b"move 1 x", "fault 1 4"),
    (b"kill 1 -9", "fault 1 4"),
    (b"move 1 4", "fault 1 5"),
    (b"move 1 9", "fault 1 5"),
    (b"kill 1 3", "fault 1 6"),
    (b"kill 1 0", "fault 1 6"),
    (b"run", "fault 1 7"),
    (b"move 1", "fault 1 7"),
    (b"kill", "fault 1 7"),
    (b"slots", "fault 1 7"),
    (b"eof now", "fault 1 8"),
    (b"wait 1 2", "fault 1 8"),
    (b"move 1 1 1", "fault 1 8"),
    (b"move 0 9 1", "fault 1 4"),
    (b"move 1 9 1", "fault 1 5"),
    (b"\x01", "fault 1 2"),
    (b"jump \x7f", "fault 1 2"),
    (b"# \xff", "fault 1 2"),
    (b"eof\n\njump\nwait 0", "fault 3 3"),
    (b"eof\nwait 1\nmove 1", "fault 3 7"),
    (b"held 1\n#\nslots 1\nkill 1 3\n", "fault 4 6"),
];

#[test]
fn lines_and_faults(rt: HostRuntime) -> Result<(), Fail> {
    let alloc = rt.alloc();
    for (bytes, want) in SCRIPTS.iter() {
        let got = outcome(alloc, bytes)?;
        assert!(rt; got.as_str() == *want, "{want} is {got}");
    }
    Ok(())
}

/// A script: a front, a piece so many times, and a back.
fn script_of(
    alloc: Global,
    (front, piece, count, back): (&[u8], &[u8], usize, &[u8]),
) -> Result<Vec<u8>, Fail> {
    let mut bytes = front.to_vec(alloc)?;
    for _ in 0..count {
        bytes.extend_from_slice(piece)?;
    }
    bytes.extend_from_slice(back)?;
    Ok(bytes)
}

/// Long scripts, and how what comes of them begins.
const LONG: [((&[u8], &[u8], usize, &[u8]), &str); 14] = [
    ((b"", b"#", 1024, b"\neof"), "2 eof;"),
    ((b"", b"#", 1024, b"\r\neof"), "2 eof;"),
    ((b"", b"#", 1025, b"\neof"), "fault 1 1"),
    ((b"eof\n", b"\x01", 1025, b""), "fault 2 1"),
    ((b"", b"\n", 999, b"eof"), "1000 eof;"),
    ((b"", b"\n", 1000, b""), ""),
    ((b"", b"\n", 1000, b"\n"), "fault 1001 1"),
    ((b"", b"\n", 1000, b"#"), "fault 1001 1"),
    ((b"", b"run a\n", 256, b"eof 1"), "fault 257 8"),
    ((b"", b"run a\n", 256, b"run a"), "fault 257 1"),
    ((b"", b"run a\n", 256, b"#\nrun \x01"), "fault 258 1"),
    ((b"", b"run a\n", 255, b"run\n"), "fault 256 7"),
    (
        (
            b"",
            b"##############################################################\n",
            1000,
            b"",
        ),
        "",
    ),
    ((b"\x01", b"a", 65_536, b""), "fault 0 1"),
];

#[test]
fn limits(rt: HostRuntime) -> Result<(), Fail> {
    let alloc = rt.alloc();
    for (parts, want) in LONG.iter() {
        let script = script_of(alloc, *parts)?;
        let got = outcome(alloc, script.as_slice())?;
        assert!(rt; got.as_str() == *want, "{want} is {got}");
    }
    let whole = script_of(alloc, (b"\x01", b"a", 65_535, b""))?;
    let got = outcome(alloc, whole.as_slice())?;
    assert!(rt; got.as_str() == "fault 1 1");
    Ok(())
}

/// How many orders a script has, or its fault.
fn count_on(alloc: Global, bytes: &[u8], nodes: u8) -> Result<usize, ScriptError> {
    let script: Script = read_script(alloc, bytes, nodes)?;
    Ok(script.len())
}

#[test]
fn nodes(rt: HostRuntime) {
    let alloc = rt.alloc();
    for (bytes, nodes, is_fine) in [
        (b"move 1 0", 1, true),
        (b"move 1 1", 1, false),
        (b"move 1 7", 8, true),
        (b"move 1 8", 8, false),
    ] {
        assert!(rt; count_on(alloc, bytes.as_slice(), nodes).is_ok() == is_fine);
    }
}

const fn command(line: u32, launched: Option<u32>, unsent: Option<Unsent>) -> What {
    What::Command {
        line,
        launched,
        unsent,
        poked: None,
    }
}

const fn refused(pid: u32, to: u8, why: Refusal, line: u32) -> What {
    What::Refused { pid, to, why, line }
}

/// What happened: an event of each kind that prints an outcome, and one move without an outcome.
fn happened() -> [What; 11] {
    [
        command(1, Some(1), None),
        What::Land { pid: 1, source: 0 },
        What::Stay {
            pid: 2,
            to: 1,
            need: 17,
            free: 16,
        },
        refused(1, 1, Refusal::Moving, 3),
        refused(1, 0, Refusal::There, 4),
        refused(3, 1, Refusal::Ended, 9),
        What::Got {
            pid: 1,
            child: None,
            ended: true,
            kept: Some(Kept::Ended),
            to: Some(2),
        },
        command(5, None, Some(Unsent::Ended)),
        command(6, None, Some(Unsent::Never)),
        command(7, None, None),
        What::Keep {
            pid: 2,
            to: 1,
            line: 7,
        },
    ]
}

const SCRIPT: &[u8] = b"run a\n#\nmove 1 1\nmove 1 0\nmove 1 3\nmove 7 1\nmove 2 1\nmove 3 1";

const REPORT: &[u8] =
    b"terminal 3\nhi\n\nprocess 1 exit 0\nprocess 2 blocked 8\nprocess 3 signal 11\nprocess 4 live\n\
file f 2\nxy\nmove 1 0 1\nrefused 2 1 pages 17 16\nrefused 1 1 moving\nstay 1 0\nrefused 3 1 ended\nrefused 1 2 ended\n\
refused 1 3 ended\nnone 7\nopen 2 1\nfull 0\nevents 11\n1 1 command 1 1 - -\n2 1 land 1 0\n3 1 stay 2 1 17 16\n\
4 1 refused 1 1 moving 3\n5 1 refused 1 0 there 4\n6 1 refused 3 1 ended 9\n7 1 got 1 - 1 ended 2\n\
8 1 command 5 - ended -\n9 1 command 6 - none -\n10 1 command 7 - - -\n11 1 keep 2 1 7\n";

fn events_of(alloc: Global) -> Result<Events, NoMemory> {
    let mut events = Events::new(alloc);
    for (at, what) in happened().iter().enumerate() {
        events.push(Event {
            stamp: at as u64 + 1,
            node: 1,
            what: *what,
        })?;
    }
    Ok(events)
}

fn run_of(alloc: Global) -> Result<Run, NoMemory> {
    let mut statuses = Statuses::new(alloc);
    for status in [
        (1, PidState::Exit(0)),
        (2, PidState::Blocked(8)),
        (3, PidState::Signal(11)),
        (4, PidState::Live),
    ] {
        statuses.push(status)?;
    }
    let mut files = NamedFiles::new(alloc);
    files.push(Named {
        name: Bytes::from_slice(alloc, b"f")?,
        bytes: Bytes::from_slice(alloc, b"xy")?,
    })?;
    Ok(Run {
        events: events_of(alloc)?,
        statuses,
        terminal: Bytes::from_slice(alloc, b"hi\n")?,
        files,
        replies: Replies::new(alloc),
        last: Last::Full(0),
    })
}

/// What a sink gets that fails at a call, or at none, and whether all was printed.
fn printed(alloc: Global, fails: u64) -> Result<(MemSink, bool), NoMemory> {
    let run = run_of(alloc)?;
    let Ok(script) = read_script(alloc, SCRIPT, 4) else {
        return Err(NoMemory);
    };
    let mut calls = Calls::new(alloc);
    calls.push(fails)?;
    let mut out = MemSink::new(alloc, calls, 4096)?;
    let is_done = print_report(alloc, &run, &script, true, &mut out).is_ok();
    Ok((out, is_done))
}

#[test]
fn each_kind_of_line(rt: HostRuntime) -> Result<(), Fail> {
    let (out, is_done) = printed(rt.alloc(), 0)?;
    assert!(rt; is_done);
    assert!(rt; out.bytes() == REPORT);
    Ok(())
}

/// A call that fails, and how many bytes stand before it.
const FRONTS: [(u64, usize); 6] = [(1, 0), (2, 11), (3, 14), (4, 15), (9, 96), (11, 99)];

#[test]
fn a_call_for_each_write(rt: HostRuntime) -> Result<(), Fail> {
    for (fails, count) in FRONTS.iter() {
        let (out, is_done) = printed(rt.alloc(), *fails)?;
        assert!(rt; !is_done);
        assert!(rt; out.bytes() == &REPORT[..*count], "at call {fails}");
    }
    Ok(())
}

const SUMMARY: &[u8] = b"processes 6\nexits 300\nbytes 3\nfiles 1\nmoves 1\nfull 0\n";

/// The summary of the run with two processes more, on a sink that fails at a call, or at none, and whether all was printed.
fn summed(alloc: Global, fails: u64) -> Result<(MemSink, bool), NoMemory> {
    let mut run = run_of(alloc)?;
    run.statuses.push((5, PidState::Exit(200)))?;
    run.statuses.push((6, PidState::Exit(100)))?;
    let mut calls = Calls::new(alloc);
    calls.push(fails)?;
    let mut out = MemSink::new(alloc, calls, 4096)?;
    let is_done = print_summary(alloc, &run, &mut out).is_ok();
    Ok((out, is_done))
}

#[test]
fn summary(rt: HostRuntime) -> Result<(), Fail> {
    for (fails, count) in [(0, 53), (1, 0), (3, 22)] {
        let (out, is_done) = summed(rt.alloc(), fails)?;
        assert!(rt; is_done == (fails == 0));
        assert!(rt; out.bytes() == &SUMMARY[..count], "at call {fails}");
    }
    Ok(())
}
