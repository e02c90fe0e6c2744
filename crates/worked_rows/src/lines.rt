// The lines of events, printed and read; a journal.
use call_table::{End, NoMemory};
use node_event::{Event, Journal, Kept, Refusal, Unsent, Way, What, print_event, read_event};
use std::alloc::Global;
use std::process::Abort;
use std::test::Fail;

/// A line, and the stamp, the node and the rest of its event.
type Line = (&'static str, u64, u8, What);

/// Lines of events: those of a run of one program that writes three bytes
/// and exits, then one of each other event, and one with each field at the end of its range.
const LINES: [Line; 29] = [
    (
        "1 0 command 1 1 - -",
        1,
        0,
        What::Command {
            line: 1,
            launched: Some(1),
            unsent: None,
            poked: None,
        },
    ),
    ("2 0 steps 1 5", 2, 0, What::Steps { pid: 1, k: 5 }),
    ("3 0 sent 1 9", 3, 0, What::Sent { pid: 1, number: 9 }),
    (
        "4 0 served 1 did 9 3 - - 0 - -",
        4,
        0,
        What::Served {
            pid: 1,
            way: Way::Did,
            number: Some(9),
            value: Some(3),
            taken: None,
            end: None,
            more: false,
            poked: None,
            poked_too: None,
        },
    ),
    (
        "5 0 got 1 - 0 - -",
        5,
        0,
        What::Got {
            pid: 1,
            child: None,
            ended: false,
            kept: None,
            to: None,
        },
    ),
    ("6 0 steps 1 2", 6, 0, What::Steps { pid: 1, k: 2 }),
    ("7 0 sent 1 1", 7, 0, What::Sent { pid: 1, number: 1 }),
    (
        "8 0 served 1 did 1 0 - x0 0 - -",
        8,
        0,
        What::Served {
            pid: 1,
            way: Way::Did,
            number: Some(1),
            value: Some(0),
            taken: None,
            end: Some(End::Exit(0)),
            more: false,
            poked: None,
            poked_too: None,
        },
    ),
    (
        "9 0 got 1 - 1 - -",
        9,
        0,
        What::Got {
            pid: 1,
            child: None,
            ended: true,
            kept: None,
            to: None,
        },
    ),
    ("10 7 heed 2", 10, 7, What::Heed { pid: 2 }),
    ("10 7 held 2 5", 10, 7, What::Held { pid: 2, number: 5 }),
    ("10 7 poked 2 1", 10, 7, What::Poked { pid: 2, used: true }),
    (
        "10 7 begin 2 3 4",
        10,
        7,
        What::Begin {
            pid: 2,
            to: 3,
            line: 4,
        },
    ),
    (
        "10 7 keep 2 3 4",
        10,
        7,
        What::Keep {
            pid: 2,
            to: 3,
            line: 4,
        },
    ),
    (
        "10 7 missed 2 3 4",
        10,
        7,
        What::Missed {
            pid: 2,
            to: 3,
            line: 4,
        },
    ),
    (
        "10 7 again 2 3 1 4",
        10,
        7,
        What::Again {
            pid: 2,
            to: 3,
            place: 1,
            line: 4,
        },
    ),
    (
        "10 7 allow 2 1 16",
        10,
        7,
        What::Allow {
            pid: 2,
            from: 1,
            need: 16,
        },
    ),
    (
        "10 7 deny 2 1 16 8",
        10,
        7,
        What::Deny {
            pid: 2,
            from: 1,
            need: 16,
            free: 8,
        },
    ),
    ("10 7 depart 2 3", 10, 7, What::Depart { pid: 2, to: 3 }),
    (
        "10 7 stay 2 3 16 8",
        10,
        7,
        What::Stay {
            pid: 2,
            to: 3,
            need: 16,
            free: 8,
        },
    ),
    ("10 7 land 2 1", 10, 7, What::Land { pid: 2, source: 1 }),
    (
        "10 7 told 2 3 1 6 - 7",
        10,
        7,
        What::Told {
            pid: 2,
            at: 3,
            source: 1,
            hops: 6,
            line: None,
            poked: Some(7),
        },
    ),
    (
        "10 7 refused 2 3 there 4",
        10,
        7,
        What::Refused {
            pid: 2,
            to: 3,
            why: Refusal::There,
            line: 4,
        },
    ),
    ("10 7 closed 4", 10, 7, What::Closed { line: 4 }),
    (
        "10 7 half 1 - -",
        10,
        7,
        What::Half {
            other: 1,
            pid: None,
            to: None,
        },
    ),
    (
        "10 7 heard 1 2 3",
        10,
        7,
        What::Heard {
            other: 1,
            pid: Some(2),
            to: Some(3),
        },
    ),
    (
        "10 7 got 2 9 0 begins 3",
        10,
        7,
        What::Got {
            pid: 2,
            child: Some(9),
            ended: false,
            kept: Some(Kept::Begins),
            to: Some(3),
        },
    ),
    (
        "10 7 command 4 - none 7",
        10,
        7,
        What::Command {
            line: 4,
            launched: None,
            unsent: Some(Unsent::Never),
            poked: Some(7),
        },
    ),
    (
        "18446744073709551615 255 served 4294967295 paused 0 -2147483648 24 s11 1 5 6",
        u64::MAX,
        255,
        What::Served {
            pid: u32::MAX,
            way: Way::Paused,
            number: Some(0),
            value: Some(i32::MIN),
            taken: Some(24),
            end: Some(End::Signal(11)),
            more: true,
            poked: Some(5),
            poked_too: Some(6),
        },
    ),
];

/// Whether the line is printed for the event.
fn is_printed(alloc: Global, event: &Event, line: &str) -> Result<bool, NoMemory> {
    Ok(print_event(alloc, event)?.as_slice() == line.as_bytes())
}

fn are_lines(rt: &impl Abort, alloc: Global, rows: &[Line]) -> Result<(), NoMemory> {
    for (line, stamp, node, what) in rows {
        let event = Event {
            stamp: *stamp,
            node: *node,
            what: *what,
        };
        assert!(rt; is_printed(alloc, &event, line)?, "{line}");
        assert!(rt; read_event(line.as_bytes()) == Some(event), "{line}");
    }
    Ok(())
}

#[test]
fn lines(rt: HostRuntime) -> Result<(), Fail> {
    are_lines(&rt, rt.alloc(), &LINES)?;
    Ok(())
}

/// Lines that are no event's.
const OTHER_LINES: [&str; 29] = [
    "",
    "1",
    "1 0",
    "1 0 steps 1",
    "1 0 steps 1 5 6",
    "1 0 steps 1 5 ",
    " 1 0 steps 1 5",
    "1  0 steps 1 5",
    "1 0 steps  1 5",
    "01 0 steps 1 5",
    "1 0 steps 1 05",
    "1 0 steps 1 +5",
    "1 0 steps 1 -",
    "1 0 steps 1 5\n",
    "1 0 Steps 1 5",
    "1 0 strange",
    "1 256 steps 1 5",
    "1 0 steps 4294967296 5",
    "18446744073709551616 0 steps 1 5",
    "1 0 depart 1 256",
    "1 0 poked 1 2",
    "1 0 served 1 did 9 -0 - - 0 - -",
    "1 0 served 1 did 9 2147483648 - - 0 - -",
    "1 0 served 1 did 9 -2147483649 - - 0 - -",
    "1 0 served 1 done 9 3 - - 0 - -",
    "1 0 served 1 did 9 3 - y0 0 - -",
    "1 0 served 1 did 9 3 - x256 0 - -",
    "1 0 got 1 - 0 none -",
    "1 0 refused 1 2 gone 3",
];

fn are_other_lines(rt: &impl Abort, lines: &[&str]) {
    for line in lines {
        assert!(rt; read_event(line.as_bytes()).is_none(), "{line}");
    }
}

#[test]
fn other_lines(rt: HostRuntime) {
    are_other_lines(&rt, &OTHER_LINES);
}

/// A journal for two events.
#[test]
fn journal_fills(rt: HostRuntime) -> Result<(), Fail> {
    let event = Event {
        stamp: 1,
        node: 0,
        what: What::Strange,
    };
    let mut journal = Journal::new(rt.alloc(), 2)?;
    let mut took = [false; 3];
    for place in &mut took {
        assert_eq!(rt; journal.is_full(), journal.len() == 2);
        *place = journal.push(event);
    }
    assert_eq!(rt; took, [true, true, false]);
    assert_eq!(rt; journal.as_slice(), [event, event].as_slice());
    assert_eq!(rt; journal.into_events().len(), 2);
    Ok(())
}
