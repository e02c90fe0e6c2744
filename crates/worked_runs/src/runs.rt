// The worked runs of one line.
use crate::images::images;
use crate::in_memory::{Failing, NEVER, RUN, Told, answer, run_in_memory, run_to_end, tells};
use call_table::{Bytes, End, Named, Names, NoMemory, PidState, Reply3};
use node_event::{Event, Way, What};
use outside::{Calls, MemImages, MemSink, MemSource, Source};
use shell_text::{Last, Run};
use std::alloc::Global;
use std::process::Abort;
use std::test::Fail;

/// A run over all images.
fn run(alloc: Global, words: &[&str], script: &[u8], failing: Failing) -> Result<Told, NoMemory> {
    run_in_memory(alloc, words, script, images(alloc)?, failing)
}

/// The status of a script's run, and its report or line.
const SCRIPTS: [(&[u8], u8, &[u8]); 18] = [
    (
        b"run hello",
        0,
        b"terminal 3\nhi\n\nprocess 1 exit 0\ndone\n",
    ),
    (
        b"run note\n",
        0,
        b"terminal 3\nhi\n\nprocess 1 exit 0\ndone\n",
    ),
    (
        b"run other\n",
        0,
        b"terminal 3\nhi\n\nprocess 1 exit 0\ndone\n",
    ),
    (b"# none\n", 0, b"terminal 0\n\ndone\n"),
    (
        b"run  hello",
        0,
        b"terminal 3\nhi\n\nprocess 1 exit 0\ndone\n",
    ),
    (
        b"\trun hello \r\n",
        0,
        b"terminal 3\nhi\n\nprocess 1 exit 0\ndone\n",
    ),
    (
        b"run hello\n\n# and no more\n",
        0,
        b"terminal 3\nhi\n\nprocess 1 exit 0\ndone\n",
    ),
    (
        b"# hello\n \nrun hello a word and another",
        0,
        b"terminal 3\nhi\n\nprocess 1 exit 0\ndone\n",
    ),
    (
        b"run hello\neof\n",
        0,
        b"terminal 3\nhi\n\nprocess 1 exit 0\ndone\n",
    ),
    (b"type run hello\n", 0, b"terminal 0\n\ndone\n"),
    (b"walk hello\n", 3, b"bad script 1 3\n"),
    (b"run cut", 4, b"bad image 1 1\n"),
    (b"run short", 4, b"bad image 1 8\n"),
    (b"# none\nrun none", 4, b"bad image 2 12\n"),
    (b"run bad", 0, b"terminal 0\n\nprocess 1 signal 4\ndone\n"),
    (b"run edge", 0, b"terminal 0\n\nprocess 1 signal 11\ndone\n"),
    (b"run jump1", 0, b"terminal 0\n\nprocess 1 exit 5\ndone\n"),
    (
        b"run jump2\n",
        0,
        b"terminal 0\n\nprocess 1 signal 11\ndone\n",
    ),
];

fn scripts_tell(
    rt: &impl Abort,
    alloc: Global,
    rows: &[(&[u8], u8, &[u8])],
) -> Result<(), NoMemory> {
    for row in rows {
        let told = run(alloc, &RUN, row.0, NEVER)?;
        tells(rt, &told, row.1, row.2);
    }
    Ok(())
}

#[test]
fn scripts(rt: HostRuntime) -> Result<(), Fail> {
    scripts_tell(&rt, rt.alloc(), &SCRIPTS)?;
    Ok(())
}

/// The run of a name of so many bytes, which no image has.
fn long_name_tells(
    rt: &impl Abort,
    alloc: Global,
    length: usize,
    status: u8,
    output: &[u8],
) -> Result<(), NoMemory> {
    let mut script = Bytes::from_slice(alloc, b"run ")?;
    for _i in 0..length {
        script.push(b'n')?;
    }
    let told = run(alloc, &RUN, script.as_slice(), NEVER)?;
    tells(rt, &told, status, output);
    Ok(())
}

#[test]
fn names(rt: HostRuntime) -> Result<(), Fail> {
    long_name_tells(&rt, rt.alloc(), 1000, 4, b"bad image 1 12\n")?;
    long_name_tells(&rt, rt.alloc(), 1020, 4, b"bad image 1 12\n")?;
    long_name_tells(&rt, rt.alloc(), 1021, 3, b"bad script 1 1\n")?;
    Ok(())
}

/// The run of an image of so many zeros.
fn zeros_tell(
    rt: &impl Abort,
    alloc: Global,
    length: usize,
    output: &[u8],
) -> Result<(), NoMemory> {
    let zeros = vec![in alloc; 0; length]?;
    let mut files = Names::new(alloc);
    files.push(Named {
        name: Bytes::from_slice(alloc, b"zeros")?,
        bytes: Bytes::from_vec(zeros),
    })?;
    let told = run_in_memory(alloc, &RUN, b"run zeros", files, NEVER)?;
    tells(rt, &told, 4, output);
    Ok(())
}

#[test]
fn the_longest_image(rt: HostRuntime) -> Result<(), Fail> {
    zeros_tell(&rt, rt.alloc(), 16_777_216, b"bad image 1 2\n")?;
    zeros_tell(&rt, rt.alloc(), 16_777_217, b"bad image 1 13\n")?;
    Ok(())
}

/// The report of hello.
const HELLO_REPORT: &[u8] = b"terminal 3\nhi\n\nprocess 1 exit 0\ndone\n";

/// Its report with the lines of its events.
const HELLO_EVENTS: &[u8] = b"terminal 3\nhi\n\nprocess 1 exit 0\ndone\nevents 9
1 0 command 1 1 - -\n2 0 steps 1 5\n3 0 sent 1 9\n4 0 served 1 did 9 3 - - 0 - -\n5 0 got 1 - 0 - -
6 0 steps 1 2\n7 0 sent 1 1\n8 0 served 1 did 1 0 - x0 0 - -\n9 0 got 1 - 1 - -\n";

/// The summary of the work of the seed 1.
const WORK_SUMMARY: &[u8] = b"processes 19\nexits 1831\nbytes 16\nfiles 3\nmoves 0\ndone\n";

/// Words, and the status and the bytes that a run of hello tells by them.
const WORDS: [(&[&str], u8, &[u8]); 27] = [
    (&[], 2, b"bad words\n"),
    (&["--nodes", "9", "run"], 2, b"bad words\n"),
    (&["--nodes", "0", "run"], 2, b"bad words\n"),
    (&["--nodes", "1"], 2, b"bad words\n"),
    (&["asm", "asm"], 2, b"bad words\n"),
    (&["assemble"], 2, b"bad words\n"),
    (&["--nodes", "1", "--nodes", "1", "run"], 2, b"bad words\n"),
    (&["--nodes", "1", "--serial=x", "run"], 2, b"bad words\n"),
    (&["--nodes", "--", "run"], 2, b"bad words\n"),
    (&["--help"], 2, b"bad words\n"),
    (&["--version"], 2, b"bad words\n"),
    (&["--nodes=1", "run"], 0, HELLO_REPORT),
    (&["--nodes", "01", "--", "run"], 0, HELLO_REPORT),
    (&["run", "--nodes", "1", "--"], 0, HELLO_REPORT),
    (&["--nodes", "1", "--serial", "run"], 0, HELLO_REPORT),
    (&["--nodes", "1", "--pages", "16", "run"], 0, HELLO_REPORT),
    (&["--nodes", "1", "--seed", "7", "run"], 0, HELLO_REPORT),
    (
        &["--nodes", "1", "--quantum", "16384", "run"],
        0,
        HELLO_REPORT,
    ),
    (&["--nodes", "1", "--events", "run"], 0, HELLO_EVENTS),
    (&["run"], 0, HELLO_REPORT),
    (&["run", "--"], 0, HELLO_REPORT),
    (&["--nodes", "2", "run"], 0, HELLO_REPORT),
    (&["--nodes", "1", "--quantum", "64", "run"], 0, HELLO_REPORT),
    (&["--nodes", "1", "--journal", "9", "run"], 0, HELLO_REPORT),
    (&["--nodes", "1", "gen"], 0, WORK_SUMMARY),
    (
        &["--nodes", "1", "--seed", "1", "--events", "gen"],
        0,
        WORK_SUMMARY,
    ),
    (&["--nodes", "1", "asm"], 11, b"bad source 1 2\n"),
];

fn words_tell(
    rt: &impl Abort,
    alloc: Global,
    rows: &[(&[&str], u8, &[u8])],
) -> Result<(), NoMemory> {
    for row in rows {
        let told = run(alloc, row.0, b"run hello\n", NEVER)?;
        tells(rt, &told, row.1, row.2);
    }
    Ok(())
}

#[test]
fn words(rt: HostRuntime) -> Result<(), Fail> {
    words_tell(&rt, rt.alloc(), &WORDS)?;
    Ok(())
}

/// The next bytes of a source, eight at most: how many there are.
fn next_bytes(source: &mut MemSource) -> usize {
    let mut bytes = [0; 8];
    source.read(&mut bytes).unwrap_or(0)
}

/// How many of the next eight bytes are left of an input of so many, after its run.
fn left_behind(alloc: Global, words: &[&str], length: usize) -> Result<usize, NoMemory> {
    let input = vec![in alloc; b'n'; length]?;
    let mut source = MemSource::new(Bytes::from_vec(input), Calls::new(alloc));
    let mut images = MemImages::new(Names::new(alloc), Calls::new(alloc));
    let mut sink = MemSink::new(alloc, Calls::new(alloc), 4096)?;
    answer(alloc, words, &mut source, &mut images, &mut sink)?;
    Ok(next_bytes(&mut source))
}

/// An input is read to the byte after its limit, and not at all where the words are bad.
#[test]
fn what_is_read(rt: HostRuntime) -> Result<(), Fail> {
    assert_eq!(rt; left_behind(rt.alloc(), &RUN, 65_540)?, 3);
    assert_eq!(rt; left_behind(rt.alloc(), &["asm"], 1_048_580)?, 3);
    assert_eq!(rt; left_behind(rt.alloc(), &["walk"], 5)?, 5);
    assert_eq!(rt; left_behind(rt.alloc(), &["gen"], 5)?, 5);
    Ok(())
}

/// The words, the input, which call of the source and which of the sink fails, the status, and what is written.
type Fault<'a> = (&'a [&'a str], &'a [u8], Failing, u8, &'a [u8]);

/// A report or a file that is not written whole, an input that is not read, and a line that is not written, which leaves the answer.
const FAULTS: [Fault<'static>; 9] = [
    (
        &["--nodes", "1", "run"],
        b"run hello",
        (0, 2),
        6,
        b"terminal 3\n",
    ),
    (
        &["--nodes", "1", "run"],
        b"run hello",
        (1, 0),
        5,
        b"read fault\n",
    ),
    (&["--nodes", "1", "run"], b"walk hello", (0, 1), 3, b""),
    (&["--nodes", "1", "run"], b"run none", (0, 1), 4, b""),
    (&["--nodes", "2", "run"], b"run hello", (0, 1), 6, b""),
    (&["walk"], b"run hello", (0, 1), 2, b""),
    (&["asm"], b"nop", (1, 0), 5, b"read fault\n"),
    (&["asm"], b"nop", (0, 1), 6, b""),
    (&["asm"], b"foo", (0, 1), 11, b""),
];

fn faults_tell(rt: &impl Abort, alloc: Global, rows: &[Fault]) -> Result<(), NoMemory> {
    for row in rows {
        let told = run(alloc, row.0, row.1, row.2)?;
        tells(rt, &told, row.3, row.4);
    }
    Ok(())
}

#[test]
fn failing_outside(rt: HostRuntime) -> Result<(), Fail> {
    faults_tell(&rt, rt.alloc(), &FAULTS)?;
    Ok(())
}

/// What hello's two calls answer.
pub const REPLIES: [Reply3; 2] = [
    Reply3 {
        pid: 1,
        number: 9,
        value: 3,
    },
    Reply3 {
        pid: 1,
        number: 1,
        value: 0,
    },
];

fn at(stamp: u64, what: What) -> Event {
    Event {
        stamp,
        node: 0,
        what,
    }
}

/// The events of hello's run, from the first on.
fn events_of_hello() -> [Event; 9] {
    let launch = What::Command {
        line: 1,
        launched: Some(1),
        unsent: None,
        poked: None,
    };
    [
        at(1, launch),
        at(2, What::Steps { pid: 1, k: 5 }),
        at(3, What::Sent { pid: 1, number: 9 }),
        at(4, served(9, 3, None)),
        at(5, got(false)),
        at(6, What::Steps { pid: 1, k: 2 }),
        at(7, What::Sent { pid: 1, number: 1 }),
        at(8, served(1, 0, Some(End::Exit(0)))),
        at(9, got(true)),
    ]
}

fn served(number: u32, value: i32, end: Option<End>) -> What {
    What::Served {
        pid: 1,
        way: Way::Did,
        number: Some(number),
        value: Some(value),
        taken: None,
        end,
        more: false,
        poked: None,
        poked_too: None,
    }
}

fn got(ended: bool) -> What {
    What::Got {
        pid: 1,
        child: None,
        ended,
        kept: None,
        to: None,
    }
}

/// The run is that of hello.
fn is_hello(rt: &impl Abort, run: &Run) {
    assert_eq!(rt; run.last, Last::Done);
    assert_eq!(rt; run.events.as_slice(), events_of_hello().as_slice());
    assert_eq!(rt;
        run.statuses.as_slice(),
        [(1, PidState::Exit(0))].as_slice()
    );
    assert_eq!(rt; run.terminal.as_slice(), b"hi\n".as_slice());
    assert_eq!(rt; run.replies.as_slice(), REPLIES.as_slice());
    assert_eq!(rt; run.files.len(), 0);
}

/// Runs hello, and looks at its run.
fn runs_hello(
    rt: &impl Abort,
    alloc: Global,
    source: &mut MemSource,
    images: &mut MemImages,
    sink: &mut MemSink,
) -> Result<(), NoMemory> {
    let ended = run_to_end(alloc, &RUN, source, images, sink)?;
    match &ended.run {
        Some(run) => is_hello(rt, run),
        None => assert!(rt; false),
    }
    Ok(())
}

#[test]
fn hello_makes_nine_events(rt: HostRuntime) -> Result<(), Fail> {
    let alloc = rt.alloc();
    let mut images = MemImages::new(images(alloc)?, Calls::new(alloc));
    let script = Bytes::from_slice(alloc, b"run hello\n")?;
    let mut source = MemSource::new(script, Calls::new(alloc));
    let mut sink = MemSink::new(alloc, Calls::new(alloc), 4096)?;
    runs_hello(&rt, alloc, &mut source, &mut images, &mut sink)?;
    Ok(())
}
