// Faults of scripts, and refused images, each at its line.
use crate::images::images;
use crate::in_memory::{NEVER, assembled, named, run_in_memory, tells};
use call_table::{Bytes, Names, NoMemory};
use std::alloc::Global;
use std::process::Abort;
use std::test::Fail;

/// The words of a run on four nodes.
const FOUR: [&str; 1] = ["run"];

/// Scripts for four nodes, and the line of the answer, or the report of one without a fault.
const SCRIPTS: [(&[u8], u8, &[u8]); 40] = [
    (b"jump 1", 3, b"bad script 1 3\n"),
    (b"RUN hello", 3, b"bad script 1 3\n"),
    (b"wait 0", 3, b"bad script 1 4\n"),
    (b"wait 32768", 3, b"bad script 1 4\n"),
    (b"wait 00000000001", 3, b"bad script 1 4\n"),
    (b"wait -1", 3, b"bad script 1 4\n"),
    (b"after 1 0", 3, b"bad script 1 4\n"),
    (b"after 1 1000001", 3, b"bad script 1 4\n"),
    (b"slots 65", 3, b"bad script 1 4\n"),
    (b"move 1 x", 3, b"bad script 1 4\n"),
    (b"kill 1 0x9", 3, b"bad script 1 4\n"),
    (b"move 1 9", 3, b"bad script 1 5\n"),
    (b"move 1 4", 3, b"bad script 1 5\n"),
    (b"kill 1 3", 3, b"bad script 1 6\n"),
    (b"run", 3, b"bad script 1 7\n"),
    (b"move 1", 3, b"bad script 1 7\n"),
    (b"slots", 3, b"bad script 1 7\n"),
    (b"eof now", 3, b"bad script 1 8\n"),
    (b"held 1 2", 3, b"bad script 1 8\n"),
    (b"\x01", 3, b"bad script 1 2\n"),
    (b"# \x7F", 3, b"bad script 1 2\n"),
    (b"eof\r", 3, b"bad script 1 2\n"),
    (b"run\rhello\n", 3, b"bad script 1 2\n"),
    (b"eof\r\r\n", 3, b"bad script 1 2\n"),
    (b"kill 0 3 x", 3, b"bad script 1 4\n"),
    (b"move 1 9 x", 3, b"bad script 1 5\n"),
    (b"jump\x01", 3, b"bad script 1 2\n"),
    (
        b"# one\n\nrun hello\nwait 1\nfoo\nbar\n",
        3,
        b"bad script 5 3\n",
    ),
    (b"run none\nfoo", 3, b"bad script 2 3\n"),
    (b"run none\nrun cut\n", 4, b"bad image 1 12\n"),
    (
        b"run hello\n# two\nrun cut\nrun none\n",
        4,
        b"bad image 3 1\n",
    ),
    (b"eof\nrun short a b\nrun cut", 4, b"bad image 2 8\n"),
    (b"", 0, b"terminal 0\n\ndone\n"),
    (b"eof\r\n", 0, b"terminal 0\n\ndone\n"),
    (b"wait 0000000001", 1, b"terminal 0\n\nstuck\n"),
    (
        b"move 1 3\nmove 32767 0003",
        0,
        b"terminal 0\n\nnone 1\nnone 32767\ndone\n",
    ),
    (b"type\ntype \ntype  a b\t# c\n", 0, b"terminal 0\n\ndone\n"),
    (
        b"kill 1 9\nafter 1 1000000\nheld 1\nslots 64\n",
        1,
        b"terminal 0\n\nstuck\n",
    ),
    (
        b"run hello\nrun edge a b c\n",
        0,
        b"terminal 3\nhi\n\nprocess 1 exit 0\nprocess 2 signal 11\ndone\n",
    ),
    (
        b"\trun \thello\n",
        0,
        b"terminal 3\nhi\n\nprocess 1 exit 0\ndone\n",
    ),
];

fn script_tells(
    rt: &impl Abort,
    alloc: Global,
    script: &[u8],
    status: u8,
    output: &[u8],
) -> Result<(), NoMemory> {
    let told = run_in_memory(alloc, &FOUR, script, images(alloc)?, NEVER)?;
    tells(rt, &told, status, output);
    Ok(())
}

fn scripts_tell(
    rt: &impl Abort,
    alloc: Global,
    rows: &[(&[u8], u8, &[u8])],
) -> Result<(), NoMemory> {
    for row in rows {
        script_tells(rt, alloc, row.0, row.1, row.2)?;
    }
    Ok(())
}

#[test]
fn faults_and_refusals(rt: HostRuntime) -> Result<(), Fail> {
    scripts_tell(&rt, rt.alloc(), &SCRIPTS)?;
    Ok(())
}

/// So many times the same bytes, and others behind them.
fn repeated(alloc: Global, piece: &[u8], count: u32, last: &[u8]) -> Result<Bytes, NoMemory> {
    let mut script = Bytes::new(alloc);
    for _i in 0..count {
        script.push_slice(piece)?;
    }
    script.push_slice(last)?;
    Ok(script)
}

/// A piece, how often it stands, what stands behind it, the status and the line.
type Long<'a> = (&'a [u8], u32, &'a [u8], u8, &'a [u8]);

/// The limits: 65,536 bytes, 1,000 lines, 1,024 bytes a line and 256 `run` lines.
const LIMITS: [Long<'static>; 12] = [
    (b"#.......\n", 7281, b"######\n", 3, b"bad script 1001 1\n"),
    (b"#.......\n", 7281, b"######\n#", 3, b"bad script 0 1\n"),
    (b"\n", 999, b"eof", 0, b"terminal 0\n\ndone\n"),
    (b"\n", 1000, b"", 0, b"terminal 0\n\ndone\n"),
    (b"\n", 1000, b"#", 3, b"bad script 1001 1\n"),
    (b"#", 1024, b"\r\neof", 0, b"terminal 0\n\ndone\n"),
    (b"#", 1025, b"\neof", 3, b"bad script 1 1\n"),
    (b"\x01", 1025, b"", 3, b"bad script 1 1\n"),
    (b"run hello\n", 256, b"move 1 4", 3, b"bad script 257 5\n"),
    (b"run hello\n", 256, b"run", 3, b"bad script 257 1\n"),
    (b"run none\n", 256, b"run none", 3, b"bad script 257 1\n"),
    (b"run hello\n", 255, b"run none", 4, b"bad image 256 12\n"),
];

fn limits_tell(rt: &impl Abort, alloc: Global, rows: &[Long]) -> Result<(), NoMemory> {
    for row in rows {
        let script = repeated(alloc, row.0, row.1, row.2)?;
        script_tells(rt, alloc, script.as_slice(), row.3, row.4)?;
    }
    Ok(())
}

#[test]
fn limits(rt: HostRuntime) -> Result<(), Fail> {
    limits_tell(&rt, rt.alloc(), &LIMITS)?;
    Ok(())
}

/// The report of a program that exits with the number of its words.
fn words_tell(
    rt: &impl Abort,
    alloc: Global,
    script: &[u8],
    output: &[u8],
) -> Result<(), NoMemory> {
    let file = assembled(alloc, b"sys 1\n", NEVER)?;
    let mut files = Names::new(alloc);
    files.push(named(alloc, b"count", file.output.as_slice())?)?;
    let told = run_in_memory(alloc, &["--nodes", "1", "run"], script, files, NEVER)?;
    tells(rt, &told, 0, output);
    Ok(())
}

#[test]
fn start_words(rt: HostRuntime) -> Result<(), Fail> {
    let alloc = rt.alloc();
    words_tell(
        &rt,
        alloc,
        b"run count",
        b"terminal 0\n\nprocess 1 exit 1\ndone\n",
    )?;
    words_tell(
        &rt,
        alloc,
        b"run count a  bb\tccc\n",
        b"terminal 0\n\nprocess 1 exit 4\ndone\n",
    )?;
    Ok(())
}
