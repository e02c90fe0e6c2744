use super::*;
use call_table::{Bytes, NoMemory};
use outside::{Calls, MemSink, MemSource};
use std::alloc::Global;
use std::test::Fail;

/// Reports, and the lines that they are refused at.
const FAULTY: [(&[u8], u32); 16] = [
    (b"", 1),
    (b"terminal 0", 1),
    (b"terminal 0\n", 2),
    (b"terminal 0\n\n", 3),
    (b"terminal 3\nhi\n\ndone\n", 5),
    (b"terminal 4\nhi\n\ndone\nevents 0\n", 4),
    (b"terminal x\n\ndone\nevents 0\n", 1),
    (b"terminal 0\n\nprocess 1 exit 0\nhello\n", 4),
    (b"terminal 0\n\nfile f x\n", 3),
    (b"terminal 0\n\nfile f 4\na\nb\ndone\n", 6),
    (b"terminal 0\n\ndone\nevents x\n", 4),
    (b"terminal 0\n\ndone\nevents 2\n1 0 steps 1 5\n", 6),
    (b"terminal 0\n\ndone\nevents 1\n1 0 steps 1 05\n", 5),
    (b"terminal 0\n\ndone\nevents 0\n1 0 steps 1 5\n", 5),
    (
        b"terminal 0\n\ndone\nevents 2\n2 0 steps 1 5\n1 0 steps 1 5\n",
        6,
    ),
    (b"terminal 0\n\ndone\nevents 1\n1 8 steps 1 5\n", 5),
];

/// Reports that are drawn, and how many moves, lanes and signs their pictures have.
const DRAWN: [(&[u8], [usize; 3]); 5] = [
    (b"terminal 0\n\ndone\nevents 0\n", [0, 1, 0]),
    (
        b"terminal 9\nevents 1\n\nfile f 4\na\nb\n\ndone\nevents 1\n1 0 steps 1 5\n",
        [0, 1, 0],
    ),
    (
        b"terminal 0\n\nmove 1 0 2\ndone\nevents 2\n5 0 depart 1 2\n6 2 land 1 0\n",
        [1, 3, 0],
    ),
    (b"terminal 0\n\ndone\nevents 1\n1 1 land 1 0\n", [1, 2, 0]),
    (
        b"terminal 0\n\ndone\nevents 2\n1 0 poked 1 1\n2 0 refused 1 7 moving 3\n",
        [0, 8, 2],
    ),
];

fn calls(alloc: Global, number: u64) -> Result<Calls, NoMemory> {
    let mut calls = Calls::new(alloc);
    if number > 0 {
        calls.push(number)?;
    }
    Ok(calls)
}

/// How a report's picture ends, where this read and this write fail, 0 for none; and what was written.
fn ended(
    alloc: Global,
    report: &[u8],
    read: u64,
    write: u64,
) -> Result<(Ended, MemSink), NoMemory> {
    let mut source = MemSource::new(Bytes::from_slice(alloc, report)?, calls(alloc, read)?);
    let mut sink = MemSink::new(alloc, calls(alloc, write)?, 65_536)?;
    let ended = draw_report(alloc, &mut source, &mut sink);
    Ok((ended, sink))
}

/// How often a word stands in a text.
fn times(text: &[u8], word: &[u8]) -> usize {
    text.windows(word.len().max(1))
        .filter(|part| *part == word)
        .count()
}

#[test]
fn faulty_lines(rt: HostRuntime) -> Result<(), Fail> {
    for (report, line) in FAULTY {
        let (ended, sink) = ended(rt.alloc(), report, 0, 0)?;
        assert_eq!(rt; ended, Ended::BadReport { line });
        let told = format!(in rt.alloc(); "bad report {line}\n")?;
        assert!(rt; sink.bytes() == told.as_bytes());
    }
    Ok(())
}

#[test]
fn marks_of_events(rt: HostRuntime) -> Result<(), Fail> {
    for (report, [moves, lanes, signs]) in DRAWN {
        let (ended, sink) = ended(rt.alloc(), report, 0, 0)?;
        assert_eq!(rt; ended, Ended::Done);
        let text = sink.bytes();
        // One arrow of a move stands in the legend.
        assert_eq!(rt; times(text, b"<path class=\"m "), moves.saturating_add(1));
        assert_eq!(rt; times(text, b"<rect class=\"lane\""), lanes);
        assert_eq!(rt; times(text, b"<title>"), moves.saturating_add(signs));
    }
    Ok(())
}

#[test]
fn faults_are_told(rt: HostRuntime) -> Result<(), Fail> {
    let (report, _) = DRAWN[2];
    let (read, sink) = ended(rt.alloc(), report, 2, 0)?;
    assert_eq!(rt; read, Ended::ReadFault);
    assert_eq!(rt; sink.bytes().len(), 0);
    let (written, sink) = ended(rt.alloc(), report, 0, 2)?;
    assert_eq!(rt; written, Ended::WriteFault);
    assert!(rt; sink.bytes().len() > 0);
    assert_eq!(rt; status_of(written), 6);
    Ok(())
}
