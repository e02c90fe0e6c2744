use super::*;
use call_table::NoMemory;
use node_event::{Event, Journal, What};
use std::alloc::Global;

fn event(stamp: u64, node: u8) -> Event {
    Event {
        stamp,
        node,
        what: What::Strange,
    }
}

fn journal_of(alloc: Global, node: u8, stamps: [u64; 2]) -> Result<Journal, NoMemory> {
    let mut journal = Journal::new(alloc, 2)?;
    for stamp in stamps {
        let _ = journal.push(event(stamp, node));
    }
    Ok(journal)
}

#[test]
fn two_journals(rt: HostRuntime) -> Result<(), NoMemory> {
    let mut journals = Journals::new(rt.alloc());
    journals.push(journal_of(rt.alloc(), 0, [1, 4])?)?;
    journals.push(journal_of(rt.alloc(), 1, [1, 2])?)?;
    let woven = weave(rt.alloc(), &journals)?;
    let want = [event(1, 0), event(1, 1), event(2, 1), event(4, 0)];
    assert_eq!(rt; woven.as_slice(), want.as_slice());
    Ok(())
}
