// Sorted lists of events merged into one, each read once.
ghost use Rattle.std.specs.Prelude.{◌≡◌, ◌+◌, ◌<◌, [], length, IfOk, Some, slice_get, slice_index, replicate};
ghost use Rattle.weave.specs.Merges.{is_earlier, next_of, IsFirst, IsFirstOf, Reads, woven_from};

use call_table::NoMemory;
use node_event::{Event, Journal};
use std::alloc::Global;

/// Whether the one event goes before the other: by stamp, and by node where the stamps are equal.
fn is_earlier(a: &Event, b: &Event) -> bool
    ensures { result ≡ is_earlier a.now b.now }
{
    a.stamp < b.stamp || a.stamp == b.stamp && a.node < b.node
}

/// The event at a place, if there is one.
fn event_in(events: &[Event], place: usize) -> Option<Event>
    ensures { result ≡ slice_get events.now place }
{
    events.get(place).copied()
}

/// The event at a place, and the place behind it.
fn event_at(events: &[Event], place: usize) -> (Event, usize)
    requires { place < length events.now }
    ensures event { slice_get events.now place ≡ Some result.0 }
    ensures place { result.1 ≡ place + 1 }
{
    (events[place], place + 1)
}

/// The next event of the k-th journal, if it has one.
fn next_event(journals: &[Journal], next: &[usize], k: usize) -> Option<Event>
    requires within { k < length journals.now }
    requires same { length next.now ≡ length journals.now }
    ensures { result ≡ next_of journals.now next.now k }
{
    let journal = &journals[k];
    event_in(journal.as_slice(), next[k])
}

/// The journal whose next event goes first, of the first k + 1, where it is known of the first k.
fn earlier_of(journals: &[Journal], next: &[usize], first: Option<usize>, k: usize) -> Option<usize>
    requires within { k < length journals.now }
    requires same { length next.now ≡ length journals.now }
    requires so_far { IsFirstOf journals.now next.now k first }
    ensures { IsFirstOf journals.now next.now (k + 1) result }
{
    let event = match next_event(journals, next, k) {
        Some(event) => event,
        None => return first,
    };
    let lowest = match first {
        Some(lowest) => lowest,
        None => return Some(k),
    };
    match next_event(journals, next, lowest) {
        Some(earliest) if !is_earlier(&event, &earliest) => Some(lowest),
        _ => Some(k),
    }
}

/// The journal whose next event goes first, the lowest of equals. None exactly where all are read.
fn first_journal(journals: &[Journal], next: &[usize]) -> Option<usize>
    requires { length next.now ≡ length journals.now }
    ensures { IsFirstOf journals.now next.now (length journals.now) result }
{
    let mut first: Option<usize> = None;
    for k in 0..journals.len() {
        first = earlier_of(journals, next, first, k);
    }
    first
}

/// The next event of the journal that goes first, and the place behind it.
fn read(journals: &[Journal], next: &[usize], k: usize) -> (Event, usize)
    requires first { IsFirst journals.now next.now (length journals.now) k }
    requires same { length next.now ≡ length journals.now }
    ensures event { next_of journals.now next.now k ≡ Some result.0 }
    ensures place { result.1 ≡ slice_index next.now k + 1 }
{
    let journal = &journals[k];
    event_at(journal.as_slice(), next[k])
}

/// Reads the event that goes first. None exactly where all are read.
fn read_first(journals: &[Journal], next: &mut Vec<usize>) -> Option<Event>
    requires { length next.old.items ≡ length journals.now }
    ensures { Reads journals.now next.old.items next.new.items result }
{
    match first_journal(journals, next.as_slice()) {
        Some(k) => {
            let (event, place) = read(journals, next.as_slice(), k);
            next[k] = place;
            Some(event)
        }
        None => None,
    }
}

/// How many events there are, or the most that can be counted.
fn count(journals: &[Journal]) -> usize {
    let mut count = 0usize;
    for journal in journals {
        count = count.saturating_add(journal.len());
    }
    count
}

fn zeros(alloc: Global, count: usize) -> Result<Vec<usize>, NoMemory>
    ensures { IfOk result (λ v. v.items ≡ replicate count 0) }
{
    Ok(vec![in alloc; 0usize; count]?)
}

/// The events of all journals.
pub(crate) fn merge_all(alloc: Global, journals: &[Journal]) -> Result<Vec<Event>, NoMemory>
    ensures { IfOk result (λ all. all.items ≡ woven_from [] journals.now) }
{
    let mut all = Vec::with_capacity(alloc, count(journals))?;
    let mut next = zeros(alloc, journals.len())?;
    while let Some(event) = read_first(journals, &mut next) {
        all.push(event)?;
    }
    Ok(all)
}
