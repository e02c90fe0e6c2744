// The best members of lists, each found by one walk.
ghost use Rattle.std.specs.Prelude.{◌≡◌, ◌+◌, true, nat_le, IsTrue, ◌↔◌};
ghost use Rattle.mem_usher.specs.Best.{IsBestOf, kept, is_before, is_smaller, is_larger, is_tighter, is_lighter, covering, roomy};

use call_table::Entry;

/// Whether the lower of two numbers goes first, and where they are equal the lower of two others.
fn is_before(a: u32, c: u32, b: u32, d: u32) -> bool
    ensures { result ≡ is_before a c b d }
{
    a < c || a == c && b < d
}

fn smaller(best: Option<(u32, u32)>, next: (u32, u32), shortage: u32) -> Option<(u32, u32)>
    ensures { result ≡ kept (nat_le shortage next.1) is_smaller best next }
{
    match best {
        _ if next.1 < shortage => best,
        Some(found) if !is_before(next.1, found.1, next.0, found.0) => best,
        _ => Some(next),
    }
}

fn larger(best: Option<(u32, u32)>, next: (u32, u32)) -> Option<(u32, u32)>
    ensures { result ≡ kept true is_larger best next }
{
    match best {
        Some(found) if !is_before(found.1, next.1, next.0, found.0) => best,
        _ => Some(next),
    }
}

/// Whether the reserve stays free on a node with so much free where so many pages come.
pub(crate) fn has_room(free: u32, pages: u32, reserve: u32) -> bool
    ensures { result ≡ nat_le (pages + reserve) free }
{
    pages <= free && reserve <= free - pages
}

fn tighter(best: Option<Entry>, next: Entry, pages: u32, reserve: u32) -> Option<Entry>
    ensures { result ≡ kept (nat_le (pages + reserve) next.free) is_tighter best next }
{
    match best {
        _ if !has_room(next.free, pages, reserve) => best,
        Some(found) if !is_before(next.free, found.free, next.node as u32, found.node as u32) =>
            best,
        _ => Some(next),
    }
}

fn lighter(best: Option<Entry>, next: Entry) -> Option<Entry>
    ensures { result ≡ kept true is_lighter best next }
{
    match best {
        Some(found) if !is_before(next.load, found.load, next.node as u32, found.node as u32) =>
            best,
        _ => Some(next),
    }
}

/// The smallest of the processes with at least so many pages.
pub(crate) fn smallest(movable: &[(u32, u32)], shortage: u32) -> Option<(u32, u32)>
    ensures { IsBestOf is_smaller (covering shortage movable.now) result }
{
    let mut best: Option<(u32, u32)> = None;
    for process in movable {
        best = smaller(best, *process, shortage);
    }
    best
}

/// The largest of the processes.
pub(crate) fn largest(movable: &[(u32, u32)]) -> Option<(u32, u32)>
    ensures { IsBestOf is_larger movable.now result }
{
    let mut best: Option<(u32, u32)> = None;
    for process in movable {
        best = larger(best, *process);
    }
    best
}

/// Of the nodes that keep the reserve free where so many pages come, the one with least free.
pub(crate) fn tightest(known: &[Entry], pages: u32, reserve: u32) -> Option<Entry>
    ensures { IsBestOf is_tighter (roomy pages reserve known.now) result }
{
    let mut best: Option<Entry> = None;
    for entry in known {
        best = tighter(best, *entry, pages, reserve);
    }
    best
}

/// The node of least load.
pub(crate) fn lightest(known: &[Entry]) -> Option<Entry>
    ensures { IsBestOf is_lighter known.now result }
{
    let mut best: Option<Entry> = None;
    for entry in known {
        best = lighter(best, *entry);
    }
    best
}
