// The best choice by a search over every pair of a process and a node.
use call_table::Entry;
use mem_usher::{Choice, Sight};

/// The pages of the reserve, and those that are lacking.
fn wanted(sight: &Sight) -> (u64, u64) {
    let reserve = (sight.cap as u64 + 15) / 16;
    (reserve, reserve.saturating_sub(sight.free as u64))
}

/// Whether p leaves rather than q: one that covers the shortage before one that does not, then the smaller of two that do and the larger of two
/// that do not, then the lower pid.
fn leaves_before(p: (u32, u32), q: (u32, u32), shortage: u64) -> bool {
    let (p_covers, q_covers) = (p.1 as u64 >= shortage, q.1 as u64 >= shortage);
    if p_covers != q_covers {
        return p_covers;
    }
    if p.1 == q.1 {
        return p.0 < q.0;
    }
    (p.1 < q.1) == p_covers
}

fn leaves(movable: &[(u32, u32)], p: (u32, u32), shortage: u64) -> bool {
    for q in movable {
        if leaves_before(*q, p, shortage) {
            return false;
        }
    }
    true
}

fn has_room(entry: &Entry, pages: u32, reserve: u64) -> bool {
    entry.free as u64 >= (pages as u64).saturating_add(reserve)
}

/// Whether no node with room has less free than this one.
fn is_tightest(known: &[Entry], entry: &Entry, pages: u32, reserve: u64) -> bool {
    for other in known {
        let before = (other.free, other.node) < (entry.free, entry.node);
        if before && has_room(other, pages, reserve) {
            return false;
        }
    }
    true
}

/// Whether no node has less load than this one.
fn is_lightest(known: &[Entry], entry: &Entry) -> bool {
    for other in known {
        if (other.load, other.node) < (entry.load, entry.node) {
            return false;
        }
    }
    true
}

/// Whether this process to this node is the choice.
fn is_choice(sight: &Sight, process: (u32, u32), entry: &Entry) -> bool {
    let (reserve, shortage) = wanted(sight);
    if !leaves(sight.movable.as_slice(), process, shortage) {
        return false;
    }
    if !has_room(entry, process.1, reserve) {
        return false;
    }
    let known = sight.known.as_slice();
    if shortage > 0 {
        return is_tightest(known, entry, process.1, reserve);
    }
    is_lightest(known, entry) && entry.load as u64 + 2 <= sight.load as u64
}

/// The node of this process's choice, if there is one.
fn target(sight: &Sight, process: (u32, u32)) -> Option<u8> {
    for entry in sight.known.as_slice() {
        if is_choice(sight, process, entry) {
            return Some(entry.node);
        }
    }
    None
}

/// The choice on a sight.
pub(crate) fn searched(sight: &Sight) -> Option<Choice> {
    for process in sight.movable.as_slice() {
        match target(sight, *process) {
            Some(to) => {
                return Some(Choice { pid: process.0, to });
            }
            None => {}
        }
    }
    None
}
