use super::*;
use call_table::{Entry, NoMemory};
use std::alloc::Global;

/// The choice of node 0 with these pages, free pages and processes, where nodes (node, load, free) are known and processes (pid, pages)
/// may move.
fn chosen(
    alloc: Global,
    own: (u32, u32, u32),
    nodes: &[(u8, u32, u32)],
    processes: &[(u32, u32)],
) -> Result<Option<Choice>, NoMemory> {
    let mut known = Entries::new(alloc);
    for (node, load, free) in nodes {
        known.push(Entry {
            node: *node,
            load: *load,
            free: *free,
            stamp: 1,
        })?;
    }
    let mut movable = Movables::new(alloc);
    for process in processes {
        movable.push(*process)?;
    }
    let sight = Sight {
        node: 0,
        cap: own.0,
        free: own.1,
        load: own.2,
        known,
        movable,
    };
    Ok(usher_choice(&sight))
}

fn choice(pid: u32, to: u8) -> Option<Choice> {
    Some(Choice { pid, to })
}

/// At a shortage: no node known, too little room by one page, and just enough; the smallest that covers it; the largest where none does, and the
/// lower pid and node of equals.
#[test]
fn ushers(rt: HostRuntime) -> Result<(), NoMemory> {
    let alloc = rt.alloc();
    let few = (16, 0, 1);
    assert_eq!(rt; chosen(alloc, few, &[], &[(1, 17)])?, None);
    assert_eq!(rt; chosen(alloc, few, &[(1, 0, 17)], &[(1, 17)])?, None);
    assert_eq!(rt;
        chosen(alloc, few, &[(1, 0, 18)], &[(1, 17)])?,
        choice(1, 1)
    );
    let nodes = [(1, 2, 140), (2, 0, 512)];
    let processes = [(1, 100), (2, 30), (3, 20)];
    assert_eq!(rt;
        chosen(alloc, (512, 10, 3), &nodes, &processes)?,
        choice(2, 1)
    );
    let equal = [(1, 5, 60), (2, 4, 50), (3, 3, 50)];
    let small = [(4, 5), (5, 9), (6, 9)];
    assert_eq!(rt; chosen(alloc, (512, 0, 3), &equal, &small)?, choice(5, 2));
    Ok(())
}

/// Without a shortage: the smallest process to the node of least load; none where the load is one above it, nor where that node lacks room.
#[test]
fn balances(rt: HostRuntime) -> Result<(), NoMemory> {
    let alloc = rt.alloc();
    let nodes = [(1, 2, 140), (2, 0, 512)];
    let processes = [(1, 100), (2, 30), (3, 20)];
    assert_eq!(rt;
        chosen(alloc, (512, 100, 3), &nodes, &processes)?,
        choice(3, 2)
    );
    assert_eq!(rt;
        chosen(alloc, (512, 512, 2), &[(1, 1, 512)], &[(1, 17)])?,
        None
    );
    let full = [(1, 2, 512), (2, 0, 51)];
    assert_eq!(rt; chosen(alloc, (512, 100, 9), &full, &processes)?, None);
    Ok(())
}
