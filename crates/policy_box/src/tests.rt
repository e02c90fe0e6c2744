use super::*;
use call_table::{Entry, NoMemory};
use mem_usher::{Entries, Movables};
use std::alloc::Global;

fn sight(alloc: Global) -> Result<Sight, NoMemory> {
    let mut known = Entries::new(alloc);
    known.push(Entry {
        node: 1,
        load: 0,
        free: 18,
        stamp: 1,
    })?;
    let mut movable = Movables::new(alloc);
    movable.push((1, 17))?;
    Ok(Sight {
        node: 0,
        cap: 16,
        free: 0,
        load: 1,
        known,
        movable,
    })
}

/// A policy may be shared where its chooser may.
fn shared<T: Sync>(policy: &T) -> &T {
    policy
}

#[test]
fn asks_the_chooser(rt: HostRuntime) -> Result<(), NoMemory> {
    let sight = sight(rt.alloc())?;
    let never = never_policy();
    assert_eq!(rt; shared(&never).ask(&sight), None);
    let usher = usher_policy();
    assert_eq!(rt; shared(&usher).ask(&sight), Some(Choice { pid: 1, to: 1 }));
    Ok(())
}
