use super::*;
use call_table::{End, NoMemory};

/// What is done to a tree, in turn, with the answer.
#[derive(Drop)]
enum Doing {
    Child(u32, Option<u32>),
    End(u32, End),
    Reap(u32, End),
}

fn did(rt: &impl std::process::Abort, tree: &mut Tree, doing: &Doing) -> Result<(), NoMemory> {
    match doing {
        Doing::Child(parent, pid) => {
            assert_eq!(rt; tree.next_pid(*parent), *pid);
            assert_eq!(rt; tree.new_child(*parent)?, *pid);
        }
        Doing::End(pid, status) => {
            assert!(rt; tree.live(*pid));
            tree.end(*pid, *status);
        }
        Doing::Reap(pid, status) => {
            assert!(rt; tree.zombie(*pid));
            assert_eq!(rt; tree.reap(*pid), *status);
        }
    }
    Ok(())
}

/// A process as it is told: parent, live, zombie, end, lowest zombie child, whether it has a child.
fn told(tree: &Tree, pid: u32) -> (u32, bool, bool, Option<End>, Option<u32>, bool) {
    (
        tree.parent(pid),
        tree.live(pid),
        tree.zombie(pid),
        tree.ended(pid),
        tree.zombie_of(pid),
        tree.has_child(pid),
    )
}

#[test]
fn worked_cases(rt: HostRuntime) -> Result<(), NoMemory> {
    let (seven, nine) = (End::Exit(7), End::Signal(9));
    let cases = [
        (
            Doing::Child(0, Some(1)),
            1,
            (0, true, false, None, None, false),
        ),
        (
            Doing::Child(1, Some(2)),
            1,
            (0, true, false, None, None, true),
        ),
        (
            Doing::Child(1, Some(3)),
            3,
            (1, true, false, None, None, false),
        ),
        (
            Doing::Child(2, Some(4)),
            4,
            (2, true, false, None, None, false),
        ),
        (
            Doing::End(3, nine),
            1,
            (0, true, false, None, Some(3), true),
        ),
        (Doing::End(2, seven), 4, (0, true, false, None, None, false)),
        (
            Doing::Child(4, Some(5)),
            2,
            (1, false, true, Some(seven), None, false),
        ),
        (
            Doing::Child(1, Some(6)),
            1,
            (0, true, false, None, Some(2), true),
        ),
        (
            Doing::Reap(2, seven),
            2,
            (1, false, false, Some(seven), None, false),
        ),
        (
            Doing::Child(0, Some(7)),
            1,
            (0, true, false, None, Some(3), true),
        ),
        (
            Doing::End(1, seven),
            3,
            (1, false, false, Some(nine), None, false),
        ),
        (
            Doing::End(7, nine),
            1,
            (0, false, false, Some(seven), None, false),
        ),
        (Doing::End(5, nine), 6, (0, true, false, None, None, false)),
        (Doing::Reap(5, nine), 4, (0, true, false, None, None, false)),
        (
            Doing::Child(0, Some(8)),
            9,
            (0, false, false, None, None, false),
        ),
    ];
    let mut tree = Tree::new(rt.alloc());
    for (i, (doing, pid, wanted)) in cases.iter().enumerate() {
        did(&rt, &mut tree, doing)?;
        assert_eq!(rt; told(&tree, *pid), *wanted, "after step {i}");
    }
    assert_eq!(rt; tree.given(), 8);
    Ok(())
}

#[test]
fn limits(rt: HostRuntime) -> Result<(), NoMemory> {
    let mut tree = Tree::new(rt.alloc());
    for pid in 1..65u32 {
        assert_eq!(rt; tree.new_child(0)?, Some(pid));
    }
    assert_eq!(rt; tree.new_child(0)?, None);
    assert_eq!(rt; tree.new_child(1)?, None);
    did(&rt, &mut tree, &Doing::End(64, End::Exit(0)))?;
    for pid in 65..32_512u32 {
        assert_eq!(rt; tree.new_child(1)?, Some(pid));
        did(&rt, &mut tree, &Doing::End(pid, End::Exit(0)))?;
        did(&rt, &mut tree, &Doing::Reap(pid, End::Exit(0)))?;
    }
    assert_eq!(rt; tree.new_child(1)?, None);
    for pid in 32_512..32_768u32 {
        assert_eq!(rt; tree.new_child(0)?, Some(pid));
        did(&rt, &mut tree, &Doing::End(pid, End::Exit(0)))?;
    }
    assert_eq!(rt; tree.new_child(0)?, None);
    Ok(())
}
