use super::*;
use call_table::Taken;

/// What is done to the signals of a process, in turn.
#[derive(Drop)]
enum Doing {
    Raise(u8),
    Mask(u32, u32),
    Set(u8, Act),
    Take(Taken),
    Fork,
}

fn did(rt: &impl std::process::Abort, signals: &mut Signals, doing: &Doing) {
    match doing {
        Doing::Raise(signal) => signals.raise(*signal),
        Doing::Mask(new, old) => assert_eq!(rt; signals.set_mask(*new), *old),
        Doing::Set(signal, act) => {
            signals.set_act(*signal, *act);
            assert_eq!(rt; signals.act(*signal), *act);
        }
        Doing::Take(taken) => {
            assert!(rt; signals.deliverable().is_some());
            assert_eq!(rt; signals.take(), *taken);
        }
        Doing::Fork => *signals = signals.for_child(),
    }
}

#[test]
fn worked_cases(rt: HostRuntime) {
    let handler = Act::Handler {
        entry: 0x1000,
        restorer: 0x2000,
    };
    let entered = Taken::Enters {
        signal: 10,
        handler: 0x1000,
        restorer: 0x2000,
        mask: 0x8000,
    };
    let cases = [
        (Doing::Mask(0xFFFF_FFFF, 0), None),
        (Doing::Raise(9), Some(9)),
        (Doing::Raise(10), Some(9)),
        (Doing::Take(Taken::Dies(9)), None),
        (Doing::Mask(0x8000, 0x0102_BC34), Some(10)),
        (Doing::Set(10, handler), Some(10)),
        (Doing::Raise(15), Some(10)),
        (Doing::Raise(2), Some(2)),
        (Doing::Take(Taken::Dies(2)), Some(10)),
        (Doing::Take(entered), None),
        (Doing::Raise(10), None),
        (Doing::Mask(0, 0x8400), Some(10)),
        (Doing::Set(10, Act::Ignore), Some(15)),
        (Doing::Raise(10), Some(15)),
        (Doing::Set(10, Act::Default), Some(15)),
        (Doing::Raise(17), Some(15)),
        (Doing::Set(17, handler), Some(15)),
        (Doing::Fork, None),
        (Doing::Raise(17), Some(17)),
        (Doing::Set(17, Act::Default), None),
    ];
    let mut signals = Signals::new();
    assert_eq!(rt; signals.deliverable(), None);
    for (i, (doing, deliverable)) in cases.iter().enumerate() {
        did(&rt, &mut signals, doing);
        assert_eq!(rt; signals.deliverable(), *deliverable, "after step {i}");
    }
}
