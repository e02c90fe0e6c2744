// Worked calls on signals.
use crate::worked::Call::{
    By, Deliverable, Ended, Fork, Kill, Raise, Raised, Sigact, Sigmask, Sigreturn, Take, Wait,
};
use crate::worked::{Call, ENTERS, NONE, SIGNAL, check_first};
use std::test::Fail;

/// Signals: both 9 and 10 raised with a full mask, a handler with and without room, a handled 17.
const SIGNALS: [(Call, i32); 40] = [
    (Kill(1, 3), -22),
    (Sigact(9, 1, 0), -22),
    (Sigact(3, 1, 0), -22),
    (Sigmask(0xFFFF_FFFF), 0),
    (Sigmask(0), 0x0102_BC34),
    (Sigact(10, 0x1000, 0x2000), 0),
    (Sigact(17, 0x3000, 0x2000), 0),
    (Fork, 2),
    (Kill(2, 10), 0),
    (Raised, 2),
    (Kill(1, 10), 0),
    (Raised, NONE),
    (Deliverable(1), 10),
    (Take(true), ENTERS + 10),
    (Sigmask(0), 1024),
    (Take(true), NONE),
    (Kill(1, 0), 0),
    (Take(true), NONE),
    (By(2), 0),
    (Take(false), SIGNAL + 11),
    (Raised, 1),
    (Take(true), NONE),
    (Ended(2), SIGNAL + 11),
    (By(1), 0),
    (Deliverable(1), 17),
    (Sigact(17, 0, 0), 0),
    (Deliverable(1), NONE),
    (Wait(8, b"\x0b\0\0\0"), 2),
    (Raise(2, 9), 0),
    (Raise(1, 17), 0),
    (Raise(1, 12), 1),
    (Sigmask(4096), 0),
    (Raise(1, 12), 0),
    (Raise(1, 15), 1),
    (Sigreturn(0), 0),
    (Deliverable(1), 12),
    (Raise(1, 9), 1),
    (Deliverable(1), 9),
    (Take(true), SIGNAL + 9),
    (Ended(1), SIGNAL + 9),
];

#[test]
fn signals(rt: HostRuntime) -> Result<(), Fail> {
    check_first(&rt, rt.alloc(), &SIGNALS)
}
