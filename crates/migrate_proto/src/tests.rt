use super::*;
use call_forward::State;
use std::process::Abort;
use std::test::Fail;

/// What a node of 40 pages answers whose processes hold 10.
fn ask(rt: &impl Abort, reserve: &mut Reserve, pid: u32, need: u32) -> Decision {
    assert!(rt; !reserve.has(pid));
    assert!(rt; reserve.len() < 64);
    reserve.allow_or_deny(pid, need, 40, 10)
}

/// Pages are kept for a process until it lands, once.
#[test]
fn pages_are_kept(rt: HostRuntime) -> Result<(), Fail> {
    let mut reserve = Reserve::new(rt.alloc())?;
    let denied = Decision::Deny { need: 11, free: 10 };
    assert_eq!(rt; ask(&rt, &mut reserve, 1, 20), Decision::Allow);
    assert_eq!(rt; ask(&rt, &mut reserve, 2, 11), denied);
    assert_eq!(rt; ask(&rt, &mut reserve, 2, 10), Decision::Allow);
    assert_eq!(rt; (reserve.len(), reserve.pages()), (2, 30));
    let landed = (reserve.land(1), reserve.land(1));
    assert_eq!(rt; landed, (true, false));
    let kept = (reserve.has(1), reserve.has(2));
    assert_eq!(rt; kept, (false, true));
    assert_eq!(rt; (reserve.len(), reserve.pages()), (1, 10));
    Ok(())
}

/// Each answer to an order to move from node 1.
#[test]
fn orders(rt: HostRuntime) {
    let asking = State::Asking { to: 2, line: None };
    let table = [
        (None, false, 2, GoAnswer::Missed),
        (Some(asking), false, 1, GoAnswer::Moving),
        (Some(State::Waiting), true, 1, GoAnswer::Moving),
        (Some(State::Waiting), false, 1, GoAnswer::There),
        (Some(State::Waiting), false, 2, GoAnswer::Keep),
        (Some(State::Running), false, 1, GoAnswer::There),
        (Some(State::Running), false, 2, GoAnswer::Begin),
    ];
    for (state, kept, to, want) in table {
        assert_eq!(rt; on_go(state, kept, 1, to), want);
    }
}
