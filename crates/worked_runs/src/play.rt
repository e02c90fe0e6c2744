// The plain system on one node by its own calls, with memory enough.
use crate::images::{HELLO, program};
use crate::runs::REPLIES;
use call_table::{End, PidState, Words};
use elf_load::load;
use one_node::going::Ran;
use one_node::home::{Applied, Home, Outcome};
use one_node::play::{PlayFault, play};
use one_node::{Feeds, Setup, Step};
use std::alloc::Global;
use std::process::Abort;
use std::test::Fail;
use user_ctx::Users;

/// The process of hello alone.
fn hello(alloc: Global) -> Result<Setup, Fail> {
    setup_of(alloc, &HELLO)
}

/// The process of a file alone, without words.
fn setup_of(alloc: Global, file: &[u8]) -> Result<Setup, Fail> {
    let mut users = Users::new(alloc);
    users.push(load(alloc, file, &Words::new(alloc))?)?;
    Ok(Setup {
        users,
        feeds: Feeds::new(alloc),
    })
}

/// The steps of the whole run of process 1.
const WHOLE: [Step; 5] = [
    Step::Launch(0),
    Step::Steps { pid: 1, k: 5 },
    Step::Do(1),
    Step::Steps { pid: 1, k: 2 },
    Step::Do(1),
];

/// hello wrote its line and exited.
fn tells_hello(rt: &impl Abort, outcome: &Outcome) {
    assert_eq!(rt; outcome.terminal.as_slice(), b"hi\n".as_slice());
    assert_eq!(rt;
        outcome.statuses.as_slice(),
        [(1, PidState::Exit(0))].as_slice()
    );
    assert_eq!(rt; outcome.replies.as_slice(), REPLIES.as_slice());
    assert_eq!(rt; outcome.files.len(), 0);
}

#[test]
fn steps_that_are_played(rt: HostRuntime) -> Result<(), Fail> {
    let setup = hello(rt.alloc())?;
    let outcome = play(rt.alloc(), &setup, &WHOLE).ok();
    tells_hello(&rt, &outcome.ok_or("an outcome")?);
    let outcome = play(rt.alloc(), &setup, &WHOLE[..2]).ok();
    let outcome = outcome.ok_or("an outcome")?;
    assert_eq!(rt;
        outcome.statuses.as_slice(),
        [(1, PidState::Live)].as_slice()
    );
    assert_eq!(rt; (outcome.terminal.len(), outcome.replies.len()), (0, 0));
    Ok(())
}

/// A word that is no instruction is fallen from.
#[test]
fn a_fall_that_is_played(rt: HostRuntime) -> Result<(), Fail> {
    let zero = program(rt.alloc(), b"", 4, &[0])?;
    let setup = setup_of(rt.alloc(), zero.bytes.as_slice())?;
    let outcome = play(rt.alloc(), &setup, &[Step::Launch(0), Step::Fall(1)]).ok();
    assert_eq!(rt;
        outcome.ok_or("an outcome")?.statuses.as_slice(),
        [(1, PidState::Signal(4))].as_slice()
    );
    Ok(())
}

const GOES: Step = Step::Steps { pid: 1, k: 5 };

/// Steps, and the first that is not enabled.
const NOT_ENABLED: [(&[Step], u32); 7] = [
    (&[Step::Launch(0), Step::Do(1)], 1),
    (&[Step::Do(1), Step::Launch(0)], 0),
    (&[Step::Launch(1)], 0),
    (
        &[Step::Launch(0), Step::Launch(0), GOES, GOES, Step::Do(2)],
        3,
    ),
    (&[Step::Launch(0), Step::Steps { pid: 1, k: 6 }], 1),
    (&[Step::Launch(0), GOES, Step::Fall(1), Step::Do(1)], 2),
    (&[Step::Launch(0), GOES, Step::Do(2)], 2),
];

fn are_not_enabled(rt: &impl Abort, alloc: Global, setup: &Setup, rows: &[(&[Step], u32)]) {
    for row in rows {
        let fault = play(alloc, setup, row.0).err();
        assert_eq!(rt; fault, Some(PlayFault::NotEnabled { at: row.1 }));
    }
}

#[test]
fn steps_that_are_not_enabled(rt: HostRuntime) -> Result<(), Fail> {
    let setup = hello(rt.alloc())?;
    are_not_enabled(&rt, rt.alloc(), &setup, &NOT_ENABLED);
    Ok(())
}

/// A home makes the whole run of process 1 by its calls.
fn goes_to_its_end(
    rt: &impl Abort,
    alloc: Global,
    home: &mut Home,
    setup: &Setup,
) -> Result<(), Fail> {
    let launched = Applied::Did {
        raised: None,
        reply: None,
    };
    assert_eq!(rt; home.apply(alloc, setup, &Step::Launch(0)), Ok(launched));
    for (steps, number, value) in [(5, 9, 3), (2, 1, 0)] {
        let served = Applied::Did {
            raised: None,
            reply: Some(value),
        };
        assert_eq!(rt; home.ended(1), None);
        assert_eq!(rt; home.go(1, 16_384), Ok(Some(Ran::Steps(steps))));
        assert_eq!(rt; home.go(1, 16_384), Ok(Some(Ran::Asks(number))));
        assert_eq!(rt; home.serve(alloc, 1), Ok(served));
    }
    assert_eq!(rt; home.ended(1), Some(End::Exit(0)));
    assert_eq!(rt; home.go(1, 1), Ok(None));
    assert_eq!(rt; home.serve(alloc, 1), Ok(Applied::Not));
    tells_hello(rt, &home.outcome(alloc)?);
    Ok(())
}

#[test]
fn a_home_by_its_calls(rt: HostRuntime) -> Result<(), Fail> {
    let setup = hello(rt.alloc())?;
    let mut home = Home::new(rt.alloc());
    goes_to_its_end(&rt, rt.alloc(), &mut home, &setup)
}
