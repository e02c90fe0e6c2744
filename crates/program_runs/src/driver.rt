// A plain driver of the one-node machine: the lowest process that can go makes its next step.
use call_table::{Bytes, NoMemory};
use one_node::home::{Applied, Home};
use one_node::{Setup, Step};
use std::alloc::Global;
use user_ctx::{Stop, User};

/// At most so many steps are made at once.
const QUANTUM: u32 = 65_536;

/// At most so many steps of the machine are made.
const MOST: u32 = 2_000;

/// The steps of a process that is at no call, up to its next one, or its fall.
fn going(user: &User, pid: u32) -> Result<Step, NoMemory> {
    let mut copy = user.copy()?;
    let (k, stop) = copy.run(QUANTUM);
    if k > 0 {
        return Ok(Step::Steps { pid, k });
    }
    match stop {
        Stop::Fault(_) => Ok(Step::Fall(pid)),
        _ => Ok(Step::Steps { pid, k: 1 }),
    }
}

/// The next step of a process. None where it has ended or is blocked.
fn next_step(alloc: Global, home: &Home, pid: u32) -> Result<Option<Step>, NoMemory> {
    let Some(user) = home.user(pid) else {
        return Ok(None);
    };
    if !home.kernel().live(pid) || home.blocked(alloc, pid)?.is_some() {
        return Ok(None);
    }
    let can_take = home.kernel().deliverable(pid).is_some();
    match user.call(alloc)? {
        Some(request) if home.kernel().blocks(pid, &request) => Ok(Some(Step::Break(pid))),
        _ if can_take => Ok(Some(Step::Take(pid))),
        Some(_) => Ok(Some(Step::Do(pid))),
        None => Ok(Some(going(user, pid)?)),
    }
}

/// The next step of the lowest process that can go.
fn lowest(alloc: Global, home: &Home) -> Result<Option<Step>, NoMemory> {
    for i in 0..home.kernel().given() {
        if let Some(step) = next_step(alloc, home, i + 1)? {
            return Ok(Some(step));
        }
    }
    Ok(None)
}

/// Whether a process goes without an end.
fn turns(step: &Option<Step>) -> bool {
    matches!(step, Some(Step::Steps { k, .. }) if *k == QUANTUM)
}

/// Whether something is done from outside now: no process can go, or one turns without an end and nothing was raised there yet.
fn is_outside(next: &Option<Step>, last: Option<&Step>) -> bool {
    next.is_none() || (turns(next) && !matches!(last, Some(Step::Raise { .. })))
}

/// The steps of a run, from the launch on. It ends where nothing is left to do, or at a step that is not enabled, which stands last.
fn go_on(
    alloc: Global,
    home: &mut Home,
    setup: &Setup,
    outside: &[Step],
) -> Result<Vec<Step>, NoMemory> {
    let mut steps = vec![in alloc; Step::Launch(0)]?;
    home.apply(alloc, setup, &Step::Launch(0))?;
    let mut rest = outside.iter();
    for _i in 0..MOST {
        let mut next = lowest(alloc, home)?;
        if is_outside(&next, steps.last()) {
            next = rest.next().copied();
        }
        let Some(step) = next else {
            return Ok(steps);
        };
        steps.push(step)?;
        if home.apply(alloc, setup, &step)? == Applied::Not {
            return Ok(steps);
        }
    }
    Ok(steps)
}

/// The steps of a run of a setup, with these steps from outside.
pub fn steps(alloc: Global, setup: &Setup, outside: &[Step]) -> Result<Vec<Step>, NoMemory> {
    let mut home = Home::new(alloc);
    let steps = go_on(alloc, &mut home, setup, outside)?;
    Ok(steps)
}
