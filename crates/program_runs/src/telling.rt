// What is told of programs that are played.
use crate::record::step_of;
use call_table::{NoMemory, PidState};
use one_node::home::{Applied, Home, Outcome};
use one_node::play::{PlayFault, play};
use one_node::{Setup, Step};
use std::alloc::Global;

/// How a process stands at the end.
fn state_of(alloc: Global, pid: u32, state: PidState) -> Result<String, NoMemory> {
    let text = match state {
        PidState::Exit(code) => format!(in alloc; "{pid} exits with {code}; ")?,
        PidState::Signal(signal) => format!(in alloc; "{pid} ends by signal {signal}; ")?,
        PidState::Blocked(number) => format!(in alloc; "{pid} waits in call {number}; ")?,
        PidState::Live => format!(in alloc; "{pid} lives; ")?,
    };
    Ok(text)
}

/// The bytes of the terminal, with a bar for each end of a line.
fn push_terminal(text: &mut String, bytes: &[u8]) -> Result<(), NoMemory> {
    for byte in bytes {
        let shown = if *byte == b'\n' { '|' } else { *byte as char };
        text.push(shown)?;
    }
    Ok(())
}

fn outcome_text(alloc: Global, outcome: &Outcome) -> Result<String, NoMemory> {
    let mut text = String::new(alloc);
    for (pid, state) in outcome.statuses.as_slice() {
        text.push_str(state_of(alloc, *pid, *state)?.as_str())?;
    }
    text.push_str("terminal: ")?;
    push_terminal(&mut text, outcome.terminal.as_slice())?;
    Ok(text)
}

/// What these steps come to.
pub fn played(alloc: Global, setup: &Setup, steps: &[Step]) -> Result<String, NoMemory> {
    match play(alloc, setup, steps) {
        Ok(outcome) => outcome_text(alloc, &outcome),
        Err(PlayFault::NotEnabled { at }) => Ok(format!(in alloc; "step {at} is not enabled")?),
        Err(PlayFault::NoMemory) => Err(NoMemory),
    }
}

/// The steps that these words name, with a comma between two of them.
pub fn steps_of(alloc: Global, words: &str) -> Result<Vec<Step>, NoMemory> {
    let mut steps = Vec::new(alloc);
    for words in words.split(", ") {
        if let Some(step) = step_of(words) {
            steps.push(step)?;
        }
    }
    Ok(steps)
}

/// What a step told: the process at which it raised a signal, and its reply.
fn applied_text(alloc: Global, applied: Applied) -> Result<String, NoMemory> {
    let text = match applied {
        Applied::Not => format!(in alloc; "not enabled; ")?,
        Applied::Did { raised, reply } => format!(in alloc; "raised {raised:?} reply {reply:?}; ")?,
    };
    Ok(text)
}

/// What each of these steps tells.
pub fn told_by_each(
    alloc: Global,
    home: &mut Home,
    setup: &Setup,
    steps: &[Step],
) -> Result<String, NoMemory> {
    let mut text = String::new(alloc);
    for step in steps {
        let applied = home.apply(alloc, setup, step)?;
        text.push_str(applied_text(alloc, applied)?.as_str())?;
    }
    Ok(text)
}
