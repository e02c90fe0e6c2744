// Calls of the home side alone, and of reservations alone.
use crate::messages::{Numbers, node};
use crate::telling::{home_seen, push_event, push_post};
use call_forward::{Acted, Message};
use call_table::NoMemory;
use call_table::limit::PROCESSES;
use deputy::Deputies;
use migrate_proto::{Decision, Reserve};
use node_event::{Event, What};
use std::alloc::Global;

/// What home makes of a message from a node. A message that is not for home is closed as line 0.
fn hear(alloc: Global, home: &mut Deputies, from: u8, message: Message) -> Result<Acted, NoMemory> {
    match message {
        Message::Call { pid, request } => home.called(alloc, from, pid, request),
        Message::Pause { pid, room } => home.paused(alloc, from, pid, room),
        Message::Landed {
            pid,
            source,
            hops,
            line,
        } => home.landed(alloc, from, pid, source, hops, line),
        Message::NotHere {
            pid,
            to,
            hops,
            line,
        } => home.missed(alloc, pid, to, hops, line),
        Message::NoMove { line } => Ok(home.closed(alloc, line)),
        _ => Ok(home.closed(alloc, 0)),
    }
}

/// What came of it: the event, with stamp 0, and what is posted.
fn acted_text(alloc: Global, acted: &Acted) -> Result<String, NoMemory> {
    let mut text = String::new(alloc);
    let event = Event {
        stamp: 0,
        node: 0,
        what: acted.what,
    };
    push_event(alloc, &mut text, &event)?;
    for (to, message) in acted.mail.as_slice() {
        push_post(alloc, &mut text, *to, message)?;
    }
    Ok(text)
}

/// A message from a node comes to the home side. Where it is strange, it is told if that was not foreseen, or if anything changed.
pub fn home_hears(
    alloc: Global,
    home: &mut Deputies,
    from: u8,
    message: Message,
) -> Result<String, NoMemory> {
    let before = home_seen(alloc, home)?;
    let suits = home.suits(&message);
    let acted = hear(alloc, home, from, message)?;
    let mut text = acted_text(alloc, &acted)?;
    let is_strange = matches!(acted.what, What::Strange);
    if is_strange == suits {
        text.push_str("; unforeseen")?;
    }
    if is_strange && home_seen(alloc, home)? != before {
        text.push_str("; changed")?;
    }
    Ok(text)
}

/// An order of the script: `kill PID SIGNAL`, or `go PID TO`, both of line 1; or `launch`; or `retry`.
pub fn home_does(
    alloc: Global,
    home: &mut Deputies,
    word: &str,
    n: &Numbers,
) -> Result<String, NoMemory> {
    if word == "launch" {
        let pid = home.launch()?;
        return Ok(format!(in alloc; "{pid:?}")?);
    }
    let acted = match word {
        "kill" => Some(home.kill(alloc, n[0], node(n[1]), 1)?),
        "go" => Some(home.go(alloc, n[0], node(n[1]), 1)?),
        _ => home.retry(alloc)?,
    };
    match &acted {
        Some(acted) => acted_text(alloc, acted),
        None => Ok(format!(in alloc; "None")?),
    }
}

/// A process asks for room: `PID NEED CAP HELD`.
pub fn asks(alloc: Global, reserve: &mut Reserve, n: &Numbers) -> Result<String, NoMemory> {
    if reserve.has(n[0]) || reserve.len() >= PROCESSES {
        return Ok(format!(in alloc; "it may not ask")?);
    }
    let text = match reserve.allow_or_deny(n[0], n[1], n[2], n[3]) {
        Decision::Allow => format!(in alloc; "allow")?,
        Decision::Deny { need, free } => format!(in alloc; "deny {need} {free}")?,
    };
    Ok(text)
}

/// A process lands.
pub fn lands(alloc: Global, reserve: &mut Reserve, pid: u32) -> Result<String, NoMemory> {
    let had = reserve.land(pid);
    let (count, pages) = (reserve.len(), reserve.pages());
    Ok(format!(in alloc; "{had}, {count} left with {pages} pages")?)
}
