// What turns are told by.
use call_forward::{Message, State};
use call_table::{End, NoMemory};
use deputy::Deputies;
use node_core::Node;
use node_event::{Event, print_event};
use remote_ctx::Hosted;
use std::alloc::Global;

/// Pids of which is told how they stand.
const PIDS: u32 = 10;

/// How a process stands where it is hosted: its state, whether a move is kept and a poke waits, and its pages.
pub type Place = (Option<State>, bool, bool, Option<u32>);

/// How home has a process: whether it lives, its end, the number of its held call, how many were served, and its lowest signal.
pub type Homed = (bool, Option<End>, Option<u32>, u32, Option<u8>);

/// What can be seen of home: the pids that were given, each process, and the terminal's output.
#[derive(PartialEq, Drop)]
pub struct HomeSeen {
    given: u32,
    each: Vec<Homed>,
    terminal: usize,
}

/// What can be seen of a node: how many events it made, the load, the pages, each process, and home.
#[derive(PartialEq, Drop)]
pub struct Seen {
    pub events: usize,
    load: u32,
    pages: u32,
    each: Vec<Place>,
    home: Option<HomeSeen>,
}

/// How a process stands where it is hosted.
pub fn place(hosted: &Hosted, pid: u32) -> Place {
    (
        hosted.state(pid),
        hosted.kept(pid),
        hosted.is_poked(pid),
        hosted.need(pid),
    )
}

/// How home has a process.
fn homed(home: &Deputies, pid: u32) -> Homed {
    let kernel = home.kernel();
    (
        kernel.live(pid),
        kernel.ended(pid),
        home.held(pid),
        home.served(pid),
        kernel.deliverable(pid),
    )
}

/// What can be seen of home.
pub fn home_seen(alloc: Global, home: &Deputies) -> Result<HomeSeen, NoMemory> {
    let mut each = Vec::new(alloc);
    for pid in 1..PIDS {
        each.push(homed(home, pid))?;
    }
    Ok(HomeSeen {
        given: home.kernel().given(),
        each,
        terminal: home.kernel().terminal().len(),
    })
}

/// What can be seen of the home side of a node, if it has one.
fn home_of(alloc: Global, node: &Node) -> Result<Option<HomeSeen>, NoMemory> {
    match node.deputies() {
        None => Ok(None),
        Some(home) => Ok(Some(home_seen(alloc, home)?)),
    }
}

/// What can be seen of a node.
pub fn node_seen(alloc: Global, node: &Node) -> Result<Seen, NoMemory> {
    let mut each = Vec::new(alloc);
    for pid in 1..PIDS {
        each.push(place(node.hosted(), pid))?;
    }
    Ok(Seen {
        events: node.journal().len(),
        load: node.hosted().load(),
        pages: node.hosted().pages(),
        each,
        home: home_of(alloc, node)?,
    })
}

/// The word of a message and up to three numbers.
fn shown(message: &Message) -> (&'static str, u32, u32, u32) {
    match message {
        Message::Call { pid, request } => (
            "call",
            *pid,
            request.number,
            request.bytes.len().min(9999) as u32,
        ),
        Message::Pause { pid, room } => ("pause", *pid, *room as u32, 0),
        Message::Reply { pid, done } => ("reply", *pid, done.ended as u32, done.more as u32),
        Message::Poke { pid } => ("poke", *pid, 0, 0),
        Message::Go { pid, to, hops, .. } => ("go", *pid, *to as u32, *hops),
        Message::NotHere { pid, to, hops, .. } => ("missed", *pid, *to as u32, *hops),
        Message::Ask { pid, need } => ("ask", *pid, *need, 0),
        Message::Allow { pid } => ("allow", *pid, 0, 0),
        Message::Deny { pid, need, free } => ("deny", *pid, *need, *free),
        Message::Move {
            pid,
            user,
            hops,
            ..
        } => ("move", *pid, user.need(), *hops),
        Message::Landed {
            pid,
            source,
            hops,
            ..
        } => ("landed", *pid, *source as u32, *hops),
        Message::NoMove { line } => ("nomove", *line, 0, 0),
        Message::Half { .. } => ("half", 0, 0, 0),
    }
}

/// A message that is posted to a node.
pub fn push_post(
    alloc: Global,
    text: &mut String,
    to: u8,
    message: &Message,
) -> Result<(), NoMemory> {
    let (word, a, b, c) = shown(message);
    let post = format!(in alloc; "; {to} {word} {a} {b} {c}")?;
    text.push_str(post.as_str())?;
    Ok(())
}

/// The line of an event.
pub fn push_event(alloc: Global, text: &mut String, event: &Event) -> Result<(), NoMemory> {
    let line = print_event(alloc, event)?;
    for byte in line.as_slice() {
        text.push(*byte as char)?;
    }
    Ok(())
}
