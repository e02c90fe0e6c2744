// Makes turns of nodes, for bench/turns.sh. The arguments are a word, how many rounds, and how many pages a process has: `pokes` of a process that is not
// there; `calls` that home serves to a process of its own; `moves` of a process between two nodes; `copies` of as many pages.
#![tactic(auto)]

use call_forward::{Letter, Message};
use call_table::{NoMemory, Words};
use node_core::{Node, Plan, Shape};
use node_event::{Order, Script, ScriptLine};
use page_set::Pages;
use policy_box::never_policy;
use std::alloc::Global;
use std::{env, io};
use user_ctx::{User, Users};

/// addi a7, x0, 3; ecall; jal x0, -8
const CALLS: [u32; 3] = [0x0030_0893, 0x0000_0073, 0xFF9F_F06F];

/// What is measured, how many rounds, and how many pages a process has.
#[derive(Clone, Copy)]
struct Task {
    rounds: u32,
    pages: u32,
}

/// A cluster of two nodes.
fn shape() -> Shape {
    Shape {
        nodes: 2,
        cap: 65_536,
        quantum: 16_384,
        journal: 1_048_576,
        word: 1,
    }
}

/// A process of as many pages that makes calls without an end.
fn process(alloc: Global, count: u32) -> Result<User, NoMemory> {
    let mut pages = Pages::new(alloc);
    if pages.map_range(1, 1 + count.min(1024), 7).is_err() {
        return Err(NoMemory);
    }
    let mut at = 0x1000u32;
    for word in &CALLS {
        pages.write(at, &word.to_le_bytes());
        at = at.wrapping_add(4);
    }
    Ok(User::new(0x1000, 0, 0, 0, pages, 0x50_0000))
}

/// A script that launches one process.
fn script(alloc: Global) -> Result<Script, NoMemory> {
    let mut script = Script::new(alloc);
    script.push(ScriptLine {
        line: 1,
        order: Order::Run {
            words: Words::new(alloc),
        },
    })?;
    Ok(script)
}

/// The context of that process.
fn users(alloc: Global, pages: u32) -> Result<Users, NoMemory> {
    let mut users = Users::new(alloc);
    users.push(process(alloc, pages)?)?;
    Ok(users)
}

/// Home, which launches it.
fn home(alloc: Global, pages: u32) -> Result<Node, NoMemory> {
    let script = script(alloc)?;
    let users = users(alloc, pages)?;
    Node::home(alloc, shape(), Plan { script, users })
}

/// A letter to a node.
fn letter(from: u8, to: u8, message: Message) -> Letter {
    Letter {
        from,
        to,
        stamp: 0,
        message,
    }
}

/// A turn of the node to which a letter goes.
fn hand(alloc: Global, home: &mut Node, other: &mut Node, letter: Letter) -> Result<(), NoMemory> {
    let node = if letter.to == 0 { home } else { other };
    let _turned = node.turn(alloc, Some(letter), &never_policy())?;
    Ok(())
}

/// Turns of both nodes with the letters of both, until none lies there: how many.
fn post(alloc: Global, home: &mut Node, other: &mut Node) -> Result<u32, NoMemory> {
    let mut turns = 0u32;
    for _ in 0..100 {
        let letter = match home.next_out() {
            Some(letter) => Some(letter),
            None => other.next_out(),
        };
        let Some(letter) = letter else {
            return Ok(turns);
        };
        hand(alloc, home, other, letter)?;
        turns = turns.saturating_add(1);
    }
    Ok(turns)
}

/// Pokes of a process that is not there: a turn each.
fn poke(alloc: Global, node: &mut Node, rounds: u32) -> Result<u32, NoMemory> {
    for _ in 0..rounds {
        let letter = letter(0, 1, Message::Poke { pid: 1 });
        let _turned = node.turn(alloc, Some(letter), &never_policy())?;
    }
    Ok(node.journal().len().min(9_999_999) as u32)
}

/// A node, and pokes there.
fn pokes(alloc: Global, rounds: u32) -> Result<u32, NoMemory> {
    let mut node = Node::away(alloc, 1, shape())?;
    poke(alloc, &mut node, rounds)
}

/// Calls that home serves to a process of its own: some steps, the call, its service and its return, a turn each.
fn call(alloc: Global, home: &mut Node, other: &mut Node, rounds: u32) -> Result<u32, NoMemory> {
    for _ in 0..rounds {
        let _turned = home.turn(alloc, None, &never_policy())?;
        let _turns = post(alloc, home, other)?;
    }
    Ok(home.journal().len().min(9_999_999) as u32)
}

/// Moves from a node to the other: the order, the question, the answer, the move and the landing, a turn each.
fn moves(alloc: Global, home: &mut Node, other: &mut Node, rounds: u32) -> Result<u32, NoMemory> {
    let mut turns = 0u32;
    for round in 0..rounds {
        let to = ((round + 1) % 2) as u8;
        let go = Message::Go {
            pid: 1,
            to,
            hops: round,
            line: 1,
        };
        let from = if to == 0 { 1 } else { 0 };
        hand(alloc, home, other, letter(0, from, go))?;
        turns = turns
            .saturating_add(1)
            .saturating_add(post(alloc, home, other)?);
    }
    Ok(turns)
}

/// What is measured on both nodes, once the process is launched.
fn launched(
    alloc: Global,
    home: &mut Node,
    other: &mut Node,
    word: &str,
    task: &Task,
) -> Result<u32, NoMemory> {
    let _launched = home.turn(alloc, None, &never_policy())?;
    if word == "calls" {
        call(alloc, home, other, task.rounds)
    } else {
        moves(alloc, home, other, task.rounds)
    }
}

/// The other node, and what is measured on both.
fn beside(alloc: Global, home: &mut Node, word: &str, task: &Task) -> Result<u32, NoMemory> {
    let mut other = Node::away(alloc, 1, shape())?;
    launched(alloc, home, &mut other, word, task)
}

/// Home, the other node, and what is measured on both.
fn both(alloc: Global, word: &str, task: &Task) -> Result<u32, NoMemory> {
    let mut home = home(alloc, task.pages)?;
    beside(alloc, &mut home, word, task)
}

/// Changes a byte and copies all. The byte as it was copied.
fn copy_once(from: &mut [u8], to: &mut [u8], round: u32) -> u32 {
    let place = round as usize % 4096;
    if place >= from.len() || from.len() != to.len() {
        return 0;
    }
    from[place] = (round % 256) as u8;
    to.copy_from_slice(from);
    to[place] as u32
}

/// Copies of as many pages. The sum of a byte of each.
fn copies(alloc: Global, task: &Task) -> Result<u32, NoMemory> {
    let size = task.pages.min(1024) as usize * 4096;
    let mut from = vec![in alloc; 1u8; size]?;
    let mut to = vec![in alloc; 0u8; size]?;
    let mut sum = 0u32;
    for round in 0..task.rounds {
        let byte = copy_once(from.as_mut_slice(), to.as_mut_slice(), round);
        sum = sum.wrapping_add(byte);
    }
    Ok(sum)
}

fn measured(alloc: Global, word: &str, task: &Task) -> Result<u32, NoMemory> {
    match word {
        "pokes" => pokes(alloc, task.rounds),
        "copies" => copies(alloc, task),
        _ => both(alloc, word, task),
    }
}

fn main(rt: HostRuntime) -> io::Result<()> {
    let alloc = rt.alloc();
    let mut name = String::new(alloc);
    let mut numbers = [10u32, 17];
    let mut place = 0usize;
    for word in env::args(&rt)?.skip(1) {
        if place == 0 {
            name = word;
        } else if place < 3 {
            numbers[place - 1] = word.parse::<u32>().unwrap_or(1);
        }
        place = place.saturating_add(1);
    }
    let task = Task {
        rounds: numbers[0],
        pages: numbers[1],
    };
    match measured(alloc, name.as_str(), &task) {
        Ok(count) => println!(rt; "{} {} rounds, {count}", name.as_str(), task.rounds),
        Err(_) => println!(rt; "out of memory"),
    }
}
