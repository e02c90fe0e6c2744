// Messages that are made by hand, each of a word and up to eight numbers, of which those left out are 0.
use crate::programs::user_of;
use call_forward::{Done, Message};
use call_table::{Answer, Bytes, Entry, Kind, NoMemory, Request, Taken};
use std::alloc::Global;

/// Up to eight numbers.
pub type Numbers = [u32; 8];

/// The numbers of a text.
pub fn numbers(text: &str) -> Numbers {
    let mut numbers = [0; 8];
    let mut place = 0usize;
    for word in text.split(' ') {
        if place < 8 {
            numbers[place] = word.parse::<u32>().unwrap_or(0);
        }
        place = place.saturating_add(1);
    }
    numbers
}

/// A node. A number above 255 is 255.
pub fn node(number: u32) -> u8 {
    number.min(255) as u8
}

/// A line of the script. 0 is none.
pub fn line(number: u32) -> Option<u32> {
    if number == 0 { None } else { Some(number) }
}

/// As many zeros.
fn zeros(alloc: Global, count: u32) -> Result<Bytes, NoMemory> {
    let mut bytes = Bytes::new(alloc);
    for _ in 0..count {
        bytes.push(0)?;
    }
    Ok(bytes)
}

/// `PID NUMBER ARGUMENT ARGUMENT ARGUMENT BYTES`.
fn request(alloc: Global, n: &Numbers) -> Result<Request, NoMemory> {
    Ok(Request {
        number: n[1],
        args: [n[2], n[3], n[4], 0, 0, 0],
        bytes: zeros(alloc, n[5])?,
        room: true,
    })
}

/// `PID KIND VALUE BYTES`, where kind 1 is plain, 2 of a fork and 3 a return; any other is no answer.
fn answer(alloc: Global, n: &Numbers) -> Result<Option<Answer>, NoMemory> {
    let kind = match n[1] {
        1 => Kind::Plain,
        2 => Kind::Fork,
        3 => Kind::Return,
        _ => return Ok(None),
    };
    Ok(Some(Answer {
        value: n[2].cast_signed(),
        bytes: zeros(alloc, n[3])?,
        kind,
    }))
}

/// 1 is the handler of signal 10, at the start of the program; 9 is death.
fn taken(number: u32) -> Option<Taken> {
    match number {
        1 => Some(Taken::Enters {
            signal: 10,
            handler: 0x1000,
            restorer: 0x1000,
            mask: 0,
        }),
        9 => Some(Taken::Dies(9)),
        _ => None,
    }
}

/// `PID KIND VALUE BYTES TAKEN ENDED MORE`.
fn done(alloc: Global, n: &Numbers) -> Result<Done, NoMemory> {
    Ok(Done {
        answer: answer(alloc, n)?,
        taken: taken(n[4]),
        ended: n[5] == 1,
        more: n[6] == 1,
    })
}

/// `PID OF PAGES HOPS LINE STACK`: a process of pid `OF` that runs a program.
fn moved(alloc: Global, n: &Numbers, code: &[u32]) -> Result<Message, NoMemory> {
    Ok(Message::Move {
        pid: n[0],
        user: user_of(alloc, n[1], n[2], n[5], code)?,
        hops: n[3],
        line: line(n[4]),
    })
}

/// `NODE LOAD FREE STAMP`, in the third place.
fn half(n: &Numbers) -> Message {
    let entry = Entry {
        node: node(n[0]),
        load: n[1],
        free: n[2],
        stamp: n[3] as u64,
    };
    Message::Half {
        places: [None, None, Some(entry), None],
    }
}

/// A message between holders, or an order: `go PID TO HOPS LINE`, `ask PID NEED`, `deny PID NEED FREE`.
fn order(word: &str, n: &Numbers) -> Message {
    let pid = n[0];
    match word {
        "go" => Message::Go {
            pid,
            to: node(n[1]),
            hops: n[2],
            line: n[3],
        },
        "ask" => Message::Ask { pid, need: n[1] },
        "allow" => Message::Allow { pid },
        "deny" => Message::Deny {
            pid,
            need: n[1],
            free: n[2],
        },
        "half" => half(n),
        _ => Message::Poke { pid },
    }
}

/// What home hears of moves: `missed PID TO HOPS LINE`, `landed PID SOURCE HOPS LINE`, `nomove LINE`.
fn heard(word: &str, n: &Numbers) -> Message {
    let pid = n[0];
    let other = node(n[1]);
    let hops = n[2];
    match word {
        "missed" => Message::NotHere {
            pid,
            to: other,
            hops,
            line: n[3],
        },
        "landed" => Message::Landed {
            pid,
            source: other,
            hops,
            line: line(n[3]),
        },
        _ => Message::NoMove { line: pid },
    }
}

/// The message of a word and its numbers. A process that moves runs this program.
pub fn message(alloc: Global, word: &str, n: &Numbers, code: &[u32]) -> Result<Message, NoMemory> {
    let pid = n[0];
    match word {
        "call" => Ok(Message::Call {
            pid,
            request: request(alloc, n)?,
        }),
        "pause" => Ok(Message::Pause {
            pid,
            room: n[1] == 1,
        }),
        "reply" => Ok(Message::Reply {
            pid,
            done: done(alloc, n)?,
        }),
        "move" => moved(alloc, n, code),
        "missed" | "landed" | "nomove" => Ok(heard(word, n)),
        _ => Ok(order(word, n)),
    }
}
