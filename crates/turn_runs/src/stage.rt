// What is played on, and what each line does with it.
use crate::alone::{asks, home_does, home_hears, lands};
use crate::messages::{Numbers, message, node, numbers};
use crate::programs::{code_of, user_of};
use crate::turning::{look, take, turn};
use call_forward::Letter;
use call_table::{NoMemory, Words};
use deputy::Deputies;
use migrate_proto::Reserve;
use node_core::{Node, Plan, Shape};
use node_event::{Order, Script, ScriptLine};
use std::alloc::Global;
use user_ctx::Users;

/// The name of a case, what the last line came to, how many lines were compared and what was wrong of them; the script and the contexts of the next home,
/// the program of the next process; and a node, the home side and reservations.
#[derive(Drop)]
pub struct Stage {
    pub name: String,
    pub told: String,
    pub wants: u32,
    pub wrong: String,
    plan: Plan,
    code: &'static [u32],
    node: Option<Node>,
    home: Option<Deputies>,
    reserve: Option<Reserve>,
}

fn no_plan(alloc: Global) -> Plan {
    Plan {
        script: Script::new(alloc),
        users: Users::new(alloc),
    }
}

/// A cluster whose nodes have 40 pages, and so much room for events.
fn shape(nodes: u32, journal: u32) -> Shape {
    Shape {
        nodes: node(nodes),
        cap: 40,
        quantum: 1000,
        journal,
        word: 1,
    }
}

impl Stage {
    /// Nothing to play on.
    pub fn new(alloc: Global) -> Stage {
        Stage {
            name: String::new(alloc),
            told: String::new(alloc),
            wants: 0,
            wrong: String::new(alloc),
            plan: no_plan(alloc),
            code: &[],
            node: None,
            home: None,
            reserve: None,
        }
    }

    /// A case begins.
    pub fn begin(&mut self, alloc: Global, name: &str) -> Result<(), NoMemory> {
        self.name = format!(in alloc; "{name}")?;
        self.wants = 0;
        self.wrong = String::new(alloc);
        Ok(())
    }

    /// The number of the next line of the script.
    fn next_line(&self) -> u32 {
        (self.plan.script.len() % 1000) as u32 + 1
    }

    /// A line more of the script: `run`, with a process of three pages, `kill PID SIGNAL` or `move PID TO`; any other is the end of the input.
    fn add_line(&mut self, alloc: Global, word: &str, n: &Numbers) -> Result<(), NoMemory> {
        let order = match word {
            "run" => Order::Run {
                words: Words::new(alloc),
            },
            "kill" => Order::Kill {
                pid: n[0],
                signal: node(n[1]),
            },
            "move" => Order::Move {
                pid: n[0],
                to: node(n[1]),
            },
            _ => Order::Eof,
        };
        if word == "run" {
            self.plan
                .users
                .push(user_of(alloc, 0, 3, n[0], self.code)?)?;
        }
        let line = self.next_line();
        self.plan.script.push(ScriptLine { line, order })?;
        Ok(())
    }

    /// Home of as many nodes, with the script so far: `NODES JOURNAL`.
    fn make_home(&mut self, alloc: Global, n: &Numbers) -> Result<(), NoMemory> {
        let plan = std::mem::replace(&mut self.plan, no_plan(alloc));
        self.node = Some(Node::home(alloc, shape(n[0], n[1]), plan)?);
        Ok(())
    }

    /// Another node: `ID NODES JOURNAL`.
    fn make_away(&mut self, alloc: Global, n: &Numbers) -> Result<(), NoMemory> {
        self.node = Some(Node::away(alloc, node(n[0]), shape(n[1], n[2]))?);
        Ok(())
    }

    /// The home side alone, or reservations alone.
    fn make_alone(&mut self, alloc: Global, word: &str) -> Result<(), NoMemory> {
        if word == "home" {
            self.home = Some(Deputies::new(alloc)?);
        } else {
            self.reserve = Some(Reserve::new(alloc)?);
        }
        Ok(())
    }
}

/// A letter: `FROM TO STAMP WORD NUMBERS`.
fn letter(alloc: Global, text: &str, code: &[u32]) -> Result<Option<Letter>, NoMemory> {
    let Some((from, text)) = text.split_once(' ') else {
        return Ok(None);
    };
    let Some((to, text)) = text.split_once(' ') else {
        return Ok(None);
    };
    let Some((stamp, text)) = text.split_once(' ') else {
        return Ok(None);
    };
    let (word, text) = text.split_once(' ').unwrap_or((text, ""));
    Ok(Some(Letter {
        from: from.parse::<u8>().unwrap_or(0),
        to: to.parse::<u8>().unwrap_or(0),
        stamp: stamp.parse::<u64>().unwrap_or(0),
        message: message(alloc, word, &numbers(text), code)?,
    }))
}

/// What the node does with a line: `letter`, `turn`, `look PID`.
fn node_line(
    alloc: Global,
    node: &mut Node,
    code: &[u32],
    word: &str,
    rest: &str,
) -> Result<String, NoMemory> {
    if word == "look" {
        return look(alloc, node, numbers(rest)[0]);
    }
    match letter(alloc, rest, code)? {
        Some(letter) if word == "letter" => take(alloc, node, letter),
        _ => turn(alloc, node, None),
    }
}

/// What the home side does with a line: `hears FROM WORD NUMBERS`, `does WORD NUMBERS`.
fn home_line(
    alloc: Global,
    home: &mut Deputies,
    word: &str,
    rest: &str,
) -> Result<String, NoMemory> {
    let (first, rest) = rest.split_once(' ').unwrap_or((rest, ""));
    if word == "does" {
        return home_does(alloc, home, first, &numbers(rest));
    }
    let (word, rest) = rest.split_once(' ').unwrap_or((rest, ""));
    let message = message(alloc, word, &numbers(rest), &[])?;
    home_hears(alloc, home, first.parse::<u8>().unwrap_or(0), message)
}

/// What reservations do with a line: `asks PID NEED CAP HELD`, `lands PID`.
fn reserve_line(
    alloc: Global,
    reserve: &mut Reserve,
    word: &str,
    n: &Numbers,
) -> Result<String, NoMemory> {
    if word == "asks" {
        asks(alloc, reserve, n)
    } else {
        lands(alloc, reserve, n[0])
    }
}

/// What a line comes to on what there is to play on.
fn played(alloc: Global, stage: &mut Stage, word: &str, rest: &str) -> Result<String, NoMemory> {
    match word {
        "hears" | "does" => match &mut stage.home {
            Some(home) => home_line(alloc, home, word, rest),
            None => Ok(String::new(alloc)),
        },
        "asks" | "lands" => match &mut stage.reserve {
            Some(reserve) => reserve_line(alloc, reserve, word, &numbers(rest)),
            None => Ok(String::new(alloc)),
        },
        _ => match &mut stage.node {
            Some(node) => node_line(alloc, node, stage.code, word, rest),
            None => Ok(String::new(alloc)),
        },
    }
}

/// Carries a line out: `line WORD NUMBERS`, `node NODES JOURNAL` for home and `away ID NODES JOURNAL`, `home` and `reserve` for these alone, `code NAME`, or one that is played.
pub fn carry_out(alloc: Global, stage: &mut Stage, word: &str, rest: &str) -> Result<(), NoMemory> {
    match word {
        "line" => {
            let (first, rest) = rest.split_once(' ').unwrap_or((rest, ""));
            stage.add_line(alloc, first, &numbers(rest))
        }
        "node" => stage.make_home(alloc, &numbers(rest)),
        "away" => stage.make_away(alloc, &numbers(rest)),
        "home" | "reserve" => stage.make_alone(alloc, word),
        "code" => {
            stage.code = code_of(rest);
            Ok(())
        }
        _ => {
            let told = played(alloc, stage, word, rest)?;
            stage.told = told;
            Ok(())
        }
    }
}
