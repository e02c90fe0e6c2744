// A program to be played, and what is done from outside, as lines of a text tell them.
use call_table::{Bytes, NoMemory, Words};
use elf_load::load;
use one_node::{Feeds, Setup, Step};
use rv_asm::assemble;
use std::alloc::Global;
use user_ctx::{User, Users};

/// The text of a program; its context, once it is assembled and loaded, with what may be typed; and the steps from outside, which are made in their order
/// where no process can go.
#[derive(Drop)]
pub struct Record {
    pub text: Bytes,
    pub setup: Setup,
    pub outside: Vec<Step>,
}

fn number(word: &str) -> Option<u32> {
    word.parse::<u32>().ok()
}

/// A process and a number.
fn pair(words: &str) -> Option<(u32, u32)> {
    let (pid, other) = words.split_once(' ')?;
    Some((number(pid)?, number(other)?))
}

/// A signal that is raised at a process.
fn raised(words: &str) -> Option<Step> {
    let (pid, signal) = pair(words)?;
    Some(Step::Raise {
        pid,
        signal: signal.min(255) as u8,
    })
}

/// The step that these words name. None where they name none.
pub fn step_of(words: &str) -> Option<Step> {
    let (word, rest) = words.split_once(' ').unwrap_or((words, ""));
    match word {
        "launch" => Some(Step::Launch(number(rest)?)),
        "feed" => Some(Step::Feed(number(rest)?)),
        "eof" => Some(Step::Eof),
        "raise" => raised(rest),
        "steps" => {
            let (pid, k) = pair(rest)?;
            Some(Step::Steps { pid, k })
        }
        "do" => Some(Step::Do(number(rest)?)),
        "break" => Some(Step::Break(number(rest)?)),
        "take" => Some(Step::Take(number(rest)?)),
        "fall" => Some(Step::Fall(number(rest)?)),
        _ => None,
    }
}

/// A line of bytes.
fn line_of(alloc: Global, text: &str) -> Result<Bytes, NoMemory> {
    let mut bytes = Bytes::from_slice(alloc, text.as_bytes())?;
    bytes.push(b'\n')?;
    Ok(bytes)
}

/// The context of a text. None where it is no program.
fn user_of(alloc: Global, text: &[u8]) -> Option<User> {
    let file = assemble(alloc, text).ok()?;
    load(alloc, file.as_slice(), &Words::new(alloc)).ok()
}

impl Record {
    /// No program.
    pub fn new(alloc: Global) -> Record {
        Record {
            text: Bytes::new(alloc),
            setup: Setup {
                users: Users::new(alloc),
                feeds: Feeds::new(alloc),
            },
            outside: Vec::new(alloc),
        }
    }

    /// A line more of the program's text.
    pub fn add_code(&mut self, code: &str) -> Result<(), NoMemory> {
        self.text.push_slice(code.as_bytes())?;
        self.text.push(b'\n')?;
        Ok(())
    }

    /// A line more that may be typed.
    pub fn add_feed(&mut self, alloc: Global, text: &str) -> Result<(), NoMemory> {
        self.setup.feeds.push(line_of(alloc, text)?)?;
        Ok(())
    }

    /// A step more from outside. A text that is no step adds none.
    pub fn add_outside(&mut self, words: &str) -> Result<(), NoMemory> {
        if let Some(step) = step_of(words) {
            self.outside.push(step)?;
        }
        Ok(())
    }

    /// Assembles and loads the program, if that was not done yet. A text that is no program loads nothing.
    pub fn load(&mut self, alloc: Global) -> Result<(), NoMemory> {
        if self.setup.users.len() > 0 {
            return Ok(());
        }
        if let Some(user) = user_of(alloc, self.text.as_slice()) {
            self.setup.users.push(user)?;
        }
        Ok(())
    }
}
