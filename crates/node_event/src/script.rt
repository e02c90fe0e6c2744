// The script of a run.
use call_table::{Bytes, ListOf, Words};

/// What a line of the script orders.
#[derive(Debug, Drop)]
pub enum Order {
    Run { words: Words },
    Kill { pid: u32, signal: u8 },
    Move { pid: u32, to: u8 },
    Feed { text: Bytes },
    Eof,
    Wait { pid: u32 },
    After { pid: u32, count: u32 },
    Held { pid: u32 },
    Slots { count: u32 },
}

/// An order and the number of its line, counted from 1.
#[derive(Debug, Drop)]
pub struct ScriptLine {
    pub line: u32,
    pub order: Order,
}

/// The orders of a script, by line.
pub type Script = ListOf<ScriptLine>;
