// What the words ask for.
ghost use Rattle.std.specs.Prelude.{◌≡◌, ◌≢◌, IfOk, IfErr, false, map};
ghost use Rattle.std.specs.Option.{option_map};
ghost use Rattle.clap.specs.Words.{rows_of, found_of, first_of, kind_of};
ghost use Rattle.mosix_words.specs.Settings.{mode_named, mode_in, seed_in, is_set, settings_in, settings_of};

use crate::command::parse;
use crate::number::{number_in, number_or};
use call_table::{NoMemory, Text, Words, limit};
use clap::error::ErrorKind;
use clap::{ArgMatches, Error};
use std::alloc::Global;

/// What the program is to do.
#[derive(Clone, Copy, Debug, PartialEq, Eq)]
pub enum Mode {
    /// Reads a script, runs it and prints the report.
    Run,
    /// Reads an assembler text and prints the file of its program.
    Asm,
    /// Makes work from the seed, runs it and prints a summary.
    Gen,
}

/// What the program's words ask for.
#[derive(Clone, Copy, Debug, PartialEq, Eq)]
pub struct Settings {
    pub mode: Mode,
    /// 1 to 8.
    pub nodes: u8,
    /// Pages of a node: 16 to 65,536.
    pub pages: u32,
    /// Steps of a turn: 1 to 65,536.
    pub quantum: u32,
    /// Events of a node's journal: 1 to 1,048,576.
    pub journal: u32,
    pub seed: Option<u64>,
    /// Whether one thread makes all turns.
    pub serial: bool,
    /// Whether the report has the lines of the events.
    pub events: bool,
}

/// Why there are no settings.
#[derive(Clone, Copy, Debug, PartialEq, Eq)]
pub enum WordsError {
    BadWords,
    NoMemory,
}

/// Nodes, where the words name no number of them.
const NODES: u32 = 4;

/// Pages of a node, likewise.
const PAGES: u32 = 4096;

/// Steps of a turn, likewise.
const STEPS: u32 = 16_384;

/// Events of a journal, likewise.
const EVENTS: u32 = 262_144;

fn mode_named(name: &str) -> Option<Mode>
    ensures { result ≡ mode_named name.now }
{
    if name == "run" {
        return Some(Mode::Run);
    }
    if name == "asm" {
        return Some(Mode::Asm);
    }
    if name == "gen" {
        return Some(Mode::Gen);
    }
    None
}

fn mode_in(word: Option<&str>) -> Option<Mode>
    ensures { result ≡ mode_in (option_map (λ w. w.now) word.entry) }
{
    match word {
        Some(name) => mode_named(name),
        None => None,
    }
}

/// The seed, where one is given; None where it is no number.
fn seed_in(word: Option<&str>) -> Option<Option<u64>>
    ensures { result ≡ seed_in (option_map (λ w. w.now) word.entry) }
{
    match word {
        Some(word) => match number_in(0, u64::MAX, word) {
            Some(seed) => Some(Some(seed)),
            None => None,
        },
        None => Some(None),
    }
}

fn is_set(word: Option<&str>) -> bool
    ensures { result ≡ is_set (option_map (λ w. w.now) word.entry) }
{
    match word {
        Some(word) => word == "true",
        None => false,
    }
}

/// The value of an option, a flag or the word.
fn value_of<'a>(matches: &ArgMatches<'a>, name: &str) -> Option<&'a str>
    ensures { option_map (λ s. s.now) result ≡ first_of name.now (rows_of (found_of matches.now)) }
{
    matches.get_str(name)
}

/// The settings that the command's matches make, where each value is in its range.
fn settings_in(matches: &ArgMatches) -> Option<Settings>
    ensures { result ≡ settings_in (rows_of (found_of matches.now)) }
{
    let Some(mode) = mode_in(value_of(matches, "mode")) else {
        return None;
    };
    let nodes = value_of(matches, "nodes");
    let Some(nodes) = number_or(NODES, 1, limit::NODES as u32, nodes) else {
        return None;
    };
    let pages = value_of(matches, "pages");
    let Some(pages) = number_or(PAGES, limit::LEAST_NODE_PAGES, limit::NODE_PAGES, pages) else {
        return None;
    };
    let quantum = value_of(matches, "quantum");
    let Some(quantum) = number_or(STEPS, 1, limit::QUANTUM, quantum) else {
        return None;
    };
    let journal = value_of(matches, "journal");
    let Some(journal) = number_or(EVENTS, 1, limit::JOURNAL, journal) else {
        return None;
    };
    let Some(seed) = seed_in(value_of(matches, "seed")) else {
        return None;
    };
    Some(Settings {
        mode,
        nodes: nodes as u8,
        pages,
        quantum,
        journal,
        seed,
        serial: is_set(value_of(matches, "serial")),
        events: is_set(value_of(matches, "events")),
    })
}

fn is_memory(e: &Error) -> bool
    ensures { result ≡ false → kind_of e.now ≢ ErrorKind.OutOfMemory }
{
    match e.kind() {
        ErrorKind::OutOfMemory => true,
        _ => false,
    }
}

fn refusal(e: Error) -> WordsError
    ensures { result ≡ WordsError.BadWords → kind_of e ≢ ErrorKind.OutOfMemory }
{
    if is_memory(&e) {
        WordsError::NoMemory
    } else {
        WordsError::BadWords
    }
}

fn settings_by(alloc: Global, words: &[&str]) -> Result<Settings, WordsError>
    ensures ok { IfOk result (λ s. settings_of (map (λ w. w.now) words.now) ≡ Some s) }
    ensures bad { IfErr result (λ e. e ≡ WordsError.BadWords → settings_of (map (λ w. w.now) words.now) ≡ None) }
{
    match parse(alloc, words) {
        Ok(matches) => match settings_in(&matches) {
            Some(settings) => Ok(settings),
            None => Err(WordsError::BadWords),
        },
        Err(e) => Err(refusal(e)),
    }
}

fn texts_of<'a>(alloc: Global, words: &'a [Text]) -> Result<Vec<&'a str>, NoMemory>
    ensures { IfOk result (λ texts. map (λ t. t.now) texts.items ≡ words.now) }
{
    let mut texts = Vec::new(alloc);
    for word in words {
        texts.push(word.as_str())?;
    }
    Ok(texts)
}

/// What the program's words, without its own name, ask for. They are words of one simple command of `clap`; a number is 1 to 20
/// decimal digits and in its range. `BadWords` comes exactly for any others.
pub fn mode_of(alloc: Global, words: &Words) -> Result<Settings, WordsError>
    ensures ok { IfOk result (λ s. settings_of words.now ≡ Some s) }
    ensures bad { IfErr result (λ e. e ≡ WordsError.BadWords → settings_of words.now ≡ None) }
{
    match texts_of(alloc, words.as_slice()) {
        Ok(texts) => settings_by(alloc, texts.as_slice()),
        Err(_) => Err(WordsError::NoMemory),
    }
}
