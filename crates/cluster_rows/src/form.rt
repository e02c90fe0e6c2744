// What is looked at of an output.
use call_table::{Bytes, NoMemory};
use std::alloc::Global;
use std::str;

/// Whether a word is one of some words.
fn is_among(word: &str, words: &str) -> bool {
    words.split(' ').any(|other| other == word)
}

/// The outcomes of moves, in a report and in a summary.
const OUTCOMES: &str = "move refused stay none open moves";

/// The node, the word and the fields of an event line. None where it is none of such a word.
fn event_of<'a>(line: &'a str, words: &str) -> Option<&'a str> {
    let (stamp, event) = line.split_once(' ')?;
    let (_, rest) = event.split_once(' ')?;
    let (word, _) = rest.split_once(' ').unwrap_or((rest, ""));
    if stamp.parse::<u64>().is_err() || !is_among(word, words) {
        return None;
    }
    Some(event)
}

/// What is looked at of a line.
fn kept<'a>(line: &'a str, form: &str) -> Option<&'a str> {
    if let Some(words) = form.strip_prefix("events ") {
        return event_of(line, words);
    }
    let (word, _) = line.split_once(' ').unwrap_or((line, ""));
    if is_among(word, OUTCOMES) {
        return None;
    }
    Some(line)
}

fn push_line(lines: &mut Bytes, line: &str) -> Result<(), NoMemory> {
    lines.push_slice(line.as_bytes())?;
    lines.push(b'\n')?;
    Ok(())
}

/// What is looked at of a text of whole lines.
fn kept_lines(alloc: Global, text: &str, form: &str) -> Result<Bytes, NoMemory> {
    let mut lines = Bytes::new(alloc);
    for line in text.strip_suffix('\n').unwrap_or(text).split('\n') {
        if let Some(line) = kept(line, form) {
            push_line(&mut lines, line)?;
        }
    }
    Ok(lines)
}

/// How many event lines a text has of each of some words.
fn counted(alloc: Global, text: &str, words: &str) -> Result<Bytes, NoMemory> {
    let mut lines = Bytes::new(alloc);
    for word in words.split(' ') {
        let events = text
            .split('\n')
            .filter(|line| event_of(line, word).is_some());
        let line = format!(in alloc; "{word} {}", events.count())?;
        push_line(&mut lines, line.as_str())?;
    }
    Ok(lines)
}

/// What is looked at of an output in a form.
pub fn seen(alloc: Global, output: &[u8], form: &str) -> Result<Bytes, NoMemory> {
    let Ok(text) = str::from_utf8(output) else {
        return Bytes::from_slice(alloc, output);
    };
    if form == "report" {
        return Bytes::from_slice(alloc, output);
    }
    match form.strip_prefix("counts ") {
        Some(words) => counted(alloc, text, words),
        None => kept_lines(alloc, text, form),
    }
}
