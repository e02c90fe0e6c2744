// One turn of a node, and what came of it.
use crate::telling::{Seen, node_seen, place, push_event, push_post};
use call_forward::Letter;
use call_table::NoMemory;
use node_core::{Node, Turned};
use policy_box::never_policy;
use std::alloc::Global;

/// The letters that the node posted.
fn push_posts(alloc: Global, text: &mut String, node: &mut Node) -> Result<(), NoMemory> {
    for _ in 0..4 {
        if let Some(letter) = node.next_out() {
            push_post(alloc, text, letter.to, &letter.message)?;
        }
    }
    Ok(())
}

/// The word of what a turn did, where it made no event.
fn word(turned: Turned, is_strange: bool) -> &'static str {
    match turned {
        Turned::Did if is_strange => "strange",
        Turned::Did => "nothing",
        Turned::Idle => "idle",
        Turned::Finished => "finished",
        Turned::JournalFull => "full",
    }
}

/// What came of a turn, where it made no event: its word, whether anything changed, and what was posted.
fn push_word(
    alloc: Global,
    text: &mut String,
    node: &Node,
    before: &Seen,
    word: &str,
) -> Result<(), NoMemory> {
    text.push_str(word)?;
    if node_seen(alloc, node)? != *before {
        text.push_str("; changed")?;
    }
    Ok(())
}

/// A turn, and what came of it: its event and the letters that it posted; or one word, and whether anything changed.
pub fn turn(alloc: Global, node: &mut Node, inbox: Option<Letter>) -> Result<String, NoMemory> {
    let mut text = String::new(alloc);
    let before = node_seen(alloc, node)?;
    let strange = node.strange();
    let turned = node.turn(alloc, inbox, &never_policy())?;
    let word = word(turned, node.strange() > strange);
    match node.journal().as_slice().last() {
        Some(event) if node.journal().len() > before.events => {
            push_event(alloc, &mut text, event)?
        }
        _ => push_word(alloc, &mut text, node, &before, word)?,
    }
    push_posts(alloc, &mut text, node)?;
    Ok(text)
}

/// Whether the contexts and the home side of a node say that a letter fits, as far as they decide it.
fn suits(node: &Node, letter: &Letter) -> bool {
    if !node.hosted().suits(letter.from, &letter.message) {
        return false;
    }
    match node.deputies() {
        None => true,
        Some(home) => home.suits(&letter.message),
    }
}

/// A turn with a letter. It is told where the contexts or the home side say beforehand that it does not fit.
pub fn take(alloc: Global, node: &mut Node, letter: Letter) -> Result<String, NoMemory> {
    let suits = suits(node, &letter);
    let mut text = turn(alloc, node, Some(letter))?;
    if !suits {
        text.push_str("; foreseen")?;
    }
    Ok(text)
}

/// How a process stands at a node.
pub fn look(alloc: Global, node: &Node, pid: u32) -> Result<String, NoMemory> {
    let hosted = node.hosted();
    let (state, kept, poked, need) = place(hosted, pid);
    let (load, pages) = (hosted.load(), hosted.pages());
    Ok(format!(in alloc;
        "{state:?} kept {kept} poked {poked} need {need:?}; load {load} pages {pages}"
    )?)
}
