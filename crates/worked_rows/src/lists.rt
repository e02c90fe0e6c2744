// Bytes, lists and texts, with memory enough.
use call_table::{Bytes, NoMemory, PidState, Statuses, Text, Words};
use node_event::{Order, Script, ScriptLine};
use std::alloc::Global;
use std::test::Fail;

/// Bytes by each call that adds to them.
fn abcde(alloc: Global) -> Result<Bytes, NoMemory> {
    let mut bytes = Bytes::from_slice(alloc, b"ab")?;
    bytes.push_slice(b"cd")?;
    bytes.push(b'e')?;
    Ok(bytes)
}

#[test]
fn bytes(rt: HostRuntime) -> Result<(), Fail> {
    let mut bytes = abcde(rt.alloc())?;
    let copy = bytes.copy(rt.alloc())?;
    assert_eq!(rt; bytes.pop(), Some(b'e'));
    assert_eq!(rt; bytes.as_slice(), b"abcd".as_slice());
    assert_eq!(rt;
        (copy.len(), copy.get(1), copy.get(5)),
        (5, Some(b'b'), None)
    );
    assert_eq!(rt; copy.into_vec().as_slice(), b"abcde".as_slice());
    Ok(())
}

#[test]
fn bytes_of_a_vector(rt: HostRuntime) -> Result<(), Fail> {
    let mut bytes = Bytes::from_vec([7].to_vec(rt.alloc())?);
    assert_eq!(rt; (bytes.pop(), bytes.pop()), (Some(7), None));
    Ok(())
}

/// Two words.
fn two_words(alloc: Global) -> Result<Words, NoMemory> {
    let mut words = Words::new(alloc);
    words.push(Text::new(alloc, "cat")?)?;
    words.push(Text::new(alloc, "/etc")?)?;
    Ok(words)
}

/// Whether this is the word there.
fn is_word(words: &Words, at: usize, want: &str) -> bool {
    match words.get(at) {
        Some(word) => word.as_str() == want,
        None => false,
    }
}

#[test]
fn words(rt: HostRuntime) -> Result<(), Fail> {
    let mut words = two_words(rt.alloc())?;
    assert!(rt; is_word(&words, 0, "cat") && is_word(&words, 1, "/etc"));
    assert!(rt; words.get(2).is_none() && words.pop().is_some());
    assert_eq!(rt; (words.len(), words.as_slice().len()), (1, 1));
    Ok(())
}

#[test]
fn statuses(rt: HostRuntime) -> Result<(), Fail> {
    let mut statuses = Statuses::from_vec([(1, PidState::Live)].to_vec(rt.alloc())?);
    statuses.push((2, PidState::Exit(3)))?;
    let want = [(1, PidState::Live), (2, PidState::Exit(3))];
    assert_eq!(rt; statuses.as_slice(), want.as_slice());
    assert_eq!(rt; statuses.into_vec().len(), 2);
    Ok(())
}

/// Two orders.
fn two_lines(alloc: Global) -> Result<Script, NoMemory> {
    let mut script = Script::new(alloc);
    let words = two_words(alloc)?;
    script.push(ScriptLine {
        line: 1,
        order: Order::Run { words },
    })?;
    let text = Bytes::from_slice(alloc, b"hi\n")?;
    script.push(ScriptLine {
        line: 2,
        order: Order::Feed { text },
    })?;
    Ok(script)
}

/// Whether the order there is of this line.
fn is_of_line(script: &Script, at: usize, line: u32) -> bool {
    match script.get(at) {
        Some(order) => order.line == line,
        None => false,
    }
}

#[test]
fn lines_of_a_script(rt: HostRuntime) -> Result<(), Fail> {
    let script = two_lines(rt.alloc())?;
    assert_eq!(rt; script.len(), 2);
    assert!(rt; is_of_line(&script, 0, 1) && is_of_line(&script, 1, 2));
    Ok(())
}

/// Want of memory, as text.
#[test]
fn want_of_memory(rt: HostRuntime) -> Result<(), Fail> {
    let text = format!(in rt.alloc(); "{}", NoMemory)?;
    assert_eq!(rt; text.as_str(), "out of memory");
    Ok(())
}
