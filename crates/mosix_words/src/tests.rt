use super::*;
use call_table::{Text, Words};
use std::alloc::Global;
use std::test::Fail;

/// The settings of words with one blank between, as text; `-` for bad words.
fn shown(alloc: Global, text: &str) -> Result<String, Fail> {
    let mut words = Words::new(alloc);
    for word in text.split(' ').filter(|word| !word.is_empty()) {
        words.push(Text::new(alloc, word)?)?;
    }
    match mode_of(alloc, &words) {
        Ok(s) => Ok(format!(in alloc;
            "{:?} {} {} {} {} {:?} {} {}",
            s.mode, s.nodes, s.pages, s.quantum, s.journal, s.seed, s.serial, s.events
        )?),
        Err(WordsError::BadWords) => Ok(String::from_str(alloc, "-")?),
        Err(WordsError::NoMemory) => Ok(String::from_str(alloc, "no memory")?),
    }
}

/// Words, and what they ask for.
const WORDS: [(&str, &str); 44] = [
    ("run", "Run 4 4096 16384 262144 None false false"),
    ("asm", "Asm 4 4096 16384 262144 None false false"),
    ("gen", "Gen 4 4096 16384 262144 None false false"),
    ("--nodes 1 run", "Run 1 4096 16384 262144 None false false"),
    ("run --nodes 8", "Run 8 4096 16384 262144 None false false"),
    ("--nodes=4 run", "Run 4 4096 16384 262144 None false false"),
    (
        "--nodes 0001 run",
        "Run 1 4096 16384 262144 None false false",
    ),
    (
        "--serial --events run",
        "Run 4 4096 16384 262144 None true true",
    ),
    ("run --events", "Run 4 4096 16384 262144 None false true"),
    ("-- run", "Run 4 4096 16384 262144 None false false"),
    ("run --", "Run 4 4096 16384 262144 None false false"),
    ("--pages 16 run", "Run 4 16 16384 262144 None false false"),
    (
        "--pages 65536 run",
        "Run 4 65536 16384 262144 None false false",
    ),
    ("--quantum 1 run", "Run 4 4096 1 262144 None false false"),
    (
        "--quantum 65536 run",
        "Run 4 4096 65536 262144 None false false",
    ),
    ("--journal 1 run", "Run 4 4096 16384 1 None false false"),
    (
        "--journal 1048576 run",
        "Run 4 4096 16384 1048576 None false false",
    ),
    (
        "--seed 0 gen",
        "Gen 4 4096 16384 262144 Some(0) false false",
    ),
    (
        "--seed 18446744073709551615 run",
        "Run 4 4096 16384 262144 Some(18446744073709551615) false false",
    ),
    ("--seed 18446744073709551616 run", "-"),
    ("--seed 000000000000000000001 run", "-"),
    (
        "--seed 00000000000000000001 run",
        "Run 4 4096 16384 262144 Some(1) false false",
    ),
    ("", "-"),
    ("--nodes 9 run", "-"),
    ("--nodes 0 run", "-"),
    ("--nodes -1 run", "-"),
    ("--nodes +1 run", "-"),
    ("--nodes run", "-"),
    ("--nodes -- run", "-"),
    ("--nodes 1 --nodes 1 run", "-"),
    ("--pages 15 run", "-"),
    ("--pages 65537 run", "-"),
    ("--quantum 0 run", "-"),
    ("--quantum 65537 run", "-"),
    ("--journal 0 run", "-"),
    ("--journal 1048577 run", "-"),
    ("--serial=x run", "-"),
    ("--serial --serial run", "-"),
    ("--help", "-"),
    ("--version", "-"),
    ("-h run", "-"),
    ("run run", "-"),
    ("walk", "-"),
    ("--nodes 1", "-"),
];

#[test]
fn words(rt: HostRuntime) -> Result<(), Fail> {
    let alloc = rt.alloc();
    for (words, want) in WORDS.iter() {
        let got = shown(alloc, words)?;
        assert!(rt; got.as_str() == *want, "{words} gives {got}");
    }
    Ok(())
}
