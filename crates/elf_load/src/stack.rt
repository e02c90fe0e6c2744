// The start stack: the words of the line, and the table of their addresses.
ghost use Rattle.std.specs.Prelude.{◌≡◌, ◌≤◌, ◌<◌, ◌+◌, ◌-◌, ◌^◌, ◌++◌, IfOk, OnOk, length};
ghost use Rattle.std.specs.Int.{w32, to_le_bytes};
ghost use Rattle.elf_load.specs.Image.{words_bytes, words_start, address_table, table_start, start_size};
ghost use Rattle.elf_load.specs.Parts.{stack_bytes};

use call_table::{NoMemory, Words};
use std::alloc::Global;

/// The address after the stack's last byte.
const STACK_END: u32 = 0x8000_0000;

/// How many bytes the words take, with a zero byte behind each.
#[tactic(auto, using(crate::proofs::Stacks::words_more, crate::proofs::Stacks::words_all, crate::proofs::Stacks::size_is))]
fn words_size(words: &Words) -> u32
    requires { start_size words.now ≤ 8192 }
    ensures { result ≡ length (words_bytes words.now) }
{
    let mut size = 0;
    for word in words.as_slice() {
        size += word.as_str().len() as u32 + 1;
    }
    size
}

/// Where the words begin.
#[tactic(auto, using(crate::proofs::Stacks::size_is))]
fn words_start(words: &Words) -> u32
    requires { start_size words.now ≤ 8192 }
    ensures is { result ≡ words_start words.now }
    ensures end { result + length (words_bytes words.now) ≡ 2 ^ 31 }
{
    STACK_END - words_size(words)
}

/// How many words there are.
#[tactic(auto, using(crate::proofs::Stacks::few_words))]
pub fn word_count(words: &Words) -> u32
    requires { start_size words.now ≤ 8192 }
    ensures { result ≡ length words.now }
{
    words.len() as u32
}

/// Where the table of addresses begins.
#[tactic(auto, using(crate::proofs::Stacks::size_is))]
pub fn table_start(words: &Words) -> u32
    requires { start_size words.now ≤ 8192 }
    ensures is { result ≡ table_start words.now }
{
    words_start(words) / 4 * 4 - 4 * (word_count(words) + 1)
}

fn push_word(bytes: &mut Vec<u8>, word: u32) -> Result<(), NoMemory>
    ensures { OnOk result (bytes.new.items ≡ bytes.old.items ++ to_le_bytes w32 word) }
{
    bytes.extend_from_slice(&word.to_le_bytes())?;
    Ok(())
}

/// The addresses of the words, the first of which stands at `start`, and a zero word.
#[tactic(auto, using(crate::proofs::Stacks::table_more, crate::proofs::Stacks::table_all, crate::proofs::Stacks::words_more, crate::proofs::Stacks::words_all))]
fn address_table(alloc: Global, words: &Words, start: u32) -> Result<Vec<u8>, NoMemory>
    requires { start + length (words_bytes words.now) ≤ 2 ^ 31 }
    ensures { IfOk result (λ v. v.items ≡ address_table start words.now) }
{
    let mut table = Vec::new(alloc);
    let mut addr = start;
    for word in words.as_slice() {
        push_word(&mut table, addr)?;
        addr += word.as_str().len() as u32 + 1;
    }
    push_word(&mut table, 0)?;
    Ok(table)
}

/// Appends the words, a zero byte behind each.
#[tactic(auto, using(crate::proofs::Stacks::pushed_more, crate::proofs::Stacks::pushed_all))]
fn push_words(bytes: &mut Vec<u8>, words: &Words) -> Result<(), NoMemory>
    ensures { OnOk result (bytes.new.items ≡ bytes.old.items ++ words_bytes words.now) }
{
    for word in words.as_slice() {
        bytes.extend_from_slice(word.as_str().as_bytes())?;
        bytes.push(0)?;
    }
    Ok(())
}

/// The stack's bytes from the table on.
pub fn stack_bytes(alloc: Global, words: &Words) -> Result<Vec<u8>, NoMemory>
    requires { start_size words.now ≤ 8192 }
    ensures { IfOk result (λ v. v.items ≡ stack_bytes words.now) }
{
    let start = words_start(words);
    let mut bytes = address_table(alloc, words, start)?;
    bytes.extend_from_slice(&[0; 3][..(start % 4) as usize])?;
    push_words(&mut bytes, words)?;
    Ok(bytes)
}
