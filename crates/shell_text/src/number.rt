// Numbers as a script writes them.
ghost use Rattle.std.specs.Prelude.{◌≡◌, ◌≤◌, IfSome, IsTrue, true};
ghost use Rattle.std.specs.Char.{digit_value};
ghost use Rattle.std.specs.Int.{IsInRange};
ghost use Rattle.std.specs.Str.{all_ascii_digits};
ghost use Rattle.std.specs.Str.Parse.{digits_value};
ghost use Rattle.shell_text.specs.Numbers.{at_most, is_number, number_in, pid_of, count_of, slots_of, node_of, known_signal, signal_of};

use crate::fault::FaultKind;
use call_table::{is_signal, limit};

/// A number has at most so many digits.
const DIGITS: usize = 10;

/// The most calls that an `after` waits for.
const CALLS: u32 = 1_000_000;

fn is_digits(word: &[u8]) -> bool
    ensures { result ≡ all_ascii_digits word.now }
{
    for byte in word {
        if !byte.is_ascii_digit() {
            return false;
        }
    }
    true
}

/// Whether a word is 1 to 10 decimal digits.
fn is_number(word: &[u8]) -> bool
    ensures is { result ≡ is_number word.now }
    ensures digits { IsTrue result → all_ascii_digits word.now ≡ true }
{
    if word.is_empty() {
        return false;
    }
    if word.len() > DIGITS {
        return false;
    }
    is_digits(word)
}

/// The value of a decimal digit.
fn digit_of(byte: u8) -> u64
    requires { IsInRange 48 57 byte }
    ensures { result ≡ digit_value byte }
{
    u64::from(byte - b'0')
}

/// The number that decimal digits write. None exactly where it is more than `most`.
#[tactic(auto, using(crate::proofs::NumberLemmas::digit_at_index, crate::proofs::NumberLemmas::digits_more, crate::proofs::NumberLemmas::digits_end, crate::proofs::NumberLemmas::digits_over))]
fn value_of(digits: &[u8], most: u64) -> Option<u64>
    requires { all_ascii_digits digits.now ≡ true }
    ensures value { result ≡ at_most most (digits_value 10 digits.now) }
    ensures bound { IfSome result (λ n. n ≤ most) }
{
    let mut value = 0u64;
    for byte in digits {
        value = value.checked_mul(10)?.checked_add(digit_of(*byte))?;
    }
    if value <= most { Some(value) } else { None }
}

/// A number from `low` to `high`.
fn number_in(low: u32, high: u32, word: &[u8]) -> Result<u32, FaultKind>
    ensures { result ≡ number_in low high word.now }
{
    if !is_number(word) {
        return Err(FaultKind::BadNumber);
    }
    match value_of(word, high as u64) {
        Some(value) => {
            if value < low as u64 {
                Err(FaultKind::BadNumber)
            } else {
                Ok(value as u32)
            }
        }
        None => Err(FaultKind::BadNumber),
    }
}

/// The number of a process.
pub fn pid_of(word: &[u8]) -> Result<u32, FaultKind>
    ensures { result ≡ pid_of word.now }
{
    number_in(1, limit::LAST_LAUNCHED, word)
}

/// A number of calls.
pub fn count_of(word: &[u8]) -> Result<u32, FaultKind>
    ensures { result ≡ count_of word.now }
{
    number_in(1, CALLS, word)
}

/// A number of processes that live at once.
pub fn slots_of(word: &[u8]) -> Result<u32, FaultKind>
    ensures { result ≡ slots_of word.now }
{
    number_in(1, limit::PROCESSES, word)
}

/// The number of one of so many nodes.
#[tactic(auto, using(crate::proofs::NumberLemmas::past_nodes))]
pub fn node_of(nodes: u8, word: &[u8]) -> Result<u8, FaultKind>
    ensures { result ≡ node_of nodes word.now }
{
    if !is_number(word) {
        return Err(FaultKind::BadNumber);
    }
    match value_of(word, u8::MAX as u64) {
        Some(value) => {
            if value < nodes as u64 {
                Ok(value as u8)
            } else {
                Err(FaultKind::BadNode)
            }
        }
        None => Err(FaultKind::BadNode),
    }
}

fn known_signal(number: u8) -> Result<u8, FaultKind>
    ensures { result ≡ known_signal number }
{
    if is_signal(number as u32) {
        Ok(number)
    } else {
        Err(FaultKind::BadSignal)
    }
}

/// The number of a signal.
#[tactic(auto, using(crate::proofs::NumberLemmas::past_signals))]
pub fn signal_of(word: &[u8]) -> Result<u8, FaultKind>
    ensures { result ≡ signal_of word.now }
{
    if !is_number(word) {
        return Err(FaultKind::BadNumber);
    }
    match value_of(word, u8::MAX as u64) {
        Some(value) => known_signal(value as u8),
        None => Err(FaultKind::BadSignal),
    }
}
