// The words of a line.
ghost use Rattle.std.specs.Prelude.{◌≡◌, ◌≤◌, ◌-◌, ◌^◌, true, IfSome, Some, None, codes, length};
ghost use Rattle.std.specs.Int.{IsInRange};
ghost use Rattle.std.specs.Char.{digit_value};
ghost use Rattle.std.specs.Str.Parse.{digits_value};
ghost use Rattle.std.specs.Option.{option_map};
ghost use Rattle.std.specs.Str.{all_ascii_digits, bytes_eq};
ghost use Rattle.node_event.specs.Reading.{is_plain, at_most, negative, number_up_to, integer_of, end_of, flag_of, unsent_of, way_of, kept_of, refusal_of, maybe, blank_at, word_at, field_at};

use crate::event::{Kept, Refusal, Unsent, Way};
use call_table::End;

/// How many bytes stand before the first blank.
fn blank_at(bytes: &[u8]) -> usize
    ensures value { result ≡ blank_at bytes.now }
    ensures bound { result ≤ length bytes.now }
{
    for (at, byte) in bytes.iter().enumerate() {
        if *byte == b' ' {
            return at;
        }
    }
    bytes.len()
}

/// The bytes before the first blank, and the rest from there.
pub(crate) fn first_word(bytes: &[u8]) -> (&[u8], &[u8])
    ensures word { result.0.now ≡ (word_at bytes.now).0 }
    ensures rest { result.1.now ≡ (word_at bytes.now).1 }
{
    bytes.split_at(blank_at(bytes))
}

/// A blank, a word, and the rest.
pub(crate) fn field(rest: &[u8]) -> Option<(&[u8], &[u8])>
    ensures { option_map (λ x. (x.0.now, x.1.now)) result ≡ field_at rest.now }
{
    match rest {
        [b' ', bytes @ ..] => Some(first_word(bytes)),
        _ => None,
    }
}

fn is_digits(word: &[u8]) -> bool
    ensures { result ≡ all_ascii_digits word.now }
{
    for byte in word {
        if !byte.is_ascii_digit() {
            return false;
        }
    }
    true
}

/// Whether a word is decimal digits without a leading zero.
fn is_plain(word: &[u8]) -> bool
    ensures { result ≡ is_plain word.now }
{
    if word.is_empty() {
        return false;
    }
    if word[0] == b'0' {
        return word.len() == 1;
    }
    is_digits(word)
}

/// The value of a decimal digit.
fn digit_of(byte: u8) -> u64
    requires { IsInRange 48 57 byte }
    ensures { result ≡ digit_value byte }
{
    u64::from(byte - b'0')
}

/// The number that decimal digits write. None exactly where it is more than `most`.
#[tactic(auto, using(crate::proofs::Numbers::digit_at_index, crate::proofs::Numbers::digits_more, crate::proofs::Numbers::digits_end, crate::proofs::Numbers::digits_over))]
fn value_of(digits: &[u8], most: u64) -> Option<u64>
    requires { all_ascii_digits digits.now ≡ true }
    ensures { result ≡ at_most most (digits_value 10 digits.now) }
{
    let mut value = 0u64;
    for byte in digits {
        value = value.checked_mul(10)?.checked_add(digit_of(*byte))?;
    }
    if value <= most { Some(value) } else { None }
}

/// A number of at most `most`, in decimal without a leading zero.
#[tactic(auto, unfolding(crate::specs::Reading::number_up_to))]
pub(crate) fn number_up_to(word: &[u8], most: u64) -> Option<u64>
    ensures value { result ≡ number_up_to most word.now }
    ensures bound { IfSome result (λ n. n ≤ most) }
{
    if is_plain(word) {
        value_of(word, most)
    } else {
        None
    }
}

/// A number of 32 bits.
pub(crate) fn number_of(word: &[u8]) -> Option<u32>
    ensures { result ≡ number_up_to (2 ^ 32 - 1) word.now }
{
    let number = number_up_to(word, u32::MAX as u64)?;
    Some(number as u32)
}

/// A number of 8 bits, as a node or a signal.
pub(crate) fn small_of(word: &[u8]) -> Option<u8>
    ensures { result ≡ number_up_to 255 word.now }
{
    let number = number_up_to(word, u8::MAX as u64)?;
    Some(number as u8)
}

/// The number below 0 that stands behind a minus.
fn negative(value: u64) -> Option<i32>
    requires { value ≤ 2 ^ 31 }
    ensures { result ≡ negative (Some value) }
{
    if value == 0 {
        return None;
    }
    Some(-(value as i64) as i32)
}

/// A signed number of 32 bits.
#[tactic(auto, unfolding(crate::specs::Reading::integer_of, crate::specs::Reading::number_up_to))]
pub(crate) fn integer_of(word: &[u8]) -> Option<i32>
    ensures { result ≡ integer_of word.now }
{
    if let [b'-', digits @ ..] = word {
        let value = number_up_to(digits, 1 << 31)?;
        return negative(value);
    }
    let value = number_up_to(word, i32::MAX as u64)?;
    Some(value as i32)
}

/// An end: `x` and a code, or `s` and a signal.
#[tactic(auto, unfolding(crate::specs::Reading::end_of))]
pub(crate) fn end_of(word: &[u8]) -> Option<End>
    ensures { result ≡ end_of word.now }
{
    match word {
        [b'x', digits @ ..] => {
            let code = small_of(digits)?;
            Some(End::Exit(code))
        }
        [b's', digits @ ..] => {
            let signal = small_of(digits)?;
            Some(End::Signal(signal))
        }
        _ => None,
    }
}

/// Whether a word is this text.
pub(crate) fn is(word: &[u8], text: &str) -> bool
    ensures { result ≡ bytes_eq word.now text.now }
{
    word == text.as_bytes()
}

/// A flag: 0 or 1.
#[tactic(auto, unfolding(crate::specs::Reading::flag_of))]
pub(crate) fn flag_of(word: &[u8]) -> Option<bool>
    ensures { result ≡ flag_of word.now }
{
    if is(word, "0") {
        return Some(false);
    }
    if is(word, "1") {
        return Some(true);
    }
    None
}

/// Why a command sent nothing.
#[tactic(auto, unfolding(crate::specs::Reading::unsent_of))]
pub(crate) fn unsent_of(word: &[u8]) -> Option<Unsent>
    ensures { result ≡ unsent_of word.now }
{
    if is(word, "ended") {
        return Some(Unsent::Ended);
    }
    if is(word, "none") {
        return Some(Unsent::Never);
    }
    None
}

/// How a call was served.
#[tactic(auto, unfolding(crate::specs::Reading::way_of))]
pub(crate) fn way_of(word: &[u8]) -> Option<Way>
    ensures { result ≡ way_of word.now }
{
    if is(word, "did") {
        return Some(Way::Did);
    }
    if is(word, "broke") {
        return Some(Way::Broke);
    }
    if is(word, "fell") {
        return Some(Way::Fell);
    }
    if is(word, "paused") {
        return Some(Way::Paused);
    }
    None
}

/// What came of a move that was kept.
#[tactic(auto, unfolding(crate::specs::Reading::kept_of))]
pub(crate) fn kept_of(word: &[u8]) -> Option<Kept>
    ensures { result ≡ kept_of word.now }
{
    if is(word, "begins") {
        return Some(Kept::Begins);
    }
    if is(word, "ended") {
        return Some(Kept::Ended);
    }
    None
}

/// Why a move was refused.
#[tactic(auto, unfolding(crate::specs::Reading::refusal_of))]
pub(crate) fn refusal_of(word: &[u8]) -> Option<Refusal>
    ensures { result ≡ refusal_of word.now }
{
    if is(word, "ended") {
        return Some(Refusal::Ended);
    }
    if is(word, "moving") {
        return Some(Refusal::Moving);
    }
    if is(word, "there") {
        return Some(Refusal::There);
    }
    None
}
