// Numbers as the words write them.
ghost use Rattle.std.specs.Prelude.{◌≡◌, ◌≤◌, IfSome, IsTrue, true};
ghost use Rattle.std.specs.Char.{digit_value};
ghost use Rattle.std.specs.Int.{IsInRange};
ghost use Rattle.std.specs.Option.{option_map};
ghost use Rattle.std.specs.Str.{all_ascii_digits};
ghost use Rattle.std.specs.Str.Parse.{digits_value};
ghost use Rattle.mosix_words.specs.Numbers.{at_most, is_number, number_in, number_or};

/// A number has at most so many digits.
const DIGITS: usize = 20;

fn is_digits(word: &[u8]) -> bool
    ensures { result ≡ all_ascii_digits word.now }
{
    for byte in word {
        if !byte.is_ascii_digit() {
            return false;
        }
    }
    true
}

/// Whether a word is 1 to 20 decimal digits.
fn is_number(word: &[u8]) -> bool
    ensures is { result ≡ is_number word.now }
    ensures digits { IsTrue result → all_ascii_digits word.now ≡ true }
{
    if word.is_empty() {
        return false;
    }
    if word.len() > DIGITS {
        return false;
    }
    is_digits(word)
}

/// The value of a decimal digit.
fn digit_of(byte: u8) -> u64
    requires { IsInRange 48 57 byte }
    ensures { result ≡ digit_value byte }
{
    u64::from(byte - b'0')
}

/// The number that decimal digits write. None exactly where it is more than `most`.
#[tactic(auto, using(crate::proofs::NumberLemmas::digit_at_index, crate::proofs::NumberLemmas::digits_more, crate::proofs::NumberLemmas::digits_end, crate::proofs::NumberLemmas::digits_over))]
fn value_of(digits: &[u8], most: u64) -> Option<u64>
    requires { all_ascii_digits digits.now ≡ true }
    ensures value { result ≡ at_most most (digits_value 10 digits.now) }
    ensures bound { IfSome result (λ n. n ≤ most) }
{
    let mut value = 0u64;
    for byte in digits {
        value = value.checked_mul(10)?.checked_add(digit_of(*byte))?;
    }
    if value <= most { Some(value) } else { None }
}

/// A number from `low` to `high`.
pub fn number_in(low: u64, high: u64, word: &str) -> Option<u64>
    ensures value { result ≡ number_in low high word.now }
    ensures bound { IfSome result (λ n. n ≤ high) }
{
    let word = word.as_bytes();
    if !is_number(word) {
        return None;
    }
    match value_of(word, high) {
        Some(value) => { if value < low { None } else { Some(value) } }
        None => None,
    }
}

/// A number from `low` to `high`, or another where no word stands for it.
pub fn number_or(default: u32, low: u32, high: u32, word: Option<&str>) -> Option<u32>
    requires { default ≤ high }
    ensures value { result ≡ number_or default low high (option_map (λ w. w.now) word.entry) }
    ensures bound { IfSome result (λ n. n ≤ high) }
{
    match word {
        Some(word) => match number_in(low as u64, high as u64, word) {
            Some(number) => Some(number as u32),
            None => None,
        },
        None => Some(default),
    }
}
