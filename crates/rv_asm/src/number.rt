// Numbers as operands write them.
ghost use Rattle.std.specs.Prelude.{◌≡◌, ◌≤◌, pos, neg_ℤ, IfSome};
ghost use Rattle.std.specs.Option.{option_map};
ghost use Rattle.std.specs.Char.{digit_value};
ghost use Rattle.rv_asm.specs.Numbers.{natural_of, number_of, is_hexadecimal, capped, near};

use crate::fault::FaultKind;

// A number past every range. What is farther out is read as this.
const FAR: u64 = 0x2_0000_0000;

fn digit_value(byte: u8) -> u64
    ensures value { result ≡ digit_value byte }
    ensures within { result ≤ 36 }
{
    match byte {
        b'0'..=b'9' => u64::from(byte - b'0'),
        b'A'..=b'Z' => u64::from(byte - 55),
        b'a'..=b'z' => u64::from(byte - 87),
        _ => 36,
    }
}

// The number that these digits write, as far as it is told apart.
#[tactic(auto, using(crate::proofs::NumberLemmas::digit_more))]
fn natural(radix: u64, digits: &[u8]) -> Option<u64>
    requires { radix ≤ 16 }
    ensures value { result ≡ option_map capped (natural_of radix digits.now) }
    ensures small { IfSome result (λ n. n ≤ 0x200000000) }
{
    if digits.is_empty() {
        return None;
    }
    let mut value = 0;
    for byte in digits {
        let digit = digit_value(*byte);
        if digit >= radix {
            return None;
        }
        value = (value * radix + digit).min(FAR);
    }
    Some(value)
}

fn is_hexadecimal(bytes: &[u8]) -> bool
    ensures { result ≡ is_hexadecimal bytes.now }
{
    bytes.len() >= 2 && bytes[0] == b'0' && bytes[1] == b'x'
}

fn positive(value: Option<u64>) -> Option<i64>
    requires { IfSome value (λ n. n ≤ 0x200000000) }
    ensures { result ≡ option_map pos value }
{
    match value {
        Some(value) => Some(value as i64),
        None => None,
    }
}

fn negative(value: Option<u64>) -> Option<i64>
    requires { IfSome value (λ n. n ≤ 0x200000000) }
    ensures { result ≡ option_map (λ n. neg_ℤ (pos n)) value }
{
    match value {
        Some(value) => Some(-(value as i64)),
        None => None,
    }
}

/// The number that is written here, as far as it is told apart.
pub fn number(bytes: &[u8]) -> Option<i64>
    ensures { result ≡ option_map near (number_of bytes.now) }
{
    if bytes.is_empty() {
        return None;
    }
    if bytes[0] == b'-' {
        return negative(natural(10, &bytes[1..]));
    }
    if bytes[0] == b'+' {
        return positive(natural(10, &bytes[1..]));
    }
    if is_hexadecimal(bytes) {
        return positive(natural(16, &bytes[2..]));
    }
    positive(natural(10, bytes))
}
