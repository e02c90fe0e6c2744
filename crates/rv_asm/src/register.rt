// The names of registers.
ghost use Rattle.std.specs.Prelude.{◌≡◌};
ghost use Rattle.rv_asm.specs.Registers.{short_number, lettered, numbered, register_named};

use crate::lexing::is_digit;
use rv_decode::Register;

// One decimal digit, or two of which the first is not 0.
fn short_number(digits: &[u8]) -> Option<u8>
    ensures { result ≡ short_number digits.now }
{
    if digits.len() == 1 {
        return if is_digit(digits[0]) {
            Some(digits[0] - b'0')
        } else {
            None
        };
    }
    if digits.len() != 2 {
        return None;
    }
    if digits[0] == b'0' {
        return None;
    }
    if is_digit(digits[0]) && is_digit(digits[1]) {
        Some((digits[0] - b'0') * 10 + (digits[1] - b'0'))
    } else {
        None
    }
}

// The register of a letter and a number.
fn lettered(letter: u8, number: u8) -> Option<Register>
    ensures { result ≡ lettered letter number }
{
    let number = u32::from(number);
    match letter {
        b'x' if number < 32 => Some(Register::from_field(number)),
        b'a' if number < 8 => Some(Register::from_field(10 + number)),
        b's' if number < 2 => Some(Register::from_field(8 + number)),
        b's' if number < 12 => Some(Register::from_field(16 + number)),
        b't' if number < 3 => Some(Register::from_field(5 + number)),
        b't' if number < 7 => Some(Register::from_field(25 + number)),
        _ => None,
    }
}

fn numbered(name: &[u8]) -> Option<Register>
    ensures { result ≡ numbered name.now }
{
    if name.is_empty() {
        return None;
    }
    match short_number(&name[1..]) {
        Some(number) => lettered(name[0], number),
        None => None,
    }
}

/// The register of this name: x0 to x31, or its name in the calling convention.
pub fn register_named(name: &[u8]) -> Option<Register>
    ensures { result ≡ register_named name.now }
{
    if name == b"zero".as_slice() {
        return Some(Register::from_field(0));
    }
    if name == b"ra".as_slice() {
        return Some(Register::from_field(1));
    }
    if name == b"sp".as_slice() {
        return Some(Register::from_field(2));
    }
    if name == b"gp".as_slice() {
        return Some(Register::from_field(3));
    }
    if name == b"tp".as_slice() {
        return Some(Register::from_field(4));
    }
    numbered(name)
}
