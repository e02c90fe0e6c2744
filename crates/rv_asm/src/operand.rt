// The operands of statements.
ghost use Rattle.std.specs.Prelude.{◌≡◌, ◌<◌, ◌==◌, ◌++◌, length, slice_get, IfSome, IfOk, OnOk, List, ℕ, Option, Some};
ghost use Rattle.std.specs.Int.{saturate_signed, w32};
ghost use Rattle.std.specs.Option.{option_map};
ghost use Rattle.std.specs.List.{position};
ghost use Rattle.rv_decode.specs.Operands.{immediate_of, shift_of, upper_of};
ghost use Rattle.rv_asm.specs.Lexing.{operands_of};
ghost use Rattle.rv_asm.specs.Numbers.{number_of, ranged, word_of_number, byte_of_number, size_of_number};
ghost use Rattle.rv_asm.specs.Operands.{read_by, read_register, read_number, read_label, closed_register, place_of, read_place, escape_of, added_by, joined, text_from, text_of, read_text};

use crate::fault::FaultKind;
use crate::lexing::{Quote, after, behind, is_name, operand_at};
use crate::number::number;
use crate::register::register_named;
use call_table::{Bytes, NoMemory};
use rv_decode::{Immediate, Register, Shift, Upper};
use std::alloc::Global;

/// The nearest number of 32 bits.
pub fn nearest(value: i64) -> i32
    ensures { result ≡ saturate_signed w32 value }
{
    if value < -0x8000_0000 {
        return i32::MIN;
    }
    if value > 0x7FFF_FFFF {
        return i32::MAX;
    }
    value as i32
}

#[tactic(auto, using(crate::proofs::RangeLemmas::saturated_near))]
fn small_number(bytes: &[u8]) -> Option<i32>
    ensures { result ≡ option_map (saturate_signed w32) (number_of bytes.now) }
{
    match number(bytes) {
        Some(value) => Some(nearest(value)),
        None => None,
    }
}

fn immediate_in(value: Option<i32>) -> Result<Immediate, FaultKind>
    ensures { result ≡ ranged immediate_of value }
{
    match value {
        Some(value) => match Immediate::new(value) {
            Some(immediate) => Ok(immediate),
            None => Err(FaultKind::OutOfRange),
        },
        None => Err(FaultKind::BadOperand),
    }
}

#[tactic(auto, using(crate::proofs::RangeLemmas::ranged_immediate))]
fn read_immediate(bytes: &[u8]) -> Result<Immediate, FaultKind>
    ensures { result ≡ read_number immediate_of bytes.now }
{
    immediate_in(small_number(bytes))
}

fn shift_in(value: Option<i32>) -> Result<Shift, FaultKind>
    ensures { result ≡ ranged shift_of value }
{
    match value {
        Some(value) => match Shift::new(value) {
            Some(shift) => Ok(shift),
            None => Err(FaultKind::OutOfRange),
        },
        None => Err(FaultKind::BadOperand),
    }
}

#[tactic(auto, using(crate::proofs::RangeLemmas::ranged_shift))]
fn read_shift(bytes: &[u8]) -> Result<Shift, FaultKind>
    ensures { result ≡ read_number shift_of bytes.now }
{
    shift_in(small_number(bytes))
}

fn upper_in(value: Option<i32>) -> Result<Upper, FaultKind>
    ensures { result ≡ ranged upper_of value }
{
    match value {
        Some(value) => match Upper::new(value) {
            Some(upper) => Ok(upper),
            None => Err(FaultKind::OutOfRange),
        },
        None => Err(FaultKind::BadOperand),
    }
}

#[tactic(auto, using(crate::proofs::RangeLemmas::ranged_upper))]
fn read_upper(bytes: &[u8]) -> Result<Upper, FaultKind>
    ensures { result ≡ read_number upper_of bytes.now }
{
    upper_in(small_number(bytes))
}

fn word_in(value: Option<i64>) -> Result<u32, FaultKind>
    ensures { result ≡ ranged word_of_number value }
{
    let value = match value {
        Some(value) => value,
        None => return Err(FaultKind::BadOperand),
    };
    if value < -0x8000_0000 || value > 0xFFFF_FFFF {
        return Err(FaultKind::OutOfRange);
    }
    if value < 0 {
        Ok((value + 0x1_0000_0000) as u32)
    } else {
        Ok(value as u32)
    }
}

#[tactic(auto, using(crate::proofs::RangeLemmas::ranged_word))]
fn read_word(bytes: &[u8]) -> Result<u32, FaultKind>
    ensures { result ≡ read_number word_of_number bytes.now }
{
    word_in(number(bytes))
}

fn byte_in(value: Option<i64>) -> Result<u8, FaultKind>
    ensures { result ≡ ranged byte_of_number value }
{
    let value = match value {
        Some(value) => value,
        None => return Err(FaultKind::BadOperand),
    };
    if value < -128 || value > 255 {
        return Err(FaultKind::OutOfRange);
    }
    if value < 0 {
        Ok((value + 256) as u8)
    } else {
        Ok(value as u8)
    }
}

#[tactic(auto, using(crate::proofs::RangeLemmas::ranged_byte))]
fn read_byte(bytes: &[u8]) -> Result<u8, FaultKind>
    ensures { result ≡ read_number byte_of_number bytes.now }
{
    byte_in(number(bytes))
}

fn size_in(value: Option<i64>) -> Result<u32, FaultKind>
    ensures { result ≡ ranged size_of_number value }
{
    match value {
        Some(value) => {
            if value < 0 || value > 0xFFFF_FFFF {
                Err(FaultKind::OutOfRange)
            } else {
                Ok(value as u32)
            }
        }
        None => Err(FaultKind::BadOperand),
    }
}

#[tactic(auto, using(crate::proofs::RangeLemmas::ranged_size))]
fn read_size(bytes: &[u8]) -> Result<u32, FaultKind>
    ensures { result ≡ read_number size_of_number bytes.now }
{
    size_in(number(bytes))
}

fn read_register(bytes: &[u8]) -> Result<Register, FaultKind>
    ensures { result ≡ read_register bytes.now }
{
    match register_named(bytes) {
        Some(register) => Ok(register),
        None => Err(FaultKind::BadOperand),
    }
}

// ---- `N(reg)`

fn closed_register(bytes: &[u8]) -> Option<Register>
    ensures { result ≡ closed_register bytes.now }
{
    let count = bytes.len();
    if count == 0 {
        return None;
    }
    if bytes[count - 1] == b')' {
        register_named(&bytes[..count - 1])
    } else {
        None
    }
}

fn find_bracket(bytes: &[u8]) -> Option<usize>
    ensures value { result ≡ position (λ b. b == 40) bytes.now }
    ensures within { IfSome result (λ i. i < length bytes.now) }
{
    bytes.iter().position(|b| *b == b'(')
}

fn place_of(
    value: Option<i32>,
    register: Option<Register>,
) -> Result<(Immediate, Register), FaultKind>
    ensures { result ≡ place_of value register }
{
    match value {
        Some(value) => match register {
            Some(register) => match Immediate::new(value) {
                Some(immediate) => Ok((immediate, register)),
                None => Err(FaultKind::OutOfRange),
            },
            None => Err(FaultKind::BadOperand),
        },
        None => Err(FaultKind::BadOperand),
    }
}

#[tactic(auto, using(crate::proofs::RangeLemmas::place_same))]
fn read_place(bytes: &[u8]) -> Result<(Immediate, Register), FaultKind>
    ensures { result ≡ read_place bytes.now }
{
    match find_bracket(bytes) {
        Some(bracket) => {
            let number = small_number(&bytes[..bracket]);
            place_of(number, closed_register(behind(bytes, bracket)))
        }
        None => Err(FaultKind::BadOperand),
    }
}

// ---- a text in quotes

fn escape_of(byte: u8) -> Option<u8>
    ensures { result ≡ escape_of byte }
{
    match byte {
        b'n' => Some(b'\n'),
        b'"' => Some(b'"'),
        b'\\' => Some(b'\\'),
        _ => None,
    }
}

// What a byte that stands here adds to the text, if it may stand here.
fn added_by(quote: Quote, byte: u8) -> Option<Option<u8>>
    ensures { result ≡ added_by quote byte }
{
    match quote {
        Quote::Outside => None,
        Quote::Inside => {
            if byte == b'"' || byte == b'\\' {
                Some(None)
            } else if byte >= 32 && byte <= 126 {
                Some(Some(byte))
            } else {
                None
            }
        }
        Quote::Escaped => match escape_of(byte) {
            Some(byte) => Some(Some(byte)),
            None => None,
        },
    }
}

// What the text is so far, with what this adds.
fn push_added(text: &mut Bytes, added: Option<u8>) -> Result<(), NoMemory>
    ensures { OnOk result ((rest : Option (List ℕ)) → option_map (λ bs. text.old ++ bs) (joined (Some added) rest) ≡ option_map (λ bs. text.new ++ bs) rest) }
{
    match added {
        Some(byte) => text.push(byte),
        None => Ok(()),
    }
}

// The text that these bytes write up to the end of its quotes.
fn text_from(alloc: Global, bytes: &[u8]) -> Result<Option<Bytes>, NoMemory>
    ensures { IfOk result (λ text. text ≡ text_from Quote.Inside bytes.now) }
{
    let mut quote = Quote::Inside;
    let mut text = Bytes::new(alloc);
    for byte in bytes {
        match added_by(quote, *byte) {
            Some(added) => push_added(&mut text, added)?,
            None => return Ok(None),
        }
        quote = after(quote, *byte);
    }
    match quote {
        Quote::Outside => Ok(Some(text)),
        Quote::Inside => Ok(None),
        Quote::Escaped => Ok(None),
    }
}

fn text_of(alloc: Global, bytes: &[u8]) -> Result<Option<Bytes>, NoMemory>
    ensures { IfOk result (λ text. text ≡ text_of bytes.now) }
{
    if bytes.is_empty() {
        return Ok(None);
    }
    if bytes[0] == b'"' {
        text_from(alloc, &bytes[1..])
    } else {
        Ok(None)
    }
}

// ---- operands by their place

/// The register in the operand at this index.
pub fn register_at(operands: &[u8], index: usize) -> Result<Register, FaultKind>
    ensures { result ≡ read_by read_register (slice_get (operands_of operands.now) index) }
{
    match operand_at(operands, index) {
        Some(bytes) => read_register(bytes),
        None => Err(FaultKind::Missing),
    }
}

/// The immediate of formats I and S in the operand at this index.
pub fn immediate_at(operands: &[u8], index: usize) -> Result<Immediate, FaultKind>
    ensures { result ≡ read_by (read_number immediate_of) (slice_get (operands_of operands.now) index) }
{
    match operand_at(operands, index) {
        Some(bytes) => read_immediate(bytes),
        None => Err(FaultKind::Missing),
    }
}

/// How far to shift, in the operand at this index.
pub fn shift_at(operands: &[u8], index: usize) -> Result<Shift, FaultKind>
    ensures { result ≡ read_by (read_number shift_of) (slice_get (operands_of operands.now) index) }
{
    match operand_at(operands, index) {
        Some(bytes) => read_shift(bytes),
        None => Err(FaultKind::Missing),
    }
}

/// The upper immediate in the operand at this index.
pub fn upper_at(operands: &[u8], index: usize) -> Result<Upper, FaultKind>
    ensures { result ≡ read_by (read_number upper_of) (slice_get (operands_of operands.now) index) }
{
    match operand_at(operands, index) {
        Some(bytes) => read_upper(bytes),
        None => Err(FaultKind::Missing),
    }
}

/// The word in the operand at this index.
pub fn word_at(operands: &[u8], index: usize) -> Result<u32, FaultKind>
    ensures { result ≡ read_by (read_number word_of_number) (slice_get (operands_of operands.now) index) }
{
    match operand_at(operands, index) {
        Some(bytes) => read_word(bytes),
        None => Err(FaultKind::Missing),
    }
}

/// The byte in the operand at this index.
pub fn byte_at(operands: &[u8], index: usize) -> Result<u8, FaultKind>
    ensures { result ≡ read_by (read_number byte_of_number) (slice_get (operands_of operands.now) index) }
{
    match operand_at(operands, index) {
        Some(bytes) => read_byte(bytes),
        None => Err(FaultKind::Missing),
    }
}

/// The number of bytes in the operand at this index.
pub fn size_at(operands: &[u8], index: usize) -> Result<u32, FaultKind>
    ensures { result ≡ read_by (read_number size_of_number) (slice_get (operands_of operands.now) index) }
{
    match operand_at(operands, index) {
        Some(bytes) => read_size(bytes),
        None => Err(FaultKind::Missing),
    }
}

/// The place in memory in the operand at this index.
pub fn place_at(operands: &[u8], index: usize) -> Result<(Immediate, Register), FaultKind>
    ensures { result ≡ read_by read_place (slice_get (operands_of operands.now) index) }
{
    match operand_at(operands, index) {
        Some(bytes) => read_place(bytes),
        None => Err(FaultKind::Missing),
    }
}

/// The label in the operand at this index.
pub fn label_at(
    alloc: Global,
    operands: &[u8],
    index: usize,
) -> Result<Result<Bytes, FaultKind>, NoMemory>
    ensures { IfOk result (λ label. label ≡ read_by read_label (slice_get (operands_of operands.now) index)) }
{
    match operand_at(operands, index) {
        Some(bytes) => {
            if is_name(bytes) {
                Ok(Ok(Bytes::from_slice(alloc, bytes)?))
            } else {
                Ok(Err(FaultKind::BadOperand))
            }
        }
        None => Ok(Err(FaultKind::Missing)),
    }
}

/// The text in quotes in the operand at this index.
pub fn text_at(
    alloc: Global,
    operands: &[u8],
    index: usize,
) -> Result<Result<Bytes, FaultKind>, NoMemory>
    ensures { IfOk result (λ text. text ≡ read_by read_text (slice_get (operands_of operands.now) index)) }
{
    let bytes = match operand_at(operands, index) {
        Some(bytes) => bytes,
        None => return Ok(Err(FaultKind::Missing)),
    };
    match text_of(alloc, bytes)? {
        Some(text) => Ok(Ok(text)),
        None => Ok(Err(FaultKind::BadOperand)),
    }
}
