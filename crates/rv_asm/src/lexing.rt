// A line cut into its words.
ghost use Rattle.std.specs.Prelude.{◌≡◌, ◌+◌, ◌-◌, ◌<◌, ◌≤◌, ◌==◌, IfSome, ◌∷◌, length, map, slice_get, take, drop, option_copied};
ghost use Rattle.std.specs.List.{prefix_len, suffix_len, position, list_all};
ghost use Rattle.rv_asm.specs.Lexing.{is_blank, is_digit, is_letter, is_name_byte, after, is_outside, outside_from, past_blanks, trimmed, uncommented, is_name, label_end, word_end, pieces, operands_of, is_operand, fault_of_extra};
ghost use Rattle.rv_asm.specs.Cuts.{pieces_of};

use crate::fault::FaultKind;

/// Where a byte of a line stands: outside quotes, inside them, or inside them behind a backslash.
#[derive(Clone, Copy)]
pub enum Quote {
    Outside,
    Inside,
    Escaped,
}

pub fn is_blank(byte: u8) -> bool
    ensures { result ≡ is_blank byte }
{
    byte == b' ' || byte == b'\t'
}

pub fn is_digit(byte: u8) -> bool
    ensures { result ≡ is_digit byte }
{
    byte >= b'0' && byte <= b'9'
}

fn is_letter(byte: u8) -> bool
    ensures { result ≡ is_letter byte }
{
    (byte >= b'A' && byte <= b'Z') || (byte >= b'a' && byte <= b'z')
}

fn is_name_byte(byte: u8) -> bool
    ensures { result ≡ is_name_byte byte }
{
    is_letter(byte) || is_digit(byte) || byte == b'_'
}

fn is_outside(quote: Quote) -> bool
    ensures { result ≡ is_outside quote }
{
    match quote {
        Quote::Outside => true,
        Quote::Inside => false,
        Quote::Escaped => false,
    }
}

// Where the byte behind this one stands.
pub fn after(quote: Quote, byte: u8) -> Quote
    ensures { result ≡ after quote byte }
{
    match quote {
        Quote::Outside => {
            if byte == b'"' {
                Quote::Inside
            } else {
                Quote::Outside
            }
        }
        Quote::Inside => {
            if byte == b'\\' {
                Quote::Escaped
            } else if byte == b'"' {
                Quote::Outside
            } else {
                Quote::Inside
            }
        }
        Quote::Escaped => Quote::Inside,
    }
}

// The place of the first such byte outside quotes.
fn find_outside(bytes: &[u8], mark: u8) -> Option<usize>
    ensures value { result ≡ outside_from mark 0 Quote.Outside bytes.now }
    ensures within { IfSome result (λ i. i < length bytes.now) }
{
    let mut quote = Quote::Outside;
    for (i, byte) in bytes.iter().enumerate() {
        if is_outside(quote) && *byte == mark {
            return Some(i);
        }
        quote = after(quote, *byte);
    }
    None
}

fn blanks_before(bytes: &[u8]) -> usize
    ensures value { result ≡ prefix_len is_blank bytes.now }
    ensures within { result ≤ length bytes.now }
{
    bytes.iter().take_while(|b| is_blank(**b)).count()
}

fn blanks_behind(bytes: &[u8]) -> usize
    ensures value { result ≡ suffix_len is_blank bytes.now }
    ensures within { result ≤ length bytes.now }
{
    bytes.iter().rev().take_while(|b| is_blank(**b)).count()
}

/// The bytes without the blanks before them.
pub fn past_blanks(bytes: &[u8]) -> &[u8]
    ensures { result.now ≡ past_blanks bytes.now }
{
    &bytes[blanks_before(bytes)..]
}

/// The bytes without the blanks on both sides.
pub fn trimmed(bytes: &[u8]) -> &[u8]
    ensures { result.now ≡ trimmed bytes.now }
{
    let front = past_blanks(bytes);
    &front[..front.len() - blanks_behind(front)]
}

/// A line up to its comment.
pub fn uncommented(line: &[u8]) -> &[u8]
    ensures { result.now ≡ uncommented line.now }
{
    match find_outside(line, b'#') {
        Some(end) => &line[..end],
        None => line,
    }
}

fn are_name_bytes(bytes: &[u8]) -> bool
    ensures { result ≡ list_all is_name_byte bytes.now }
{
    bytes.iter().all(|b| is_name_byte(*b))
}

/// Whether the bytes are a name: letters, digits and `_`, and no digit first.
pub fn is_name(bytes: &[u8]) -> bool
    ensures { result ≡ is_name bytes.now }
{
    if bytes.is_empty() {
        return false;
    }
    if is_digit(bytes[0]) {
        return false;
    }
    are_name_bytes(bytes)
}

fn find_colon(bytes: &[u8]) -> Option<usize>
    ensures value { result ≡ position (λ b. b == 58) bytes.now }
    ensures within { IfSome result (λ i. i < length bytes.now) }
{
    bytes.iter().position(|b| *b == b':')
}

/// The place of the `:` behind a label.
pub fn label_end(bytes: &[u8]) -> Option<usize>
    ensures value { result ≡ label_end bytes.now }
    ensures within { IfSome result (λ i. i < length bytes.now) }
{
    match find_colon(bytes) {
        Some(end) => {
            if is_name(&bytes[..end]) {
                Some(end)
            } else {
                None
            }
        }
        None => None,
    }
}

/// Where the first word ends.
pub fn word_end(bytes: &[u8]) -> usize
    ensures value { result ≡ word_end bytes.now }
    ensures within { result ≤ length bytes.now }
{
    bytes.iter().take_while(|b| !is_blank(**b)).count()
}

/// What stands behind the byte at this index.
#[tactic(auto, using(crate::proofs::Pieces::behind_is))]
pub fn behind(bytes: &[u8], index: usize) -> &[u8]
    requires { index < length bytes.now }
    ensures value { result.now ≡ drop (index + 1) bytes.now }
    ensures shorter { length result.now < length bytes.now }
{
    let (_front, back) = bytes.split_at(index);
    &back[1..]
}

// The first piece, and what stands behind the comma at its end.
#[tactic(auto, using(crate::proofs::Pieces::cut_none))]
fn cut(bytes: &[u8]) -> (&[u8], Option<&[u8]>)
    ensures value { pieces Quote.Outside bytes.now ≡ result.0.now ∷ pieces_of (option_copied result.1) }
    ensures shorter { IfSome result.1 (λ rest. length rest.now < length bytes.now) }
{
    match find_outside(bytes, b',') {
        Some(comma) => (&bytes[..comma], Some(behind(bytes, comma))),
        None => (bytes, None),
    }
}

// What stands from the operand at this index on.
#[tactic(auto, using(crate::proofs::Pieces::drop_next, crate::proofs::Pieces::drop_past))]
fn from_operand(operands: &[u8], index: usize) -> Option<&[u8]>
    ensures { drop index (pieces Quote.Outside operands.now) ≡ pieces_of (option_copied result) }
{
    let mut rest = operands;
    for _i in 0..index {
        let (_piece, behind) = cut(rest);
        match behind {
            Some(behind) => rest = behind,
            None => return None,
        }
    }
    Some(rest)
}

/// The operand at this index.
#[tactic(auto, using(crate::proofs::Pieces::operand_there, crate::proofs::Pieces::operand_past))]
pub fn operand_at(operands: &[u8], index: usize) -> Option<&[u8]>
    ensures { option_copied result ≡ slice_get (operands_of operands.now) index }
{
    if operands.is_empty() {
        return None;
    }
    match from_operand(operands, index) {
        Some(rest) => {
            let (piece, _behind) = cut(rest);
            Some(trimmed(piece))
        }
        None => None,
    }
}

fn is_operand(bytes: &[u8]) -> bool
    ensures { result ≡ is_operand bytes.now }
{
    if bytes.is_empty() {
        return false;
    }
    if find_outside(bytes, b' ').is_some() {
        return false;
    }
    if find_outside(bytes, b'\t').is_some() {
        return false;
    }
    true
}

fn are_operands(bytes: &[u8]) -> bool
    ensures { result ≡ list_all is_operand (map trimmed (pieces Quote.Outside bytes.now)) }
{
    let mut rest = bytes;
    loop {
        let (piece, behind) = cut(rest);
        if !is_operand(trimmed(piece)) {
            return false;
        }
        match behind {
            Some(behind) => rest = behind,
            None => return true,
        }
    }
}

/// What is wrong with the operands from this index on, which are too many.
#[tactic(auto, using(crate::proofs::Pieces::extra_more, crate::proofs::Pieces::extra_bad, crate::proofs::Pieces::extra_none))]
pub fn fault_of_extra(operands: &[u8], count: usize) -> Option<FaultKind>
    ensures { result ≡ fault_of_extra (drop count (operands_of operands.now)) }
{
    if operands.is_empty() {
        return None;
    }
    match from_operand(operands, count) {
        Some(rest) => {
            if are_operands(rest) {
                Some(FaultKind::Extra)
            } else {
                Some(FaultKind::BadOperand)
            }
        }
        None => None,
    }
}
