// The lines of a text, read: the one parsed form that both passes go over.
ghost use Rattle.std.specs.Prelude.{◌≡◌, ◌+◌, ◌<◌, ◌≤◌, ◌==◌, ◌∷◌, IfOk, IfSome, length, option_copied, vec_len};
ghost use Rattle.std.specs.List.{position, slice_split};
ghost use Rattle.rv_asm.specs.Cuts.{split_of};
ghost use Rattle.rv_asm.specs.Lines.{known, body_of, line_of, lines_of};

use crate::fault::FaultKind;
use crate::keyword::{Keyword, keyword_named};
use crate::lexing::{
    behind, fault_of_extra, label_end, past_blanks, trimmed, uncommented, word_end,
};
use crate::statement::{Statement, operand_count, read_statement};
use call_table::{Bytes, NoMemory};
use std::alloc::Global;

/// What stands on a line behind its label.
#[derive(Drop)]
pub enum Body {
    Empty,
    /// The first word is no keyword.
    Unknown,
    /// A keyword, the statement of its operands or the first fault among these, and what is wrong where there are too many.
    Known(Keyword, Result<Statement, FaultKind>, Option<FaultKind>),
}

/// A line of the text.
#[derive(Drop)]
pub struct Line {
    pub label: Option<Bytes>,
    pub body: Body,
}

fn known(alloc: Global, keyword: Option<Keyword>, operands: &[u8]) -> Result<Body, NoMemory>
    ensures { IfOk result (λ body. body ≡ known keyword operands.now) }
{
    match keyword {
        Some(keyword) => {
            let extra = fault_of_extra(operands, operand_count(keyword));
            Ok(Body::Known(keyword, read_statement(alloc, keyword, operands)?, extra))
        }
        None => Ok(Body::Unknown),
    }
}

fn read_body(alloc: Global, bytes: &[u8]) -> Result<Body, NoMemory>
    ensures { IfOk result (λ body. body ≡ body_of bytes.now) }
{
    if bytes.is_empty() {
        return Ok(Body::Empty);
    }
    let (word, operands) = bytes.split_at(word_end(bytes));
    known(alloc, keyword_named(word), past_blanks(operands))
}

fn read_line(alloc: Global, bytes: &[u8]) -> Result<Line, NoMemory>
    ensures { IfOk result (λ line. line ≡ line_of bytes.now) }
{
    let content = trimmed(uncommented(bytes));
    match label_end(content) {
        Some(end) => {
            let label = Bytes::from_slice(alloc, &content[..end])?;
            let body = read_body(alloc, past_blanks(behind(content, end)))?;
            Ok(Line {
                label: Some(label),
                body,
            })
        }
        None => Ok(Line {
            label: None,
            body: read_body(alloc, content)?,
        }),
    }
}

fn find_newline(bytes: &[u8]) -> Option<usize>
    ensures value { result ≡ position (λ b. b == 10) bytes.now }
    ensures within { IfSome result (λ i. i < length bytes.now) }
{
    bytes.iter().position(|b| *b == b'\n')
}

// The first line, and what stands behind its newline.

fn first_line(bytes: &[u8]) -> (&[u8], Option<&[u8]>)
    ensures value { slice_split (λ b. b == 10) bytes.now ≡ result.0.now ∷ split_of (option_copied result.1) }
    ensures shorter { IfSome result.1 (λ rest. length rest.now < length bytes.now) }
{
    match find_newline(bytes) {
        Some(newline) => (&bytes[..newline], Some(behind(bytes, newline))),
        None => (bytes, None),
    }
}

/// The lines of a text. There is at most one more than the text has bytes.
pub fn read_lines(alloc: Global, text: &[u8]) -> Result<Vec<Line>, NoMemory>
    ensures value { IfOk result (λ lines. lines.items ≡ lines_of text.now) }
    ensures count { IfOk result (λ lines. vec_len lines ≤ length text.now + 1) }
{
    let mut lines = Vec::new(alloc);
    let mut rest = text;
    loop {
        let (bytes, behind) = first_line(rest);
        lines.push(read_line(alloc, bytes)?)?;
        match behind {
            Some(behind) => rest = behind,
            None => return Ok(lines),
        }
    }
}
