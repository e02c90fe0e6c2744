// What is wrong with a text.
ghost use Rattle.std.specs.Prelude.{◌≡◌};
ghost use Rattle.rv_asm.specs.Faults.{number_of_kind};

use thiserror::Error;

/// What is wrong with a line. Each kind has the number that it is reported by.
#[derive(Clone, Copy, Debug, PartialEq, Eq)]
pub enum FaultKind {
    /// 1: the text has more bytes than a text may have, or the program more pages than an image may have.
    TooLong,
    /// 2: the first word names no statement.
    UnknownWord,
    /// 3: an operand is not spelled as the statement wants it, or the statement may not stand here.
    BadOperand,
    /// 4: a number or a distance is outside its range.
    OutOfRange,
    /// 5: no line has this label.
    UnknownLabel,
    /// 6: an earlier line has this label.
    DoubleLabel,
    /// 7: an operand is missing.
    Missing,
    /// 8: there is an operand too many.
    Extra,
}

impl FaultKind {
    /// The number that the kind is reported by.
    pub fn number(self) -> u8
        ensures { result ≡ number_of_kind self }
    {
        match self {
            FaultKind::TooLong => 1,
            FaultKind::UnknownWord => 2,
            FaultKind::BadOperand => 3,
            FaultKind::OutOfRange => 4,
            FaultKind::UnknownLabel => 5,
            FaultKind::DoubleLabel => 6,
            FaultKind::Missing => 7,
            FaultKind::Extra => 8,
        }
    }
}

/// What is wrong, and on which line, counted from 1; line 0 is the text as a whole.
#[derive(Clone, Copy, Debug, PartialEq, Eq)]
pub struct Fault {
    pub line: u32,
    pub kind: FaultKind,
}

/// Why there is no file.
#[derive(Debug, Drop, Error)]
pub enum AsmError {
    /// The text's first faulty line and the kind of its fault. Lines count from 1; line 0 is the text as a whole.
    #[error("line {line}: fault {kind}")]
    Source { line: u32, kind: u8 },
    /// Memory that was asked for was not found.
    #[error("out of memory")]
    NoMemory,
}
