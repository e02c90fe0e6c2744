// What is wrong with a script.
ghost use Rattle.std.specs.Prelude.{◌≡◌};
ghost use Rattle.shell_text.specs.Faults.{number_of_kind};

use thiserror::Error;

/// What is wrong with a line. Each kind has the number that it is reported by.
#[derive(Clone, Copy, Debug, PartialEq, Eq)]
pub enum FaultKind {
    /// 1: the script has too many bytes or lines, the line too many bytes, or it is a `run` too many.
    TooLong,
    /// 2: a byte that is not allowed.
    NotText,
    /// 3: the first word is none of the language.
    UnknownWord,
    /// 4: a word is not spelled as a number, or it is out of its range.
    BadNumber,
    /// 5: the number is not that of a node.
    BadNode,
    /// 6: the number is not that of a signal.
    BadSignal,
    /// 7: a word is missing.
    Missing,
    /// 8: there is a word too many.
    Extra,
}

impl FaultKind {
    /// The number that the kind is reported by.
    pub fn number(self) -> u8
        ensures { result ≡ number_of_kind self }
    {
        match self {
            FaultKind::TooLong => 1,
            FaultKind::NotText => 2,
            FaultKind::UnknownWord => 3,
            FaultKind::BadNumber => 4,
            FaultKind::BadNode => 5,
            FaultKind::BadSignal => 6,
            FaultKind::Missing => 7,
            FaultKind::Extra => 8,
        }
    }
}

/// Why there is no script.
#[derive(Debug, Drop, Error)]
pub enum ScriptError {
    /// The first faulty line and the kind of its fault. Lines count from 1; line 0 is the script as a whole.
    #[error("line {line}: fault {kind}")]
    Fault { line: u32, kind: u8 },
    /// Memory that was asked for was not found.
    #[error("out of memory")]
    NoMemory,
}
