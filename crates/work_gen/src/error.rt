// Why there is no work.
use thiserror::Error;

/// Why there is no work.
#[derive(Debug, Drop, Error)]
pub enum WorkError {
    /// The assembler refuses the text of an image: its first faulty line, counted from 1, and the kind of its fault.
    #[error("line {line}: fault {kind}")]
    Refused { line: u32, kind: u8 },
    /// Memory that was asked for was not found.
    #[error("out of memory")]
    NoMemory,
}
