// Why the top call ended: the answer's status and its line.
ghost use Rattle.std.specs.Prelude.{◌≡◌, IfOk, map, codes};
ghost use Rattle.mosix_shell.specs.Why.{status_of, line_of, numbered, why_of_last};

use crate::status;
use call_table::{Bytes, NoMemory};
use shell_text::Last;
use std::alloc::Global;

/// Why the call ended.
#[derive(Clone, Copy, Debug, PartialEq, Eq)]
pub enum Why {
    /// All was done, and the report, the summary or the file was written.
    Done,
    /// Nothing could go on, and the report or the summary was written.
    Stuck,
    /// The words ask for nothing.
    BadWords,
    /// The first faulty line of the script and the kind of its fault, as `shell_text::FaultKind` numbers them.
    BadScript { line: u32, kind: u8 },
    /// The first line whose image was refused: kind 1 to 11 by its file, 12 where it is absent, 13 where it is too long.
    BadImage { line: u32, kind: u8 },
    /// The script, the text or an image could not be read.
    ReadFault,
    /// The report, the summary or the file could not be written.
    WriteFault,
    NoMemory,
    /// The journal of this node was full, and the report or the summary was written.
    JournalFull { node: u8 },
    /// The first faulty line of a text that is assembled and the kind of its fault.
    BadSource { line: u32, kind: u8 },
}

/// The status of an answer.
pub fn status_of(why: Why) -> u8
    ensures { result ≡ status_of why }
{
    match why {
        Why::Done => status::DONE,
        Why::Stuck => status::STUCK,
        Why::BadWords => status::BAD_WORDS,
        Why::BadScript { .. } => status::BAD_SCRIPT,
        Why::BadImage { .. } => status::BAD_IMAGE,
        Why::ReadFault => status::READ_FAULT,
        Why::WriteFault => status::WRITE_FAULT,
        Why::NoMemory => status::NO_MEMORY,
        Why::JournalFull { .. } => status::JOURNAL_FULL,
        Why::BadSource { .. } => status::BAD_SOURCE,
    }
}

/// The answer of a run that ended so.
pub fn why_of_last(last: Last) -> Why
    ensures { result ≡ why_of_last last }
{
    match last {
        Last::Done => Why::Done,
        Last::Stuck => Why::Stuck,
        Last::Full(node) => Why::JournalFull { node },
    }
}

fn plain(alloc: Global, text: &str) -> Result<Bytes, NoMemory>
    ensures { IfOk result (λ line. line ≡ text.now) }
{
    Bytes::from_slice(alloc, text.as_bytes())
}

/// A text and two numbers, with a blank before each.
fn numbered(alloc: Global, text: &str, line: u32, kind: u8) -> Result<Bytes, NoMemory>
    ensures { IfOk result (λ bytes. bytes ≡ numbered text.now line kind) }
{
    let line = format!(in alloc; "{text} {line} {kind}\n")?;
    Ok(Bytes::from_vec(line.into_bytes()))
}

/// The line of an answer without a report, a summary or a file. None exactly where nothing is written in their place.
pub fn line_of(alloc: Global, why: Why) -> Result<Option<Bytes>, NoMemory>
    ensures { IfOk result (λ line. line ≡ line_of why) }
{
    let line = match why {
        Why::BadWords => plain(alloc, status::BAD_WORDS_LINE)?,
        Why::BadScript { line, kind } => numbered(alloc, status::BAD_SCRIPT_TEXT, line, kind)?,
        Why::BadImage { line, kind } => numbered(alloc, status::BAD_IMAGE_TEXT, line, kind)?,
        Why::ReadFault => plain(alloc, status::READ_FAULT_LINE)?,
        Why::BadSource { line, kind } => numbered(alloc, status::BAD_SOURCE_TEXT, line, kind)?,
        Why::Done => return Ok(None),
        Why::Stuck => return Ok(None),
        Why::WriteFault => return Ok(None),
        Why::NoMemory => return Ok(None),
        Why::JournalFull { .. } => return Ok(None),
    };
    Ok(Some(line))
}
