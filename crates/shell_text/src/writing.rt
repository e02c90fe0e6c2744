// Pieces of a text, each written by a call of its own.
ghost use Rattle.std.specs.Prelude.{◌≡◌, ℕ, List, Option, [], ◌∷◌, IfOk, IfErr};
ghost use Rattle.shell_text.specs.Printing.{Prints};
ghost use Rattle.shell_text.specs.Report.{listed, chunks_of};

use call_table::{Bytes, NoMemory, limit};
use outside::Sink;
use std::alloc::Global;

/// Why a text was not written whole.
#[derive(Clone, Copy, Debug, PartialEq, Eq)]
pub enum PrintFault {
    /// The sink failed.
    Failed,
    NoMemory,
}

/// Writes one piece by one call.
pub fn write_piece<O: Sink>(out: &mut O, piece: &[u8]) -> Result<(), PrintFault>
    ensures prints { Prints O.written O.faults (piece.now ∷ []) out.old out.new result }
    ensures failed { IfErr result (λ e. e ≡ PrintFault.Failed) }
{
    match out.write_all(piece) {
        Ok(()) => Ok(()),
        Err(_) => Err(PrintFault::Failed),
    }
}

/// Writes a piece that was made, where there was memory for it.
pub fn write_made<O: Sink>(out: &mut O, made: Result<Bytes, NoMemory>) -> Result<(), PrintFault>
    ensures { (line : List ℕ) → IfOk made (λ b. b ≡ line) → Prints O.written O.faults (line ∷ []) out.old out.new result }
{
    let piece = match made {
        Ok(piece) => piece,
        Err(_) => return Err(PrintFault::NoMemory),
    };
    match write_piece(out, piece.as_slice()) {
        Ok(()) => Ok(()),
        Err(e) => Err(e),
    }
}

/// Writes a piece that was made, where there is one.
pub fn write_some<O: Sink>(
    out: &mut O,
    made: Result<Option<Bytes>, NoMemory>,
) -> Result<(), PrintFault>
    ensures { (line : Option (List ℕ)) → IfOk made (λ b. b ≡ line) → Prints O.written O.faults (listed line) out.old out.new result }
{
    let piece = match made {
        Ok(Some(piece)) => piece,
        Ok(None) => return Ok(()),
        Err(_) => return Err(PrintFault::NoMemory),
    };
    match write_piece(out, piece.as_slice()) {
        Ok(()) => Ok(()),
        Err(e) => Err(e),
    }
}

/// Writes bytes in pieces of at most 65,536, the last of which may be shorter. It wants no memory.
pub fn write_bytes<O: Sink>(out: &mut O, bytes: &[u8]) -> Result<(), PrintFault>
    ensures prints { Prints O.written O.faults (chunks_of bytes.now) out.old out.new result }
    ensures failed { IfErr result (λ e. e ≡ PrintFault.Failed) }
{
    let mut rest = bytes;
    while !rest.is_empty() {
        let (piece, more) = rest.split_at(rest.len().min(limit::PIECE_BYTES as usize));
        match write_piece(out, piece) {
            Ok(()) => {}
            Err(e) => return Err(e),
        }
        rest = more;
    }
    Ok(())
}
