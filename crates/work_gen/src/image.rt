// An image of generated work.
ghost use Rattle.std.specs.Prelude.{IfOk, IfErr};
ghost use Rattle.work_gen.specs.Work.{IsImage, IsFaulty};

use crate::draw::Draw;
use crate::error::WorkError;
use crate::text::{image_text, name_of};
use call_table::Named;
use rv_asm::{AsmError, assemble};
use std::alloc::Global;

/// The image of a draw. Refused exactly where the assembler refuses its text.
pub fn image(alloc: Global, index: usize, draw: Draw) -> Result<Named, WorkError>
    ensures ok { IfOk result (λ image. IsImage index draw image) }
    ensures refused { IfErr result (λ error. IsFaulty index draw error) }
{
    let Ok(name) = name_of(alloc, index) else {
        return Err(WorkError::NoMemory);
    };
    let Ok(text) = image_text(alloc, index, draw) else {
        return Err(WorkError::NoMemory);
    };
    match assemble(alloc, text.as_slice()) {
        Ok(bytes) => Ok(Named { name, bytes }),
        Err(AsmError::Source { line, kind }) => Err(WorkError::Refused { line, kind }),
        Err(AsmError::NoMemory) => Err(WorkError::NoMemory),
    }
}
