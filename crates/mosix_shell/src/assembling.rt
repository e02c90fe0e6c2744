// Mode `asm`: from a text to the file of its program.
ghost use Rattle.std.specs.Prelude.{◌≡◌, ◌+◌, Err};
ghost use Rattle.outside.specs.Outside.{Rose};
ghost use Rattle.mosix_shell.specs.Reading.{Reads};
ghost use Rattle.mosix_shell.specs.Why.{is_cut};
ghost use Rattle.mosix_shell.specs.Assembling.{IsMadeFrom};

use crate::reading::{ReadError, read_text};
use crate::why::Why;
use call_table::Bytes;
use call_table::limit::SOURCE_BYTES;
use outside::Source;
use rv_asm::{AsmError, assemble};
use std::alloc::Global;

/// The file of a source's text.
#[tactic(auto, using(crate::proofs::Assemblies::made_from, crate::proofs::Assemblies::made_nothing, crate::proofs::Readings::cut_or_not))]
pub fn assemble_source<S: Source>(alloc: Global, source: &mut S) -> Result<Bytes, Why>
    ensures made { IsMadeFrom (S.left source.old) result }
    ensures reads { Reads (SOURCE_BYTES + 1) (S.left source.old) (S.left source.new) (is_cut result) }
    ensures fault { result ≡ Err Why.ReadFault → Rose (S.faults source.old) (S.faults source.new) }
{
    let text = match read_text(alloc, source, SOURCE_BYTES) {
        Ok(text) => text,
        Err(ReadError::Failed) => return Err(Why::ReadFault),
        Err(ReadError::NoMemory) => return Err(Why::NoMemory),
    };
    match assemble(alloc, text.as_slice()) {
        Ok(file) => Ok(file),
        Err(AsmError::Source { line, kind }) => Err(Why::BadSource { line, kind }),
        Err(AsmError::NoMemory) => Err(Why::NoMemory),
    }
}
