// From a text to the file of its program.
ghost use Rattle.std.specs.Prelude.{◌≡◌, ◌-◌, ◌<◌, ◌≤◌, ◌^◌, length, IfOk, IfErr, Ok};
ghost use Rattle.call_table.specs.declared.limit.TheConstants.{SOURCE_BYTES};
ghost use Rattle.rv_asm.specs.Lines.{lines_of};
ghost use Rattle.rv_asm.specs.Layout.{start, defined_from};
ghost use Rattle.rv_asm.specs.Assembly.{bytes_from, assembled_lines, assembled};
ghost use Rattle.rv_asm.specs.Refusals.{refusal_of, IsRefusal};

use crate::assembly::{bss_of_all, emit};
use crate::fault::{AsmError, Fault, FaultKind};
use crate::file::write_file;
use crate::layout::define;
use crate::line::{Line, read_lines};
use call_table::limit::SOURCE_BYTES;
use call_table::{Bytes, NoMemory};
use std::alloc::Global;

#[tactic(auto, using(crate::proofs::EmitLemmas::same_labels))]
fn code_of_lines(alloc: Global, lines: &[Line]) -> Result<Result<Bytes, Fault>, NoMemory>
    requires { length lines.now < 2 ^ 32 - 1 }
    ensures { IfOk result (λ bytes. bytes ≡ bytes_from (defined_from 1 start lines.now) 1 start lines.now) }
{
    let labels = define(alloc, lines)?;
    emit(alloc, &labels, lines)
}

fn assemble_lines(alloc: Global, lines: &[Line]) -> Result<Result<Bytes, Fault>, NoMemory>
    requires { length lines.now < 2 ^ 32 - 1 }
    ensures { IfOk result (λ file. file ≡ assembled_lines lines.now) }
{
    match code_of_lines(alloc, lines)? {
        Ok(bytes) => {
            let file = write_file(alloc, &bytes, bss_of_all(lines))?;
            Ok(Ok(file))
        }
        Err(fault) => Ok(Err(fault)),
    }
}

fn assemble_text(alloc: Global, text: &[u8]) -> Result<Result<Bytes, Fault>, NoMemory>
    requires { length text.now ≤ SOURCE_BYTES }
    ensures { IfOk result (λ file. file ≡ assembled_lines (lines_of text.now)) }
{
    let lines = read_lines(alloc, text)?;
    assemble_lines(alloc, lines.as_slice())
}

fn refusal(fault: Fault) -> AsmError
    ensures { result ≡ refusal_of fault }
{
    AsmError::Source {
        line: fault.line,
        kind: fault.kind.number(),
    }
}

/// Assembles a text into the ELF file of its program.
///
/// The language: one statement a line, a comment from `#` on, labels `NAME:`, operands parted by commas. The program is
/// loaded at 0x10000 with all rights. A text of more than 1,048,576 bytes is refused as line 0; else the first faulty
/// line is told, with the first fault of that line.
pub fn assemble(alloc: Global, text: &[u8]) -> Result<Bytes, AsmError>
    ensures ok { IfOk result (λ file. assembled text.now ≡ Ok file) }
    ensures refused { IfErr result (λ error. IsRefusal (assembled text.now) error) }
{
    if text.len() > SOURCE_BYTES as usize {
        let fault = Fault {
            line: 0,
            kind: FaultKind::TooLong,
        };
        return Err(refusal(fault));
    }
    let outcome = match assemble_text(alloc, text) {
        Ok(outcome) => outcome,
        Err(NoMemory) => return Err(AsmError::NoMemory),
    };
    match outcome {
        Ok(file) => Ok(file),
        Err(fault) => Err(refusal(fault)),
    }
}
