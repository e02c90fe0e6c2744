// A script, read a line at a time.
ghost use Rattle.std.specs.Prelude.{◌≡◌, ◌+◌, ◌≤◌, ◌<◌, ◌^◌, IfOk, IfErr, Ok, length};
ghost use Rattle.std.specs.Str.Lines.{lines};
ghost use Rattle.shell_text.specs.Orders.{is_run_line, is_past, line_order};
ghost use Rattle.shell_text.specs.Script.{fresh, with_order, line_read, read_lines, script_of, IsFaultOf};

use crate::fault::{FaultKind, ScriptError};
use crate::lexing::{is_text, next_line, next_word};
use crate::order::order_on;
use call_table::{NoMemory, limit};
use node_event::{Order, Script, ScriptLine};
use std::alloc::Global;

/// What was read so far: how many lines, how many of them launch, and the orders.
#[derive(Debug, Drop)]
pub struct Reader {
    pub number: u32,
    pub runs: u32,
    pub script: Script,
}

fn is_run_line(line: &[u8]) -> bool
    ensures { result ≡ is_run_line line.now }
{
    match next_word(line) {
        Some((word, _rest)) => word == b"run".as_slice(),
        None => false,
    }
}

/// Whether the line of this number is past a limit, behind so many that launch.
fn is_past(number: u32, runs: u32, line: &[u8]) -> bool
    ensures { result ≡ is_past number runs line.now }
{
    if line.len() > limit::LINE_BYTES as usize {
        return true;
    }
    if number > limit::LINES {
        return true;
    }
    if runs < limit::RUN_LINES {
        return false;
    }
    is_run_line(line)
}

/// What a line comes to: nothing, an order, or what is wrong with it.
fn line_order(
    alloc: Global,
    nodes: u8,
    number: u32,
    runs: u32,
    line: &[u8],
) -> Result<Result<Option<Order>, FaultKind>, NoMemory>
    ensures { IfOk result (λ r. r ≡ line_order nodes number runs line.now) }
{
    if is_past(number, runs, line) {
        return Ok(Err(FaultKind::TooLong));
    }
    if !is_text(line) {
        return Ok(Err(FaultKind::NotText));
    }
    order_on(alloc, nodes, line)
}

/// The lines that were read and one more, of which this is said.
fn with_order(
    reader: Reader,
    is_run: bool,
    read: Result<Option<Order>, FaultKind>,
) -> Result<Reader, ScriptError>
    requires few { reader.number < 2 ^ 31 }
    requires runs { reader.runs ≤ reader.number }
    ensures ok { IfOk result (λ r. with_order reader is_run read ≡ Ok r) }
    ensures err { IfErr result (λ e. IsFaultOf (with_order reader is_run read) e) }
    ensures step { IfOk result (λ r. (r.number ≡ reader.number + 1) × (r.runs ≤ reader.runs + 1)) }
{
    let line = reader.number + 1;
    let runs = if is_run { reader.runs + 1 } else { reader.runs };
    let Reader { mut script, .. } = reader;
    match read {
        Ok(Some(order)) => {
            if script.push(ScriptLine { line, order }).is_err() {
                return Err(ScriptError::NoMemory);
            }
        }
        Ok(None) => {}
        Err(kind) => {
            return Err(ScriptError::Fault {
                line,
                kind: kind.number(),
            });
        }
    }
    Ok(Reader {
        number: line,
        runs,
        script,
    })
}

/// The lines that were read and this one.
fn read_line(alloc: Global, nodes: u8, reader: Reader, line: &[u8]) -> Result<Reader, ScriptError>
    requires few { reader.number < 2 ^ 31 }
    requires runs { reader.runs ≤ reader.number }
    ensures ok { IfOk result (λ r. line_read nodes line.now reader ≡ Ok r) }
    ensures err { IfErr result (λ e. IsFaultOf (line_read nodes line.now reader) e) }
    ensures step { IfOk result (λ r. (r.number ≡ reader.number + 1) × (r.runs ≤ reader.runs + 1)) }
{
    match line_order(alloc, nodes, reader.number + 1, reader.runs, line) {
        Ok(read) => with_order(reader, is_run_line(line), read),
        Err(_) => Err(ScriptError::NoMemory),
    }
}

/// All lines, read in order.
#[tactic(auto, using(crate::proofs::ReadLemmas::read_more, crate::proofs::ReadLemmas::read_fault, crate::proofs::ReadLemmas::read_end))]
fn read_lines(alloc: Global, bytes: &[u8], nodes: u8) -> Result<Reader, ScriptError>
    requires { length bytes.now < 2 ^ 31 }
    ensures ok { IfOk result (λ r. read_lines nodes (lines bytes.now) fresh ≡ Ok r) }
    ensures err { IfErr result (λ e. IsFaultOf (read_lines nodes (lines bytes.now) fresh) e) }
{
    let mut reader = Reader {
        number: 0,
        runs: 0,
        script: Script::new(alloc),
    };
    let mut rest = bytes;
    while let Some((line, behind)) = next_line(rest) {
        reader = match read_line(alloc, nodes, reader, line) {
            Ok(reader) => reader,
            Err(e) => return Err(e),
        };
        rest = behind;
    }
    Ok(reader)
}

#[tactic(auto, using(crate::proofs::ReadLemmas::script_fault))]
/// The script that these bytes write for so many nodes, or its first fault: `docs/SCRIPT.md` has the language.
pub fn read_script(alloc: Global, bytes: &[u8], nodes: u8) -> Result<Script, ScriptError>
    ensures ok { IfOk result (λ script. script_of nodes bytes.now ≡ Ok script) }
    ensures err { IfErr result (λ e. IsFaultOf (script_of nodes bytes.now) e) }
{
    if bytes.len() > limit::SCRIPT_BYTES as usize {
        return Err(ScriptError::Fault {
            line: 0,
            kind: FaultKind::TooLong.number(),
        });
    }
    match read_lines(alloc, bytes, nodes) {
        Ok(reader) => Ok(reader.script),
        Err(e) => Err(e),
    }
}
