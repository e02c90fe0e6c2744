// The second pass: the bytes of all lines, or the first fault.
ghost use Rattle.std.specs.Prelude.{◌≡◌, ◌+◌, ◌-◌, ◌<◌, ◌^◌, ◌++◌, length, IfOk, OnOk};
ghost use Rattle.rv_asm.specs.Labels.{found_in};
ghost use Rattle.rv_asm.specs.Layout.{start};
ghost use Rattle.rv_asm.specs.Assembly.{fault_of_definition, fault_of_label, fault_of_place, limit, statement_bss, bss_of, fault_of_end, unless, read_bytes, then_unless, body_bytes, line_bytes, bytes_from, bss_of_all};
ghost use Rattle.rv_asm.specs.Keywords.{or_else};
ghost use Rattle.rv_asm.specs.Code.{code_bytes, data_bytes};
ghost use Rattle.rv_asm.specs.Emitting.{Emits};

use crate::code::{Code, code_of, push_code, push_data};
use crate::fault::{Fault, FaultKind};
use crate::keyword::{Keyword, is_instruction};
use crate::layout::{Labels, Place, START, after_line, far_as, find, size_of};
use crate::line::{Body, Line};
use crate::statement::Statement;
use call_table::{Bytes, NoMemory};
use std::alloc::Global;

// Where the memory ends that a program may take.
const LIMIT: u32 = 0x1_0000 + 1008 * 4096;

fn fault_of_label(labels: &Labels, number: u32, label: &Option<Bytes>) -> Option<FaultKind>
    ensures { result ≡ fault_of_label (found_in labels.now) number label.now }
{
    match label {
        Some(label) => match find(labels, label.as_slice()) {
            Some(definition) => {
                if definition.line == number {
                    None
                } else {
                    Some(FaultKind::DoubleLabel)
                }
            }
            None => None,
        },
        None => None,
    }
}

fn fault_of_place(place: Place, keyword: Keyword) -> Option<FaultKind>
    ensures { result ≡ fault_of_place place keyword }
{
    if place.closed || (is_instruction(keyword) && place.address % 4 != 0) {
        Some(FaultKind::BadOperand)
    } else {
        None
    }
}

fn statement_bss(statement: &Statement) -> u32
    ensures { result ≡ statement_bss statement.now }
{
    match statement {
        Statement::Instruction(_) => 0,
        Statement::Branch(_, _, _, _) => 0,
        Statement::Jump(_, _) => 0,
        Statement::Address(_, _) => 0,
        Statement::Number(_, _) => 0,
        Statement::Call(_) => 0,
        Statement::Word(_) => 0,
        Statement::Byte(_) => 0,
        Statement::Text(_) => 0,
        Statement::Space(_) => 0,
        Statement::Align => 0,
        Statement::Bss(count) => *count,
    }
}

fn bss_of(body: &Body) -> u32
    ensures { result ≡ bss_of body.now }
{
    match body {
        Body::Empty => 0,
        Body::Unknown => 0,
        Body::Known(_, statement, _) => match statement {
            Ok(statement) => statement_bss(statement),
            Err(_) => 0,
        },
    }
}

fn fault_of_end(place: Place, body: &Body) -> Option<FaultKind>
    ensures { result ≡ fault_of_end place body.now }
{
    let end = far_as(place.address, size_of(place.address, body));
    let end = far_as(end, bss_of(body) as usize);
    if end > LIMIT {
        Some(FaultKind::TooLong)
    } else {
        None
    }
}

/// What the memory behind the file's bytes is: what the first `.bss` asks for.
pub fn bss_of_all(lines: &[Line]) -> u32
    ensures { result ≡ bss_of_all lines.now }
{
    for line in lines {
        let bss = bss_of(&line.body);
        if bss != 0 {
            return bss;
        }
    }
    0
}

// Appends the bytes of a statement with these instructions.
fn push_statement(
    out: &mut Bytes,
    address: u32,
    code: Code,
    statement: &Statement,
) -> Result<(), NoMemory>
    ensures { OnOk result (out.new ≡ out.old ++ (code_bytes code ++ data_bytes address statement.now)) }
{
    push_code(out, code)?;
    push_data(out, address, statement)
}

// Appends the bytes of a statement, or tells the first fault; `later` is what is wrong behind its operands.
fn emit_known(
    labels: &Labels,
    place: Place,
    keyword: Keyword,
    statement: &Result<Statement, FaultKind>,
    later: Option<FaultKind>,
    out: &mut Bytes,
) -> Result<Option<FaultKind>, NoMemory>
    ensures { IfOk result (λ fault. Emits (unless (fault_of_place place keyword) (then_unless (read_bytes (found_in labels.now) place.address statement.now) later)) fault out.old out.new) }
{
    if let Some(fault) = fault_of_place(place, keyword) {
        return Ok(Some(fault));
    }
    let statement = match statement {
        Ok(statement) => statement,
        Err(fault) => return Ok(Some(*fault)),
    };
    let code = match code_of(labels, place.address, statement) {
        Ok(code) => code,
        Err(fault) => return Ok(Some(fault)),
    };
    if let Some(fault) = later {
        return Ok(Some(fault));
    }
    push_statement(out, place.address, code, statement)?;
    Ok(None)
}

// What is wrong behind the operands: one too many, or the end of the memory.
fn later_fault(place: Place, body: &Body, extra: Option<FaultKind>) -> Option<FaultKind>
    ensures { result ≡ or_else extra (fault_of_end place body.now) }
{
    match extra {
        Some(fault) => Some(fault),
        None => fault_of_end(place, body),
    }
}

fn emit_body(
    labels: &Labels,
    place: Place,
    body: &Body,
    out: &mut Bytes,
) -> Result<Option<FaultKind>, NoMemory>
    ensures { IfOk result (λ fault. Emits (body_bytes (found_in labels.now) place body.now) fault out.old out.new) }
{
    match body {
        Body::Empty => Ok(None),
        Body::Unknown => Ok(Some(FaultKind::UnknownWord)),
        Body::Known(keyword, statement, extra) => {
            let later = later_fault(place, body, *extra);
            emit_known(labels, place, *keyword, statement, later, out)
        }
    }
}

// Appends the bytes of a line, or tells its first fault.
fn emit_line(
    labels: &Labels,
    number: u32,
    place: Place,
    line: &Line,
    out: &mut Bytes,
) -> Result<Option<FaultKind>, NoMemory>
    ensures { IfOk result (λ fault. Emits (line_bytes (found_in labels.now) number place line.now) fault out.old out.new) }
{
    if let Some(fault) = fault_of_label(labels, number, &line.label) {
        return Ok(Some(fault));
    }
    emit_body(labels, place, &line.body, out)
}

/// The bytes of all lines, or the first fault of the first faulty line.
pub fn emit(
    alloc: Global,
    labels: &Labels,
    lines: &[Line],
) -> Result<Result<Bytes, Fault>, NoMemory>
    requires { length lines.now < 2 ^ 32 - 1 }
    ensures { IfOk result (λ bytes. bytes ≡ bytes_from (found_in labels.now) 1 start lines.now) }
{
    let mut out = Bytes::new(alloc);
    let mut place = START;
    let mut number = 1u32;
    for line in lines {
        let fault = emit_line(labels, number, place, line, &mut out)?;
        match fault {
            Some(kind) => return Ok(Err(Fault { line: number, kind })),
            None => {}
        }
        place = after_line(place, &line.body);
        number += 1;
    }
    Ok(Ok(out))
}
