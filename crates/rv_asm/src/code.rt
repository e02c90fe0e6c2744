// The instructions and the bytes of statements.
ghost use Rattle.std.specs.Prelude.{◌≡◌, ◌++◌, ◌-ℤ◌, pos, replicate, OnOk, ℤ};
ghost use Rattle.byteorder.specs.Endian.{little_bytes};
ghost use Rattle.rv_decode.specs.Operands.{branch_offset_of, jump_offset_of};
ghost use Rattle.rv_asm.specs.Labels.{found_in};
ghost use Rattle.rv_asm.specs.Code.{load_upper, add_lower, load_word, call_code, distance, branch_by, branch_to, jump_by, jump_to, address_of, code_of, instruction_bytes, code_bytes, data_bytes};

use crate::fault::FaultKind;
use crate::keyword::BranchOp;
use crate::layout::{Definition, Labels, find, padding};
use crate::operand::nearest;
use crate::statement::{Statement, branch_instr};
use byteorder::{ByteOrder, LittleEndian};
use call_table::{Bytes, NoMemory};
use rv_decode::{BranchOffset, Immediate, Instr, JumpOffset, Register, Upper, encode};

/// The instructions of one statement.
#[derive(Clone, Copy)]
pub enum Code {
    Nothing,
    One(Instr),
    Two(Instr, Instr),
    Three(Instr, Instr, Instr),
}

fn load_upper(rd: Register, word: u32) -> Instr
    ensures { result ≡ load_upper rd word }
{
    Instr::Lui(rd, Upper::from_field(word.wrapping_add(0x800) / 4096))
}

fn add_lower(rd: Register, word: u32) -> Instr
    ensures { result ≡ add_lower rd word }
{
    Instr::Addi(rd, rd, Immediate::from_field(word % 4096))
}

fn load_word(rd: Register, word: u32) -> Code
    ensures { result ≡ load_word rd word }
{
    Code::Two(load_upper(rd, word), add_lower(rd, word))
}

fn call_code(number: u32) -> Code
    ensures { result ≡ call_code number }
{
    let a7 = Register::from_field(17);
    Code::Three(load_upper(a7, number), add_lower(a7, number), Instr::Ecall)
}

fn distance(address: u32, definition: Definition) -> i64
    ensures { result ≡ distance address definition }
{
    i64::from(definition.address) - i64::from(address)
}

#[tactic(auto, using(crate::proofs::RangeLemmas::branch_same))]
fn branch_offset(distance: i64) -> Option<BranchOffset>
    ensures { result ≡ branch_offset_of distance }
{
    BranchOffset::new(nearest(distance))
}

#[tactic(auto, using(crate::proofs::RangeLemmas::jump_same))]
fn jump_offset(distance: i64) -> Option<JumpOffset>
    ensures { result ≡ jump_offset_of distance }
{
    JumpOffset::new(nearest(distance))
}

fn branch_by(
    op: BranchOp,
    rs1: Register,
    rs2: Register,
    offset: Option<BranchOffset>,
) -> Result<Code, FaultKind>
    ensures { result ≡ branch_by op rs1 rs2 offset }
{
    match offset {
        Some(offset) => Ok(Code::One(branch_instr(op, rs1, rs2, offset))),
        None => Err(FaultKind::OutOfRange),
    }
}

fn branch_to(
    op: BranchOp,
    rs1: Register,
    rs2: Register,
    address: u32,
    to: Option<Definition>,
) -> Result<Code, FaultKind>
    ensures { result ≡ branch_to op rs1 rs2 address to }
{
    match to {
        Some(definition) => {
            let offset = branch_offset(distance(address, definition));
            branch_by(op, rs1, rs2, offset)
        }
        None => Err(FaultKind::UnknownLabel),
    }
}

fn jump_by(rd: Register, offset: Option<JumpOffset>) -> Result<Code, FaultKind>
    ensures { result ≡ jump_by rd offset }
{
    match offset {
        Some(offset) => Ok(Code::One(Instr::Jal(rd, offset))),
        None => Err(FaultKind::OutOfRange),
    }
}

fn jump_to(rd: Register, address: u32, to: Option<Definition>) -> Result<Code, FaultKind>
    ensures { result ≡ jump_to rd address to }
{
    match to {
        Some(definition) => jump_by(rd, jump_offset(distance(address, definition))),
        None => Err(FaultKind::UnknownLabel),
    }
}

fn address_of(rd: Register, of: Option<Definition>) -> Result<Code, FaultKind>
    ensures { result ≡ address_of rd of }
{
    match of {
        Some(definition) => Ok(load_word(rd, definition.address)),
        None => Err(FaultKind::UnknownLabel),
    }
}

/// The instructions of a statement at this address.
pub fn code_of(labels: &Labels, address: u32, statement: &Statement) -> Result<Code, FaultKind>
    ensures { result ≡ code_of (found_in labels.now) address statement.now }
{
    match statement {
        Statement::Instruction(instr) => Ok(Code::One(*instr)),
        Statement::Branch(op, rs1, rs2, label) => {
            branch_to(*op, *rs1, *rs2, address, find(labels, label.as_slice()))
        }
        Statement::Jump(rd, label) => jump_to(*rd, address, find(labels, label.as_slice())),
        Statement::Address(rd, label) => address_of(*rd, find(labels, label.as_slice())),
        Statement::Number(rd, word) => Ok(load_word(*rd, *word)),
        Statement::Call(number) => Ok(call_code(*number)),
        Statement::Word(_) => Ok(Code::Nothing),
        Statement::Byte(_) => Ok(Code::Nothing),
        Statement::Text(_) => Ok(Code::Nothing),
        Statement::Space(_) => Ok(Code::Nothing),
        Statement::Align => Ok(Code::Nothing),
        Statement::Bss(_) => Ok(Code::Nothing),
    }
}

/// Appends a word.
pub fn push_word(out: &mut Bytes, word: u32) -> Result<(), NoMemory>
    ensures { OnOk result (out.new ≡ out.old ++ little_bytes 4 word) }
{
    let mut bytes = [0; 4];
    LittleEndian::write_u32(&mut bytes, word);
    out.push_slice(&bytes)
}

fn push_instruction(out: &mut Bytes, instr: Instr) -> Result<(), NoMemory>
    ensures { OnOk result (out.new ≡ out.old ++ instruction_bytes instr) }
{
    push_word(out, encode(&instr))
}

fn push_pair(out: &mut Bytes, first: Instr, second: Instr) -> Result<(), NoMemory>
    ensures { OnOk result (out.new ≡ out.old ++ (instruction_bytes first ++ instruction_bytes second)) }
{
    push_instruction(out, first)?;
    push_instruction(out, second)
}

fn push_triple(out: &mut Bytes, first: Instr, second: Instr, third: Instr) -> Result<(), NoMemory>
    ensures { OnOk result (out.new ≡ out.old ++ (instruction_bytes first ++ instruction_bytes second ++ instruction_bytes third)) }
{
    push_pair(out, first, second)?;
    push_instruction(out, third)
}

/// Appends instructions.
pub fn push_code(out: &mut Bytes, code: Code) -> Result<(), NoMemory>
    ensures { OnOk result (out.new ≡ out.old ++ code_bytes code) }
{
    match code {
        Code::Nothing => Ok(()),
        Code::One(a) => push_instruction(out, a),
        Code::Two(a, b) => push_pair(out, a, b),
        Code::Three(a, b, c) => push_triple(out, a, b, c),
    }
}

fn push_zeros(out: &mut Bytes, count: u32) -> Result<(), NoMemory>
    ensures { OnOk result (out.new ≡ out.old ++ replicate count 0) }
{
    for _i in 0..count {
        out.push(0)?;
    }
    Ok(())
}

/// Appends the data of a statement at this address.
pub fn push_data(out: &mut Bytes, address: u32, statement: &Statement) -> Result<(), NoMemory>
    ensures { OnOk result (out.new ≡ out.old ++ data_bytes address statement.now) }
{
    match statement {
        Statement::Instruction(_) => Ok(()),
        Statement::Branch(_, _, _, _) => Ok(()),
        Statement::Jump(_, _) => Ok(()),
        Statement::Address(_, _) => Ok(()),
        Statement::Number(_, _) => Ok(()),
        Statement::Call(_) => Ok(()),
        Statement::Word(word) => push_word(out, *word),
        Statement::Byte(byte) => out.push(*byte),
        Statement::Text(bytes) => out.push_slice(bytes.as_slice()),
        Statement::Space(count) => push_zeros(out, *count),
        Statement::Align => push_zeros(out, padding(address)),
        Statement::Bss(_) => Ok(()),
    }
}
