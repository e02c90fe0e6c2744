// What statements stand for.
ghost use Rattle.std.specs.Prelude.{◌≡◌, slice_get, IfOk};
ghost use Rattle.rv_asm.specs.Lexing.{operands_of};
ghost use Rattle.rv_asm.specs.Statements.{register_instr, immediate_instr, shift_instr, load_instr, store_instr, branch_instr, upper_instr, plain_instr, statement_of, operand_count};

use crate::fault::FaultKind;
use crate::keyword::{
    BranchOp, ImmediateOp, Keyword, LoadOp, PlainOp, RegisterOp, ShiftOp, StoreOp, UpperOp,
};
use crate::operand::{
    byte_at, immediate_at, label_at, place_at, register_at, shift_at, size_at, text_at, upper_at,
    word_at,
};
use call_table::{Bytes, NoMemory};
use rv_decode::{BranchOffset, FenceBits, Immediate, Instr, Register, Shift, Upper};
use std::alloc::Global;

/// A statement with its operands.
#[derive(Drop)]
pub enum Statement {
    /// An instruction without a label.
    Instruction(Instr),
    /// A branch to a label.
    Branch(BranchOp, Register, Register, Bytes),
    /// A jump to a label.
    Jump(Register, Bytes),
    /// The address of a label into a register.
    Address(Register, Bytes),
    /// A word into a register.
    Number(Register, u32),
    /// A call of this number.
    Call(u32),
    Word(u32),
    Byte(u8),
    Text(Bytes),
    /// So many zeros.
    Space(u32),
    /// Zeros up to a multiple of 4.
    Align,
    /// So many zeros behind the file's bytes.
    Bss(u32),
}

fn register_instr(op: RegisterOp, rd: Register, rs1: Register, rs2: Register) -> Instr
    ensures { result ≡ register_instr op rd rs1 rs2 }
{
    match op {
        RegisterOp::Add => Instr::Add(rd, rs1, rs2),
        RegisterOp::Sub => Instr::Sub(rd, rs1, rs2),
        RegisterOp::Sll => Instr::Sll(rd, rs1, rs2),
        RegisterOp::Slt => Instr::Slt(rd, rs1, rs2),
        RegisterOp::Sltu => Instr::Sltu(rd, rs1, rs2),
        RegisterOp::Xor => Instr::Xor(rd, rs1, rs2),
        RegisterOp::Srl => Instr::Srl(rd, rs1, rs2),
        RegisterOp::Sra => Instr::Sra(rd, rs1, rs2),
        RegisterOp::Or => Instr::Or(rd, rs1, rs2),
        RegisterOp::And => Instr::And(rd, rs1, rs2),
    }
}

fn immediate_instr(op: ImmediateOp, rd: Register, rs1: Register, imm: Immediate) -> Instr
    ensures { result ≡ immediate_instr op rd rs1 imm }
{
    match op {
        ImmediateOp::Addi => Instr::Addi(rd, rs1, imm),
        ImmediateOp::Slti => Instr::Slti(rd, rs1, imm),
        ImmediateOp::Sltiu => Instr::Sltiu(rd, rs1, imm),
        ImmediateOp::Xori => Instr::Xori(rd, rs1, imm),
        ImmediateOp::Ori => Instr::Ori(rd, rs1, imm),
        ImmediateOp::Andi => Instr::Andi(rd, rs1, imm),
    }
}

fn shift_instr(op: ShiftOp, rd: Register, rs1: Register, shamt: Shift) -> Instr
    ensures { result ≡ shift_instr op rd rs1 shamt }
{
    match op {
        ShiftOp::Slli => Instr::Slli(rd, rs1, shamt),
        ShiftOp::Srli => Instr::Srli(rd, rs1, shamt),
        ShiftOp::Srai => Instr::Srai(rd, rs1, shamt),
    }
}

fn load_instr(op: LoadOp, rd: Register, rs1: Register, imm: Immediate) -> Instr
    ensures { result ≡ load_instr op rd rs1 imm }
{
    match op {
        LoadOp::Lb => Instr::Lb(rd, rs1, imm),
        LoadOp::Lh => Instr::Lh(rd, rs1, imm),
        LoadOp::Lw => Instr::Lw(rd, rs1, imm),
        LoadOp::Lbu => Instr::Lbu(rd, rs1, imm),
        LoadOp::Lhu => Instr::Lhu(rd, rs1, imm),
    }
}

fn store_instr(op: StoreOp, rs1: Register, rs2: Register, imm: Immediate) -> Instr
    ensures { result ≡ store_instr op rs1 rs2 imm }
{
    match op {
        StoreOp::Sb => Instr::Sb(rs1, rs2, imm),
        StoreOp::Sh => Instr::Sh(rs1, rs2, imm),
        StoreOp::Sw => Instr::Sw(rs1, rs2, imm),
    }
}

/// The branch with this distance.
pub fn branch_instr(op: BranchOp, rs1: Register, rs2: Register, imm: BranchOffset) -> Instr
    ensures { result ≡ branch_instr op rs1 rs2 imm }
{
    match op {
        BranchOp::Beq => Instr::Beq(rs1, rs2, imm),
        BranchOp::Bne => Instr::Bne(rs1, rs2, imm),
        BranchOp::Blt => Instr::Blt(rs1, rs2, imm),
        BranchOp::Bge => Instr::Bge(rs1, rs2, imm),
        BranchOp::Bltu => Instr::Bltu(rs1, rs2, imm),
        BranchOp::Bgeu => Instr::Bgeu(rs1, rs2, imm),
    }
}

fn upper_instr(op: UpperOp, rd: Register, imm: Upper) -> Instr
    ensures { result ≡ upper_instr op rd imm }
{
    match op {
        UpperOp::Lui => Instr::Lui(rd, imm),
        UpperOp::Auipc => Instr::Auipc(rd, imm),
    }
}

fn plain_instr(op: PlainOp) -> Instr
    ensures { result ≡ plain_instr op }
{
    let zero = Immediate::from_field(0);
    let x0 = Register::from_field(0);
    match op {
        PlainOp::Fence => Instr::Fence(FenceBits::from_field(0x3_FC00)),
        PlainOp::Ecall => Instr::Ecall,
        PlainOp::Ebreak => Instr::Ebreak,
        PlainOp::Ret => Instr::Jalr(x0, Register::from_field(1), zero),
        PlainOp::Nop => Instr::Addi(x0, x0, zero),
    }
}

fn register_form(op: RegisterOp, operands: &[u8]) -> Result<Statement, FaultKind>
    ensures { result ≡ statement_of (Keyword.Register op) (operands_of operands.now) }
{
    let rd = register_at(operands, 0)?;
    let rs1 = register_at(operands, 1)?;
    let rs2 = register_at(operands, 2)?;
    Ok(Statement::Instruction(register_instr(op, rd, rs1, rs2)))
}

fn immediate_form(op: ImmediateOp, operands: &[u8]) -> Result<Statement, FaultKind>
    ensures { result ≡ statement_of (Keyword.Immediate op) (operands_of operands.now) }
{
    let rd = register_at(operands, 0)?;
    let rs1 = register_at(operands, 1)?;
    let imm = immediate_at(operands, 2)?;
    Ok(Statement::Instruction(immediate_instr(op, rd, rs1, imm)))
}

fn shift_form(op: ShiftOp, operands: &[u8]) -> Result<Statement, FaultKind>
    ensures { result ≡ statement_of (Keyword.Shift op) (operands_of operands.now) }
{
    let rd = register_at(operands, 0)?;
    let rs1 = register_at(operands, 1)?;
    let shamt = shift_at(operands, 2)?;
    Ok(Statement::Instruction(shift_instr(op, rd, rs1, shamt)))
}

fn load_form(op: LoadOp, operands: &[u8]) -> Result<Statement, FaultKind>
    ensures { result ≡ statement_of (Keyword.Load op) (operands_of operands.now) }
{
    let rd = register_at(operands, 0)?;
    let (imm, rs1) = place_at(operands, 1)?;
    Ok(Statement::Instruction(load_instr(op, rd, rs1, imm)))
}

fn store_form(op: StoreOp, operands: &[u8]) -> Result<Statement, FaultKind>
    ensures { result ≡ statement_of (Keyword.Store op) (operands_of operands.now) }
{
    let rs2 = register_at(operands, 0)?;
    let (imm, rs1) = place_at(operands, 1)?;
    Ok(Statement::Instruction(store_instr(op, rs1, rs2, imm)))
}

fn upper_form(op: UpperOp, operands: &[u8]) -> Result<Statement, FaultKind>
    ensures { result ≡ statement_of (Keyword.Upper op) (operands_of operands.now) }
{
    let rd = register_at(operands, 0)?;
    let imm = upper_at(operands, 1)?;
    Ok(Statement::Instruction(upper_instr(op, rd, imm)))
}

fn jalr_form(operands: &[u8]) -> Result<Statement, FaultKind>
    ensures { result ≡ statement_of Keyword.Jalr (operands_of operands.now) }
{
    let rd = register_at(operands, 0)?;
    let (imm, rs1) = place_at(operands, 1)?;
    Ok(Statement::Instruction(Instr::Jalr(rd, rs1, imm)))
}

fn number_form(operands: &[u8]) -> Result<Statement, FaultKind>
    ensures { result ≡ statement_of Keyword.Li (operands_of operands.now) }
{
    let rd = register_at(operands, 0)?;
    let word = word_at(operands, 1)?;
    Ok(Statement::Number(rd, word))
}

fn move_form(operands: &[u8]) -> Result<Statement, FaultKind>
    ensures { result ≡ statement_of Keyword.Mv (operands_of operands.now) }
{
    let rd = register_at(operands, 0)?;
    let rs = register_at(operands, 1)?;
    Ok(Statement::Instruction(Instr::Addi(rd, rs, Immediate::from_field(0))))
}

fn branch_form(
    alloc: Global,
    op: BranchOp,
    operands: &[u8],
) -> Result<Result<Statement, FaultKind>, NoMemory>
    ensures { IfOk result (λ read. read ≡ statement_of (Keyword.Branch op) (operands_of operands.now)) }
{
    let rs1 = match register_at(operands, 0) {
        Ok(rs1) => rs1,
        Err(fault) => return Ok(Err(fault)),
    };
    let rs2 = match register_at(operands, 1) {
        Ok(rs2) => rs2,
        Err(fault) => return Ok(Err(fault)),
    };
    match label_at(alloc, operands, 2)? {
        Ok(label) => Ok(Ok(Statement::Branch(op, rs1, rs2, label))),
        Err(fault) => Ok(Err(fault)),
    }
}

fn jal_form(alloc: Global, operands: &[u8]) -> Result<Result<Statement, FaultKind>, NoMemory>
    ensures { IfOk result (λ read. read ≡ statement_of Keyword.Jal (operands_of operands.now)) }
{
    let rd = match register_at(operands, 0) {
        Ok(rd) => rd,
        Err(fault) => return Ok(Err(fault)),
    };
    match label_at(alloc, operands, 1)? {
        Ok(label) => Ok(Ok(Statement::Jump(rd, label))),
        Err(fault) => Ok(Err(fault)),
    }
}

fn jump_form(alloc: Global, operands: &[u8]) -> Result<Result<Statement, FaultKind>, NoMemory>
    ensures { IfOk result (λ read. read ≡ statement_of Keyword.J (operands_of operands.now)) }
{
    match label_at(alloc, operands, 0)? {
        Ok(label) => Ok(Ok(Statement::Jump(Register::from_field(0), label))),
        Err(fault) => Ok(Err(fault)),
    }
}

fn address_form(alloc: Global, operands: &[u8]) -> Result<Result<Statement, FaultKind>, NoMemory>
    ensures { IfOk result (λ read. read ≡ statement_of Keyword.La (operands_of operands.now)) }
{
    let rd = match register_at(operands, 0) {
        Ok(rd) => rd,
        Err(fault) => return Ok(Err(fault)),
    };
    match label_at(alloc, operands, 1)? {
        Ok(label) => Ok(Ok(Statement::Address(rd, label))),
        Err(fault) => Ok(Err(fault)),
    }
}

fn text_form(alloc: Global, operands: &[u8]) -> Result<Result<Statement, FaultKind>, NoMemory>
    ensures { IfOk result (λ read. read ≡ statement_of Keyword.Ascii (operands_of operands.now)) }
{
    match text_at(alloc, operands, 0)? {
        Ok(text) => Ok(Ok(Statement::Text(text))),
        Err(fault) => Ok(Err(fault)),
    }
}

fn call_form(operands: &[u8]) -> Result<Statement, FaultKind>
    ensures { result ≡ statement_of Keyword.Sys (operands_of operands.now) }
{
    Ok(Statement::Call(size_at(operands, 0)?))
}

fn word_form(operands: &[u8]) -> Result<Statement, FaultKind>
    ensures { result ≡ statement_of Keyword.Word (operands_of operands.now) }
{
    Ok(Statement::Word(word_at(operands, 0)?))
}

fn byte_form(operands: &[u8]) -> Result<Statement, FaultKind>
    ensures { result ≡ statement_of Keyword.Byte (operands_of operands.now) }
{
    Ok(Statement::Byte(byte_at(operands, 0)?))
}

fn space_form(operands: &[u8]) -> Result<Statement, FaultKind>
    ensures { result ≡ statement_of Keyword.Space (operands_of operands.now) }
{
    Ok(Statement::Space(size_at(operands, 0)?))
}

fn bss_form(operands: &[u8]) -> Result<Statement, FaultKind>
    ensures { result ≡ statement_of Keyword.Bss (operands_of operands.now) }
{
    Ok(Statement::Bss(size_at(operands, 0)?))
}

/// The statement of a keyword and its operands, or the first fault among these from the left.
pub fn read_statement(
    alloc: Global,
    keyword: Keyword,
    operands: &[u8],
) -> Result<Result<Statement, FaultKind>, NoMemory>
    ensures { IfOk result (λ read. read ≡ statement_of keyword (operands_of operands.now)) }
{
    match keyword {
        Keyword::Register(op) => Ok(register_form(op, operands)),
        Keyword::Immediate(op) => Ok(immediate_form(op, operands)),
        Keyword::Shift(op) => Ok(shift_form(op, operands)),
        Keyword::Load(op) => Ok(load_form(op, operands)),
        Keyword::Store(op) => Ok(store_form(op, operands)),
        Keyword::Branch(op) => branch_form(alloc, op, operands),
        Keyword::Upper(op) => Ok(upper_form(op, operands)),
        Keyword::Plain(op) => Ok(Ok(Statement::Instruction(plain_instr(op)))),
        Keyword::Jal => jal_form(alloc, operands),
        Keyword::Jalr => Ok(jalr_form(operands)),
        Keyword::J => jump_form(alloc, operands),
        Keyword::Li => Ok(number_form(operands)),
        Keyword::La => address_form(alloc, operands),
        Keyword::Mv => Ok(move_form(operands)),
        Keyword::Sys => Ok(call_form(operands)),
        Keyword::Word => Ok(word_form(operands)),
        Keyword::Byte => Ok(byte_form(operands)),
        Keyword::Space => Ok(space_form(operands)),
        Keyword::Ascii => text_form(alloc, operands),
        Keyword::Align => Ok(Ok(Statement::Align)),
        Keyword::Bss => Ok(bss_form(operands)),
    }
}

/// How many operands a keyword takes.
pub fn operand_count(keyword: Keyword) -> usize
    ensures { result ≡ operand_count keyword }
{
    match keyword {
        Keyword::Register(_) => 3,
        Keyword::Immediate(_) => 3,
        Keyword::Shift(_) => 3,
        Keyword::Load(_) => 2,
        Keyword::Store(_) => 2,
        Keyword::Branch(_) => 3,
        Keyword::Upper(_) => 2,
        Keyword::Plain(_) => 0,
        Keyword::Jal => 2,
        Keyword::Jalr => 2,
        Keyword::J => 1,
        Keyword::Li => 2,
        Keyword::La => 2,
        Keyword::Mv => 2,
        Keyword::Sys => 1,
        Keyword::Word => 1,
        Keyword::Byte => 1,
        Keyword::Space => 1,
        Keyword::Ascii => 1,
        Keyword::Align => 0,
        Keyword::Bss => 1,
    }
}
