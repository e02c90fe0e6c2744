// From an instruction to its word.
ghost use Rattle.std.specs.Prelude.{◌≡◌, ◌<◌, ◌^◌, Some};
ghost use Rattle.rv_decode.specs.Operands.{IsRegister, IsShift, IsUpper, IsFenceBits, IsImmediate, IsBranchOffset, IsJumpOffset};
ghost use Rattle.rv_decode.specs.Fields.{twos_complement};
ghost use Rattle.rv_decode.specs.Instructions.{r_type, i_type, s_type, b_type, u_type, j_type, fence_type, word_of, instruction_of, IsInRange};

use crate::instruction::Instr;
use crate::signed::{BranchOffset, Immediate, JumpOffset};
use crate::unsigned::{FenceBits, Register, Shift, Upper};

// Format R, and the shifts by an immediate, whose amount stands in the place of rs2.
fn packed(funct7: u32, rs2: u32, rs1: Register, funct3: u32, rd: Register, opcode: u32) -> u32
    requires funct7_fits { funct7 < 2 ^ 7 }
    requires rs2_fits { rs2 < 2 ^ 5 }
    requires funct3_fits { funct3 < 2 ^ 3 }
    requires opcode_fits { opcode < 2 ^ 7 }
    ensures value { result ≡ r_type funct7 rs2 rs1 funct3 rd opcode }
    ensures range { IsRegister rs1 × IsRegister rd }
{
    let high = funct7 * 0x200_0000 + rs2 * 0x10_0000 + rs1.number() * 0x8000;
    high + funct3 * 0x1000 + rd.number() * 0x80 + opcode
}

fn r_type(funct7: u32, rs2: Register, rs1: Register, funct3: u32, rd: Register) -> u32
    requires funct7_fits { funct7 < 2 ^ 7 }
    requires funct3_fits { funct3 < 2 ^ 3 }
    ensures value { result ≡ r_type funct7 rs2 rs1 funct3 rd 0x33 }
    ensures range { IsRegister rd × IsRegister rs1 × IsRegister rs2 }
{
    packed(funct7, rs2.number(), rs1, funct3, rd, 0x33)
}

fn shift_type(funct7: u32, shamt: Shift, rs1: Register, funct3: u32, rd: Register) -> u32
    requires funct7_fits { funct7 < 2 ^ 7 }
    requires funct3_fits { funct3 < 2 ^ 3 }
    ensures value { result ≡ r_type funct7 shamt rs1 funct3 rd 0x13 }
    ensures range { IsRegister rd × IsRegister rs1 × IsShift shamt }
{
    packed(funct7, shamt.number(), rs1, funct3, rd, 0x13)
}

fn i_type(imm: Immediate, rs1: Register, funct3: u32, rd: Register, opcode: u32) -> u32
    requires funct3_fits { funct3 < 2 ^ 3 }
    requires opcode_fits { opcode < 2 ^ 7 }
    ensures value { result ≡ i_type imm rs1 funct3 rd opcode }
    ensures range { IsRegister rd × IsRegister rs1 × IsImmediate imm }
{
    let high = imm.field() * 0x10_0000 + rs1.number() * 0x8000;
    high + funct3 * 0x1000 + rd.number() * 0x80 + opcode
}

fn s_type(imm: Immediate, rs2: Register, rs1: Register, funct3: u32) -> u32
    requires funct3_fits { funct3 < 2 ^ 3 }
    ensures value { result ≡ s_type imm rs2 rs1 funct3 0x23 }
    ensures range { IsRegister rs1 × IsRegister rs2 × IsImmediate imm }
{
    let field = imm.field();
    let high = (field >> 5) % 128 * 0x200_0000 + rs2.number() * 0x10_0000 + rs1.number() * 0x8000;
    high + funct3 * 0x1000 + field % 32 * 0x80 + 0x23
}

fn b_type(imm: BranchOffset, rs2: Register, rs1: Register, funct3: u32) -> u32
    requires funct3_fits { funct3 < 2 ^ 3 }
    ensures value { result ≡ b_type imm rs2 rs1 funct3 0x63 }
    ensures range { IsRegister rs1 × IsRegister rs2 × IsBranchOffset imm }
{
    let field = imm.field();
    let high = (field >> 12) % 2 * 0x8000_0000 + (field >> 5) % 64 * 0x200_0000;
    let low = (field >> 1) % 16 * 0x100 + (field >> 11) % 2 * 0x80;
    high + rs2.number() * 0x10_0000 + rs1.number() * 0x8000 + funct3 * 0x1000 + low + 0x63
}

fn u_type(imm: Upper, rd: Register, opcode: u32) -> u32
    requires opcode_fits { opcode < 2 ^ 7 }
    ensures value { result ≡ u_type imm rd opcode }
    ensures range { IsRegister rd × IsUpper imm }
{
    imm.number() * 0x1000 + rd.number() * 0x80 + opcode
}

fn j_type(imm: JumpOffset, rd: Register) -> u32
    ensures value { result ≡ j_type imm rd 0x6F }
    ensures range { IsRegister rd × IsJumpOffset imm }
{
    let field = imm.field();
    let high = (field >> 20) % 2 * 0x8000_0000 + (field >> 1) % 1024 * 0x20_0000;
    let middle = (field >> 11) % 2 * 0x10_0000 + (field >> 12) % 256 * 0x1000;
    high + middle + rd.number() * 0x80 + 0x6F
}

fn fence_type(bits: FenceBits) -> u32
    ensures value { result ≡ fence_type bits 0 0x0F }
    ensures range { IsFenceBits bits }
{
    let number = bits.number();
    number / 32 * 0x8000 + number % 32 * 0x80 + 0x0F
}

fn word(instr: &Instr) -> u32
    ensures value { result ≡ word_of instr.now }
    ensures range { IsInRange instr.now }
{
    match *instr {
        Instr::Lui(rd, imm) => u_type(imm, rd, 0x37),
        Instr::Auipc(rd, imm) => u_type(imm, rd, 0x17),
        Instr::Jal(rd, imm) => j_type(imm, rd),
        Instr::Jalr(rd, rs1, imm) => i_type(imm, rs1, 0, rd, 0x67),
        Instr::Beq(rs1, rs2, imm) => b_type(imm, rs2, rs1, 0),
        Instr::Bne(rs1, rs2, imm) => b_type(imm, rs2, rs1, 1),
        Instr::Blt(rs1, rs2, imm) => b_type(imm, rs2, rs1, 4),
        Instr::Bge(rs1, rs2, imm) => b_type(imm, rs2, rs1, 5),
        Instr::Bltu(rs1, rs2, imm) => b_type(imm, rs2, rs1, 6),
        Instr::Bgeu(rs1, rs2, imm) => b_type(imm, rs2, rs1, 7),
        Instr::Lb(rd, rs1, imm) => i_type(imm, rs1, 0, rd, 0x03),
        Instr::Lh(rd, rs1, imm) => i_type(imm, rs1, 1, rd, 0x03),
        Instr::Lw(rd, rs1, imm) => i_type(imm, rs1, 2, rd, 0x03),
        Instr::Lbu(rd, rs1, imm) => i_type(imm, rs1, 4, rd, 0x03),
        Instr::Lhu(rd, rs1, imm) => i_type(imm, rs1, 5, rd, 0x03),
        Instr::Sb(rs1, rs2, imm) => s_type(imm, rs2, rs1, 0),
        Instr::Sh(rs1, rs2, imm) => s_type(imm, rs2, rs1, 1),
        Instr::Sw(rs1, rs2, imm) => s_type(imm, rs2, rs1, 2),
        Instr::Addi(rd, rs1, imm) => i_type(imm, rs1, 0, rd, 0x13),
        Instr::Slti(rd, rs1, imm) => i_type(imm, rs1, 2, rd, 0x13),
        Instr::Sltiu(rd, rs1, imm) => i_type(imm, rs1, 3, rd, 0x13),
        Instr::Xori(rd, rs1, imm) => i_type(imm, rs1, 4, rd, 0x13),
        Instr::Ori(rd, rs1, imm) => i_type(imm, rs1, 6, rd, 0x13),
        Instr::Andi(rd, rs1, imm) => i_type(imm, rs1, 7, rd, 0x13),
        Instr::Slli(rd, rs1, shamt) => shift_type(0x00, shamt, rs1, 1, rd),
        Instr::Srli(rd, rs1, shamt) => shift_type(0x00, shamt, rs1, 5, rd),
        Instr::Srai(rd, rs1, shamt) => shift_type(0x20, shamt, rs1, 5, rd),
        Instr::Add(rd, rs1, rs2) => r_type(0x00, rs2, rs1, 0, rd),
        Instr::Sub(rd, rs1, rs2) => r_type(0x20, rs2, rs1, 0, rd),
        Instr::Sll(rd, rs1, rs2) => r_type(0x00, rs2, rs1, 1, rd),
        Instr::Slt(rd, rs1, rs2) => r_type(0x00, rs2, rs1, 2, rd),
        Instr::Sltu(rd, rs1, rs2) => r_type(0x00, rs2, rs1, 3, rd),
        Instr::Xor(rd, rs1, rs2) => r_type(0x00, rs2, rs1, 4, rd),
        Instr::Srl(rd, rs1, rs2) => r_type(0x00, rs2, rs1, 5, rd),
        Instr::Sra(rd, rs1, rs2) => r_type(0x20, rs2, rs1, 5, rd),
        Instr::Or(rd, rs1, rs2) => r_type(0x00, rs2, rs1, 6, rd),
        Instr::And(rd, rs1, rs2) => r_type(0x00, rs2, rs1, 7, rd),
        Instr::Fence(bits) => fence_type(bits),
        Instr::Ecall => 0x0000_0073,
        Instr::Ebreak => 0x0010_0073,
    }
}

/// The word of an instruction, which decodes to it again.
#[tactic(auto, using(crate::proofs::Reading::reads_back))]
pub fn encode(instr: &Instr) -> u32
    ensures value { result ≡ word_of instr.now }
    ensures decodes { instruction_of result ≡ Some instr.now }
{
    word(instr)
}
