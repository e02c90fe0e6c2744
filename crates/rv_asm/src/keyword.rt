// The words that begin statements.
ghost use Rattle.std.specs.Prelude.{◌≡◌};
ghost use Rattle.rv_asm.specs.Keywords.{register_op, immediate_op, shift_op, load_op, store_op, branch_op, upper_op, plain_op, other_keyword, keyword_named, is_instruction};

/// The instructions of three registers.
#[derive(Clone, Copy)]
pub enum RegisterOp {
    Add,
    Sub,
    Sll,
    Slt,
    Sltu,
    Xor,
    Srl,
    Sra,
    Or,
    And,
}

/// The instructions of two registers and an immediate.
#[derive(Clone, Copy)]
pub enum ImmediateOp {
    Addi,
    Slti,
    Sltiu,
    Xori,
    Ori,
    Andi,
}

/// The shifts by an immediate.
#[derive(Clone, Copy)]
pub enum ShiftOp {
    Slli,
    Srli,
    Srai,
}

/// The loads.
#[derive(Clone, Copy)]
pub enum LoadOp {
    Lb,
    Lh,
    Lw,
    Lbu,
    Lhu,
}

/// The stores.
#[derive(Clone, Copy)]
pub enum StoreOp {
    Sb,
    Sh,
    Sw,
}

/// The branches.
#[derive(Clone, Copy)]
pub enum BranchOp {
    Beq,
    Bne,
    Blt,
    Bge,
    Bltu,
    Bgeu,
}

/// The instructions of an upper immediate.
#[derive(Clone, Copy)]
pub enum UpperOp {
    Lui,
    Auipc,
}

/// What has no operands.
#[derive(Clone, Copy)]
pub enum PlainOp {
    Fence,
    Ecall,
    Ebreak,
    Ret,
    Nop,
}

/// What the first word of a statement asks for.
#[derive(Clone, Copy)]
pub enum Keyword {
    Register(RegisterOp),
    Immediate(ImmediateOp),
    Shift(ShiftOp),
    Load(LoadOp),
    Store(StoreOp),
    Branch(BranchOp),
    Upper(UpperOp),
    Plain(PlainOp),
    Jal,
    Jalr,
    J,
    Li,
    La,
    Mv,
    Sys,
    Word,
    Byte,
    Space,
    Ascii,
    Align,
    Bss,
}

fn register_op(name: &[u8]) -> Option<RegisterOp>
    ensures { result ≡ register_op name.now }
{
    if name == b"add".as_slice() {
        return Some(RegisterOp::Add);
    }
    if name == b"sub".as_slice() {
        return Some(RegisterOp::Sub);
    }
    if name == b"sll".as_slice() {
        return Some(RegisterOp::Sll);
    }
    if name == b"slt".as_slice() {
        return Some(RegisterOp::Slt);
    }
    if name == b"sltu".as_slice() {
        return Some(RegisterOp::Sltu);
    }
    if name == b"xor".as_slice() {
        return Some(RegisterOp::Xor);
    }
    if name == b"srl".as_slice() {
        return Some(RegisterOp::Srl);
    }
    if name == b"sra".as_slice() {
        return Some(RegisterOp::Sra);
    }
    if name == b"or".as_slice() {
        return Some(RegisterOp::Or);
    }
    if name == b"and".as_slice() {
        return Some(RegisterOp::And);
    }
    None
}

fn immediate_op(name: &[u8]) -> Option<ImmediateOp>
    ensures { result ≡ immediate_op name.now }
{
    if name == b"addi".as_slice() {
        return Some(ImmediateOp::Addi);
    }
    if name == b"slti".as_slice() {
        return Some(ImmediateOp::Slti);
    }
    if name == b"sltiu".as_slice() {
        return Some(ImmediateOp::Sltiu);
    }
    if name == b"xori".as_slice() {
        return Some(ImmediateOp::Xori);
    }
    if name == b"ori".as_slice() {
        return Some(ImmediateOp::Ori);
    }
    if name == b"andi".as_slice() {
        return Some(ImmediateOp::Andi);
    }
    None
}

fn shift_op(name: &[u8]) -> Option<ShiftOp>
    ensures { result ≡ shift_op name.now }
{
    if name == b"slli".as_slice() {
        return Some(ShiftOp::Slli);
    }
    if name == b"srli".as_slice() {
        return Some(ShiftOp::Srli);
    }
    if name == b"srai".as_slice() {
        return Some(ShiftOp::Srai);
    }
    None
}

fn load_op(name: &[u8]) -> Option<LoadOp>
    ensures { result ≡ load_op name.now }
{
    if name == b"lb".as_slice() {
        return Some(LoadOp::Lb);
    }
    if name == b"lh".as_slice() {
        return Some(LoadOp::Lh);
    }
    if name == b"lw".as_slice() {
        return Some(LoadOp::Lw);
    }
    if name == b"lbu".as_slice() {
        return Some(LoadOp::Lbu);
    }
    if name == b"lhu".as_slice() {
        return Some(LoadOp::Lhu);
    }
    None
}

fn store_op(name: &[u8]) -> Option<StoreOp>
    ensures { result ≡ store_op name.now }
{
    if name == b"sb".as_slice() {
        return Some(StoreOp::Sb);
    }
    if name == b"sh".as_slice() {
        return Some(StoreOp::Sh);
    }
    if name == b"sw".as_slice() {
        return Some(StoreOp::Sw);
    }
    None
}

fn branch_op(name: &[u8]) -> Option<BranchOp>
    ensures { result ≡ branch_op name.now }
{
    if name == b"beq".as_slice() {
        return Some(BranchOp::Beq);
    }
    if name == b"bne".as_slice() {
        return Some(BranchOp::Bne);
    }
    if name == b"blt".as_slice() {
        return Some(BranchOp::Blt);
    }
    if name == b"bge".as_slice() {
        return Some(BranchOp::Bge);
    }
    if name == b"bltu".as_slice() {
        return Some(BranchOp::Bltu);
    }
    if name == b"bgeu".as_slice() {
        return Some(BranchOp::Bgeu);
    }
    None
}

fn upper_op(name: &[u8]) -> Option<UpperOp>
    ensures { result ≡ upper_op name.now }
{
    if name == b"lui".as_slice() {
        return Some(UpperOp::Lui);
    }
    if name == b"auipc".as_slice() {
        return Some(UpperOp::Auipc);
    }
    None
}

fn plain_op(name: &[u8]) -> Option<PlainOp>
    ensures { result ≡ plain_op name.now }
{
    if name == b"fence".as_slice() {
        return Some(PlainOp::Fence);
    }
    if name == b"ecall".as_slice() {
        return Some(PlainOp::Ecall);
    }
    if name == b"ebreak".as_slice() {
        return Some(PlainOp::Ebreak);
    }
    if name == b"ret".as_slice() {
        return Some(PlainOp::Ret);
    }
    if name == b"nop".as_slice() {
        return Some(PlainOp::Nop);
    }
    None
}

fn other_keyword(name: &[u8]) -> Option<Keyword>
    ensures { result ≡ other_keyword name.now }
{
    if name == b"jal".as_slice() {
        return Some(Keyword::Jal);
    }
    if name == b"jalr".as_slice() {
        return Some(Keyword::Jalr);
    }
    if name == b"j".as_slice() {
        return Some(Keyword::J);
    }
    if name == b"li".as_slice() {
        return Some(Keyword::Li);
    }
    if name == b"la".as_slice() {
        return Some(Keyword::La);
    }
    if name == b"mv".as_slice() {
        return Some(Keyword::Mv);
    }
    if name == b"sys".as_slice() {
        return Some(Keyword::Sys);
    }
    if name == b".word".as_slice() {
        return Some(Keyword::Word);
    }
    if name == b".byte".as_slice() {
        return Some(Keyword::Byte);
    }
    if name == b".space".as_slice() {
        return Some(Keyword::Space);
    }
    if name == b".ascii".as_slice() {
        return Some(Keyword::Ascii);
    }
    if name == b".align".as_slice() {
        return Some(Keyword::Align);
    }
    if name == b".bss".as_slice() {
        return Some(Keyword::Bss);
    }
    None
}

/// The keyword of this name.
pub fn keyword_named(name: &[u8]) -> Option<Keyword>
    ensures { result ≡ keyword_named name.now }
{
    if let Some(op) = register_op(name) {
        return Some(Keyword::Register(op));
    }
    if let Some(op) = immediate_op(name) {
        return Some(Keyword::Immediate(op));
    }
    if let Some(op) = shift_op(name) {
        return Some(Keyword::Shift(op));
    }
    if let Some(op) = load_op(name) {
        return Some(Keyword::Load(op));
    }
    if let Some(op) = store_op(name) {
        return Some(Keyword::Store(op));
    }
    if let Some(op) = branch_op(name) {
        return Some(Keyword::Branch(op));
    }
    if let Some(op) = upper_op(name) {
        return Some(Keyword::Upper(op));
    }
    if let Some(op) = plain_op(name) {
        return Some(Keyword::Plain(op));
    }
    other_keyword(name)
}

/// Whether the keyword stands for instructions, and not for data.
pub fn is_instruction(keyword: Keyword) -> bool
    ensures { result ≡ is_instruction keyword }
{
    match keyword {
        Keyword::Register(_) => true,
        Keyword::Immediate(_) => true,
        Keyword::Shift(_) => true,
        Keyword::Load(_) => true,
        Keyword::Store(_) => true,
        Keyword::Branch(_) => true,
        Keyword::Upper(_) => true,
        Keyword::Plain(_) => true,
        Keyword::Jal => true,
        Keyword::Jalr => true,
        Keyword::J => true,
        Keyword::Li => true,
        Keyword::La => true,
        Keyword::Mv => true,
        Keyword::Sys => true,
        Keyword::Word => false,
        Keyword::Byte => false,
        Keyword::Space => false,
        Keyword::Ascii => false,
        Keyword::Align => false,
        Keyword::Bss => false,
    }
}
