// The 40 instructions of RV32I, and their words both ways.
#![tactic(auto)]

pub mod decoder;
pub mod encoder;
pub mod instruction;
pub mod signed;
pub mod unsigned;

pub use decoder::decode;
pub use encoder::encode;
pub use instruction::Instr;
pub use signed::{BranchOffset, Immediate, JumpOffset};
pub use unsigned::{FenceBits, Register, Shift, Upper};
