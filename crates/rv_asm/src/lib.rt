// The assembler: from a text to the file of its program.
#![tactic(auto)]

mod assembler;
mod assembly;
mod code;
mod fault;
mod file;
mod keyword;
mod layout;
mod lexing;
mod line;
mod number;
mod operand;
mod register;
mod statement;

pub use assembler::assemble;
pub use fault::{AsmError, Fault, FaultKind};
