// The texts of a run: the script that it reads and the report that it prints.
#![tactic(auto)]

mod fault;
mod keyword;
mod lexing;
mod number;
mod open;
mod order;
mod outcome;
mod report;
mod run;
mod script;
mod summary;
mod writing;

pub use fault::{FaultKind, ScriptError};
pub use report::print_report;
pub use run::{Last, Run};
pub use script::read_script;
pub use summary::print_summary;
pub use writing::{PrintFault, write_bytes};

#[cfg(test)]
mod tests;
