// The top call: from the words to the report, the summary or the file.
#![tactic(auto)]

pub mod assembling;
mod chance;
mod copying;
mod generating;
pub mod images;
mod kept;
mod left;
pub mod mosix;
pub mod orders;
mod printing;
pub mod reading;
pub mod stage;
pub mod status;
pub mod threads;
pub mod usher;
pub mod why;
