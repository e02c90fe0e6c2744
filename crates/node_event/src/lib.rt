// The events of a run, their journals and their lines, and the script.
#![tactic(auto)]

mod event;
mod fields;
mod journal;
mod printing;
mod reading;
mod script;
mod word;

pub use event::{Event, Events, Kept, Refusal, Unsent, Way, What};
pub use journal::Journal;
pub use printing::print_event;
pub use reading::read_event;
pub use script::{Order, Script, ScriptLine};
