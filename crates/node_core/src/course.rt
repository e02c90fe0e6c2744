// How far the script has come.
use call_table::ListOf;
use node_event::Script;
use user_ctx::Users;

/// The script, the contexts of the `run` lines that are to come, the last of them first, and how far home has come: how many lines were carried out, the
/// least line that may come next, and the pids that were launched, in their order.
#[derive(Drop)]
pub struct Course {
    pub script: Script,
    pub users: Users,
    pub done: usize,
    pub line: u64,
    pub launched: ListOf<u32>,
}
