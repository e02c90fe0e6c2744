// A run beside another one, and beside what its events came to.
use call_table::{Named, PidState};
use one_node::home::Outcome;
use shell_text::Run;

/// How many processes are told in a state.
fn count_in(statuses: &[(u32, PidState)], state: PidState) -> usize {
    statuses.iter().filter(|status| status.1 == state).count()
}

/// Whether as many processes ended in each way. A child's pid depends on when it was forked.
fn are_same_ends(one: &[(u32, PidState)], other: &[(u32, PidState)]) -> bool {
    if one.len() != other.len() {
        return false;
    }
    for status in one {
        if count_in(one, status.1) != count_in(other, status.1) {
            return false;
        }
    }
    true
}

fn are_same_files(one: &[Named], other: &[Named]) -> bool {
    if one.len() != other.len() {
        return false;
    }
    for (file, beside) in one.iter().zip(other.iter()) {
        if file.name.as_slice() != beside.name.as_slice() {
            return false;
        }
        if file.bytes.as_slice() != beside.bytes.as_slice() {
            return false;
        }
    }
    true
}

/// Whether two runs came to the same terminal, files and ends.
pub fn is_same(one: &Run, other: &Run) -> bool {
    one.last == other.last
        && one.terminal.as_slice() == other.terminal.as_slice()
        && are_same_files(one.files.as_slice(), other.files.as_slice())
        && are_same_ends(one.statuses.as_slice(), other.statuses.as_slice())
}

/// Whether a run is told by what its events came to on one node: process by process, and call by call.
pub fn is_told_by(run: &Run, outcome: &Outcome) -> bool {
    run.statuses.as_slice() == outcome.statuses.as_slice()
        && run.terminal.as_slice() == outcome.terminal.as_slice()
        && are_same_files(run.files.as_slice(), outcome.files.as_slice())
        && run.replies.as_slice() == outcome.replies.as_slice()
}
