// Steps on the list of all processes, of which the first has pid 1, and on the pids of those that are live or zombies.
ghost use Rattle.std.specs.Prelude.{◌≡◌, [], ◌∷◌, ◌++◌, Some, OnOk, OnErr};
ghost use Rattle.std.specs.List.{filter, find, list_any};
ghost use Rattle.proc_tree.specs.Processes.{is_present, is_child_of, is_zombie_of, parted_from, in_state};
ghost use Rattle.proc_tree.specs.Tree.{at_pid, passes_at, replaced, changed_pid, present_count, present_from, next_after, last_pid};
ghost use Rattle.proc_tree.specs.Steps.{parted_each};

use crate::process::{Process, State};
use call_table::NoMemory;
use call_table::limit::{LAST_FORKED, LAST_LAUNCHED, PROCESSES};

pub fn at_pid(processes: &[Process], pid: u32) -> Option<Process>
    ensures { result ≡ at_pid processes.now pid }
{
    if pid == 0 {
        return None;
    }
    processes.get(pid as usize - 1).copied()
}

/// Whether the process of `pid` is live or a zombie.
pub fn is_present(processes: &[Process], pid: u32) -> bool
    ensures { result ≡ passes_at is_present processes.now pid }
{
    match at_pid(processes, pid) {
        Some(process) => process.is_present(),
        None => false,
    }
}

/// Whether `child` is a live or zombie child of `pid`.
pub fn is_child_of(processes: &[Process], child: u32, pid: u32) -> bool
    ensures { result ≡ passes_at (is_child_of pid) processes.now child }
{
    match at_pid(processes, child) {
        Some(process) => process.is_child_of(pid),
        None => false,
    }
}

/// Whether `child` is a zombie child of `pid`.
pub fn is_zombie_of(processes: &[Process], child: u32, pid: u32) -> bool
    ensures { result ≡ passes_at (is_zombie_of pid) processes.now child }
{
    match at_pid(processes, child) {
        Some(process) => process.is_zombie_of(pid),
        None => false,
    }
}

/// The first of the pids in `present` that is a zombie child of `pid`.
pub fn first_zombie_of(processes: &[Process], present: &[u32], pid: u32) -> Option<u32>
    ensures { result ≡ find (passes_at (is_zombie_of pid) processes.now) present.now }
{
    present
        .iter()
        .copied()
        .find(|child| is_zombie_of(processes, *child, pid))
}

/// Whether one of the pids in `present` is a child of `pid`.
pub fn any_child_of(processes: &[Process], present: &[u32], pid: u32) -> bool
    ensures { result ≡ list_any (passes_at (is_child_of pid) processes.now) present.now }
{
    present
        .iter()
        .any(|child| is_child_of(processes, *child, pid))
}

fn replace(processes: &mut Vec<Process>, pid: u32, process: Process)
    ensures { processes.new.items ≡ replaced processes.old.items pid (Some process) }
{
    if pid == 0 {
        return;
    }
    let i = pid as usize - 1;
    if i < processes.len() {
        processes[i] = process;
    }
}

/// Puts the process of `pid` into another state.
pub fn set_state(processes: &mut Vec<Process>, pid: u32, state: State)
    ensures { processes.new.items ≡ changed_pid (in_state state) processes.old.items pid }
{
    if let Some(process) = at_pid(processes, pid) {
        replace(processes, pid, process.in_state(state));
    }
}

fn part_one(processes: &mut Vec<Process>, child: u32, pid: u32)
    ensures { processes.new.items ≡ changed_pid (parted_from pid) processes.old.items child }
{
    if let Some(process) = at_pid(processes, child) {
        replace(processes, child, process.parted_from(pid));
    }
}

/// Parts each of the processes named in `present` from `pid`.
pub fn part_each(processes: &mut Vec<Process>, present: &[u32], pid: u32)
    ensures { processes.new.items ≡ parted_each pid processes.old.items present.now }
{
    for child in present {
        part_one(processes, *child, pid);
    }
}

/// Keeps in `present` the pids of processes that are live or zombies.
pub fn keep_present(processes: &[Process], present: &mut Vec<u32>)
    ensures { present.new.items ≡ filter (passes_at is_present processes.now) present.old.items }
{
    present.retain(|pid| is_present(processes, *pid));
}

/// Appends a process and its pid, or changes nothing.
pub fn append(
    processes: &mut Vec<Process>,
    present: &mut Vec<u32>,
    process: Process,
    pid: u32,
) -> Result<(), NoMemory>
    ensures ok { OnOk result ((processes.new.items ≡ processes.old.items ++ process ∷ []) × (present.new.items ≡ present.old.items ++ pid ∷ [])) }
    ensures err { OnErr result ((processes.new.items ≡ processes.old.items) × (present.new.items ≡ present.old.items)) }
{
    present.push(pid)?;
    if processes.push(process).is_err() {
        let _ = present.pop();
        return Err(NoMemory);
    }
    Ok(())
}

/// How many pids are in `present`, where these are the pids of those that are live or zombies.
pub fn count(processes: &[Process], present: &[u32]) -> usize
    requires { present.now ≡ present_from 1 processes.now }
    ensures { result ≡ present_count processes.now }
{
    let _processes = processes;
    present.len()
}

/// The last pid that a child of `parent` can get.
pub fn last_pid(parent: u32) -> u32
    ensures { result ≡ last_pid parent }
{
    if parent == 0 {
        LAST_LAUNCHED
    } else {
        LAST_FORKED
    }
}

/// The pid `next`, where fewer than 64 are live or zombies and `next` is not past `last`.
pub fn next_after(present: usize, next: u32, last: u32) -> Option<u32>
    ensures { result ≡ next_after present next last }
{
    if present >= PROCESSES as usize || next > last {
        return None;
    }
    Some(next)
}
