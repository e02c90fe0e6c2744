// The tree of processes.
ghost use Rattle.std.specs.Prelude.{◌≡◌, ◌-◌, ◌++◌, ◌∷◌, [], true, Some, IfOk, OnErr, IfSome, length, take};
ghost use Rattle.proc_tree.specs.Tree.{at_pid, parent_of, live_at, zombie_at, ended_at, next_pid_of, with_child, has_child_of, lowest_zombie, with_end, reaped, IsWithinLimits};

use crate::process::{Process, State, end_state};
use crate::rows::{
    any_child_of, append, at_pid, count, first_zombie_of, keep_present, last_pid, next_after,
    part_each, set_state,
};
use call_table::{End, NoMemory};
use std::alloc::Global;
use std::marker::Model;

/// The processes that were ever given, by pid from 1 on. Contracts see them as that list.
#[derive(Drop)]
pub struct Tree {
    processes: Vec<Process>,
    // the pids of those that are live or zombies, lowest first
    present: Vec<u32>,
}

impl Model for Tree {
    ghost use Rattle.std.specs.Prelude.{List, ◌≡◌};
    ghost use Rattle.proc_tree.specs.declared.process.Process.{Process};
    ghost use Rattle.proc_tree.specs.Tree.{present_from, IsWithinLimits};

    ghost Value = { List Process };

    ghost view = { λ t. t.processes.items };

    ghost invariant = { λ t. (t.present.items ≡ present_from 1 t.processes.items) × IsWithinLimits t.processes.items };
}

impl Tree {
    /// No process.
    pub fn new(alloc: Global) -> Tree
        ensures { result ≡ [] }
    {
        Tree {
            processes: Vec::new(alloc),
            present: Vec::new(alloc),
        }
    }

    /// The pid that a new child of `parent` would get, where 0 stands for no parent. None exactly where 64 processes are live or zombies, or
    /// the pid would be past 32,511, without a parent past 32,767.
    pub fn next_pid(&self, parent: u32) -> Option<u32>
        ensures { result ≡ next_pid_of self.now parent }
    {
        let next = self.processes.len() as u32 + 1;
        next_after(
            count(&self.processes, &self.present),
            next,
            last_pid(parent),
        )
    }

    /// Adds a live child of `parent`, with room for its end, and answers its pid. None exactly where `next_pid` is. Where memory is not found
    /// nothing changes.
    pub fn new_child(&mut self, parent: u32) -> Result<Option<u32>, NoMemory>
        ensures ok { IfOk result (λ pid. (pid ≡ next_pid_of self.old parent) × (self.new ≡ with_child self.old parent pid)) }
        ensures err { OnErr result (self.new ≡ self.old) }
        ensures limits { IsWithinLimits self.new }
    {
        let Some(pid) = self.next_pid(parent) else {
            return Ok(None);
        };
        let child = Process {
            parent,
            state: State::Live,
        };
        append(&mut self.processes, &mut self.present, child, pid)?;
        Ok(Some(pid))
    }

    /// Takes the newest process back, a live child of `parent`. It undoes a `new_child`.
    pub fn take_back(&mut self, parent: u32)
        requires { self.old ≡ take (length self.old - 1) self.old ++ record { parent = parent; state = State.Live } ∷ [] }
        ensures new { self.new ≡ take (length self.old - 1) self.old }
        ensures limits { IsWithinLimits self.new }
    {
        let _ = self.processes.pop();
        let _ = self.present.pop();
    }

    /// Ends a live process. It is a zombie where its parent lives, else it is gone. Its live children have no parent then, its zombie
    /// children are gone.
    pub fn end(&mut self, pid: u32, status: End)
        requires { live_at self.old pid ≡ true }
        ensures new { self.new ≡ with_end self.old pid status }
        ensures limits { IsWithinLimits self.new }
    {
        let state = end_state(self.live(self.parent(pid)), status);
        part_each(&mut self.processes, &self.present, pid);
        set_state(&mut self.processes, pid, state);
        keep_present(&self.processes, &mut self.present);
    }

    /// The lowest zombie child of `pid`. None exactly where it has none.
    pub fn zombie_of(&self, pid: u32) -> Option<u32>
        ensures lowest { result ≡ lowest_zombie self.now pid }
        ensures zombie { IfSome result (λ child. zombie_at self.now child ≡ true) }
    {
        first_zombie_of(&self.processes, &self.present, pid)
    }

    /// Whether `pid` has a child that is live or a zombie.
    pub fn has_child(&self, pid: u32) -> bool
        ensures { result ≡ has_child_of self.now pid }
    {
        any_child_of(&self.processes, &self.present, pid)
    }

    /// Takes a zombie out, and answers how it ended.
    pub fn reap(&mut self, child: u32) -> End
        requires { zombie_at self.old child ≡ true }
        ensures status { ended_at self.old child ≡ Some result }
        ensures new { self.new ≡ reaped self.old child }
        ensures limits { IsWithinLimits self.new }
    {
        let Some(status) = self.ended(child) else {
            unreachable!()
        };
        set_state(&mut self.processes, child, State::Gone(status));
        keep_present(&self.processes, &mut self.present);
        status
    }

    /// How many pids were given.
    pub fn given(&self) -> u32
        ensures { result ≡ length self.now }
    {
        self.processes.len() as u32
    }

    /// The parent of `pid`, 0 where it has none or was never given.
    pub fn parent(&self, pid: u32) -> u32
        ensures { result ≡ parent_of self.now pid }
    {
        match at_pid(&self.processes, pid) {
            Some(process) => process.parent,
            None => 0,
        }
    }

    /// Whether `pid` is live.
    pub fn live(&self, pid: u32) -> bool
        ensures { result ≡ live_at self.now pid }
    {
        match at_pid(&self.processes, pid) {
            Some(process) => process.is_live(),
            None => false,
        }
    }

    /// Whether `pid` is a zombie.
    pub fn zombie(&self, pid: u32) -> bool
        ensures { result ≡ zombie_at self.now pid }
    {
        match at_pid(&self.processes, pid) {
            Some(process) => process.is_zombie(),
            None => false,
        }
    }

    /// How `pid` ended. None exactly where it is live or was never given.
    pub fn ended(&self, pid: u32) -> Option<End>
        ensures { result ≡ ended_at self.now pid }
    {
        match at_pid(&self.processes, pid) {
            Some(process) => process.end(),
            None => None,
        }
    }
}
