// The processes.
ghost use Rattle.std.specs.Prelude.{◌≡◌, ◌<◌, ◌^◌, ◌-◌, ◌++◌, ◌∷◌, ◌≤◌, [], true, false, Some, None, IfOk, IsSome, IfSome, OnErr, length, take, pos};
ghost use Rattle.proc_tree.specs.declared.process.Process.{Process};
ghost use Rattle.proc_tree.specs.declared.process.State.TheVariants.{Live};
ghost use Rattle.proc_tree.specs.Tree.{live_at, zombie_at, ended_at, parent_of, has_child_of, lowest_zombie, reaped, next_pid_of};
ghost use Rattle.signal_set.specs.Signals.{no_signals};
ghost use Rattle.kernel_spec.specs.Pids.{at_pid};
ghost use Rattle.kernel_spec.specs.Processes.{nobody, heeding, raised_at, lowest_at, parent_raised, ended_in, take_at, kill_by, kill_result, sigact_result, masked, mask_in, has_done};
ghost use Rattle.kernel_spec.specs.Calls.{inherited};
ghost use Rattle.home_kernel.specs.Serving.{Joins};
ghost use Rattle.home_kernel.specs.Taking.{TakesAt};

use crate::masks;
use call_table::error::{EINVAL, ESRCH};
use call_table::limit::LAST_LAUNCHED;
use call_table::signal::{SIGCHLD, SIGKILL};
use call_table::{End, NoMemory, Taken, is_signal};
use proc_tree::Tree;
use signal_set::Signals;
use std::alloc::Global;
use std::marker::Model;

/// All processes by pid: the tree that they make, and the signals of each.
#[derive(Drop)]
pub struct Processes {
    tree: Tree,
    signals: Vec<Signals>,
}

impl Model for Processes {
    ghost use Rattle.std.specs.Prelude.{◌≡◌, length};
    ghost use Rattle.kernel_spec.specs.Processes.{ProcessTable};
    ghost use Rattle.kernel_spec.specs.Kernel.{coded_table};

    ghost Value = { ProcessTable };

    ghost coded = { coded_table };

    ghost view = { λ p. record { tree = p.tree; signals = p.signals.items } };
}

impl Processes {
    /// No process.
    pub fn new(alloc: Global) -> Processes
        ensures { result ≡ nobody }
    {
        Processes {
            tree: Tree::new(alloc),
            signals: Vec::new(alloc),
        }
    }

    /// The pid that a new child of `parent` would get, 0 standing for no parent.
    pub fn next_pid(&self, parent: u32) -> Option<u32>
        ensures { result ≡ next_pid_of self.now.tree parent }
    {
        self.tree.next_pid(parent)
    }

    fn join(&mut self, parent: u32, signals: Signals) -> Result<Option<u32>, NoMemory>
        ensures ok { IfOk result (λ pid. Joins pid self.old parent signals self.new) }
        ensures err { OnErr result (self.new ≡ self.old) }
    {
        self.signals.reserve(1)?;
        let Some(pid) = self.tree.new_child(parent)? else {
            return Ok(None);
        };
        self.signals.push_reserved(signals);
        Ok(Some(pid))
    }

    /// One process more, without a parent: its pid. None exactly where there is no room.
    pub fn launch(&mut self) -> Result<Option<u32>, NoMemory>
        ensures ok { IfOk result (λ pid. Joins pid self.old 0 no_signals self.new) }
        ensures err { OnErr result (self.new ≡ self.old) }
    {
        Ok(self.join(0, Signals::new())?)
    }

    /// A child of `parent`, with its mask and actions: its pid. None exactly where there is no room.
    pub fn fork(&mut self, parent: u32) -> Result<Option<u32>, NoMemory>
        ensures ok { IfOk result (λ pid. Joins pid self.old parent (inherited (at_pid self.old.signals parent)) self.new) }
        ensures err { OnErr result (self.new ≡ self.old) }
    {
        let signals = masks::inherited(&self.signals, parent);
        Ok(self.join(parent, signals)?)
    }

    /// Takes the newest process back, a live child of `parent`.
    pub fn take_back(&mut self, parent: u32)
        requires { self.old.tree ≡ take (length self.old.tree - 1) self.old.tree ++ record { parent = parent; state = Live } ∷ [] }
        ensures tree { self.new.tree ≡ take (length self.old.tree - 1) self.old.tree }
        ensures signals { self.new.signals ≡ take (length self.old.signals - 1) self.old.signals }
    {
        self.tree.take_back(parent);
        let _ = self.signals.pop();
    }

    /// How many pids were given.
    pub fn given(&self) -> u32
        ensures { result ≡ length self.now.tree }
    {
        self.tree.given()
    }

    /// The parent of a process, 0 where it has none.
    pub fn parent(&self, pid: u32) -> u32
        ensures { result ≡ parent_of self.now.tree pid }
    {
        self.tree.parent(pid)
    }

    /// Whether a process is live.
    pub fn live(&self, pid: u32) -> bool
        ensures { result ≡ live_at self.now.tree pid }
    {
        self.tree.live(pid)
    }

    /// How a process ended: None where it is live or was never given.
    pub fn ended(&self, pid: u32) -> Option<End>
        ensures { result ≡ ended_at self.now.tree pid }
    {
        self.tree.ended(pid)
    }

    /// The lowest zombie child of a process.
    pub fn zombie_of(&self, pid: u32) -> Option<u32>
        ensures lowest { result ≡ lowest_zombie self.now.tree pid }
        ensures zombie { IfSome result (λ child. zombie_at self.now.tree child ≡ true) }
    {
        self.tree.zombie_of(pid)
    }

    /// Whether a process has a child that is live or a zombie.
    pub fn has_child(&self, pid: u32) -> bool
        ensures { result ≡ has_child_of self.now.tree pid }
    {
        self.tree.has_child(pid)
    }

    /// Takes a zombie out.
    pub fn reap(&mut self, child: u32)
        requires { zombie_at self.old.tree child ≡ true }
        ensures { self.new ≡ record self.old { tree = reaped self.old.tree child } }
    {
        let _end = self.tree.reap(child);
    }

    /// The process, where it is live and does not ignore the signal.
    pub fn heeding(&self, pid: u32, signal: u8) -> Option<u32>
        ensures { result ≡ heeding self.now pid signal }
    {
        if self.tree.live(pid) && masks::heeds(&self.signals, pid, signal) {
            return Some(pid);
        }
        None
    }

    /// The lowest signal that a live process can take.
    pub fn deliverable(&self, pid: u32) -> Option<u8>
        ensures { result ≡ lowest_at self.now pid }
    {
        if !self.tree.live(pid) {
            return None;
        }
        masks::lowest(&self.signals, pid)
    }

    /// Raises a signal at a process, where it is live.
    pub fn raise(&mut self, pid: u32, signal: u8)
        ensures { self.new ≡ raised_at self.old pid signal }
    {
        if self.tree.live(pid) {
            masks::raise(&mut self.signals, pid, signal);
        }
    }

    /// Ends a live process, which raises 17 at a live parent. The answer is that parent, where it does not ignore 17.
    pub fn end(&mut self, pid: u32, end: End) -> Option<u32>
        requires { live_at self.old.tree pid ≡ true }
        ensures is { self.new ≡ ended_in self.old pid end }
        ensures raised { result ≡ parent_raised self.old pid }
    {
        let parent = self.tree.parent(pid);
        let raised = self.heeding(parent, SIGCHLD);
        if self.tree.live(parent) {
            masks::raise(&mut self.signals, parent, SIGCHLD);
        }
        self.tree.end(pid, end);
        raised
    }

    /// Takes the lowest signal of a process. None exactly where it is not live or can take none. Without room a handler is death by 11.
    pub fn take(&mut self, pid: u32, room: bool) -> Option<Taken>
        ensures is { TakesAt result self.old pid (take_at self.old pid room) self.new }
        ensures live { IsSome result → live_at self.old.tree pid ≡ true }
        ensures tree { self.new.tree ≡ self.old.tree }
    {
        if !self.tree.live(pid) {
            return None;
        }
        masks::take(&mut self.signals, pid, room)
    }

    /// Raises a signal of any number by a call: its value, and another process that does not ignore the signal.
    pub fn kill(&mut self, pid: u32, target: u32, signal: u32) -> (i32, Option<u32>)
        ensures { kill_result self.old pid target signal ≡ record { table = self.new; value = result.0; raised = result.1 } }
    {
        if signal != 0 && !is_signal(signal) {
            return (EINVAL, None);
        }
        if !self.tree.live(target) && !self.tree.zombie(target) {
            return (ESRCH, None);
        }
        if signal == 0 {
            return (0, None);
        }
        self.kill_by(pid, target, signal as u8)
    }

    fn kill_by(&mut self, pid: u32, target: u32, signal: u8) -> (i32, Option<u32>)
        ensures { kill_by self.old pid target signal ≡ record { table = self.new; value = result.0; raised = result.1 } }
    {
        let mut raised = None;
        if target != pid {
            raised = self.heeding(target, signal);
        }
        self.raise(target, signal);
        (0, raised)
    }

    /// Sets the action for a signal of any number by a call: its value.
    pub fn sigact(&mut self, pid: u32, signal: u32, handler: u32, restorer: u32) -> i32
        ensures { sigact_result self.old pid signal handler restorer ≡ has_done self.new result }
    {
        if !is_signal(signal) || signal == SIGKILL as u32 {
            return EINVAL;
        }
        let act = masks::act_from(handler, restorer);
        masks::set_act(&mut self.signals, pid, signal as u8, act);
        0
    }

    /// Sets the mask of a process, and answers the old one.
    pub fn set_mask(&mut self, pid: u32, mask: u32) -> u32
        ensures old { result ≡ mask_in (at_pid self.old.signals pid) }
        ensures new { self.new ≡ masked self.old pid mask }
        ensures small { result < 2 ^ 31 }
    {
        masks::set_mask(&mut self.signals, pid, mask)
    }
}
