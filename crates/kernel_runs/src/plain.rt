// A kernel over plain lists: nothing is ever taken out of a list, and what is held is searched for.
ghost use Rattle.std.specs.Prelude.{◌≤◌};

use crate::signals::{Signals, heeds};
use call_table::{End, NoMemory};
use std::alloc::Global;

/// What a descriptor stands for; files and pipes by their places in the lists.
#[derive(Clone, Copy, Debug, PartialEq, Eq)]
pub(crate) enum Thing {
    Input,
    Output,
    File(usize),
    Reads(usize),
    Writes(usize),
}

/// An open description.
#[derive(Clone, Copy)]
pub(crate) struct Opened {
    pub(crate) thing: Thing,
    pub(crate) reads: bool,
    pub(crate) writes: bool,
    pub(crate) offset: u32,
}

#[derive(Drop)]
pub(crate) struct File {
    pub(crate) name: Vec<u8>,
    pub(crate) is_named: bool,
    pub(crate) bytes: Vec<u8>,
}

#[derive(Clone, Copy, PartialEq, Eq)]
pub(crate) enum Life {
    Lives,
    Waited(End),
    Gone(End),
}

#[derive(Clone, Copy)]
pub(crate) struct Process {
    pub(crate) parent: u32,
    pub(crate) life: Life,
    /// Of each descriptor the place of its description.
    pub(crate) slots: [Option<usize>; 16],
    pub(crate) signals: Signals,
}

#[derive(Drop)]
pub(crate) struct Plain {
    pub(crate) alloc: Global,
    pub(crate) files: Vec<File>,
    pub(crate) opened: Vec<Opened>,
    pub(crate) pipes: Vec<Vec<u8>>,
    pub(crate) terminal: Vec<u8>,
    pub(crate) typed: Vec<u8>,
    pub(crate) typed_all: bool,
    pub(crate) processes: Vec<Process>,
}

const NOBODY: Process = Process {
    parent: 0,
    life: Life::Gone(End::Exit(0)),
    slots: [None; 16],
    signals: Signals::NONE,
};

impl Plain {
    pub(crate) fn new(alloc: Global) -> Result<Plain, NoMemory> {
        let mut opened = Vec::new(alloc);
        opened.push(Opened {
            thing: Thing::Input,
            reads: true,
            writes: false,
            offset: 0,
        })?;
        opened.push(Opened {
            thing: Thing::Output,
            reads: false,
            writes: true,
            offset: 0,
        })?;
        Ok(Plain {
            alloc,
            files: Vec::new(alloc),
            opened,
            pipes: Vec::new(alloc),
            terminal: Vec::new(alloc),
            typed: Vec::new(alloc),
            typed_all: false,
            processes: Vec::new(alloc),
        })
    }

    // ---- processes by pid

    pub(crate) fn given(&self) -> u32
        ensures { result ≤ 32767 }
    {
        self.processes.len().min(32_767) as u32
    }

    pub(crate) fn process(&self, pid: u32) -> Process {
        if pid == 0 {
            return NOBODY;
        }
        match self.processes.get(pid as usize - 1) {
            Some(process) => *process,
            None => NOBODY,
        }
    }

    pub(crate) fn set_process(&mut self, pid: u32, process: Process) {
        if pid == 0 {
            return;
        }
        if let Some(place) = self.processes.get_mut(pid as usize - 1) {
            *place = process;
        }
    }

    pub(crate) fn lives(&self, pid: u32) -> bool {
        pid != 0 && pid <= self.given() && self.process(pid).life == Life::Lives
    }

    pub(crate) fn is_zombie(&self, pid: u32) -> bool {
        if pid == 0 || pid > self.given() {
            return false;
        }
        match self.process(pid).life {
            Life::Waited(_) => true,
            _ => false,
        }
    }

    pub(crate) fn end_of(&self, pid: u32) -> Option<End> {
        if pid == 0 || pid > self.given() {
            return None;
        }
        match self.process(pid).life {
            Life::Lives => None,
            Life::Waited(end) => Some(end),
            Life::Gone(end) => Some(end),
        }
    }

    /// How many live or are zombies.
    pub(crate) fn present(&self) -> u32 {
        let mut count = 0u32;
        for process in self.processes.as_slice() {
            match process.life {
                Life::Gone(_) => {}
                _ => count = count.saturating_add(1),
            }
        }
        count
    }

    pub(crate) fn launch(&mut self) -> Result<Option<u32>, NoMemory> {
        if self.present() >= 64 {
            return Ok(None);
        }
        let mut slots = [None; 16];
        slots[0] = Some(0);
        slots[1] = Some(1);
        slots[2] = Some(1);
        self.processes.push(Process {
            parent: 0,
            life: Life::Lives,
            slots,
            signals: Signals::NONE,
        })?;
        Ok(Some(self.given()))
    }

    // ---- what is held

    /// Whether a live process has a descriptor of this description.
    pub(crate) fn is_held(&self, opened: usize) -> bool {
        for process in self.processes.as_slice() {
            if has_slot(&process.slots, opened) {
                return true;
            }
        }
        false
    }

    /// Whether a description that is held stands for this.
    pub(crate) fn holds(&self, thing: Thing) -> bool {
        for (place, opened) in self.opened.as_slice().iter().enumerate() {
            if opened.thing == thing && self.is_held(place) {
                return true;
            }
        }
        false
    }

    /// How many descriptions are held, the terminal's two left out.
    pub(crate) fn held_count(&self) -> usize {
        let mut count = 0usize;
        for place in 2..self.opened.len() {
            if self.is_held(place) {
                count = count.saturating_add(1);
            }
        }
        count
    }

    pub(crate) fn pipe_count(&self) -> usize {
        let mut count = 0usize;
        for place in 0..self.pipes.len() {
            if self.holds(Thing::Reads(place)) || self.holds(Thing::Writes(place)) {
                count = count.saturating_add(1);
            }
        }
        count
    }

    // ---- signals and ends

    /// Raises a signal at a process. Whether it lives and does not ignore it.
    pub(crate) fn raise(&mut self, pid: u32, signal: u32) -> bool {
        if !self.lives(pid) {
            return false;
        }
        let mut process = self.process(pid);
        if !heeds(&process.signals, signal) {
            return false;
        }
        process.signals.set_pending(signal, true);
        self.set_process(pid, process);
        true
    }

    /// The children of an ended process: live ones have no parent, zombies go.
    fn part_children(&mut self, parent: u32) {
        for pid in 1..self.given() + 1 {
            let mut process = self.process(pid);
            if process.parent == parent {
                match process.life {
                    Life::Lives => process.parent = 0,
                    Life::Waited(end) => process.life = Life::Gone(end),
                    Life::Gone(_) => {}
                }
                self.set_process(pid, process);
            }
        }
    }

    /// The end of a live process: the parent at which 17 counts.
    pub(crate) fn end(&mut self, pid: u32, end: End) -> Option<u32> {
        self.part_children(pid);
        let mut process = self.process(pid);
        let parent = process.parent;
        process.slots = [None; 16];
        process.life = if self.lives(parent) {
            Life::Waited(end)
        } else {
            Life::Gone(end)
        };
        self.set_process(pid, process);
        if self.raise(parent, 17) {
            Some(parent)
        } else {
            None
        }
    }
}

fn has_slot(slots: &[Option<usize>; 16], opened: usize) -> bool {
    for slot in slots {
        if *slot == Some(opened) {
            return true;
        }
    }
    false
}
