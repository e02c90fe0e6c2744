// The pages that a node keeps for processes that are to land.
ghost use Rattle.std.specs.Prelude.{◌≡◌, ◌≢◌, ◌+◌, ◌-◌, ◌<◌, ◌≤◌, ◌↔◌, ◌==◌, IsTrue, IsSome, IsNone, IfOk, position, unwrap_or, false};
ghost use Rattle.std.specs.Ordering.{nat_cmp};
ghost use Rattle.std.specs.FinMap as map;
ghost use Rattle.call_table.specs.declared.limit.TheConstants.{PROCESSES};
ghost use Rattle.migrate_proto.specs.Reservations.{decision, reserved_pages};

use call_table::NoMemory;
use call_table::limit::PROCESSES;
use std::alloc::Global;
use std::marker::Model;

/// What a target answers to a process that asks for room.
#[derive(Clone, Copy, Debug, PartialEq, Eq)]
pub enum Decision {
    /// The pages are kept for it until it lands.
    Allow,
    /// It needs more pages than are free.
    Deny { need: u32, free: u32 },
}

/// The pages of a node that are free: `cap` in all, less those that its processes hold and those that are reserved, or 0.
pub fn free(cap: u32, held: u32, reserved: u32) -> u32
    ensures { result ≡ cap - held - reserved }
{
    cap.saturating_sub(held).saturating_sub(reserved)
}

/// The pages that are reserved at a node, by the process that is to land. Contracts see a map of pid to pages.
#[derive(Drop)]
pub struct Reserve {
    // pid and pages of each reservation, no pid twice
    entries: Vec<(u32, u32)>,
    total: u32,
}

impl Model for Reserve {
    ghost use Rattle.std.specs.Prelude.{ℕ};
    ghost use Rattle.std.specs.Ordering.{nat_cmp};
    ghost use Rattle.std.specs.FinMap as map;
    ghost use Rattle.std.specs.Coded.{coded_ℕ};

    ghost Value = { map.FinMap nat_cmp ℕ };

    ghost coded = { map.code coded_ℕ coded_ℕ };

    ghost use Rattle.std.specs.Prelude.{vec_capacity};
    ghost use Rattle.migrate_proto.specs.Reservations.{IsKept};

    ghost view = { λ r. map.from_entries r.entries.items };

    ghost invariant = { λ r. IsKept r.entries.items (vec_capacity r.entries) r.total };
}

/// Where the reservation of a process stands, if there is one.
fn place_of(entries: &[(u32, u32)], pid: u32) -> Option<usize>
    ensures { result ≡ position (λ e. e.0 == pid) entries.now }
{
    entries.iter().position(|entry| entry.0 == pid)
}

impl Reserve {
    /// No reservations. It takes the memory for 64 of them.
    pub fn new(alloc: Global) -> Result<Reserve, NoMemory>
        ensures { IfOk result (λ reserve. reserve ≡ map.empty) }
    {
        Ok(Reserve {
            entries: Vec::with_capacity(alloc, PROCESSES as usize)?,
            total: 0,
        })
    }

    /// Reserves `need` pages for a process where so many are free at a node of `cap` pages, of which its processes hold `held`. Else nothing changes. It takes no memory.
    pub fn allow_or_deny(&mut self, pid: u32, need: u32, cap: u32, held: u32) -> Decision
        requires fresh { IsNone (map.get self.old pid) }
        requires room { map.len self.old < PROCESSES }
        ensures answer { result ≡ decision need (cap - held - reserved_pages self.old) }
        ensures allowed { result ≡ Decision.Allow → (self.new ≡ map.insert self.old pid need) × (reserved_pages self.new ≡ reserved_pages self.old + need) }
        ensures denied { result ≢ Decision.Allow → self.new ≡ self.old }
    {
        let free = free(cap, held, self.total);
        if free < need {
            return Decision::Deny { need, free };
        }
        self.entries.push_reserved((pid, need));
        self.total += need;
        Decision::Allow
    }

    /// Gives the reservation of a process up. False exactly where it has none, and then nothing changes.
    pub fn land(&mut self, pid: u32) -> bool
        ensures had { IsTrue result ↔ IsSome (map.get self.old pid) }
        ensures gone { self.new ≡ map.remove self.old pid }
        ensures none { result ≡ false → self.new ≡ self.old }
        ensures pages { reserved_pages self.new + unwrap_or (map.get self.old pid) 0 ≡ reserved_pages self.old }
    {
        match place_of(&self.entries, pid) {
            Some(place) => {
                let (_, pages) = self.entries.remove(place);
                self.total -= pages;
                true
            }
            None => false,
        }
    }

    /// The number of pages that are reserved.
    pub fn pages(&self) -> u32
        ensures { result ≡ reserved_pages self.now }
    {
        self.total
    }

    /// Whether a reservation of the process stands.
    pub fn has(&self, pid: u32) -> bool
        ensures { IsTrue result ↔ IsSome (map.get self.now pid) }
    {
        place_of(&self.entries, pid).is_some()
    }

    /// The number of reservations, at most 64.
    pub fn len(&self) -> u32
        ensures count { result ≡ map.len self.now }
        ensures most { result ≤ PROCESSES }
    {
        self.entries.len() as u32
    }
}
