// The rows of all processes.
ghost use Rattle.std.specs.Prelude.{◌≡◌, ◌≤◌, ◌<◌, ◌++◌, ◌∷◌, [], Some, None, OnOk, OnErr, is_some, length, option_copied};
ghost use Rattle.std.specs.List.{insert, remove};
ghost use Rattle.kernel_spec.specs.Pids.{at_pid, changed_pid};
ghost use Rattle.deputy.specs.Rows.{new_row, holding, counted, moved, held_at, served_at, place_at, hops_at, held_pids, before};

use crate::row::{HeldCall, Row};
use call_table::NoMemory;
use std::alloc::Global;
use std::marker::Model;

/// What home keeps of each process, by pid. The pids whose calls wait are listed beside, so that no other need be looked at.
#[derive(Drop)]
pub struct Rows {
    list: Vec<Row>,
    // the pids whose calls wait, the lowest first
    waiting: Vec<u32>,
}

impl Model for Rows {
    ghost use Rattle.std.specs.Prelude.{◌≡◌, ◌-◌, vec_len, vec_capacity};
    ghost use Rattle.deputy.specs.Rows.{RowTable, coded_rows, held_pids};

    ghost Value = { RowTable };

    ghost coded = { coded_rows };

    ghost view = { λ r. record { list = r.list.items; room = vec_capacity r.list - vec_len r.list } };

    ghost invariant = { λ r. r.waiting.items ≡ held_pids r.list.items };
}

/// The row of a pid. None exactly where it was not given.
fn row_at(list: &[Row], pid: u32) -> Option<&Row>
    ensures { option_copied result ≡ at_pid list.now pid }
{
    if pid == 0 {
        return None;
    }
    list.get(pid as usize - 1)
}

/// How many of these pids, which rise, are below one.
fn before(pids: &[u32], pid: u32) -> usize
    ensures is { result ≡ before pid pids.now }
    ensures within { result ≤ length pids.now }
{
    for (i, other) in pids.iter().enumerate() {
        if *other >= pid {
            return i;
        }
    }
    pids.len()
}

/// One pid more among pids that rise. Want of memory changes nothing.
fn put_in(pids: &mut Vec<u32>, pid: u32) -> Result<(), NoMemory>
    ensures ok { OnOk result (pids.new.items ≡ insert pids.old.items (before pid pids.old.items) pid) }
    ensures err { OnErr result (pids.new.items ≡ pids.old.items) }
{
    let at = before(pids, pid);
    pids.insert(at, pid)?;
    Ok(())
}

/// A pid less.
fn take_out(pids: &mut Vec<u32>, pid: u32)
    requires { before pid pids.old.items < length pids.old.items }
    ensures { pids.new.items ≡ remove pids.old.items (before pid pids.old.items) }
{
    let at = before(pids, pid);
    let _pid = pids.remove(at);
}

fn hold(row: &mut Row, call: HeldCall)
    ensures { row.new ≡ holding call row.old }
{
    row.held = Some(call);
}

fn hold_at(list: &mut Vec<Row>, pid: u32, call: HeldCall)
    ensures { list.new.items ≡ changed_pid (holding call) list.old.items pid }
{
    if pid == 0 || list.len() < pid as usize {
        return;
    }
    hold(&mut list[pid as usize - 1], call);
}

/// One more call was served, and none waits. Whether one did.
fn count(row: &mut Row) -> bool
    ensures new { row.new ≡ counted row.old }
    ensures had { result ≡ is_some row.old.held }
{
    let had = row.held.is_some();
    row.served = row.served.saturating_add(1);
    row.held = None;
    had
}

fn count_at(list: &mut Vec<Row>, pid: u32) -> bool
    ensures new { list.new.items ≡ changed_pid counted list.old.items pid }
    ensures had { result ≡ is_some (held_at list.old.items pid) }
{
    if pid == 0 || list.len() < pid as usize {
        return false;
    }
    count(&mut list[pid as usize - 1])
}

fn land(row: &mut Row, place: u8, hops: u32)
    ensures { row.new ≡ moved place hops row.old }
{
    row.place = place;
    row.hops = hops;
}

fn land_at(list: &mut Vec<Row>, pid: u32, place: u8, hops: u32)
    ensures { list.new.items ≡ changed_pid (moved place hops) list.old.items pid }
{
    if pid == 0 || list.len() < pid as usize {
        return;
    }
    land(&mut list[pid as usize - 1], place, hops);
}

impl Rows {
    /// No process.
    pub fn new(alloc: Global) -> Rows
        ensures { result.list ≡ [] }
    {
        Rows {
            list: Vec::new(alloc),
            waiting: Vec::new(alloc),
        }
    }

    /// Finds the memory for one more row. Nothing else changes.
    pub fn reserve(&mut self) -> Result<(), NoMemory>
        ensures same { self.new.list ≡ self.old.list }
        ensures room { OnOk result (1 ≤ self.new.room) }
    {
        self.list.reserve(1)?;
        Ok(())
    }

    /// One more process, new at a node.
    pub fn push(&mut self, place: u8)
        requires { 1 ≤ self.old.room }
        ensures { self.new.list ≡ self.old.list ++ new_row place ∷ [] }
    {
        self.list.push_reserved(Row {
            place,
            hops: 0,
            served: 0,
            held: None,
        });
    }

    /// The call of a process that waits.
    pub fn held(&self, pid: u32) -> Option<&HeldCall>
        ensures { option_copied result ≡ held_at self.now.list pid }
    {
        match row_at(&self.list, pid) {
            Some(row) => row.held.as_ref(),
            None => None,
        }
    }

    /// Whether a call of a process waits.
    pub fn is_held(&self, pid: u32) -> bool
        ensures { result ≡ is_some (held_at self.now.list pid) }
    {
        match row_at(&self.list, pid) {
            Some(row) => row.held.is_some(),
            None => false,
        }
    }

    /// How many forwarded calls of a process were served.
    pub fn served(&self, pid: u32) -> u64
        ensures { result ≡ served_at self.now.list pid }
    {
        match row_at(&self.list, pid) {
            Some(row) => row.served,
            None => 0,
        }
    }

    /// Where home believes a process to be.
    pub fn place(&self, pid: u32) -> u8
        ensures { result ≡ place_at self.now.list pid }
    {
        match row_at(&self.list, pid) {
            Some(row) => row.place,
            None => 0,
        }
    }

    /// The number of landings by which that was told.
    pub fn hops(&self, pid: u32) -> u32
        ensures { result ≡ hops_at self.now.list pid }
    {
        match row_at(&self.list, pid) {
            Some(row) => row.hops,
            None => 0,
        }
    }

    /// The pids whose calls wait, the lowest first.
    pub fn waiting(&self) -> &[u32]
        ensures { result.now ≡ held_pids self.now.list }
    {
        self.waiting.as_slice()
    }

    /// A call of a process waits, where none of it does. Want of memory changes nothing.
    pub fn hold(&mut self, pid: u32, call: HeldCall) -> Result<(), NoMemory>
        requires low { 1 ≤ pid }
        requires given { pid ≤ length self.old.list }
        requires free { held_at self.old.list pid ≡ None }
        ensures ok { OnOk result (self.new.list ≡ changed_pid (holding call) self.old.list pid) }
        ensures err { OnErr result (self.new.list ≡ self.old.list) }
    {
        put_in(&mut self.waiting, pid)?;
        hold_at(&mut self.list, pid, call);
        Ok(())
    }

    /// One more call of a process was served, and none of it waits any more.
    pub fn count(&mut self, pid: u32)
        ensures { self.new.list ≡ changed_pid counted self.old.list pid }
    {
        if count_at(&mut self.list, pid) {
            take_out(&mut self.waiting, pid);
        }
    }

    /// A process is now believed at a node, by so many landings.
    pub fn land(&mut self, pid: u32, place: u8, hops: u32)
        ensures { self.new.list ≡ changed_pid (moved place hops) self.old.list pid }
    {
        land_at(&mut self.list, pid, place, hops);
    }
}
