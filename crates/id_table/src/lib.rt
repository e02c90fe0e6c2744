// Values under the lowest free number, kept in a slab.
#![tactic(auto)]

ghost use Rattle.std.specs.Prelude.{◌≡◌, ◌≢◌, ◌<◌, ◌≤◌, ◌^◌, [], Some, None, IsSome, IfOk, OnOk, OnErr, length, take, option_copied, is_none, position, unwrap_or};
ghost use Rattle.std.specs.Borrow.{sem};
ghost use Rattle.id_table.specs.Places.{at_id, lowest_free, filled, without};

use call_table::NoMemory;
use slab::Slab;
use std::alloc::Global;
use std::marker::Model;

/// Values, each under a number. A new value gets the lowest number that is free.
/// Contracts see the list of the places, from the number 0 on, an empty one where the number is free.
#[derive(Drop)]
pub struct IdTable<T> {
    slots: Slab<T>,
    // For each number the key of its value.
    keys: Vec<Option<usize>>,
}

impl<T> Model for IdTable<T> {
    ghost use Rattle.std.specs.Prelude.{List, Option};
    ghost use Rattle.std.specs.Coded.{coded_list, coded_option};

    ghost Value = { List (Option T) };

    ghost coded = { coded_list (coded_option T.code) };

    ghost use Rattle.id_table.specs.Keys.{values_under, IsKeyed};

    ghost view = { λ a. values_under a.slots a.keys.items };

    ghost invariant = { λ a. IsKeyed a.slots a.keys.items };
}

fn first_empty(keys: &[Option<usize>]) -> Option<usize>
    ensures { result ≡ position is_none keys.now }
{
    keys.iter().position(|key| key.is_none())
}

/// The first place that is empty, or the length.
#[tactic(auto, using(crate::proofs::PlaceLemmas::lowest_free_found, crate::proofs::PlaceLemmas::lowest_free_missed))]
fn free_place(keys: &[Option<usize>]) -> usize
    ensures { result ≡ lowest_free keys.now }
{
    match first_empty(keys) {
        Some(place) => place,
        None => keys.len(),
    }
}

/// The key at a place, if there is one.
fn key_at(keys: &[Option<usize>], place: usize) -> Option<usize>
    ensures { result ≡ at_id keys.now place }
{
    match keys.get(place) {
        Some(key) => *key,
        None => None,
    }
}

/// Puts a key in the first place that is empty.
#[tactic(auto, using(crate::proofs::PlaceLemmas::filled_past, crate::proofs::PlaceLemmas::filled_within, crate::proofs::PlaceLemmas::lowest_free_le))]
fn put_key(keys: &mut Vec<Option<usize>>, place: usize, key: usize) -> Result<(), NoMemory>
    requires { place ≡ lowest_free keys.old.items }
    ensures ok { OnOk result (keys.new.items ≡ filled keys.old.items key) }
    ensures err { OnErr result (keys.new.items ≡ keys.old.items) }
{
    if place < keys.len() {
        keys[place] = Some(key);
        return Ok(());
    }
    keys.push(Some(key))?;
    Ok(())
}

impl<T> IdTable<T> {
    ghost use Rattle.id_table.specs.Lends.{lends_value};

    /// A table without values. It takes no memory.
    pub fn new(alloc: Global) -> IdTable<T>
        ensures { result ≡ [] }
    {
        IdTable {
            slots: Slab::new(alloc),
            keys: Vec::new(alloc),
        }
    }

    /// How many numbers the table has places for.
    pub fn places(&self) -> usize
        ensures value { result ≡ length self.now }
        ensures few { result ≤ 2 ^ 32 }
    {
        self.keys.len()
    }

    /// The value under `id`. None exactly where the number is free.
    pub fn get(&self, id: u32) -> Option<&T>
        ensures { option_copied result ≡ at_id self.now id }
    {
        match key_at(&self.keys, id as usize) {
            Some(key) => self.slots.get(key),
            None => None,
        }
    }

    /// The value under `id`, for writing.
    pub fn value_mut(&mut self, id: u32) -> &mut T
        requires { IsSome (at_id self.old id) }
        ensures* writes_back { sem 𝓛 (lends_value T.row self.entry id result) }
        ensures value { at_id self.old id ≡ Some result.now }
    {
        let key = key_at(&self.keys, id as usize).unwrap();
        &mut self.slots[key]
    }

    /// Takes the value under `id` out. The number is free then.
    pub fn remove(&mut self, id: u32) -> T
        requires { IsSome (at_id self.old id) }
        ensures value { at_id self.old id ≡ Some result }
        ensures new { self.new ≡ without self.old id }
    {
        let key = key_at(&self.keys, id as usize).unwrap();
        self.keys[id as usize] = None;
        self.slots.remove(key)
    }

    /// Takes the value under `id` out and shortens the table to so many places. It undoes an `add` to a table of that length.
    pub fn take_back(&mut self, id: u32, places: usize) -> T
        requires { IsSome (at_id self.old id) }
        ensures value { at_id self.old id ≡ Some result }
        ensures new { self.new ≡ take places (without self.old id) }
    {
        let value = self.remove(id);
        self.keys.truncate(places);
        value
    }
}

impl<T: Drop> IdTable<T> {
    /// Puts `value` under the lowest free number and answers that number.
    /// Where memory is not found, or the numbers below 2^32 are all taken, nothing changes, and the value is dropped.
    pub fn add(&mut self, value: T) -> Result<u32, NoMemory>
        ensures id { IfOk result (λ id. id ≡ lowest_free self.old) }
        ensures ok { OnOk result (self.new ≡ filled self.old value) }
        ensures err { OnErr result (self.new ≡ self.old) }
    {
        let place = free_place(&self.keys);
        let Ok(id) = u32::try_from(place) else {
            return Err(NoMemory);
        };
        self.slots.reserve(1)?;
        let key = self.slots.vacant_key();
        put_key(&mut self.keys, place, key)?;
        self.slots.insert_reserved(value);
        Ok(id)
    }
}
