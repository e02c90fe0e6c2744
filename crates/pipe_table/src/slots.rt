// The places of pipes.
ghost use Rattle.std.specs.Prelude.{◌≡◌, ◌≤◌, min, [], length, take, drop, is_none, Some, IfOk, OnOk, OnErr};
ghost use Rattle.std.specs.List.{position, position_or_len};
ghost use Rattle.std.specs.Option.{option_map};
ghost use Rattle.pipe_table.specs.Table.{bytes_of, bytes_at, room_of, room_at, free_id, with_pipe, with_more, changed_at, IsPipe, IsWithinLimits};

use crate::pipe::Pipe;
use call_table::limit::{PIPE_BYTES, PIPES};
use call_table::{Bytes, NoMemory};
use std::alloc::Global;

/// How many pipes there are at most.
const MOST: usize = PIPES as usize;

fn place_without(slots: &[Option<Pipe>]) -> Option<usize>
    ensures { result ≡ position is_none slots.now }
{
    slots.iter().position(|slot| slot.is_none())
}

/// The lowest place without a pipe, or the one past the last.
fn first_free(slots: &[Option<Pipe>]) -> usize
    ensures { result ≡ position_or_len is_none slots.now }
{
    place_without(slots).unwrap_or(slots.len())
}

/// The lowest id that no pipe has. None exactly at 64 pipes.
pub fn free_id(slots: &[Option<Pipe>]) -> Option<u32>
    requires { length slots.now ≤ PIPES }
    ensures { result ≡ free_id slots.now }
{
    let id = first_free(slots);
    if id >= MOST {
        return None;
    }
    Some(id as u32)
}

/// Puts an empty pipe into the first place that has none.
pub fn add(slots: &mut Vec<Option<Pipe>>, pipe: Pipe) -> Result<(), NoMemory>
    requires { pipe ≡ [] }
    ensures ok { OnOk result (slots.new.items ≡ with_pipe slots.old.items) }
    ensures err { OnErr result (slots.new.items ≡ slots.old.items) }
{
    let id = first_free(slots);
    if id < slots.len() {
        slots[id] = Some(pipe);
    } else {
        slots.push(Some(pipe))?;
    }
    Ok(())
}

fn held_in(slot: &Option<Pipe>) -> usize
    ensures held { result ≡ length (bytes_of slot.now) }
    ensures within { result ≤ PIPE_BYTES }
{
    match slot {
        Some(pipe) => pipe.held(),
        None => 0,
    }
}

/// How many bytes the pipe holds.
pub fn held_at(slots: &[Option<Pipe>], id: usize) -> usize
    ensures held { result ≡ length (bytes_at slots.now id) }
    ensures within { result ≤ PIPE_BYTES }
{
    match slots.get(id) {
        Some(slot) => held_in(slot),
        None => 0,
    }
}

fn room_in(slot: &Option<Pipe>) -> usize
    ensures room { result ≡ room_of slot.now }
    ensures within { result ≤ PIPE_BYTES }
{
    match slot {
        Some(pipe) => PIPE_BYTES as usize - pipe.held(),
        None => 0,
    }
}

/// How many bytes more the pipe can hold.
pub fn room_at(slots: &[Option<Pipe>], id: usize) -> usize
    ensures room { result ≡ room_at slots.now id }
    ensures within { result ≤ PIPE_BYTES }
{
    match slots.get(id) {
        Some(slot) => room_in(slot),
        None => 0,
    }
}

fn put_in(slot: &mut Option<Pipe>, bytes: &[u8]) -> usize
    ensures count { result ≡ min (length bytes.now) (room_of slot.old) }
    ensures bytes { slot.new ≡ option_map (with_more (take result bytes.now)) slot.old }
    ensures within { IsPipe slot.new }
{
    match slot {
        Some(pipe) => pipe.put(bytes),
        None => 0,
    }
}

/// Appends to the pipe as many of the first bytes as fit.
pub fn put_at(slots: &mut Vec<Option<Pipe>>, id: usize, bytes: &[u8]) -> usize
    requires { IsWithinLimits slots.old.items }
    ensures count { result ≡ min (length bytes.now) (room_at slots.old.items id) }
    ensures bytes { slots.new.items ≡ changed_at (with_more (take result bytes.now)) slots.old.items id }
    ensures limits { IsWithinLimits slots.new.items }
{
    if id >= slots.len() {
        return 0;
    }
    put_in(&mut slots[id], bytes)
}

fn take_from(slot: &mut Option<Pipe>, alloc: Global, len: usize) -> Result<Bytes, NoMemory>
    ensures bytes { IfOk result (λ bytes. bytes ≡ take len (bytes_of slot.old)) }
    ensures rest { IfOk result (λ bytes. slot.new ≡ option_map (drop len) slot.old) }
    ensures err { OnErr result (slot.new ≡ slot.old) }
    ensures within { IsPipe slot.new }
{
    match slot {
        Some(pipe) => pipe.take(alloc, len),
        None => Ok(Bytes::new(alloc)),
    }
}

/// Takes the first bytes out of the pipe.
pub fn take_at(
    slots: &mut Vec<Option<Pipe>>,
    alloc: Global,
    id: usize,
    len: usize,
) -> Result<Bytes, NoMemory>
    requires { IsWithinLimits slots.old.items }
    ensures bytes { IfOk result (λ bytes. bytes ≡ take len (bytes_at slots.old.items id)) }
    ensures rest { IfOk result (λ bytes. slots.new.items ≡ changed_at (drop len) slots.old.items id) }
    ensures err { OnErr result (slots.new.items ≡ slots.old.items) }
    ensures limits { IsWithinLimits slots.new.items }
{
    if id >= slots.len() {
        return Ok(Bytes::new(alloc));
    }
    let bytes = take_from(&mut slots[id], alloc, len)?;
    Ok(bytes)
}
