// The journal of a node.
ghost use Rattle.std.specs.Prelude.{◌≡◌, ◌<◌, ◌≤◌, ◌↔◌, [], ◌∷◌, ◌++◌, length, IfOk, IsTrue, nat_lt, not, if◌then◌else◌};

use crate::event::{Event, Events};
use call_table::NoMemory;
use std::alloc::Global;
use std::marker::Model;

/// The events of a node, up to a number that is set when it is made. Contracts see the events and that number.
#[derive(Debug, Drop)]
pub struct Journal {
    items: Vec<Event>,
    limit: u32,
}

impl Model for Journal {
    ghost use Rattle.std.specs.Prelude.{◌≤◌, vec_len, vec_capacity};
    ghost use Rattle.node_event.specs.Journals.{JournalState};

    ghost Value = { JournalState };

    ghost view = { λ j. record { events = j.items.items; room = j.limit } };

    ghost invariant = { λ j. (vec_len j.items ≤ j.limit) × (j.limit ≤ vec_capacity j.items) };
}

impl Journal {
    /// An empty journal for `room` events. It takes the memory for all of them.
    pub fn new(alloc: Global, room: u32) -> Result<Journal, NoMemory>
        ensures { IfOk result (λ journal. journal ≡ record { events = []; room = room }) }
    {
        Ok(Journal {
            items: Vec::with_capacity(alloc, room as usize)?,
            limit: room,
        })
    }

    /// Whether there is room for no further event.
    pub fn is_full(&self) -> bool
        ensures { IsTrue result ↔ (length self.now.events ≡ self.now.room) }
    {
        self.items.len() == self.limit as usize
    }

    /// Appends an event. False exactly where the journal is full, and then nothing changes. It takes no memory.
    pub fn push(&mut self, event: Event) -> bool
        ensures answer { IsTrue result ↔ (length self.old.events < self.old.room) }
        ensures events { self.new.events ≡ (if result then self.old.events ++ event ∷ [] else self.old.events) }
        ensures room { self.new.room ≡ self.old.room }
    {
        if self.items.len() == self.limit as usize {
            return false;
        }
        self.items.push_reserved(event);
        true
    }

    /// How many events there are, at most the room.
    pub fn len(&self) -> usize
        ensures count { result ≡ length self.now.events }
        ensures fits { length self.now.events ≤ self.now.room }
    {
        self.items.len()
    }

    /// The events, the oldest first.
    pub fn as_slice(&self) -> &[Event]
        ensures { result.now ≡ self.now.events }
    {
        self.items.as_slice()
    }

    /// The events, the oldest first, as a list of their own. It takes no memory.
    pub fn into_events(self) -> Events
        ensures { result ≡ self.events }
    {
        let Journal { items, limit: _ } = self;
        Events::from_vec(items)
    }
}
