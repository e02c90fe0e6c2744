// The letters that a node has posted.
ghost use Rattle.std.specs.Prelude.{◌≡◌, ◌++◌, ◌∷◌, [], map, OnOk, IfNone, option_to_list};
ghost use Rattle.node_core.specs.Letters.{posted_by, any_to};

use call_forward::{Letter, Mail};
use call_table::NoMemory;
use std::alloc::Global;
use std::collections::VecDeque;
use std::marker::Model;

/// Letters in the order in which they were posted. Contracts see the list of them.
#[derive(Drop)]
pub struct Outbox {
    items: VecDeque<Letter>,
}

impl Model for Outbox {
    ghost use Rattle.std.specs.Prelude.{List};
    ghost use Rattle.std.specs.Coded.{coded_list};
    ghost use Rattle.call_forward.specs.declared.letter.Letter.{Letter};
    ghost use Rattle.call_forward.specs.contracts.letter.Letter as letter_row;

    ghost Value = { List Letter };

    ghost coded = { coded_list letter_row.the_row.coded };

    ghost view = { λ o. o.items.items };
}

impl Outbox {
    /// No letter. It takes no memory.
    pub fn new(alloc: Global) -> Outbox
        ensures { result ≡ [] }
    {
        Outbox {
            items: VecDeque::new(alloc),
        }
    }

    /// One letter more, after the others.
    pub fn push(&mut self, letter: Letter) -> Result<(), NoMemory>
        ensures { OnOk result (self.new ≡ self.old ++ letter ∷ []) }
    {
        self.items.push_back(letter)?;
        Ok(())
    }

    /// What an event at node `from` posts, as letters with its stamp, after the others.
    pub fn push_all(&mut self, from: u8, stamp: u64, mail: Mail) -> Result<(), NoMemory>
        ensures { OnOk result (self.new ≡ self.old ++ map (posted_by from stamp) mail) }
    {
        for (to, message) in mail.into_vec() {
            self.push(Letter {
                from,
                to,
                stamp,
                message,
            })?;
        }
        Ok(())
    }

    /// Whether a letter to a node is among them.
    pub fn has_to(&self, node: u8) -> bool
        ensures { result ≡ any_to node self.now }
    {
        for at in 0..self.items.len() {
            if let Some(letter) = self.items.get(at)
                && letter.to == node
            {
                return true;
            }
        }
        false
    }

    /// Takes the first letter. None exactly where there is none.
    pub fn pop(&mut self) -> Option<Letter>
        ensures letters { self.old ≡ option_to_list result ++ self.new }
        ensures none { IfNone result (self.old ≡ []) }
    {
        self.items.pop_front()
    }
}
