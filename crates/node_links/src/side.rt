// The carriers of a node.
use call_table::{ListOf, NoMemory};
use std::alloc::Global;
use std::marker::Model;

/// A carrier with the node that it leads to.
#[derive(Drop)]
pub struct Towards<C> {
    pub node: u8,
    pub carrier: C,
}

/// The carriers of one node. Contracts see the list of them.
#[derive(Drop)]
pub struct Side<C> {
    items: Vec<Towards<C>>,
}

/// The carriers of all nodes: a side for each, in node order.
pub type Carriers<C> = ListOf<Side<C>>;

impl<C> Model for Side<C> {
    ghost use Rattle.std.specs.Prelude.{List};
    ghost use Rattle.node_links.specs.declared.side.Towards.{Towards};

    ghost Value = { List (Towards C) };

    ghost view = { λ s. s.items.items };
}

impl<C> Side<C> {
    ghost use Rattle.std.specs.Prelude.{◌≡◌, [], ◌∷◌, ◌++◌, length, slice_get, option_copied, IfSome, IfNone};
    ghost use Rattle.std.specs.Option.{option_copied_mut};
    ghost use Rattle.std.specs.Borrow.{sem};
    ghost use Rattle.node_links.specs.Lends.{lends_towards};

    /// No carriers. It takes no memory.
    pub fn new(alloc: Global) -> Side<C>
        ensures { result ≡ [] }
    {
        Side {
            items: Vec::new(alloc),
        }
    }

    /// Takes the last carrier out. None exactly where there is none.
    pub fn pop(&mut self) -> Option<Towards<C>>
        ensures some { IfSome result (λ item. self.old ≡ self.new ++ item ∷ []) }
        ensures none { IfNone result ((self.old ≡ []) × (self.new ≡ [])) }
    {
        self.items.pop()
    }

    /// How many carriers there are.
    pub fn len(&self) -> usize
        ensures { result ≡ length self.now }
    {
        self.items.len()
    }

    /// The carrier at `at`, counted from 0. None exactly where `at` is not below the length.
    pub fn get(&self, at: usize) -> Option<&Towards<C>>
        ensures { option_copied result ≡ slice_get self.now at }
    {
        self.items.get(at)
    }

    /// The carrier at `at`, for writing. None exactly where `at` is not below the length.
    pub fn get_mut(&mut self, at: usize) -> Option<&mut Towards<C>>
        ensures* writes_back { sem 𝓛 (lends_towards C.row self.entry at result) }
        ensures value { option_copied_mut result ≡ slice_get self.old at }
    {
        self.items.get_mut(at)
    }
}

impl<C: Drop> Side<C> {
    ghost use Rattle.std.specs.Prelude.{◌≡◌, [], ◌∷◌, ◌++◌, OnOk, OnErr};

    /// Appends a carrier. Where memory is not found nothing changes, and the carrier is dropped.
    pub fn push(&mut self, item: Towards<C>) -> Result<(), NoMemory>
        ensures ok { OnOk result (self.new ≡ self.old ++ item ∷ []) }
        ensures err { OnErr result (self.new ≡ self.old) }
    {
        self.items.push(item)?;
        Ok(())
    }
}
