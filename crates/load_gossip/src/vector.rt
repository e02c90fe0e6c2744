// The load vector of a node.
ghost use Rattle.std.specs.Prelude.{◌≡◌, ℕ, ◌+◌, ◌*◌, ◌<◌, IfSome, IfNone, slice_get, take};
ghost use Rattle.load_gossip.specs.Vectors.{no_places, renewed, merged, entry_of, newer, newest_of, IsNewest, HasNone};

use call_table::Entry;
use std::marker::Model;

/// What a node knows of the load of the nodes: eight places, each with an entry or without one.
/// Contracts see the list of the places.
#[derive(Clone, Copy, Debug, PartialEq, Eq)]
pub struct Vector {
    places: [Option<Entry>; 8],
}

impl Model for Vector {
    ghost use Rattle.std.specs.Prelude.{List, Option, ◌≡◌, length};
    ghost use Rattle.call_table.specs.declared.process.Entry.{Entry};

    ghost Value = { List (Option Entry) };

    ghost view = { λ v. v.places };

    ghost inverse = { λ places. record { places = places } };
}

/// The newest so far, after one more place was looked at.
fn newer(newest: Option<Entry>, place: Option<Entry>, node: u8) -> Option<Entry>
    ensures { result ≡ newer newest (entry_of node place) }
{
    match (newest, place) {
        (_, Some(entry)) if entry.node != node => newest,
        (Some(first), Some(entry)) if first.stamp >= entry.stamp => Some(first),
        (_, None) => newest,
        (_, Some(entry)) => Some(entry),
    }
}

/// The newest entry of the node.
#[tactic(auto, using(crate::proofs::Newest::looked_at_all))]
fn newest_in(places: &[Option<Entry>], node: u8) -> Option<Entry>
    ensures { result ≡ newest_of node places.now }
{
    let mut newest: Option<Entry> = None;
    for place in places {
        newest = newer(newest, *place, node);
    }
    newest
}

/// The first of one, the first of the other, and so on.
fn interleaved(own: &[Option<Entry>; 4], heard: &[Option<Entry>; 4]) -> [Option<Entry>; 8]
    ensures { result ≡ merged own.now heard.now }
{
    [
        own[0], heard[0], own[1], heard[1], own[2], heard[2], own[3], heard[3],
    ]
}

impl Vector {
    /// Eight empty places.
    pub fn new() -> Vector
        ensures { result ≡ no_places }
    {
        Vector { places: [None; 8] }
    }

    /// Writes the node's own entry at place 0, over what stood there.
    pub fn renew(&mut self, own: Entry)
        ensures { self.new ≡ renewed own self.old }
    {
        self.places[0] = Some(own);
    }

    /// The first four places, which are what a node tells.
    pub fn half(&self) -> [Option<Entry>; 4]
        ensures { result ≡ take 4 self.now }
    {
        [
            self.places[0],
            self.places[1],
            self.places[2],
            self.places[3],
        ]
    }

    /// Merges the half that another node told: the own place i goes to 2i and the heard one to 2i + 1, for i from 0 to 3.
    /// What stood in the last four places is forgotten.
    pub fn hear(&mut self, heard: &[Option<Entry>; 4])
        ensures places { self.new ≡ merged (take 4 self.old) heard.now }
        ensures own { (i : ℕ) → i < 4 → slice_get self.new (2 * i) ≡ slice_get self.old i }
        ensures told { (i : ℕ) → i < 4 → slice_get self.new (2 * i + 1) ≡ slice_get heard.now i }
    {
        self.places = interleaved(&self.half(), heard);
    }

    /// The entry of `node` with the greatest stamp, and of those with equal stamps the one at the lowest place.
    /// None exactly where no entry of the node stands.
    #[tactic(auto, using(crate::proofs::Newest::found_some, crate::proofs::Newest::found_none))]
    pub fn newest(&self, node: u8) -> Option<Entry>
        ensures value { result ≡ newest_of node self.now }
        ensures some { IfSome result (IsNewest node self.now) }
        ensures none { IfNone result (HasNone node self.now) }
    {
        newest_in(&self.places, node)
    }
}
