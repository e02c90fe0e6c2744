// What a node tells of itself, and what its policy sees.
ghost use Rattle.std.specs.Prelude.{◌≡◌, ◌≢◌, ◌<◌, ◌^◌, ◌==◌, ◌++◌, ◌∷◌, [], ℕ, cond, map, length, true, None, All, IfOk, IfSome, OnOk, option_to_list};
ghost use Rattle.std.specs.Option.{option_map};
ghost use Rattle.policy_box.specs.Policies.{FitsEntry, IsInRange};
ghost use Rattle.protocol.specs.Gossip.{known_below, newest};
ghost use Rattle.remote_ctx.specs.Hosted.{runs_at};
ghost use Rattle.node_core.specs.Locals.{entry_of, places_of};
ghost use Rattle.node_core.specs.Sight.{AreCounted, AreMovable, Chooses, Sees, free_of, load_of, own_entry};

use crate::node::Node;
use call_table::{Entry, NoMemory};
use mem_usher::{Choice, Entries, Movables, Sight};
use migrate_proto::free;
use policy_box::{Chooser, Policy};
use std::alloc::Global;

/// One more entry is known, if there is one.
fn note(known: &mut Entries, entry: Option<Entry>) -> Result<(), NoMemory>
    ensures range { IfSome entry (λ e. FitsEntry e) }
    ensures ok { OnOk result (known.new ≡ known.old ++ option_to_list entry) }
{
    if let Some(entry) = entry {
        known.push(entry)?;
    }
    Ok(())
}

/// One more process may move.
fn list(movable: &mut Movables, pid: u32, pages: u32) -> Result<(), NoMemory>
    ensures range { (pid < 2 ^ 32) × (pages < 2 ^ 32) }
    ensures ok { OnOk result (movable.new ≡ movable.old ++ (pid, pages) ∷ []) }
{
    movable.push((pid, pages))?;
    Ok(())
}

/// A sight in the range of its fields.
fn ranged(node: u8, cap: u32, own: Entry, known: Entries, movable: Movables) -> Sight
    requires entries { All (λ e. FitsEntry e) known }
    requires others { All (λ e. e.node ≢ node) known }
    requires movable { All (λ p. (p.0 < 2 ^ 32) × (p.1 < 2 ^ 32)) movable }
    ensures is { result ≡ record { node = node; cap = cap; free = own.free; load = own.load; known = known; movable = movable } }
    ensures range { IsInRange result }
{
    Sight {
        node,
        cap,
        free: own.free,
        load: own.load,
        known,
        movable,
    }
}

impl Node {
    /// How many pages neither its contexts nor its reservations use.
    fn free_pages(&self) -> u32
        ensures is { result ≡ free_of self.now }
        ensures counted { AreCounted self.now.hosted }
    {
        let _load = self.hosted.load();
        free(self.shape.cap, self.hosted.pages(), self.reserve.pages())
    }

    /// What it tells of itself with the event of this stamp.
    pub fn own_entry(&self, stamp: u64) -> Entry
        ensures is { result ≡ own_entry stamp self.now }
        ensures counted { AreCounted self.now.hosted }
    {
        Entry {
            node: self.id,
            load: self.hosted.load(),
            free: self.free_pages(),
            stamp,
        }
    }

    /// The newest entry of a node, where it is another one.
    #[tactic(auto, using(crate::proofs::Seeing::newest_same))]
    fn newest_of(&self, node: u8) -> Option<Entry>
        ensures is { option_map entry_of result ≡ cond (node == self.now.id) None (newest node (places_of self.now.talk.vector)) }
        ensures away { IfSome result (λ e. e.node ≢ self.now.id) }
    {
        if node == self.id {
            return None;
        }
        self.talk.vector.newest(node)
    }

    /// The newest entry of each other node, in their order.
    fn known(&self, alloc: Global) -> Result<Entries, NoMemory>
        ensures is { IfOk result (λ known. map entry_of known ≡ known_below self.now.shape.nodes self.now.id (places_of self.now.talk.vector)) }
        ensures range { IfOk result (λ known. All (λ e. FitsEntry e) known) }
        ensures others { IfOk result (λ known. All (λ e. e.node ≢ self.now.id) known) }
    {
        let mut known = Entries::new(alloc);
        for node in 0..self.shape.nodes {
            let entry = self.newest_of(node);
            note(&mut known, entry)?;
        }
        Ok(known)
    }

    /// The processes that run, by pid, each with its pages.
    fn movable(&self, alloc: Global) -> Result<Movables, NoMemory>
        ensures is { IfOk result (λ movable. AreMovable self.now.hosted movable) }
        ensures range { IfOk result (λ movable. All (λ p. (p.0 < 2 ^ 32) × (p.1 < 2 ^ 32)) movable) }
    {
        let mut movable = Movables::new(alloc);
        for pid in self.hosted.running() {
            let pages = self.hosted.need(*pid).unwrap_or(0);
            list(&mut movable, *pid, pages)?;
        }
        Ok(movable)
    }

    /// What its policy sees.
    fn sight(&self, alloc: Global, own: Entry) -> Result<Sight, NoMemory>
        ensures { IfOk result (λ sight. Sees own self.now sight) }
    {
        let known = self.known(alloc)?;
        let movable = self.movable(alloc)?;
        Ok(ranged(self.id, self.shape.cap, own, known, movable))
    }

    /// Its policy chooses a process that runs here and another node, or nothing.
    #[tactic(auto, using(crate::proofs::Seeing::chosen))]
    pub fn choose<C: Chooser>(
        &self,
        alloc: Global,
        own: Entry,
        policy: &Policy<C>,
    ) -> Result<Option<Choice>, NoMemory>
        ensures { IfOk result (λ chosen. Chooses (C.answers policy.now) own self.now chosen) }
    {
        let sight = self.sight(alloc, own)?;
        Ok(policy.ask(&sight))
    }
}
