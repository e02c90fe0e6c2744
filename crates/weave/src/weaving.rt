// The journals of all nodes, woven into one list.
ghost use Rattle.std.specs.Prelude.{◌≡◌, ℕ, IfOk, IsPermutation};
ghost use Rattle.weave.specs.Weaves.{all_events, own_events, events_at, AreSorted, IsSorted, AreJournals, IsRising};

use crate::merging::merge_all;
use call_table::{ListOf, NoMemory};
use node_event::{Events, Journal};
use std::alloc::Global;

/// The journals of nodes, that of node 0 first.
pub type Journals = ListOf<Journal>;

/// The events of all journals in one list, by stamp, and by node where stamps are equal. For a given number of journals the time is linear in the
/// events: each is copied once, after one comparison with the next event of each other journal. It takes the memory of the list.
pub fn weave(alloc: Global, journals: &Journals) -> Result<Events, NoMemory>
    // The same events and no other.
    ensures same { IfOk result (λ woven. IsPermutation (all_events journals.now) woven) }
    // Where each journal is in order, so is the list.
    ensures sorted { IfOk result (λ woven. AreSorted journals.now → IsSorted woven) }
    // Journals of nodes: the stamps of each rise, and the k-th has the events of node k alone. Then each event goes before all that follow,
    // and the events of a node stand as in its journal.
    ensures rising { IfOk result (λ woven. AreJournals 0 journals.now → IsRising woven) }
    ensures own { IfOk result (λ woven. AreJournals 0 journals.now → (n : ℕ) → own_events n woven ≡ events_at n journals.now) }
{
    let woven = merge_all(alloc, journals.as_slice())?;
    Ok(Events::from_vec(woven))
}
