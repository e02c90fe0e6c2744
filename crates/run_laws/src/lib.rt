// The laws of a run: whatever nodes and links do, the events of a cluster are lawful and replay on one node. They are said over any machine,
// given as a record of its types and operations, and here of a small one.
#![tactic(auto)]

ghost use Rattle.std.specs.Prelude.{◌≡◌, ◌≤◌, ◌<◌, ◌∷◌, ℕ, List, length};
ghost use Rattle.node_event.specs.declared.event.Event.{Event};
ghost use Rattle.protocol.specs.Deeds.{all_noted};
ghost use Rattle.protocol.specs.Notes.{Post, Turn};
ghost use Rattle.protocol.specs.Cluster.{World, Reached, events};
ghost use Rattle.protocol.specs.Odd.{IsOdd, Timed, hops_end};
ghost use Rattle.protocol.specs.Rests.{Awaits, AllRest};
ghost use Rattle.run_laws.specs.Lawful.{Lawful};
ghost use Rattle.run_laws.specs.Grounds.{Grounded};
ghost use Rattle.run_laws.specs.Outcomes.{outcomes};
ghost use Rattle.run_laws.specs.Whole.{Holds};
ghost use Rattle.run_laws.specs.Due.{Same, Untaken};
ghost use Rattle.run_laws.specs.Going.{Able};
ghost use Rattle.run_laws.specs.Ending.{Ending};
ghost use Rattle.run_laws.specs.EndStories.{hello_ends, reader_ends, keeper_ends, reached_goes_on, one_event_full, context_before, reader, reader_script, reader_events, keeper, keeper_script, keeper_events};
ghost use Rattle.run_laws.specs.Honest.{Honest};
ghost use Rattle.run_laws.specs.GossipStories.{pusher, push_events, heavy, denied_events, unchosen_events, unsent_events, invented, three, wrong_events, walker, walk_events, faulter, fault_events, valued_events, unpoked_events, loose_not_over};
ghost use Rattle.run_laws.specs.OneNode.{AllHome};
ghost use Rattle.run_laws.specs.WholeStory.{traveller, travel_events, travel_done};
ghost use Rattle.run_laws.specs.Carried.{Did, Sorted, own_events, shown, CarriedRun, NoneStrange};
ghost use Rattle.run_laws.specs.Skipping.{Act, DidAll, journal, NoneSkipped};
ghost use Rattle.run_laws.specs.Histories.{read, left_out, hello_script, hello, hello_events, writer, twice_events, fork_script, forker, fork_events, move_script, mover, move_events, first_events, copy_events, refused_events, again_events, break_script, breaker, break_events, left_events, poke_script, poker, poke_events, unheeded_events};

/// Whatever the cluster of the small machine does, turn after turn, all laws hold of its events, its letters are carried, and no letter is strange. `h` are
/// the turns, and `es` the events that the nodes recorded, both the newest first. `w` is how the turns leave the nodes and links.
pub fn laws_of_runs()
    ensures { (h : List (Turn mover)) (w : World mover) (es : List Event) → Reached mover h w → all_noted mover.script es ≡ events mover h → Holds mover (all_noted mover.script es) w × CarriedRun mover (all_noted mover.script es) w × NoneStrange mover h }
{}

/// Whatever the nodes did, each by itself, and whatever each link lists: where their journals are put in order by stamp and node, all laws hold of
/// that list, and its letters are carried: each was posted before it was taken, and each link kept its order; and no node skipped a letter as strange. No order
/// of turns is assumed but each node's own. `turns` are what each node did, the newest first, `w` how that leaves the nodes and links, and `es` the list.
pub fn laws_of_journals()
    ensures { (turns : ℕ → List (Turn mover)) (w : World mover) (es : List Event) → Did mover turns w → Sorted (all_noted mover.script es) → ((n : ℕ) → own_events n (all_noted mover.script es) ≡ shown mover (turns n)) → Holds mover (all_noted mover.script es) w × CarriedRun mover (all_noted mover.script es) w × ((n : ℕ) → NoneStrange mover (turns n)) }
{}

/// A run of one node stays at home: every event is at node 0, no process begins to move or has a move kept, and the node tells nobody of itself.
pub fn runs_of_one_node()
    ensures { (h : List (Turn hello)) (w : World hello) → Reached hello h w → AllHome (events hello h) }
{}

/// Where each stamp is exactly one more than its node's clock and its letter's stamp, no letter that comes is odd: in fewer than 2^32 - 1 turns no
/// stamp, no clock and no count of landings comes near its end, and each letter lies on the link to its target.
pub fn no_odd_letters()
    ensures { (h : List (Turn mover)) (w : World mover) (run : Reached mover h w) (a n : ℕ) (l : Post mover) (rest : List (Post mover)) → Timed mover h w run → length h < hops_end → n < mover.nodes → w.links a n ≡ l ∷ rest → IsOdd mover n (w.nodes n) l → ⊥ }
{}

/// Nor where only each node's own order is known: nodes make turns, each stamp exactly one more than the clock and the letter's stamp, and skip odd letters, each by
/// itself, and whatever each link lists. Where the journals, put in order by stamp and node, have fewer than 2^32 - 1 events, no node skipped a letter. `acts` are
/// what each node did, the newest first, `w` how that leaves the nodes and links, and `es` the list.
pub fn none_skipped()
    ensures { (acts : ℕ → List (Act mover)) (w : World mover) (es : List Event) → DidAll mover acts w → Sorted (all_noted mover.script es) → ((n : ℕ) → own_events n (all_noted mover.script es) ≡ journal mover (acts n)) → length (all_noted mover.script es) < hops_end → (n : ℕ) → NoneSkipped mover (acts n) }
{}

/// How it ends, at whatever moment: what a node can do without a letter is what is due there by the events and the one-node machine; where every link is
/// empty and every node rests, the run is done or stuck, and each move line has its outcome or is open; and whose each node's contexts are. A letter lies on
/// a link where one was posted and not taken. A node that has something to do can make a turn, where the machine and its script are able, as these are.
pub fn end_of_runs()
    ensures able { Able mover }
    ensures letters { (h : List (Turn mover)) (w : World mover) → Reached mover h w → (n : ℕ) → Same (Awaits mover n w) (Untaken mover n h) }
    ensures ends { (h : List (Turn mover)) (w : World mover) (es : List Event) → Reached mover h w → all_noted mover.script es ≡ events mover h → Ending mover (all_noted mover.script es) w }
{}

/// And how it ends where the nodes did their turns by themselves and their journals are put in order.
pub fn end_of_journals()
    ensures { (turns : ℕ → List (Turn mover)) (w : World mover) (es : List Event) → Did mover turns w → Sorted (all_noted mover.script es) → ((n : ℕ) → own_events n (all_noted mover.script es) ≡ shown mover (turns n)) → Ending mover (all_noted mover.script es) w }
{}

/// Worked ends: a program that exits, and the run is done; one that reads while nothing comes, and the run is stuck; one that is to move meanwhile, whose
/// move is open then; and one that a signal reaches in its read, at which more is due. A journal that is full where more is due; and a context that was served
/// and is still that of its `sent`.
pub fn worked_ends()
    ensures done { hello_ends }
    ensures stuck { reader_ends }
    ensures open { keeper_ends }
    ensures more { reached_goes_on }
    ensures full { one_event_full }
    ensures before { context_before }
{}

/// These runs are made turn by turn, and at their end every link is empty and every node rests.
pub fn ends_exist()
    ensures done { (h : List (Turn hello)) × (w : World hello) × Reached hello h w × AllRest hello w × (events hello h ≡ read hello_script hello_events) }
    ensures stuck { (h : List (Turn reader)) × (w : World reader) × Reached reader h w × AllRest reader w × (events reader h ≡ read reader_script reader_events) }
    ensures open { (h : List (Turn keeper)) × (w : World keeper) × Reached keeper h w × AllRest keeper w × (events keeper h ≡ read keeper_script keeper_events) }
{}

/// There are such runs, also with exact stamps: the first line of the script is carried out. And one goes from the launch to the end: a program forks, its node
/// tells the other one of itself, the program moves there by a line of the script, both processes exit, and the run is done.
pub fn runs_exist()
    ensures whole { (h : List (Turn traveller)) × (w : World traveller) × Reached traveller h w × (events traveller h ≡ read move_script travel_events) }
    ensures done { travel_done }
    ensures first { (h : List (Turn mover)) × (w : World mover) × (run : Reached mover h w) × Timed mover h w run × (events mover h ≡ read move_script first_events) }
{}

/// Lawful are: the nine events of a program that writes and exits, a fork, a move from its asking to its landing, a held call that a signal
/// breaks, and a poke that is heeded; a half that a node sends and home hears, with a choice that begins a move, up to its landing; and such a move that is
/// denied, on good grounds.
pub fn lawful_histories()
    ensures hello { Lawful hello (read hello_script hello_events) }
    ensures fork { Lawful forker (read fork_script fork_events) }
    ensures moved { Lawful mover (read move_script move_events) }
    ensures broken { Lawful breaker (read break_script break_events) }
    ensures heeded { Lawful poker (read poke_script poke_events) }
    ensures chosen { Lawful pusher (read hello_script push_events) }
    ensures denied { Lawful heavy (read hello_script denied_events) }
    ensures grounds { Grounded heavy (read hello_script denied_events) }
{}

/// Not lawful are: the nine events with one of the first eight left out, a call that is served twice, steps at the source after a `depart`, a
/// `served` that leaves a deliverable signal, steps after a poke that was used and not heeded. A refusal for a move under way has no grounds where
/// there is none, and a line that is refused after its move has landed has two outcomes.
/// Nor are: a choice that the policy does not give, a half that is heard and was not sent, a first half that is not to the first other node, a 17th quantum
/// of steps without a half, a fault that is held, a pause that is served with a value, the exit of a child whose parent is not poked. An entry that its node
/// never told is not honest; and a run is not done while a move line has no outcome.
pub fn unlawful_histories()
    ensures left_out { (k : ℕ) → k < 8 → Lawful hello (read hello_script (left_out k hello_events)) → ⊥ }
    ensures twice { Lawful writer (read hello_script twice_events) → ⊥ }
    ensures copied { Lawful mover (read move_script copy_events) → ⊥ }
    ensures left { Lawful breaker (read break_script left_events) → ⊥ }
    ensures unheeded { Lawful poker (read poke_script unheeded_events) → ⊥ }
    ensures groundless { Grounded mover (read move_script refused_events) → ⊥ }
    ensures two_outcomes { outcomes 2 (read move_script again_events) ≤ 1 → ⊥ }
    ensures unchosen { Lawful pusher (read hello_script unchosen_events) → ⊥ }
    ensures unsent { Lawful pusher (read hello_script unsent_events) → ⊥ }
    ensures invented { Honest pusher invented (read hello_script push_events) → ⊥ }
    ensures wrong { Lawful three (read hello_script wrong_events) → ⊥ }
    ensures walked { Lawful walker (read hello_script walk_events) → ⊥ }
    ensures fault { Lawful faulter (read hello_script fault_events) → ⊥ }
    ensures valued { Lawful poker (read poke_script valued_events) → ⊥ }
    ensures unpoked { Lawful forker (read fork_script unpoked_events) → ⊥ }
    ensures loose { loose_not_over }
{}
