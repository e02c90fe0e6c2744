// One turn of a node.
ghost use Rattle.std.specs.Prelude.{◌≡◌, ◌<◌, ◌≤◌, ◌+◌, ◌-◌, ◌^◌, ℕ, max, min, length, OnOk, IfOk, true, false};
ghost use Rattle.std.specs.Bool.{MatchBool};
ghost use Rattle.kernel_spec.specs.Kernel.{is_live};
ghost use Rattle.node_machine.specs.Policy.{given_by};
ghost use Rattle.node_core.specs.Turns.{is_strange, one_more, recorded_in, settled_in, skipped_in, TurnsAs};
ghost use Rattle.node_core.specs.Kinds.{is_misplaced};
ghost use Rattle.node_core.specs.Turning.{has_many_hops, is_odd, HearsAny, IsDone, IsRest, TakesInOrder, TookLetter, WentOn};

use crate::letters::strange;
use crate::node::Node;
use crate::rotation::picked;
use call_forward::{Acted, Letter, Message};
use call_table::NoMemory;
use call_table::limit::STAMPS;
use home_kernel::Kernel;
use node_event::{Event, What};
use policy_box::{Chooser, Policy};
use std::alloc::Global;

/// What a turn did.
#[derive(Clone, Copy, Debug, PartialEq, Eq)]
pub enum Turned {
    /// It took a letter, or made an event.
    Did,
    /// No letter came, and nothing was due.
    Idle,
    /// So too, at home, where the script is at its end and every process has ended.
    Finished,
    /// More was due, and the journal is full.
    JournalFull,
}

/// Whether an event stands for a letter that does not fit.
fn is_strange(what: &What) -> bool
    ensures { result ≡ is_strange what.now }
{
    matches!(what, What::Strange)
}

/// The stamp of an event that follows one and a letter of another.
pub fn later(clock: u64, sent: u64) -> u64
    ensures { max clock sent < 2 ^ 64 - 1 → result ≡ max clock sent + 1 }
{
    clock.max(sent).saturating_add(1)
}

/// Whether a context that moves has landed as often as can be counted.
fn has_many_hops(message: &Message) -> bool
    ensures { result ≡ has_many_hops message.now }
{
    match message {
        Message::Move { hops, .. } => *hops == u32::MAX,
        _ => false,
    }
}

/// Whether every process has ended.
#[tactic(auto, using(crate::proofs::Living::ended_start, crate::proofs::Living::ended_more, crate::proofs::Living::ended_all, crate::proofs::Living::one_lives))]
fn all_ended(kernel: &Kernel) -> bool
    ensures { MatchBool result ((p : ℕ) → is_live kernel.now p ≡ false) (((p : ℕ) → is_live kernel.now p ≡ false) → ⊥) }
{
    for pid in 0..kernel.given() {
        if kernel.live(pid + 1) {
            return false;
        }
    }
    true
}

impl Node {
    /// A letter that does not fit is counted, and the clock goes on unless it is at its end.
    fn skip(&mut self, stamp: u64)
        ensures { self.new ≡ skipped_in stamp self.old }
    {
        if self.clock < STAMPS {
            self.clock = stamp;
        }
        self.strange = self.strange.saturating_add(1);
    }

    /// An event is written down, and what it posts goes out.
    fn record(&mut self, stamp: u64, acted: Acted) -> Result<(), NoMemory>
        requires { length self.old.journal.events < self.old.journal.room }
        ensures { OnOk result (self.new ≡ recorded_in stamp acted self.old) }
    {
        let Acted { what, mail } = acted;
        self.outbox.push_all(self.id, stamp, mail)?;
        self.clock = stamp;
        let _pushed = self.journal.push(Event {
            stamp,
            node: self.id,
            what,
        });
        Ok(())
    }

    /// What came of a turn is written down.
    fn settle(&mut self, stamp: u64, acted: Acted) -> Result<(), NoMemory>
        requires { length self.old.journal.events < self.old.journal.room }
        ensures { OnOk result (self.new ≡ settled_in stamp acted self.old) }
    {
        if is_strange(&acted.what) {
            self.skip(stamp);
            return Ok(());
        }
        self.record(stamp, acted)?;
        Ok(())
    }

    /// Whether an event can be written down.
    fn has_room(&self) -> bool
        ensures is { MatchBool result (length self.now.journal.events < self.now.journal.room) (length self.now.journal.events ≡ self.now.journal.room) }
        ensures most { length self.now.journal.events ≤ self.now.journal.room }
    {
        let _events = self.journal.len();
        !self.journal.is_full()
    }

    // ---- a turn with a letter

    /// Whether a letter is odd: its stamp or its hops are at their end, or its target is no node of the cluster.
    fn is_odd(&self, letter: &Letter) -> bool
        ensures { result ≡ is_odd self.now letter.now }
    {
        letter.stamp >= STAMPS || letter.to >= self.shape.nodes || has_many_hops(&letter.message)
    }

    /// What the node makes of a message, with an event of this stamp.
    #[tactic(auto, using(crate::proofs::Doing::misplaced_any, crate::proofs::Doing::heard_any))]
    fn hear_any<C: Chooser>(
        &mut self,
        alloc: Global,
        stamp: u64,
        from: u8,
        message: Message,
        policy: &Policy<C>,
    ) -> Result<Acted, NoMemory>
        ensures { IfOk result (λ acted. HearsAny (C.answers policy.now) stamp from message acted self.old self.new) }
    {
        if self.is_misplaced(from, &message) {
            return Ok(strange(alloc));
        }
        let acted = self.hear(alloc, stamp, from, message, policy)?;
        Ok(acted)
    }

    /// The node takes a letter.
    fn take_letter<C: Chooser>(
        &mut self,
        alloc: Global,
        letter: Letter,
        policy: &Policy<C>,
    ) -> Result<Turned, NoMemory>
        requires { length self.old.journal.events < self.old.journal.room }
        ensures { IfOk result (λ turned. TookLetter (C.answers policy.now) turned letter self.old self.new) }
    {
        if self.is_odd(&letter) {
            self.strange = self.strange.saturating_add(1);
            return Ok(Turned::Did);
        }
        let stamp = later(self.clock, letter.stamp);
        let from = letter.from;
        let acted = self.hear_any(alloc, stamp, from, letter.message, policy)?;
        self.settle(stamp, acted)?;
        Ok(Turned::Did)
    }

    // ---- a turn without a letter

    /// Whether the script is at its end and every process has ended.
    #[tactic(auto, using(crate::proofs::Living::done_is, crate::proofs::Living::not_home, crate::proofs::Living::not_through, crate::proofs::Living::not_ended))]
    fn is_done(&self) -> bool
        ensures { MatchBool result (IsDone self.now) (IsDone self.now → ⊥) }
    {
        if self.id != 0 || self.course.done != self.course.script.len() {
            return false;
        }
        all_ended(self.deputies.kernel())
    }

    /// The node rests.
    fn rest(&self) -> Turned
        ensures { IsRest result self.now }
    {
        if self.is_done() {
            Turned::Finished
        } else {
            Turned::Idle
        }
    }

    /// The node goes on by itself.
    #[tactic(auto, using(crate::proofs::Doing::lacks_is))]
    fn go_on<C: Chooser>(&mut self, alloc: Global, policy: &Policy<C>) -> Result<Turned, NoMemory>
        ensures { IfOk result (λ turned. WentOn (C.answers policy.now) turned self.old self.new) }
    {
        let room = self.has_room();
        let ready = self.ready();
        let Some(kind) = picked(self.rotation.last, &ready) else {
            return Ok(self.rest());
        };
        if !room {
            return Ok(Turned::JournalFull);
        }
        let stamp = later(self.clock, 0);
        // a node that suits a plan has what its kind of turn needs
        let Some(acted) = self.carry_out(alloc, stamp, kind, ready.context, policy)? else {
            return Ok(Turned::Idle);
        };
        self.rotation.take(kind, ready.context);
        self.settle(stamp, acted)?;
        Ok(Turned::Did)
    }

    /// One turn. With a letter the node takes it; without one it carries out the first kind that is ready, from the one after the last taken, and the
    /// rotation goes on from that. Idle comes only where no letter came and no kind has something to do, Finished where besides it is home, its script is
    /// at its end and every process has ended. JournalFull comes only where more is due and the journal is full: then nothing changes, and the letter is
    /// dropped. After want of memory nothing is said of the node.
    #[tactic(auto, using(crate::proofs::Answering::took_answers, crate::proofs::Answering::went_answers))]
    pub fn turn<C: Chooser>(
        &mut self,
        alloc: Global,
        inbox: Option<Letter>,
        policy: &Policy<C>,
    ) -> Result<Turned, NoMemory>
        ensures laws { IfOk result (λ turned. TurnsAs (given_by (C.answers policy.now)) turned inbox self.old self.new) }
        ensures order { IfOk result (λ turned. TakesInOrder (C.answers policy.now) turned inbox self.old self.new) }
    {
        match inbox {
            Some(letter) => {
                if !self.has_room() {
                    return Ok(Turned::JournalFull);
                }
                let turned = self.take_letter(alloc, letter, policy)?;
                Ok(turned)
            }
            None => {
                let turned = self.go_on(alloc, policy)?;
                Ok(turned)
            }
        }
    }
}
