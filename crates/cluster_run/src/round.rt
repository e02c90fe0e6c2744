// A round of one seat: its letters go out, at most one comes in, and the node makes a turn.
ghost use Rattle.std.specs.Prelude.{◌≡◌, ◌++◌, ◌+◌, nat_lt, if◌then◌else◌, [], None, false, true, option_to_list, IfOk, IfNone};
ghost use Rattle.node_machine.specs.Policy.{given_by};
ghost use Rattle.cluster_run.specs.Seats.{rest_of, waiting, Step, Took, Made, Went};
ghost use Rattle.cluster_run.specs.Passing.{IsRest, IsAtRest};

use crate::seat::{Rest, Seat};
use crate::side::{hand, look};
use call_forward::Letter;
use call_table::NoMemory;
use node_core::{Node, Turned};
use node_links::Carrier;
use policy_box::{Chooser, Policy};
use std::alloc::Global;

/// What a turn's answer means for its seat.
fn rest_of(turned: Turned) -> Rest
    ensures { result ≡ rest_of turned }
{
    match turned {
        Turned::Did => Rest::Busy,
        Turned::Idle => Rest::Idle,
        Turned::Finished => Rest::Over,
        Turned::JournalFull => Rest::Full,
    }
}

/// Whether the answer of a turn was that nothing is due.
pub(crate) fn is_rest(rest: Rest) -> bool
    ensures { result ≡ true → IsRest rest }
{
    matches!(rest, Rest::Idle | Rest::Over)
}

/// The source after one, round and round.
fn next_source(source: u8, nodes: u8) -> u8
    ensures { result ≡ (if nat_lt (source + 1) nodes then source + 1 else 0) }
{
    if source < nodes && source + 1 < nodes {
        source + 1
    } else {
        0
    }
}

impl<C: Carrier> Seat<Node, C> {
    /// Takes out the first letter that waits: the one that a link gave back, else the node's next one. None exactly where none waits.
    fn next_out(&mut self) -> Option<Letter>
        ensures letters { waiting self.old ≡ option_to_list result ++ waiting self.new }
        ensures none { IfNone result (waiting self.old ≡ []) }
        ensures rest { self.new ≡ record self.old { node = record self.old.node { outbox = self.new.node.outbox }; waits = None } }
    {
        match self.waits.take() {
            Some(letter) => Some(letter),
            None => self.node.next_out(),
        }
    }

    /// Sends the first letter that waits. False where none waits, or its link has no room; then it waits before all others.
    fn send_one(&mut self) -> bool
        ensures { Step C.puts C.gives C.pair None self.old self.new }
    {
        match self.next_out() {
            None => false,
            Some(letter) => {
                self.waits = hand(&mut self.side, letter);
                self.waits.is_none()
            }
        }
    }

    /// Sends what waits, as far as the links take it.
    fn send_out(&mut self)
        ensures { Step C.puts C.gives C.pair None self.old self.new }
    {
        for _ in 0..u64::MAX {
            if !self.send_one() {
                return;
            }
        }
    }

    /// Whether a letter waits. The first one then waits as one that a link gave back.
    fn holds_letter(&mut self) -> bool
        ensures step { Step C.puts C.gives C.pair None self.old self.new }
        ensures none { result ≡ false → waiting self.new ≡ [] }
    {
        self.waits = self.next_out();
        self.waits.is_some()
    }

    /// Whether the last turn found nothing due, and no letter waits.
    pub(crate) fn is_at_rest(&mut self) -> bool
        ensures step { Step C.puts C.gives C.pair None self.old self.new }
        ensures rest { result ≡ true → IsAtRest self.new }
    {
        let rests = is_rest(self.rest);
        let holds = self.holds_letter();
        rests && !holds
    }

    /// Takes a letter off the link from a node, where one is there.
    #[inline(always)]
    pub(crate) fn take_from(&mut self, source: u8) -> Result<Option<Letter>, NoMemory>
        ensures { IfOk result (λ came. Took C.puts C.gives C.pair C.known source came self.old self.new) }
    {
        let came = look(&mut self.side, source)?;
        match came {
            Some(letter) => {
                self.source = source;
                Ok(Some(letter))
            }
            None => Ok(None),
        }
    }

    /// Takes at most one letter: the search goes over the links by their source, and begins after the source of the last one.
    fn take_one(&mut self, nodes: u8) -> Result<Option<Letter>, NoMemory>
        ensures { IfOk result (λ came. Step C.puts C.gives C.pair came self.old self.new) }
    {
        let mut source = self.source;
        for _ in 0..nodes {
            source = next_source(source, nodes);
            let came = self.take_from(source)?;
            if let Some(letter) = came {
                return Ok(Some(letter));
            }
        }
        Ok(None)
    }

    /// One turn of the node.
    pub(crate) fn make<P: Chooser>(
        &mut self,
        alloc: Global,
        inbox: Option<Letter>,
        policy: &Policy<P>,
    ) -> Result<Rest, NoMemory>
        ensures { IfOk result (λ rest. Made (given_by (P.answers policy.now)) rest inbox self.old self.new) }
    {
        let turned = self.node.turn(alloc, inbox, policy)?;
        let _events = self.node.journal().len();
        let rest = rest_of(turned);
        self.rest = rest;
        Ok(rest)
    }

    /// A round: its letters go out, at most one comes in, and the node makes a turn.
    pub fn round<P: Chooser>(
        &mut self,
        alloc: Global,
        nodes: u8,
        policy: &Policy<P>,
    ) -> Result<Rest, NoMemory>
        ensures { IfOk result (λ rest. Went (given_by (P.answers policy.now)) C.puts C.gives C.pair rest self.old self.new) }
    {
        self.send_out();
        let inbox = self.take_one(nodes)?;
        let rest = self.make(alloc, inbox, policy)?;
        Ok(rest)
    }
}
