// A stored chooser.
ghost use Rattle.std.specs.Prelude.{◌≡◌, Option, IfSome};
ghost use Rattle.mem_usher.specs.declared.sight.Choice.{Choice};
ghost use Rattle.policy_box.specs.Policies.{IsInRange, Fits, ChoosesFit, HasOneAnswer};

use crate::chooser::Chooser;
use mem_usher::{Choice, Sight};
use std::marker::Model;

/// A chooser of moves, kept beside two facts: each of its choices is a process that may move and a known node other than the sight's own, and it
/// has one answer on each sight. Contracts see the chooser.
#[derive(Drop)]
pub struct Policy<C: Chooser> {
    chooser: C,
}

impl<C: Chooser> Model for Policy<C> {
    ghost use Rattle.policy_box.specs.Policies.{IsChooser};

    ghost Value = { C };

    ghost view = { λ p. p.chooser };

    ghost invariant = { λ p. IsChooser C.callable C.answers p.chooser };
}

impl<C: Chooser> Policy<C> {
    /// Keeps the chooser.
    pub fn new(chooser: C) -> Policy<C>
        requires callable { C.callable chooser }
        requires fits { ChoosesFit C.answers chooser }
        requires one { HasOneAnswer C.answers chooser }
        ensures { result ≡ chooser }
    {
        Policy { chooser }
    }

    /// Each choice that the chooser may make on a sight in range fits it: this says so, and does nothing.
    pub fn is_fitting(&self)
        ensures { ChoosesFit C.answers self.now }
    {
        let _chooser = &self.chooser;
    }

    /// The chooser's answer. On a sight in range it is the only one, and a choice of a process that may move and of a known node other than
    /// the sight's own. It takes no memory.
    pub fn ask(&self, sight: &Sight) -> Option<Choice>
        ensures answer { C.answers self.now sight.now result }
        ensures fits { IsInRange sight.now → IfSome result (Fits sight.now) }
        ensures one { IsInRange sight.now → (other : Option Choice) → C.answers self.now sight.now other → other ≡ result }
    {
        self.chooser.choose(sight)
    }
}
