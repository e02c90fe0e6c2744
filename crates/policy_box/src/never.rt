// The chooser that moves nothing.
ghost use Rattle.std.specs.Prelude.{◌≡◌, None};

use crate::chooser::Chooser;
use crate::policy::Policy;
use mem_usher::{Choice, Sight};

/// The chooser that never chooses.
#[derive(Clone, Copy, Debug, PartialEq, Eq)]
pub struct Never;

impl Chooser for Never {
    ghost callable = { λ _. Unit {0} };

    ghost answers = { λ _ _ answer. answer ≡ None };

    fn choose(&self, _sight: &Sight) -> Option<Choice> {
        None
    }
}

/// The policy that moves nothing.
pub fn never_policy() -> Policy<Never>
    ensures { result ≡ record {} }
{
    Policy::new(Never)
}
