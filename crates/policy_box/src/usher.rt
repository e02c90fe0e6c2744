// The usher as a chooser.
ghost use Rattle.std.specs.Prelude.{◌≡◌};
ghost use Rattle.mem_usher.specs.Choices.{Answers, IsBestChoice};

use crate::chooser::Chooser;
use crate::policy::Policy;
use mem_usher::{Choice, Sight, usher_choice};

/// The chooser of the best choice, by `usher_choice`.
#[derive(Clone, Copy, Debug, PartialEq, Eq)]
pub struct Usher;

impl Chooser for Usher {
    ghost callable = { λ _. Unit {0} };

    ghost answers = { λ _ sight answer. Answers (IsBestChoice sight) answer };

    fn choose(&self, sight: &Sight) -> Option<Choice> {
        usher_choice(sight)
    }
}

/// The policy of the usher.
pub fn usher_policy() -> Policy<Usher>
    ensures { result ≡ record {} }
{
    Policy::new(Usher)
}
