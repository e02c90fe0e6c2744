// The two ends of a link.
ghost use Rattle.std.specs.Prelude.{◌<◌};
ghost use Rattle.rtrb.specs.Ring.{producer_capacity};

use call_forward::Letter;
use rtrb::{Consumer, Producer, PushError};

/// The end of a link at which letters are put. It may move to another thread.
#[derive(Drop)]
pub struct Out {
    pub(crate) ring: Producer<Letter>,
    ghost roomy: { 0 < producer_capacity ring },
}

/// The end of a link at which letters are taken. It may move to another thread.
#[derive(Drop)]
pub struct In {
    pub(crate) ring: Consumer<Letter>,
}

impl Out {
    ghost use Rattle.std.specs.Prelude.{◌≡◌, ◌<◌, ◌≤◌, ◌+◌, ◌↔◌, [], ◌∷◌, ◌++◌, IfSome, IfNone, IsNone, IsTrue};
    ghost use Rattle.node_links.specs.Links.{letters_put, letters_taken, known_letters, free_slots, IsLink, SameOut, SameIn};

    /// Puts a letter on the link, or gives it back where this end knows of no free slot afterwards. A letter takes one slot. It takes no memory.
    pub fn put(&mut self, letter: Letter) -> Option<Letter>
        ensures link { SameOut self.old self.new }
        ensures goes { 0 < free_slots self.old → IsNone result }
        ensures done { IfNone result (letters_put self.new ≡ letters_put self.old ++ letter ∷ []) }
        ensures slot { IfNone result (free_slots self.old ≤ free_slots self.new + 1) }
        ensures full { IfSome result (λ back. (back ≡ letter) × (letters_put self.new ≡ letters_put self.old) × (free_slots self.new ≡ 0)) }
    {
        match self.ring.push(letter) {
            Ok(()) => None,
            Err(PushError::Full(back)) => Some(back),
        }
    }

    /// Looks at both ends, which are at hand in one thread. Afterwards the taking end knows of each letter on the link, and where there is none this end knows of a free slot. True exactly where there is none.
    pub fn meet(&mut self, other: &mut In) -> bool
        requires { IsLink self.old other.old }
        ensures out { SameOut self.old self.new × (letters_put self.new ≡ letters_put self.old) }
        ensures back { SameIn other.old other.new × (letters_taken other.new ≡ letters_taken other.old) }
        ensures order { letters_taken other.new ++ known_letters other.new ≡ letters_put self.new }
        ensures free { letters_taken other.new ≡ letters_put self.new → 0 < free_slots self.new }
        ensures empty { IsTrue result ↔ (letters_taken other.new ≡ letters_put self.new) }
    {
        self.ring.slots_beside(&mut other.ring);
        other.ring.slots_beside(&mut self.ring) == 0
    }
}

impl In {
    ghost use Rattle.std.specs.Prelude.{◌≡◌, ◌+◌, ◌≤◌, [], ◌∷◌, ◌++◌, length, IfSome, IfNone};
    ghost use mathlib.Core.List.{IsPrefix};
    ghost use Rattle.node_links.specs.Links.{letters_taken, known_letters, SameIn};

    /// Takes the next letter off the link, the first that this end knows of. None only where it knew of no letter there. It takes no memory.
    #[inline(always)]
    pub fn take(&mut self) -> Option<Letter>
        ensures link { SameIn self.old self.new }
        ensures some { IfSome result (λ letter. letters_taken self.new ≡ letters_taken self.old ++ letter ∷ []) }
        ensures next { IfSome result (λ letter. IsPrefix (known_letters self.old) (letter ∷ known_letters self.new)) }
        ensures known { length (known_letters self.old) ≤ length (known_letters self.new) + 1 }
        ensures none { IfNone result ((letters_taken self.new ≡ letters_taken self.old) × (length (known_letters self.old) ≡ 0)) }
    {
        match self.ring.pop() {
            Ok(letter) => Some(letter),
            Err(_) => None,
        }
    }
}
