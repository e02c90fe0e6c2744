// What a node holds of its links with another node.
ghost use Rattle.std.specs.Prelude.{◌≡◌, ◌+◌, ◌≤◌, ◌↔◌, List, [], ◌∷◌, ◌++◌, ℕ, Bool, true, false, min, IfSome, IfNone, IsSome, IsNone, IsTrue, OnOk, IfOk};
ghost use Rattle.call_forward.specs.declared.letter.Letter.{Letter};
ghost use Rattle.node_links.specs.Meetings.{Keeps, IsMet};

use call_forward::Letter;
use call_table::NoMemory;

/// What a node holds towards another one, or towards itself: the end to put of the link there, and the end to take of the link back.
/// Nothing is said of a carrier after a refusal for want of memory.
pub trait Carrier {
    /// The letters that were put on the link there, the first one first.
    ghost puts: { Self → List Letter };

    /// The letters that were given by the link back, the first one first.
    ghost gives: { Self → List Letter };

    /// Each of two carriers holds the other ends of the other's two links.
    ghost pair: { Self → Self → Type 0 };

    /// This end has no room for a letter that it knows of.
    ghost stuffed: { Self → Bool };

    /// How many of the letters on the link back this end knows of.
    ghost known: { Self → ℕ };

    /// How many letters were taken since the carrier was made, up to 2^64 - 1.
    ghost total: { Self → ℕ };

    /// Puts a letter on the link there, or gives it back where the carrier is stuffed. It takes no memory.
    fn put(&mut self, letter: Letter) -> Option<Letter>
        ensures pair { Keeps pair self.old self.new }
        ensures gives { gives self.new ≡ gives self.old }
        ensures total { total self.new ≡ total self.old }
        ensures known { known self.old ≤ known self.new }
        ensures goes { stuffed self.old ≡ false → IsNone result }
        ensures stuffed { IsSome result → stuffed self.new ≡ true }
        ensures done { IfNone result (puts self.new ≡ puts self.old ++ letter ∷ []) }
        ensures full { IfSome result (λ back. (back ≡ letter) × (puts self.new ≡ puts self.old)) };

    /// Takes the next letter off the link back. None only where the carrier knew of none there. It takes no memory.
    fn take(&mut self) -> Option<Letter>
        ensures pair { Keeps pair self.old self.new }
        ensures puts { puts self.new ≡ puts self.old }
        ensures known { known self.old ≤ known self.new + 1 }
        ensures some { IfSome result (λ letter. (gives self.new ≡ gives self.old ++ letter ∷ []) × (total self.new ≡ min (total self.old + 1) 18446744073709551615)) }
        ensures none { IfNone result ((gives self.new ≡ gives self.old) × (total self.new ≡ total self.old) × (known self.old ≡ 0)) };

    /// The number of letters that `take` has given since the carrier was made. It stays at 2^64 - 1.
    fn taken(&self) -> u64
        ensures { result ≡ total self.now };

    /// Takes in what has come, so that `take` may give it. It is called once before each `take`.
    fn ready(&mut self) -> Result<(), NoMemory>
        ensures pair { OnOk result (Keeps pair self.old self.new) }
        ensures lists { OnOk result ((puts self.new ≡ puts self.old) × (gives self.new ≡ gives self.old)) }
        ensures total { OnOk result (total self.new ≡ total self.old) }
        ensures known { OnOk result (known self.old ≤ known self.new) };

    /// With both carriers of two nodes at hand in one thread, looks at the ends of their links. No list changes. True exactly where nothing lies on the links.
    fn meet(&mut self, other: &mut Self) -> Result<bool, NoMemory>
        requires { pair self.old other.old }
        ensures here { OnOk result ((Keeps pair self.old self.new) × (puts self.new ≡ puts self.old) × (gives self.new ≡ gives self.old) × (total self.new ≡ total self.old)) }
        ensures there { OnOk result ((Keeps pair other.old other.new) × (puts other.new ≡ puts other.old) × (gives other.new ≡ gives other.old) × (total other.new ≡ total other.old)) }
        ensures out { OnOk result (IsMet (puts self.new) (stuffed self.new) (gives other.new) (known other.new)) }
        ensures back { OnOk result (IsMet (puts other.new) (stuffed other.new) (gives self.new) (known self.new)) }
        ensures empty { IfOk result (λ none. IsTrue none ↔ ((gives other.new ≡ puts self.new) × (gives self.new ≡ puts other.new))) };

    /// The same of a node's carrier towards itself, which holds both ends of one link.
    fn meet_own(&mut self) -> Result<bool, NoMemory>
        requires { pair self.old self.old }
        ensures same { OnOk result ((Keeps pair self.old self.new) × (puts self.new ≡ puts self.old) × (gives self.new ≡ gives self.old) × (total self.new ≡ total self.old)) }
        ensures own { OnOk result (IsMet (puts self.new) (stuffed self.new) (gives self.new) (known self.new)) }
        ensures empty { IfOk result (λ none. IsTrue none ↔ (gives self.new ≡ puts self.new)) };
}
