// The best choice on a sight.
ghost use Rattle.std.specs.Prelude.{◌≡◌, ◌≤◌, ◌+◌, [], IfSome, IfNone, MatchOption};
ghost use Rattle.mem_usher.specs.declared.sight.Sight.{Sight};
ghost use Rattle.mem_usher.specs.declared.sight.Choice.{Choice};
ghost use Rattle.mem_usher.specs.Choices.{IsLeaving, IsUshering, IsBalancing, IsBestChoice, Answers, reserve_of, shortage_of};

use crate::best::{has_room, largest, lightest, smallest, tightest};
use crate::sight::{Choice, Sight};

/// One part in so many of a node's pages is to stay free.
const PARTS: u32 = 16;

/// The smallest process that covers the shortage, or the largest where none does.
fn leaving(movable: &[(u32, u32)], shortage: u32) -> Option<(u32, u32)>
    ensures { MatchOption result (movable.now ≡ []) (IsLeaving shortage movable.now) }
{
    match smallest(movable, shortage) {
        Some(process) => Some(process),
        None => largest(movable),
    }
}

/// The choice at a shortage.
fn ushered(sight: &Sight, reserve: u32) -> Option<Choice>
    requires reserve { reserve ≡ reserve_of sight.now }
    requires short { sight.now.free ≤ reserve }
    ensures { Answers (IsUshering sight.now) result }
{
    let process = leaving(sight.movable.as_slice(), reserve - sight.free)?;
    let target = tightest(sight.known.as_slice(), process.1, reserve)?;
    Some(Choice {
        pid: process.0,
        to: target.node,
    })
}

/// The choice without a shortage.
fn balanced(sight: &Sight, reserve: u32) -> Option<Choice>
    requires { reserve ≡ reserve_of sight.now }
    ensures { Answers (IsBalancing sight.now) result }
{
    let process = smallest(sight.movable.as_slice(), 0)?;
    let target = lightest(sight.known.as_slice())?;
    if sight.load < 2 || sight.load - 2 < target.load {
        return None;
    }
    if !has_room(target.free, process.1, reserve) {
        return None;
    }
    Some(Choice {
        pid: process.0,
        to: target.node,
    })
}

/// The process that is to move from the node of the sight, and the node that it goes to. A node keeps a sixteenth of its pages free, rounded up:
/// where it lacks pages of that reserve, the smallest process that covers the shortage goes (where none does the largest), to the node with
/// least free that keeps its own pages free of it. Without a shortage the smallest process goes to the node of least load, where that has at
/// least two processes less and room beside the reserve. Equals go by the lower pid and the lower node. None exactly where there is no such
/// choice. It takes no memory.
pub fn usher_choice(sight: &Sight) -> Option<Choice>
    ensures some { IfSome result (IsBestChoice sight.now) }
    ensures none { IfNone result ((choice : Choice) → IsBestChoice sight.now choice → ⊥) }
{
    let reserve = sight.cap.div_ceil(PARTS);
    if sight.free < reserve {
        ushered(sight, reserve)
    } else {
        balanced(sight, reserve)
    }
}

/// There is at most one best choice on a sight.
pub fn one_best_choice()
    ensures { (sight : Sight) (a b : Choice) → IsBestChoice sight a → IsBestChoice sight b → a ≡ b }
{}
