// All seats: their carriers meet.
ghost use Rattle.std.specs.Prelude.{◌≡◌, ◌<◌, ◌≤◌, ◌&&◌, length, IfOk, OnOk};
ghost use Rattle.cluster_run.specs.Standing.{AreLinked, Met, RowMet, AllMet, Counted, RowCounted};

use crate::meeting::{meet_self, meet_sides};
use crate::seat::Seat;
use call_table::NoMemory;
use node_links::Carrier;

/// The carriers of two nodes towards each other meet, that of the lower number first.
fn meet_two<N, C: Carrier>(seats: &mut [Seat<N, C>], a: u8, b: u8) -> Result<bool, NoMemory>
    requires order { a < b }
    requires within { b < length seats.old }
    requires linked { AreLinked C.pair seats.old }
    ensures met { IfOk result (λ none. Met C.puts C.gives C.pair none a b seats.old seats.new) }
    ensures counted { OnOk result (Counted C.puts C.gives C.known a b seats.old seats.new) }
{
    let (front, rear) = seats.split_at_mut(b as usize);
    let none = meet_sides(&mut front[a as usize].side, a, &mut rear[0].side, b)?;
    Ok(none)
}

/// The carrier of a node towards itself, if it has one, meets itself.
fn meet_one<N, C: Carrier>(seats: &mut [Seat<N, C>], a: u8) -> Result<bool, NoMemory>
    requires within { a < length seats.old }
    requires linked { AreLinked C.pair seats.old }
    ensures met { IfOk result (λ none. Met C.puts C.gives C.pair none a a seats.old seats.new) }
    ensures counted { OnOk result (Counted C.puts C.gives C.known a a seats.old seats.new) }
{
    let none = meet_self(&mut seats[a as usize].side, a)?;
    Ok(none)
}

/// The carriers of any two nodes, or of one towards itself, meet.
fn meet_any<N, C: Carrier>(seats: &mut [Seat<N, C>], a: u8, b: u8) -> Result<bool, NoMemory>
    requires a { a < length seats.old }
    requires b { b < length seats.old }
    requires linked { AreLinked C.pair seats.old }
    ensures met { IfOk result (λ none. Met C.puts C.gives C.pair none a b seats.old seats.new) }
    ensures counted { OnOk result (Counted C.puts C.gives C.known a b seats.old seats.new) }
{
    if a < b {
        let none = meet_two(seats, a, b)?;
        Ok(none)
    } else if b < a {
        let none = meet_two(seats, b, a)?;
        Ok(none)
    } else {
        let none = meet_one(seats, a)?;
        Ok(none)
    }
}

/// Whether both hold.
fn and(one: bool, other: bool) -> bool
    ensures { result ≡ (one && other) }
{
    one && other
}

/// The carriers of a node and of each other one meet. True exactly where nothing lies on their links.
pub fn meet_row<N, C: Carrier>(seats: &mut [Seat<N, C>], a: u8, nodes: u8) -> Result<bool, NoMemory>
    requires a { a < length seats.old }
    requires nodes { nodes ≤ length seats.old }
    requires linked { AreLinked C.pair seats.old }
    ensures met { IfOk result (λ none. RowMet C.puts C.gives C.pair none a nodes seats.old seats.new) }
    ensures counted { OnOk result (RowCounted C.puts C.gives C.known a nodes seats.new) }
{
    let mut none = true;
    for b in 0..nodes {
        let here = meet_any(seats, a, b)?;
        none = and(none, here);
    }
    Ok(none)
}

/// All carriers meet. True exactly where nothing lies on any link.
pub fn meet_all<N, C: Carrier>(seats: &mut [Seat<N, C>], nodes: u8) -> Result<bool, NoMemory>
    requires nodes { nodes ≤ length seats.old }
    requires linked { AreLinked C.pair seats.old }
    ensures { IfOk result (λ none. AllMet C.puts C.gives C.pair none nodes nodes seats.old seats.new) }
{
    let mut none = true;
    for a in 0..nodes {
        let here = meet_row(seats, a, nodes)?;
        none = and(none, here);
    }
    Ok(none)
}
