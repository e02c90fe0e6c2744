// The carriers of two nodes towards each other meet, and those of all nodes.
ghost use Rattle.std.specs.Prelude.{◌≡◌, IfOk, OnOk};
ghost use Rattle.node_links.specs.Sides.{carrier_to};
ghost use Rattle.cluster_run.specs.Sides.{IsPlace};
ghost use Rattle.cluster_run.specs.Meeting.{Linked, MetSides, MetSelf, CountedSides, CountedSelf};

use crate::side::place_of;
use call_table::NoMemory;
use node_links::{Carrier, Side};

/// The carriers at two places meet. True exactly where nothing lies on their links.
fn meet_at<C: Carrier>(
    one: &mut Side<C>,
    here: usize,
    a: u8,
    two: &mut Side<C>,
    there: usize,
    b: u8,
) -> Result<bool, NoMemory>
    requires here { IsPlace one.old b here }
    requires there { IsPlace two.old a there }
    requires linked { Linked C.pair (carrier_to one.old b) (carrier_to two.old a) }
    ensures met { IfOk result (λ none. MetSides C.puts C.gives C.pair none a b one.old one.new two.old two.new) }
    ensures counted { OnOk result (CountedSides C.puts C.gives C.known a b one.old one.new two.old two.new) }
{
    let Some(mine) = one.get_mut(here) else {
        return Ok(false);
    };
    let Some(other) = two.get_mut(there) else {
        return Ok(false);
    };
    let none = mine.carrier.meet(&mut other.carrier)?;
    Ok(none)
}

/// The carriers of node a and node b towards each other meet. True exactly where nothing lies on their links.
pub fn meet_sides<C: Carrier>(
    one: &mut Side<C>,
    a: u8,
    two: &mut Side<C>,
    b: u8,
) -> Result<bool, NoMemory>
    requires { Linked C.pair (carrier_to one.old b) (carrier_to two.old a) }
    ensures met { IfOk result (λ none. MetSides C.puts C.gives C.pair none a b one.old one.new two.old two.new) }
    ensures counted { OnOk result (CountedSides C.puts C.gives C.known a b one.old one.new two.old two.new) }
{
    let Some(here) = place_of(one, b) else {
        return Ok(true);
    };
    let Some(there) = place_of(two, a) else {
        return Ok(true);
    };
    let none = meet_at(one, here, a, two, there, b)?;
    Ok(none)
}

/// The carrier at a place towards its own node meets itself.
fn meet_own_at<C: Carrier>(side: &mut Side<C>, at: usize, a: u8) -> Result<bool, NoMemory>
    requires at { IsPlace side.old a at }
    requires linked { Linked C.pair (carrier_to side.old a) (carrier_to side.old a) }
    ensures met { IfOk result (λ none. MetSelf C.puts C.gives C.pair none a side.old side.new) }
    ensures counted { OnOk result (CountedSelf C.puts C.gives C.known a side.old side.new) }
{
    let Some(mine) = side.get_mut(at) else {
        return Ok(false);
    };
    let none = mine.carrier.meet_own()?;
    Ok(none)
}

/// The carrier of node a towards itself, if it has one, meets itself. True exactly where nothing lies on its link.
pub fn meet_self<C: Carrier>(side: &mut Side<C>, a: u8) -> Result<bool, NoMemory>
    requires { Linked C.pair (carrier_to side.old a) (carrier_to side.old a) }
    ensures met { IfOk result (λ none. MetSelf C.puts C.gives C.pair none a side.old side.new) }
    ensures counted { OnOk result (CountedSelf C.puts C.gives C.known a side.old side.new) }
{
    let Some(at) = place_of(side, a) else {
        return Ok(true);
    };
    let none = meet_own_at(side, at, a)?;
    Ok(none)
}
