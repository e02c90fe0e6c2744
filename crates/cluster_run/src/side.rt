// One side of the carriers: a letter goes out, or comes in.
ghost use Rattle.std.specs.Prelude.{◌≡◌, ◌<◌, length, IfOk};
ghost use Rattle.cluster_run.specs.Sides.{IsPlace, IsPlaceOf, Handed, Looked, LookTells};

use call_forward::Letter;
use call_table::NoMemory;
use node_links::{Carrier, Side};

/// The place of the carrier towards a node. None exactly where there is none.
pub fn place_of<C>(side: &Side<C>, node: u8) -> Option<usize>
    ensures { IsPlaceOf side.now node result }
{
    for at in 0..side.len() {
        if let Some(towards) = side.get(at)
            && towards.node == node
        {
            return Some(at);
        }
    }
    None
}

/// Puts a letter on the link at a place, or gives it back.
fn put_at<C: Carrier>(side: &mut Side<C>, at: usize, letter: Letter) -> Option<Letter>
    requires { IsPlace side.old letter.to at }
    ensures { Handed C.puts C.gives C.pair letter result side.old side.new }
{
    match side.get_mut(at) {
        Some(towards) => towards.carrier.put(letter),
        None => Some(letter),
    }
}

/// Puts a letter on its link, or gives it back where the link has no room that is known of.
pub fn hand<C: Carrier>(side: &mut Side<C>, letter: Letter) -> Option<Letter>
    ensures { Handed C.puts C.gives C.pair letter result side.old side.new }
{
    match place_of(side, letter.to) {
        Some(at) => put_at(side, at, letter),
        None => Some(letter),
    }
}

/// The next letter of the link at a place, which comes from a node.
#[inline(always)]
fn take_at<C: Carrier>(
    side: &mut Side<C>,
    at: usize,
    source: u8,
) -> Result<Option<Letter>, NoMemory>
    requires { IsPlace side.old source at }
    ensures looked { IfOk result (λ came. Looked C.puts C.gives C.pair source came side.old side.new) }
    ensures tells { IfOk result (λ came. LookTells C.known source came side.old side.new) }
{
    match side.get_mut(at) {
        Some(towards) => {
            towards.carrier.ready()?;
            Ok(towards.carrier.take())
        }
        None => Ok(None),
    }
}

/// The next letter of the link from a node, where one is there.
#[inline(always)]
pub fn look<C: Carrier>(side: &mut Side<C>, source: u8) -> Result<Option<Letter>, NoMemory>
    ensures looked { IfOk result (λ came. Looked C.puts C.gives C.pair source came side.old side.new) }
    ensures tells { IfOk result (λ came. LookTells C.known source came side.old side.new) }
{
    match place_of(side, source) {
        Some(at) => take_at(side, at, source),
        None => Ok(None),
    }
}
