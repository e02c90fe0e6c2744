// Copies of the stored pages.
ghost use Rattle.std.specs.Prelude.{◌≡◌, IfOk};
ghost use Rattle.page_set.specs.Tree.{IsSameLeaf, pages_of};

use crate::frame::{Frame, Leaf};
use crate::tree::{NoPage, empty_leaf, frame_of, place_in_leaf};
use std::alloc::Global;

/// A leaf of equal frames.
#[tactic(auto, using(crate::proofs::Copies::leaf_more, crate::proofs::Copies::leaf_skip, crate::proofs::Copies::leaf_end, crate::proofs::Copies::leaf_start))]
fn copy_leaf(alloc: Global, leaf: &Leaf) -> Result<Box<Leaf>, NoPage>
    ensures { IfOk result (λ b. IsSameLeaf leaf.now b.value) }
{
    let mut new = empty_leaf(alloc)?;
    let frames: &[Option<Box<Frame>>] = &leaf.frames;
    prove!(frames.len() == 1024);
    for i in 0..1024u32 {
        match frame_of(leaf, i) {
            None => {}
            Some(frame) => {
                let copy = Box::new(alloc, *frame)?;
                place_in_leaf(&mut *new, i, Some(copy));
            }
        }
    }
    Ok(new)
}

/// A tree of equal frames.
#[tactic(auto, using(crate::proofs::Copies::tree_more, crate::proofs::Copies::tree_none, crate::proofs::Copies::tree_end))]
pub fn copy(leaves: &Vec<Option<Box<Leaf>>>) -> Result<Vec<Option<Box<Leaf>>>, NoPage>
    ensures { IfOk result (λ v. pages_of v.items ≡ pages_of leaves.now.items) }
{
    let alloc = *leaves.allocator();
    let mut new = Vec::new(alloc);
    for i in 0..leaves.len() {
        match &leaves[i] {
            None => new.push(None)?,
            Some(leaf) => {
                let copy = copy_leaf(alloc, &**leaf)?;
                new.push(Some(copy))?;
            }
        }
    }
    Ok(new)
}
