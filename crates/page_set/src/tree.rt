// The stored pages by number: a directory of leaves of 1,024 frames. A look-up is two array indexings.
ghost use Rattle.std.specs.Prelude.{ℕ, ◌≡◌, ◌<◌, ◌≤◌, ◌+◌, ◌*◌, ◌/◌, ◌^◌, Some, None, OnOk, OnErr, IfOk, IsSome, vec_len, length, is_some, MatchOption};
ghost use Rattle.std.specs.FinMap as map;
ghost use Rattle.std.specs.Option.{option_map, option_copied};
ghost use Rattle.page_set.specs.Pages.{WellFormed, NoneFrom, IsNext, zero_page, changed_page, page_with_rights, page_with_part};
ghost use Rattle.page_set.specs.Tree.{NoFrameFrom, NoPageIn, IsNextFrame, leaf_at, frame_in, frame_at, content_of, grants, has_right, edited, written, with_rights, IsEditedLeaf, IsEdited, IsSameLeaf, LeavesStay, pages_of, page_of};

use crate::frame::{Frame, Leaf};
use std::alloc::{AllocError, AllocFailed, Global};

const NO_FRAME: Option<Box<Frame>> = None;

/// Want of memory for a page.
#[derive(Clone, Copy, Debug, PartialEq, Eq)]
pub struct NoPage;

impl From<AllocError> for NoPage {
    fn from(_error: AllocError) -> NoPage {
        NoPage
    }
}

impl<T: Drop> From<AllocFailed<T>> for NoPage {
    fn from(_error: AllocFailed<T>) -> NoPage {
        NoPage
    }
}

// ---- looking up

#[inline(always)]
fn leaf(leaves: &Vec<Option<Box<Leaf>>>, number: u32) -> Option<&Leaf>
    ensures { leaf_at leaves.now.items number ≡ option_copied result }
{
    match leaves.get(number as usize) {
        None => None,
        Some(None) => None,
        Some(Some(leaf)) => Some(&**leaf),
    }
}

#[inline(always)]
pub fn frame_of(leaf: &Leaf, number: u32) -> Option<&Frame>
    requires { number < 1024 }
    ensures { frame_in (Some leaf.now) number ≡ option_copied result }
{
    match leaf.frames.get(number as usize) {
        None => None,
        Some(None) => None,
        Some(Some(frame)) => Some(&**frame),
    }
}

/// The frame of a page.
#[inline(always)]
pub fn frame(leaves: &Vec<Option<Box<Leaf>>>, page: u32) -> Option<&Frame>
    ensures { frame_at leaves.now.items page ≡ option_copied result }
{
    match leaf(leaves, page / 1024) {
        None => None,
        Some(leaf) => frame_of(leaf, page % 1024),
    }
}

/// Whether a page is mapped.
#[tactic(auto, using(crate::proofs::Edits::is_mapped_page, crate::proofs::Edits::is_mapped_above))]
pub fn is_mapped(leaves: &Vec<Option<Box<Leaf>>>, page: u32) -> bool
    ensures { result ≡ is_some (map.get (pages_of leaves.now.items) page) }
{
    page < 0x10_0000 && frame(leaves, page).is_some()
}

/// The rights of a page. None where it is not mapped.
#[tactic(auto, using(crate::proofs::Maps::get_pages_of, crate::proofs::Edits::absent_above))]
pub fn rights(leaves: &Vec<Option<Box<Leaf>>>, page: u32) -> Option<u8>
    ensures { result ≡ option_map (λ p. p.rights) (map.get (pages_of leaves.now.items) page) }
{
    if page >= 0x10_0000 {
        return None;
    }
    match frame(leaves, page) {
        None => None,
        Some(frame) => Some(frame.rights),
    }
}

/// The first frame of a leaf at a place or after it.
fn next_in_leaf(leaf: &Leaf, from: u32) -> Option<u32>
    requires { from < 1024 }
    ensures { MatchOption result (NoFrameFrom leaf.now from) (IsNextFrame leaf.now from) }
{
    let frames: &[Option<Box<Frame>>] = &leaf.frames;
    prove!(frames.len() == 1024);
    for i in from..1024 {
        if frame_of(leaf, i).is_some() {
            return Some(i);
        }
    }
    None
}

/// The first mapped page at a number or after it, in the leaf of that number.
#[tactic(auto, using(crate::proofs::Ranges::no_leaf, crate::proofs::Ranges::no_frame, crate::proofs::Ranges::next_frame))]
fn next_in_its_leaf(leaves: &Vec<Option<Box<Leaf>>>, at: u32) -> Option<u32>
    requires { at < 2 ^ 20 }
    ensures { MatchOption result (NoPageIn (pages_of leaves.now.items) at ((at / 1024 + 1) * 1024)) (IsNext (pages_of leaves.now.items) at) }
{
    match leaf(leaves, at / 1024) {
        None => None,
        Some(leaf) => match next_in_leaf(leaf, at % 1024) {
            None => None,
            Some(place) => Some(at / 1024 * 1024 + place),
        },
    }
}

/// The first mapped page at a number or after it.
#[tactic(auto, using(crate::proofs::Ranges::next_more, crate::proofs::Ranges::none_more, crate::proofs::Ranges::none_from))]
pub fn next_page(leaves: &Vec<Option<Box<Leaf>>>, from: u32) -> Option<u32>
    ensures { MatchOption result (NoneFrom (pages_of leaves.now.items) from) (IsNext (pages_of leaves.now.items) from) }
{
    let mut at = from;
    while at < 0x10_0000 {
        match next_in_its_leaf(leaves, at) {
            Some(page) => return Some(page),
            None => at = (at / 1024 + 1) * 1024,
        }
    }
    None
}

/// Whether a frame has a right, or all of a sum of rights.
#[inline(always)]
pub fn has(frame: &Frame, right: u8) -> bool
    ensures { result ≡ grants right frame.now }
{
    frame.rights & right == right
}

// ---- writing to one frame

#[inline(always)]
#[tactic(auto, using(crate::proofs::Parts::put_mid_is))]
pub fn write_frame(frame: &mut Frame, at: usize, bytes: &[u8])
    requires { at + length bytes.now ≤ 4096 }
    ensures { frame.new ≡ written at bytes.now frame.old }
{
    let page: &mut [u8] = &mut frame.bytes;
    prove!(page.len() == 4096);
    page[at..at + bytes.len()].copy_from_slice(bytes);
}

#[inline(always)]
#[tactic(auto, using(crate::proofs::Trees::leaf_set))]
fn write_leaf(leaf: &mut Leaf, number: u32, right: u8, at: usize, bytes: &[u8]) -> bool
    requires number { number < 1024 }
    requires at { at + length bytes.now ≤ 4096 }
    ensures is { result ≡ has_right right (frame_in (Some leaf.old) number) }
    ensures new { IsEditedLeaf leaf.old leaf.new number (edited right (written at bytes.now) (frame_in (Some leaf.old) number)) }
{
    match &mut leaf.frames[number as usize] {
        None => false,
        Some(frame) => {
            let frame = &mut **frame;
            if !has(frame, right) {
                return false;
            }
            write_frame(frame, at, bytes);
            true
        }
    }
}

/// Writes bytes to a page from an offset on, where it is there and has the right.
#[inline(always)]
#[tactic(auto, using(crate::proofs::Trees::tree_set, crate::proofs::Trees::leaves_stay, crate::proofs::Trees::same_leaves))]
pub fn write_page(
    leaves: &mut Vec<Option<Box<Leaf>>>,
    page: u32,
    right: u8,
    at: usize,
    bytes: &[u8],
) -> bool
    requires { at + length bytes.now ≤ 4096 }
    ensures is { result ≡ has_right right (frame_at leaves.old.items page) }
    ensures new { IsEdited leaves.old.items leaves.new.items page (edited right (written at bytes.now) (frame_at leaves.old.items page)) }
    ensures leaves { LeavesStay leaves.old.items leaves.new.items }
{
    let first = (page / 1024) as usize;
    if first >= leaves.len() {
        return false;
    }
    match &mut leaves[first] {
        None => false,
        Some(leaf) => write_leaf(&mut **leaf, page % 1024, right, at, bytes),
    }
}

// ---- mapping

/// Makes room for the leaf of a number.
fn grow(leaves: &mut Vec<Option<Box<Leaf>>>, first: usize) -> Result<(), NoPage>
    ensures same { (q : ℕ) → frame_at leaves.new.items q ≡ frame_at leaves.old.items q }
    ensures ok { OnOk result (first < vec_len leaves.new) }
{
    while leaves.len() <= first {
        leaves.push(None)?;
    }
    Ok(())
}

#[tactic(auto, using(crate::proofs::Trees::no_frames))]
pub fn empty_leaf(alloc: Global) -> Result<Box<Leaf>, NoPage>
    ensures { IfOk result (λ b. (j : ℕ) → frame_in (Some b.value) j ≡ None) }
{
    Ok(Box::new(
        alloc,
        Leaf {
            frames: [NO_FRAME; 1024],
        },
    )?)
}

/// Makes the leaf of a number, where there is none.
fn reserve(leaves: &mut Vec<Option<Box<Leaf>>>, first: usize) -> Result<(), NoPage>
    ensures same { (q : ℕ) → frame_at leaves.new.items q ≡ frame_at leaves.old.items q }
    ensures ok { OnOk result (IsSome (leaf_at leaves.new.items first)) }
{
    grow(leaves, first)?;
    if leaves[first].is_none() {
        let alloc = *leaves.allocator();
        let leaf = empty_leaf(alloc)?;
        leaves[first] = Some(leaf);
    }
    Ok(())
}

#[tactic(auto, using(crate::proofs::Trees::leaf_set))]
pub fn place_in_leaf(leaf: &mut Leaf, number: u32, place: Option<Box<Frame>>)
    requires { number < 1024 }
    ensures { IsEditedLeaf leaf.old leaf.new number (content_of (Some place)) }
{
    leaf.frames[number as usize] = place;
}

/// Puts a frame, or none, at a page whose leaf is there.
#[tactic(auto, using(crate::proofs::Trees::tree_set, crate::proofs::Trees::leaves_stay))]
pub fn place(leaves: &mut Vec<Option<Box<Leaf>>>, page: u32, place: Option<Box<Frame>>)
    requires { IsSome (leaf_at leaves.old.items (page / 1024)) }
    ensures new { IsEdited leaves.old.items leaves.new.items page (content_of (Some place)) }
    ensures leaves { LeavesStay leaves.old.items leaves.new.items }
{
    let first = (page / 1024) as usize;
    match &mut leaves[first] {
        None => unreachable!(),
        Some(leaf) => place_in_leaf(&mut **leaf, page % 1024, place),
    }
}

#[tactic(auto, using(crate::proofs::Trees::leaf_set))]
fn take_out_of_leaf(leaf: &mut Leaf, number: u32) -> Option<Box<Frame>>
    requires { number < 1024 }
    ensures is { content_of (Some result) ≡ frame_in (Some leaf.old) number }
    ensures new { IsEditedLeaf leaf.old leaf.new number None }
{
    leaf.frames[number as usize].take()
}

/// Takes the frame of a page, whose leaf is there, out of it.
#[tactic(auto, using(crate::proofs::Trees::tree_set, crate::proofs::Trees::leaves_stay))]
pub fn take(leaves: &mut Vec<Option<Box<Leaf>>>, page: u32) -> Option<Box<Frame>>
    requires { IsSome (leaf_at leaves.old.items (page / 1024)) }
    ensures is { content_of (Some result) ≡ frame_at leaves.old.items page }
    ensures new { IsEdited leaves.old.items leaves.new.items page None }
    ensures leaves { LeavesStay leaves.old.items leaves.new.items }
{
    let first = (page / 1024) as usize;
    match &mut leaves[first] {
        None => unreachable!(),
        Some(leaf) => take_out_of_leaf(&mut **leaf, page % 1024),
    }
}

fn zero_frame(alloc: Global, rights: u8) -> Result<Box<Frame>, NoPage>
    ensures { IfOk result (λ b. page_of b.value ≡ zero_page rights) }
{
    Ok(Box::new(
        alloc,
        Frame {
            bytes: [0; 4096],
            rights,
        },
    )?)
}

/// Maps zeros.
#[tactic(auto, using(crate::proofs::Edits::mapped, crate::proofs::Maps::same_pages))]
pub fn map_zero(leaves: &mut Vec<Option<Box<Leaf>>>, page: u32, rights: u8) -> Result<(), NoPage>
    requires { page < 2 ^ 20 }
    ensures ok { OnOk result (pages_of leaves.new.items ≡ map.insert (pages_of leaves.old.items) page (zero_page rights)) }
    ensures err { OnErr result (pages_of leaves.new.items ≡ pages_of leaves.old.items) }
{
    reserve(leaves, (page / 1024) as usize)?;
    let frame = zero_frame(*leaves.allocator(), rights)?;
    place(leaves, page, Some(frame));
    Ok(())
}

/// Unmaps a page. False where it was not mapped.
#[tactic(auto, using(crate::proofs::Edits::unmapped, crate::proofs::Edits::not_mapped, crate::proofs::Edits::not_mapped_above, crate::proofs::Edits::leaf_there, crate::proofs::Edits::is_mapped_page, crate::proofs::Edits::is_mapped_above))]
pub fn unmap(leaves: &mut Vec<Option<Box<Leaf>>>, page: u32) -> bool
    ensures is { result ≡ is_some (map.get (pages_of leaves.old.items) page) }
    ensures new { pages_of leaves.new.items ≡ map.remove (pages_of leaves.old.items) page }
{
    if page >= 0x10_0000 {
        return false;
    }
    if frame(leaves, page).is_none() {
        return false;
    }
    place(leaves, page, None);
    true
}

fn add_rights_to_frame(frame: &mut Frame, rights: u8)
    ensures { frame.new ≡ with_rights rights frame.old }
{
    frame.rights |= rights;
}

#[tactic(auto, using(crate::proofs::Trees::leaf_set))]
fn add_rights_in_leaf(leaf: &mut Leaf, number: u32, rights: u8)
    requires { number < 1024 }
    ensures { IsEditedLeaf leaf.old leaf.new number (option_map (with_rights rights) (frame_in (Some leaf.old) number)) }
{
    match &mut leaf.frames[number as usize] {
        None => {}
        Some(frame) => add_rights_to_frame(&mut **frame, rights),
    }
}

#[tactic(auto, using(crate::proofs::Trees::tree_set))]
fn add_rights_in_tree(leaves: &mut Vec<Option<Box<Leaf>>>, page: u32, rights: u8)
    ensures { IsEdited leaves.old.items leaves.new.items page (option_map (with_rights rights) (frame_at leaves.old.items page)) }
{
    let first = (page / 1024) as usize;
    if first < leaves.len() {
        match &mut leaves[first] {
            None => {}
            Some(leaf) => add_rights_in_leaf(&mut **leaf, page % 1024, rights),
        }
    }
}

/// Writes bytes to a mapped page from an offset on, whatever its rights.
#[tactic(auto, using(crate::proofs::Edits::filled))]
pub fn fill(leaves: &mut Vec<Option<Box<Leaf>>>, page: u32, at: usize, bytes: &[u8])
    requires page { page < 2 ^ 20 }
    requires fits { at + length bytes.now ≤ 4096 }
    requires well_formed { WellFormed (pages_of leaves.old.items) }
    ensures { pages_of leaves.new.items ≡ changed_page (pages_of leaves.old.items) page (page_with_part at bytes.now) (map.get (pages_of leaves.old.items) page) }
{
    write_page(leaves, page, 0, at, bytes);
}

/// Adds rights to a page, where it is mapped.
#[tactic(auto, using(crate::proofs::Edits::more_rights))]
pub fn add_rights(leaves: &mut Vec<Option<Box<Leaf>>>, page: u32, rights: u8)
    requires { page < 2 ^ 20 }
    ensures { pages_of leaves.new.items ≡ changed_page (pages_of leaves.old.items) page (page_with_rights rights) (map.get (pages_of leaves.old.items) page) }
{
    add_rights_in_tree(leaves, page, rights);
}
