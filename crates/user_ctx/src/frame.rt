// The frame of a signal, and other bytes of a process.
ghost use Rattle.std.specs.Prelude.{◌≡◌, ◌≤◌, ◌∷◌, ◌++◌, [], drop, is_ok, IfOk, slice_index};
ghost use Rattle.std.specs.Result.{result_unwrap_or};
ghost use Rattle.page_set.specs.Pages.{flat_at, with_bytes, bytes_4};
ghost use Rattle.user_spec.specs.Request.{frame_at, has_frame_room, frame_word, frame_registers, with_words};

use call_table::{Bytes, FRAME_SIZE, NoMemory, RIGHT_READ, RIGHT_WRITE};
use page_set::Pages;
use std::alloc::Global;

/// Whether so many bytes have the right and lie below 2^32.
#[tactic(auto, using(crate::proofs::Frames::refused_is, crate::proofs::Frames::granted_is))]
pub fn covers(pages: &Pages, addr: u32, len: u32, right: u8) -> bool
    ensures { result ≡ is_ok (flat_at pages.now right addr len) }
{
    pages.covers(addr, len, right).is_ok()
}

/// The bytes from an address on, none where one cannot be read.
#[tactic(auto, using(crate::proofs::Frames::read_is, crate::proofs::Frames::unread_is))]
pub fn read_bytes(alloc: Global, pages: &Pages, addr: u32, len: u32) -> Result<Bytes, NoMemory>
    ensures { IfOk result (λ b. b ≡ result_unwrap_or (flat_at pages.now 4 addr len) []) }
{
    let mut bytes = vec![in alloc; 0u8; len as usize]?;
    match pages.copy_out(addr, &mut bytes) {
        Ok(()) => Ok(Bytes::from_vec(bytes)),
        Err(_) => Ok(Bytes::new(alloc)),
    }
}

/// Where a signal's frame is pushed: 132 bytes below the stack pointer, at a multiple of 16.
pub fn frame_at(sp: u32) -> u32
    ensures { result ≡ frame_at sp }
{
    sp.wrapping_sub(FRAME_SIZE) / 16 * 16
}

/// Whether there is room for a signal's frame below a stack pointer.
pub fn has_room(pages: &Pages, sp: u32) -> bool
    ensures { result ≡ has_frame_room pages.now sp }
{
    covers(pages, frame_at(sp), FRAME_SIZE, RIGHT_WRITE)
}

/// Word `i` of a frame, 0 where it cannot be read.
pub fn frame_word(pages: &Pages, at: u32, i: u32) -> u32
    requires { i ≤ 32 }
    ensures { result ≡ frame_word pages.now at i }
{
    match pages.load_4(at.wrapping_add(4 * i), RIGHT_READ) {
        Ok(word) => word,
        Err(_) => 0,
    }
}

/// The registers that a frame holds.
#[tactic(auto, using(crate::proofs::Frames::loaded_one, crate::proofs::Frames::loaded_none, crate::proofs::Frames::loaded_all))]
pub fn load_registers(x: &mut [u32; 32], pages: &Pages, at: u32)
    requires { x.old ≡ 0 ∷ drop 1 x.old }
    ensures { x.new ≡ 0 ∷ frame_registers pages.now at 1 31 }
{
    for i in 1..32u32 {
        x[i as usize] = frame_word(pages, at, i);
    }
}

/// Word `i` of the frame that is pushed.
#[tactic(auto, using(crate::proofs::Frames::first_word, crate::proofs::Frames::middle_word, crate::proofs::Frames::last_word))]
fn pushed_word(i: usize, pc: u32, x: &[u32; 32], mask: u32) -> u32
    requires { i ≤ 32 }
    ensures { result ≡ slice_index (pc ∷ (drop 1 x.now ++ mask ∷ [])) i }
{
    if i == 0 {
        pc
    } else if i < 32 {
        x[i]
    } else {
        mask
    }
}

fn write_word(pages: &mut Pages, addr: u32, word: u32)
    ensures { pages.new ≡ with_bytes pages.old addr (bytes_4 word) }
{
    pages.write(
        addr,
        &[
            (word % 0x100) as u8,
            (word / 0x100 % 0x100) as u8,
            (word / 0x1_0000 % 0x100) as u8,
            (word / 0x100_0000 % 0x100) as u8,
        ],
    );
}

/// Writes a frame: pc, x1 to x31 and the mask.
pub fn write_frame(pages: &mut Pages, at: u32, pc: u32, x: &[u32; 32], mask: u32)
    ensures { pages.new ≡ with_words pages.old at (pc ∷ (drop 1 x.now ++ mask ∷ [])) }
{
    let mut place = at;
    for i in 0..33 {
        write_word(pages, place, pushed_word(i, pc, x, mask));
        place = place.wrapping_add(4);
    }
}
