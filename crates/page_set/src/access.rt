// Loads, stores and copies of bytes.
ghost use Rattle.std.specs.Prelude.{◌≡◌, ◌<◌, ◌≤◌, ◌+◌, ◌/◌, ◌^◌, Some, None, Ok, Err, OnErr, MatchResult, is_some, length, take, drop};
ghost use Rattle.std.specs.FinMap as map;
ghost use Rattle.page_set.specs.Pages.{little, plain_byte, refusal, flat_at, with_byte, with_bytes, loaded, stored, byte_at, bytes_at, bytes_1, bytes_2, bytes_4, copied_out, copied_in, changed_page, page_with_part};
ghost use Rattle.page_set.specs.Tree.{part, has_right, frame_at, pages_of};

use crate::frame::{Frame, Leaf};
use crate::tree::{frame, has, write_page};
use byteorder::{ByteOrder, LittleEndian};

const PAGE_SIZE: u32 = 4096;

/// The first address that lacks its right, modulo 2^32.
#[derive(Clone, Copy, Debug, PartialEq, Eq)]
pub struct Refused {
    pub addr: u32,
}

// ---- one byte

/// The byte at an address, where its page has the right.
#[inline(always)]
#[tactic(auto, using(crate::proofs::Accesses::byte_at_tree))]
fn byte_with(leaves: &Vec<Option<Box<Leaf>>>, addr: u32, right: u8) -> Option<u8>
    ensures { byte_at (pages_of leaves.now.items) right addr ≡ result }
{
    match frame(leaves, addr / 4096) {
        None => None,
        Some(frame) => {
            if has(frame, right) {
                Some(frame.bytes[(addr % 4096) as usize])
            } else {
                None
            }
        }
    }
}

/// The byte at an address, whatever the rights.
#[inline(always)]
#[tactic(auto, using(crate::proofs::Maps::get_pages_of))]
pub fn byte(leaves: &Vec<Option<Box<Leaf>>>, addr: u32) -> Option<u8>
    ensures { result ≡ plain_byte (pages_of leaves.now.items) addr }
{
    match frame(leaves, addr / 4096) {
        None => None,
        Some(frame) => Some(frame.bytes[(addr % 4096) as usize]),
    }
}

/// Writes one byte where its page is mapped, whatever the rights.
#[inline(always)]
#[tactic(auto, using(crate::proofs::Writes::wrote_byte, crate::proofs::Accesses::is_mapped))]
pub fn set_byte(leaves: &mut Vec<Option<Box<Leaf>>>, addr: u32, value: u8) -> bool
    ensures is { result ≡ is_some (map.get (pages_of leaves.old.items) (addr / 4096)) }
    ensures new { pages_of leaves.new.items ≡ with_byte (pages_of leaves.old.items) addr value }
{
    write_page(leaves, addr / 4096, 0, (addr % 4096) as usize, &[value])
}

// ---- runs of bytes

/// Writes bytes from an address on, modulo 2^32, where their pages are mapped, whatever the rights.
pub fn write(leaves: &mut Vec<Option<Box<Leaf>>>, addr: u32, bytes: &[u8])
    ensures { pages_of leaves.new.items ≡ with_bytes (pages_of leaves.old.items) addr bytes.now }
{
    let mut at = addr;
    let mut done = 0;
    while done < bytes.len() {
        let room = (4096 - at % 4096) as usize;
        let count = room.min(bytes.len() - done);
        write_page(
            leaves,
            at / 4096,
            0,
            (at % 4096) as usize,
            &bytes[done..done + count],
        );
        at = at.wrapping_add(count as u32);
        done += count;
    }
}

/// Whether the page of an address below 2^32 has a right.
#[inline(always)]
#[tactic(auto, using(crate::proofs::Accesses::byte_at_tree))]
fn page_has(leaves: &Vec<Option<Box<Leaf>>>, page: u32, right: u8) -> bool
    ensures { result ≡ has_right right (frame_at leaves.now.items page) }
{
    match frame(leaves, page) {
        None => false,
        Some(frame) => has(frame, right),
    }
}

/// Whether so many bytes lie below 2^32 and have the right.
#[tactic(auto, using(crate::proofs::Covers::page_covered, crate::proofs::Covers::refused_here, crate::proofs::Covers::refused_above))]
pub fn covers(
    leaves: &Vec<Option<Box<Leaf>>>,
    addr: u32,
    len: usize,
    right: u8,
) -> Result<(), Refused>
    ensures { MatchResult result (λ _. refusal (flat_at (pages_of leaves.now.items) right addr len) ≡ None) (λ e. refusal (flat_at (pages_of leaves.now.items) right addr len) ≡ Some e.addr) }
{
    let mut at = addr as u64;
    let mut left = len;
    while left > 0 {
        if at >= 0x1_0000_0000 {
            return Err(Refused {
                addr: (at % 0x1_0000_0000) as u32,
            });
        }
        if !page_has(leaves, (at / 4096) as u32, right) {
            return Err(Refused { addr: at as u32 });
        }
        let room = (4096 - at % 4096) as usize;
        let count = room.min(left);
        at += count as u64;
        left -= count;
    }
    Ok(())
}

/// Reads bytes of one page that is there.
#[inline(always)]
#[tactic(auto, using(crate::proofs::Parts::part_is))]
fn read_frame(frame: &Frame, at: usize, into: &mut [u8])
    requires { at + length into.old ≤ 4096 }
    ensures { into.new ≡ part (length into.old) frame.now.bytes at }
{
    let page: &[u8] = &frame.bytes;
    prove!(page.len() == 4096);
    into.copy_from_slice(&page[at..at + into.len()]);
}

/// Reads bytes from an address on that lie below 2^32 and have the right.
fn read(leaves: &Vec<Option<Box<Leaf>>>, addr: u32, right: u8, into: &mut [u8])
    requires { refusal (flat_at (pages_of leaves.now.items) right addr (length into.old)) ≡ None }
    ensures { flat_at (pages_of leaves.now.items) right addr (length into.old) ≡ Ok into.new }
{
    let len = into.len();
    let mut at = addr as u64;
    let mut done = 0;
    while done < len {
        let room = (4096 - at % 4096) as usize;
        let count = room.min(len - done);
        match frame(leaves, (at / 4096) as u32) {
            None => unreachable!(),
            Some(frame) => read_frame(frame, (at % 4096) as usize, &mut into[done..done + count]),
        }
        at += count as u64;
        done += count;
    }
}

/// Copies bytes out from an address on, where all lie below 2^32 and can be read.
pub fn copy_out(leaves: &Vec<Option<Box<Leaf>>>, addr: u32, into: &mut [u8]) -> Result<(), Refused>
    ensures is { MatchResult result (λ _. copied_out (pages_of leaves.now.items) addr (length into.old) ≡ Ok into.new) (λ e. copied_out (pages_of leaves.now.items) addr (length into.old) ≡ Err e.addr) }
    ensures err { OnErr result (into.new ≡ into.old) }
{
    match covers(leaves, addr, into.len(), 4) {
        Err(refused) => Err(refused),
        Ok(()) => {
            read(leaves, addr, 4, into);
            Ok(())
        }
    }
}

/// Copies bytes in from an address on, where all lie below 2^32 and can be written.
pub fn copy_in(leaves: &mut Vec<Option<Box<Leaf>>>, addr: u32, bytes: &[u8]) -> Result<(), Refused>
    ensures is { MatchResult result (λ _. copied_in (pages_of leaves.old.items) addr bytes.now ≡ Ok (pages_of leaves.new.items)) (λ e. copied_in (pages_of leaves.old.items) addr bytes.now ≡ Err e.addr) }
    ensures err { OnErr result (pages_of leaves.new.items ≡ pages_of leaves.old.items) }
{
    match covers(leaves, addr, bytes.len(), 2) {
        Err(refused) => Err(refused),
        Ok(()) => {
            write(leaves, addr, bytes);
            Ok(())
        }
    }
}

// ---- loads and stores

#[inline(always)]
pub fn number_1(frame: &Frame, at: usize) -> u8
    requires { at + 1 ≤ 4096 }
    ensures { result ≡ little (part 1 frame.now.bytes at) }
{
    frame.bytes[at]
}

#[inline(always)]
#[tactic(auto, using(crate::proofs::Parts::number_of_part))]
pub fn number_2(frame: &Frame, at: usize) -> u16
    requires { at + 2 ≤ 4096 }
    ensures { result ≡ little (part 2 frame.now.bytes at) }
{
    LittleEndian::read_u16(&frame.bytes[at..])
}

#[inline(always)]
#[tactic(auto, using(crate::proofs::Parts::number_of_part))]
pub fn number_4(frame: &Frame, at: usize) -> u32
    requires { at + 4 ≤ 4096 }
    ensures { result ≡ little (part 4 frame.now.bytes at) }
{
    LittleEndian::read_u32(&frame.bytes[at..])
}

/// The bytes from an address on, modulo 2^32, each with the right.
fn read_wrapping(
    leaves: &Vec<Option<Box<Leaf>>>,
    addr: u32,
    right: u8,
    into: &mut [u8],
) -> Result<(), Refused>
    ensures { MatchResult result (λ _. bytes_at (pages_of leaves.now.items) right addr (length into.old) ≡ Ok into.new) (λ e. bytes_at (pages_of leaves.now.items) right addr (length into.old) ≡ Err e.addr) }
{
    let mut at = addr;
    for i in 0..into.len() {
        match byte_with(leaves, at, right) {
            Some(byte) => into[i] = byte,
            None => return Err(Refused { addr: at }),
        }
        at = at.wrapping_add(1);
    }
    Ok(())
}

/// A number of width 1.
#[inline(always)]
pub fn load_1(leaves: &Vec<Option<Box<Leaf>>>, addr: u32, right: u8) -> Result<u8, Refused>
    ensures { MatchResult result (λ w. loaded (pages_of leaves.now.items) addr 1 right ≡ Ok w) (λ e. loaded (pages_of leaves.now.items) addr 1 right ≡ Err e.addr) }
{
    let at = (addr % 4096) as usize;
    match frame(leaves, addr / 4096) {
        None => Err(Refused { addr }),
        Some(frame) => {
            if has(frame, right) {
                Ok(number_1(frame, at))
            } else {
                Err(Refused { addr })
            }
        }
    }
}

/// A number of width 2 whose bytes may lie in two pages.
#[inline(never)]
#[cold]
fn load_2_across(leaves: &Vec<Option<Box<Leaf>>>, addr: u32, right: u8) -> Result<u16, Refused>
    ensures { MatchResult result (λ w. loaded (pages_of leaves.now.items) addr 2 right ≡ Ok w) (λ e. loaded (pages_of leaves.now.items) addr 2 right ≡ Err e.addr) }
{
    let mut bytes = [0u8; 2];
    match read_wrapping(leaves, addr, right, &mut bytes) {
        Ok(()) => Ok(u16::from_le_bytes(bytes)),
        Err(refused) => Err(refused),
    }
}

/// A number of width 2.
#[inline(always)]
pub fn load_2(leaves: &Vec<Option<Box<Leaf>>>, addr: u32, right: u8) -> Result<u16, Refused>
    ensures { MatchResult result (λ w. loaded (pages_of leaves.now.items) addr 2 right ≡ Ok w) (λ e. loaded (pages_of leaves.now.items) addr 2 right ≡ Err e.addr) }
{
    let at = (addr % 4096) as usize;
    if at > 4096 - 2 {
        return load_2_across(leaves, addr, right);
    }
    match frame(leaves, addr / 4096) {
        None => Err(Refused { addr }),
        Some(frame) => {
            if has(frame, right) {
                Ok(number_2(frame, at))
            } else {
                Err(Refused { addr })
            }
        }
    }
}

/// A number of width 4 whose bytes may lie in two pages.
#[inline(never)]
#[cold]
fn load_4_across(leaves: &Vec<Option<Box<Leaf>>>, addr: u32, right: u8) -> Result<u32, Refused>
    ensures { MatchResult result (λ w. loaded (pages_of leaves.now.items) addr 4 right ≡ Ok w) (λ e. loaded (pages_of leaves.now.items) addr 4 right ≡ Err e.addr) }
{
    let mut bytes = [0u8; 4];
    match read_wrapping(leaves, addr, right, &mut bytes) {
        Ok(()) => Ok(u32::from_le_bytes(bytes)),
        Err(refused) => Err(refused),
    }
}

/// A number of width 4.
#[inline(always)]
pub fn load_4(leaves: &Vec<Option<Box<Leaf>>>, addr: u32, right: u8) -> Result<u32, Refused>
    ensures { MatchResult result (λ w. loaded (pages_of leaves.now.items) addr 4 right ≡ Ok w) (λ e. loaded (pages_of leaves.now.items) addr 4 right ≡ Err e.addr) }
{
    let at = (addr % 4096) as usize;
    if at > 4096 - 4 {
        return load_4_across(leaves, addr, right);
    }
    match frame(leaves, addr / 4096) {
        None => Err(Refused { addr }),
        Some(frame) => {
            if has(frame, right) {
                Ok(number_4(frame, at))
            } else {
                Err(Refused { addr })
            }
        }
    }
}

/// Stores bytes from an address on, modulo 2^32, that may lie in two pages.
#[inline(never)]
#[cold]
fn store_across(leaves: &mut Vec<Option<Box<Leaf>>>, addr: u32, bytes: &[u8]) -> Result<(), Refused>
    requires { length bytes.now ≤ 4 }
    ensures is { MatchResult result (λ _. stored (pages_of leaves.old.items) addr bytes.now ≡ Ok (pages_of leaves.new.items)) (λ e. stored (pages_of leaves.old.items) addr bytes.now ≡ Err e.addr) }
    ensures err { OnErr result (pages_of leaves.new.items ≡ pages_of leaves.old.items) }
{
    let mut old = [0u8; 4];
    match read_wrapping(leaves, addr, 2, &mut old[..bytes.len()]) {
        Err(refused) => Err(refused),
        Ok(()) => {
            write(leaves, addr, bytes);
            Ok(())
        }
    }
}

/// Stores one to four bytes from an address on, modulo 2^32.
#[inline(always)]
#[tactic(auto, using(crate::proofs::Writes::stores, crate::proofs::Writes::stores_none, crate::proofs::Writes::keeps))]
fn store(leaves: &mut Vec<Option<Box<Leaf>>>, addr: u32, bytes: &[u8]) -> Result<(), Refused>
    requires some { 0 < length bytes.now }
    requires few { length bytes.now ≤ 4 }
    ensures is { MatchResult result (λ _. stored (pages_of leaves.old.items) addr bytes.now ≡ Ok (pages_of leaves.new.items)) (λ e. stored (pages_of leaves.old.items) addr bytes.now ≡ Err e.addr) }
    ensures err { OnErr result (pages_of leaves.new.items ≡ pages_of leaves.old.items) }
{
    let at = (addr % 4096) as usize;
    if at + bytes.len() > 4096 {
        return store_across(leaves, addr, bytes);
    }
    if write_page(leaves, addr / 4096, 2, at, bytes) {
        Ok(())
    } else {
        Err(Refused { addr })
    }
}

/// Stores the low byte of a number.
#[inline(always)]
pub fn store_1(leaves: &mut Vec<Option<Box<Leaf>>>, addr: u32, value: u32) -> Result<(), Refused>
    ensures is { MatchResult result (λ _. stored (pages_of leaves.old.items) addr (bytes_1 value) ≡ Ok (pages_of leaves.new.items)) (λ e. stored (pages_of leaves.old.items) addr (bytes_1 value) ≡ Err e.addr) }
    ensures err { OnErr result (pages_of leaves.new.items ≡ pages_of leaves.old.items) }
{
    store(leaves, addr, &[(value % 0x100) as u8])
}

/// Stores the low two bytes of a number.
#[inline(always)]
pub fn store_2(leaves: &mut Vec<Option<Box<Leaf>>>, addr: u32, value: u32) -> Result<(), Refused>
    ensures is { MatchResult result (λ _. stored (pages_of leaves.old.items) addr (bytes_2 value) ≡ Ok (pages_of leaves.new.items)) (λ e. stored (pages_of leaves.old.items) addr (bytes_2 value) ≡ Err e.addr) }
    ensures err { OnErr result (pages_of leaves.new.items ≡ pages_of leaves.old.items) }
{
    store(
        leaves,
        addr,
        &[(value % 0x100) as u8, (value / 0x100 % 0x100) as u8],
    )
}

/// Stores the four bytes of a number.
#[inline(always)]
pub fn store_4(leaves: &mut Vec<Option<Box<Leaf>>>, addr: u32, value: u32) -> Result<(), Refused>
    ensures is { MatchResult result (λ _. stored (pages_of leaves.old.items) addr (bytes_4 value) ≡ Ok (pages_of leaves.new.items)) (λ e. stored (pages_of leaves.old.items) addr (bytes_4 value) ≡ Err e.addr) }
    ensures err { OnErr result (pages_of leaves.new.items ≡ pages_of leaves.old.items) }
{
    store(leaves, addr, &value.to_le_bytes())
}
