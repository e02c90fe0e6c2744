// The images of the worked runs, as bytes.
use crate::in_memory::named;
use call_table::{Bytes, Named, Names, NoMemory};
use std::alloc::Global;

/// A program of 123 bytes that writes `hi` and a newline, and exits with 0.
pub const HELLO: [u8; 123] = [
    0x7F, 0x45, 0x4C, 0x46, 1, 1, 1, 0, 0, 0, 0, 0, 0, 0, 0, 0, 2, 0, 0xF3, 0, 1, 0, 0, 0, 0, 0, 1,
    0, 52, 0, 0, 0, 0, 0, 0, 0, 0, 0, 0, 0, 52, 0, 32, 0, 1, 0, 0, 0, 0, 0, 0, 0, 1, 0, 0, 0, 84,
    0, 0, 0, 0, 0, 1, 0, 0, 0, 1, 0, 0x27, 0, 0, 0, 0x27, 0, 0, 0, 7, 0, 0, 0, 4, 0, 0, 0, 0x13,
    0x05, 0x10, 0x00, 0xb7, 0x05, 0x01, 0x00, 0x93, 0x85, 0x45, 0x02, 0x13, 0x06, 0x30, 0x00, 0x93,
    0x08, 0x90, 0x00, 0x73, 0, 0, 0, 0x13, 0x05, 0, 0, 0x93, 0x08, 0x10, 0x00, 0x73, 0, 0, 0, 0x68,
    0x69, 0x0a,
];

/// lui a0, 0x80000; sw x0, -2(a0): a store across the end of the stack.
pub const EDGE: [u32; 2] = [0x8000_0537, 0xFE05_2F23];

/// A jump by this word to a place in a0, from where the program exits with 5.
pub fn jump(word: u32) -> [u32; 8] {
    [
        0x0001_0537,
        0x00C5_0513,
        word,
        0x0000_0537,
        0x0055_0513,
        0x0000_08B7,
        0x0018_8893,
        0x0000_0073,
    ]
}

/// The headers of hello, for a segment of this many bytes.
pub fn headers(size: u8) -> [u8; 84] {
    let mut headers = [0; 84];
    headers.copy_from_slice(&HELLO[..84]);
    headers[68] = size;
    headers[72] = size;
    headers
}

/// The file of some words of this many bytes.
pub fn program(alloc: Global, name: &[u8], size: u8, code: &[u32]) -> Result<Named, NoMemory> {
    let mut bytes = Bytes::from_slice(alloc, &headers(size))?;
    for word in code {
        bytes.push_slice(&word.to_le_bytes())?;
    }
    Ok(Named {
        name: Bytes::from_slice(alloc, name)?,
        bytes,
    })
}

/// A word that is no instruction stands at hello's first place.
fn no_instruction() -> [u8; 123] {
    let mut bytes = HELLO;
    bytes[84..88].copy_from_slice(&[0x33, 0x85, 0xC5, 0x02]);
    bytes
}

/// hello, whose segment has a byte less in memory than in the file.
fn short() -> [u8; 123] {
    let mut bytes = HELLO;
    bytes[72] = 38;
    bytes
}

/// hello with a second program header, of this type, before its code.
fn second_header(alloc: Global, name: &[u8], kind: u32) -> Result<Named, NoMemory> {
    let mut bytes = Bytes::from_slice(alloc, &HELLO[..44])?;
    bytes.push_slice(&[2, 0])?;
    bytes.push_slice(&HELLO[46..56])?;
    bytes.push(116)?;
    bytes.push_slice(&HELLO[57..84])?;
    bytes.push_slice(&kind.to_le_bytes())?;
    bytes.push_slice(&[0xFF; 28])?;
    bytes.push_slice(&HELLO[84..])?;
    Ok(Named {
        name: Bytes::from_slice(alloc, name)?,
        bytes,
    })
}

/// hello, and files that are nearly hello.
fn hellos(alloc: Global, images: &mut Names) -> Result<(), NoMemory> {
    images.push(named(alloc, b"hello", &HELLO)?)?;
    images.push(named(alloc, b"cut", &HELLO[..51])?)?;
    images.push(named(alloc, b"bad", &no_instruction())?)?;
    images.push(named(alloc, b"short", &short())?)?;
    images.push(second_header(alloc, b"note", 4)?)?;
    images.push(second_header(alloc, b"other", 0x7000_0003)?)?;
    Ok(())
}

/// All images.
pub fn images(alloc: Global) -> Result<Names, NoMemory> {
    let mut images = Names::new(alloc);
    hellos(alloc, &mut images)?;
    images.push(program(alloc, b"edge", 8, &EDGE)?)?;
    images.push(program(alloc, b"jump1", 32, &jump(0x0015_0067))?)?;
    images.push(program(alloc, b"jump2", 32, &jump(0x0025_0067))?)?;
    Ok(images)
}
