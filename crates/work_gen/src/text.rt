// The texts of the programs.
ghost use Rattle.std.specs.Prelude.{◌≡◌, ◌++◌, length, replicate, IfOk, OnOk};
ghost use Rattle.work_gen.specs.Texts.{name_of, code_of, end_text, counting_text, parent_text, child_text, opening_text, filling_text, content_text, sending_text, handler_text, front_text, back_text, dot_text, image_text};

use crate::draw::{Draw, Kind};
use call_table::{Bytes, NoMemory};
use std::alloc::Global;

/// The name of an image, and of the file that it writes.
pub fn name_of(alloc: Global, index: usize) -> Result<Bytes, NoMemory>
    ensures { IfOk result (λ name. name ≡ name_of index) }
{
    let name = format!(in alloc; "g{index}")?;
    Ok(Bytes::from_vec(name.into_bytes()))
}

/// How each program ends: a byte to the terminal, and an exit by the code.
fn end_text(alloc: Global, code: u32) -> Result<Bytes, NoMemory>
    ensures { IfOk result (λ text. text ≡ end_text code) }
{
    let text = format!(in alloc; "li a0, 1\nla a1, d\nli a2, 1\nsys 9\nli a0, {code}\nsys 1\n")?;
    Ok(Bytes::from_vec(text.into_bytes()))
}

fn counting_text(alloc: Global, count: u64) -> Result<Bytes, NoMemory>
    ensures { IfOk result (λ text. text ≡ counting_text count) }
{
    let text = format!(in alloc; "li s0, {count}\nl: addi s0, s0, -1\nbne s0, x0, l\n")?;
    Ok(Bytes::from_vec(text.into_bytes()))
}

fn parent_text(alloc: Global) -> Result<Bytes, NoMemory>
    ensures { IfOk result (λ text. text ≡ parent_text) }
{
    Bytes::from_slice(
        alloc,
        b"la a0, p\nsys 11\nsys 4\nla a1, p\nbeq a0, x0, c\nlw a0, 0(a1)\nla a1, q\nli a2, 8\nsys 8\nli a0, 0\nsys 5\n",
    )
}

fn child_text(alloc: Global) -> Result<Bytes, NoMemory>
    ensures { IfOk result (λ text. text ≡ child_text) }
{
    Bytes::from_slice(
        alloc,
        b"c: lw a0, 4(a1)\nla a1, q\nli a2, 8\nsys 9\nli a0, 0\nsys 1\np: .space 8\nq: .space 8\n",
    )
}

fn opening_text(alloc: Global, name_length: usize) -> Result<Bytes, NoMemory>
    ensures { IfOk result (λ text. text ≡ opening_text name_length) }
{
    let text = format!(in alloc; "la a0, n\nli a1, {name_length}\nli a2, 6\nsys 6\n")?;
    Ok(Bytes::from_vec(text.into_bytes()))
}

fn filling_text(alloc: Global, count: u32) -> Result<Bytes, NoMemory>
    ensures { IfOk result (λ text. text ≡ filling_text count) }
{
    let text = format!(in alloc; "la a1, z\nli a2, {count}\nsys 9\n")?;
    Ok(Bytes::from_vec(text.into_bytes()))
}

/// It opens the file of this name, and writes so many bytes to it.
fn writing_text(alloc: Global, name: &Bytes, count: u32) -> Result<Bytes, NoMemory>
    ensures { IfOk result (λ text. text ≡ opening_text (length name.now) ++ filling_text count) }
{
    let mut text = opening_text(alloc, name.len())?;
    let filling = filling_text(alloc, count)?;
    text.push_slice(filling.as_slice())?;
    Ok(text)
}

/// So many times the letter z, behind what stands there.
fn push_letters(text: &mut Bytes, count: u32) -> Result<(), NoMemory>
    ensures { OnOk result (text.new ≡ text.old ++ replicate count 122) }
{
    for _i in 0..count {
        text.push(b'z')?;
    }
    Ok(())
}

fn content_text(alloc: Global, name: &Bytes, count: u32) -> Result<Bytes, NoMemory>
    ensures { IfOk result (λ text. text ≡ content_text name.now count) }
{
    let mut text = Bytes::from_slice(alloc, b"n: .ascii \"")?;
    text.push_slice(name.as_slice())?;
    text.push_slice(b"\"\nz: .ascii \"")?;
    push_letters(&mut text, count)?;
    text.push_slice(b"\"\n")?;
    Ok(text)
}

fn sending_text(alloc: Global) -> Result<Bytes, NoMemory>
    ensures { IfOk result (λ text. text ≡ sending_text) }
{
    Bytes::from_slice(
        alloc,
        b"li a0, 10\nla a1, h\nla a2, k\nsys 15\nsys 2\nli a1, 10\nsys 14\n",
    )
}

fn handler_text(alloc: Global) -> Result<Bytes, NoMemory>
    ensures { IfOk result (λ text. text ≡ handler_text) }
{
    Bytes::from_slice(alloc, b"h: ret\nk: sys 16\n")
}

/// What a program does before its end.
fn front_text(alloc: Global, index: usize, draw: Draw) -> Result<Bytes, NoMemory>
    ensures { IfOk result (λ text. text ≡ front_text draw.kind index draw.size) }
{
    match draw.kind {
        Kind::Counts => counting_text(alloc, 100 * draw.size as u64),
        Kind::Pipes => parent_text(alloc),
        Kind::Writes => {
            let name = name_of(alloc, index)?;
            writing_text(alloc, &name, draw.size)
        }
        Kind::Signals => sending_text(alloc),
    }
}

/// What stands behind the end of a program.
fn back_text(alloc: Global, index: usize, draw: Draw) -> Result<Bytes, NoMemory>
    ensures { IfOk result (λ text. text ≡ back_text draw.kind index draw.size) }
{
    match draw.kind {
        Kind::Counts => Ok(Bytes::new(alloc)),
        Kind::Pipes => child_text(alloc),
        Kind::Writes => {
            let name = name_of(alloc, index)?;
            content_text(alloc, &name, draw.size)
        }
        Kind::Signals => handler_text(alloc),
    }
}

/// The text of an image.
pub fn image_text(alloc: Global, index: usize, draw: Draw) -> Result<Bytes, NoMemory>
    ensures { IfOk result (λ text. text ≡ image_text index draw) }
{
    let mut text = front_text(alloc, index, draw)?;
    let end = end_text(alloc, draw.size % 251)?;
    text.push_slice(end.as_slice())?;
    let back = back_text(alloc, index, draw)?;
    text.push_slice(back.as_slice())?;
    text.push_slice(b"d: .ascii \".\"\n")?;
    Ok(text)
}
