// Where statements stand, and what labels name: the first pass.
ghost use Rattle.std.specs.Prelude.{◌≡◌, ◌+◌, ◌<◌, ◌^◌, ◌-◌, IfOk, OnOk, List, ℕ, length};
ghost use Rattle.rv_asm.specs.Layout.{padding, statement_size, faulty_size, size_of, far_as, is_bss_word, is_bss, start, after_line, defined_from};
ghost use Rattle.rv_asm.specs.Labels.{found_in, found_or, found_or_here};

use crate::keyword::Keyword;
use crate::line::{Body, Line};
use crate::statement::Statement;
use call_table::NoMemory;
use std::alloc::Global;
use std::collections::HashMap;

/// Where a statement stands: its address, and whether a `.bss` stands before it.
#[derive(Clone, Copy)]
pub struct Place {
    pub address: u32,
    pub closed: bool,
}

/// Where a label is defined: its line, counted from 1, and the address that it names.
#[derive(Clone, Copy)]
pub struct Definition {
    pub line: u32,
    pub address: u32,
}

/// What the labels of a text name.
pub type Labels<'a> = HashMap<&'a [u8], Definition>;

/// Where the first statement stands.
pub const START: Place = Place {
    address: 0x1_0000,
    closed: false,
};

/// How many zeros stand up to a multiple of 4.
pub fn padding(address: u32) -> u32
    ensures { result ≡ padding address }
{
    (4 - address % 4) % 4
}

fn statement_size(address: u32, statement: &Statement) -> usize
    ensures { result ≡ statement_size address statement.now }
{
    match statement {
        Statement::Instruction(_) => 4,
        Statement::Branch(_, _, _, _) => 4,
        Statement::Jump(_, _) => 4,
        Statement::Address(_, _) => 8,
        Statement::Number(_, _) => 8,
        Statement::Call(_) => 12,
        Statement::Word(_) => 4,
        Statement::Byte(_) => 1,
        Statement::Text(bytes) => bytes.len(),
        Statement::Space(n) => *n as usize,
        Statement::Align => padding(address) as usize,
        Statement::Bss(_) => 0,
    }
}

fn faulty_size(keyword: Keyword) -> usize
    ensures { result ≡ faulty_size keyword }
{
    match keyword {
        Keyword::Register(_) => 4,
        Keyword::Immediate(_) => 4,
        Keyword::Shift(_) => 4,
        Keyword::Load(_) => 4,
        Keyword::Store(_) => 4,
        Keyword::Branch(_) => 4,
        Keyword::Upper(_) => 4,
        Keyword::Plain(_) => 4,
        Keyword::Jal => 4,
        Keyword::Jalr => 4,
        Keyword::J => 4,
        Keyword::Li => 8,
        Keyword::La => 8,
        Keyword::Mv => 4,
        Keyword::Sys => 12,
        Keyword::Word => 4,
        Keyword::Byte => 1,
        Keyword::Space => 0,
        Keyword::Ascii => 0,
        Keyword::Align => 0,
        Keyword::Bss => 0,
    }
}

/// How many bytes a line takes at this address.
pub fn size_of(address: u32, body: &Body) -> usize
    ensures { result ≡ size_of address body.now }
{
    match body {
        Body::Empty => 0,
        Body::Unknown => 0,
        Body::Known(keyword, statement, _) => match statement {
            Ok(statement) => statement_size(address, statement),
            Err(_) => faulty_size(*keyword),
        },
    }
}

/// The address so many bytes on.
pub fn far_as(address: u32, size: usize) -> u32
    ensures { result ≡ far_as (address + size) }
{
    match u32::try_from(size) {
        Ok(size) => address.saturating_add(size),
        Err(_) => u32::MAX,
    }
}

fn is_bss(body: &Body) -> bool
    ensures { result ≡ is_bss body.now }
{
    match body {
        Body::Empty => false,
        Body::Unknown => false,
        Body::Known(keyword, _, _) => is_bss_word(*keyword),
    }
}

fn is_bss_word(keyword: Keyword) -> bool
    ensures { result ≡ is_bss_word keyword }
{
    match keyword {
        Keyword::Bss => true,
        _ => false,
    }
}

/// The place behind a line.
pub fn after_line(place: Place, body: &Body) -> Place
    ensures { result ≡ after_line place body.now }
{
    Place {
        address: far_as(place.address, size_of(place.address, body)),
        closed: place.closed || is_bss(body),
    }
}

/// What a label names.
pub fn find(labels: &Labels, label: &[u8]) -> Option<Definition>
    ensures { result ≡ found_in labels.now label.now }
{
    labels.get(label).copied()
}

// Adds a label behind those that are there.
fn define_one<'a>(
    labels: &mut Labels<'a>,
    label: &'a [u8],
    definition: Definition,
) -> Result<(), NoMemory>
    ensures { OnOk result ((name : List ℕ) → found_in labels.new name ≡ found_or (found_in labels.old name) label.now definition name) }
{
    if labels.contains_key(label) {
        return Ok(());
    }
    labels.insert(label, definition)?;
    Ok(())
}

// Adds the label of a line, if it has one.
fn define_line<'a>(
    labels: &mut Labels<'a>,
    line: &'a Line,
    definition: Definition,
) -> Result<(), NoMemory>
    ensures { OnOk result ((name : List ℕ) → found_in labels.new name ≡ found_or_here (found_in labels.old name) line.now.label definition name) }
{
    match &line.label {
        Some(label) => define_one(labels, label.as_slice(), definition),
        None => Ok(()),
    }
}

/// What the labels of these lines name: of each the first line that has it.
#[tactic(auto, using(crate::proofs::LabelLemmas::defined_next))]
pub fn define<'a>(alloc: Global, lines: &'a [Line]) -> Result<Labels<'a>, NoMemory>
    requires { length lines.now < 2 ^ 32 - 1 }
    ensures { IfOk result (λ labels. (name : List ℕ) → found_in labels name ≡ defined_from 1 start lines.now name) }
{
    let mut labels = HashMap::new(alloc);
    let mut place = START;
    let mut number = 1u32;
    for line in lines {
        let definition = Definition {
            line: number,
            address: place.address,
        };
        define_line(&mut labels, line, definition)?;
        place = after_line(place, &line.body);
        number += 1;
    }
    Ok(labels)
}
