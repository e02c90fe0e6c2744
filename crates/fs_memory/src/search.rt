// Looking through the files.
ghost use Rattle.std.specs.Prelude.{◌≡◌, ◌<◌, ◌≤◌, IfOk, OnOk, length, position, count_by, None};
ghost use Rattle.std.specs.List.{prefix_len};
ghost use Rattle.id_table.specs.Places.{at_id};
ghost use Rattle.fs_memory.specs.Files.{is_called, id_called, has_name, named_count, comes_before, with_named, with_file};

use crate::file::{File, has_the_name};
use call_table::limit::FILE_BYTES;
use call_table::{Named, NoMemory};
use id_table::IdTable;
use std::alloc::Global;

fn is_called_at(files: &IdTable<File>, id: u32, name: &[u8]) -> bool
    ensures { result ≡ is_called name.now (at_id files.now id) }
{
    match files.get(id) {
        Some(file) => has_the_name(file, name),
        None => false,
    }
}

/// The number of the file of a name.
#[tactic(auto, using(crate::proofs::SearchLemmas::called_here))]
pub fn find(files: &IdTable<File>, name: &[u8]) -> Option<u32>
    ensures { result ≡ id_called name.now files.now }
{
    for id in 0..files.places() {
        if is_called_at(files, id as u32, name) {
            return Some(id as u32);
        }
    }
    None
}

fn has_name_at(files: &IdTable<File>, id: u32) -> bool
    ensures { result ≡ has_name (at_id files.now id) }
{
    match files.get(id) {
        Some(file) => file.name.is_some(),
        None => false,
    }
}

/// How many files have a name.
pub fn count_named(files: &IdTable<File>) -> usize
    ensures { result ≡ named_count files.now }
{
    let mut count = 0;
    for id in 0..files.places() {
        if has_name_at(files, id as u32) {
            count += 1;
        }
    }
    count
}

fn comes_before_name(other: &Named, name: &[u8]) -> bool
    ensures { result ≡ comes_before name.now other.now }
{
    other.name.as_slice().cmp(&name).is_lt()
}

fn place_in(list: &[Named], name: &[u8]) -> usize
    ensures { result ≡ prefix_len (comes_before name.now) list.now }
{
    for (i, other) in list.iter().enumerate() {
        if !comes_before_name(other, name) {
            return i;
        }
    }
    list.len()
}

fn insert_named(list: &mut Vec<Named>, named: Named) -> Result<(), NoMemory>
    ensures { OnOk result (list.new.items ≡ with_named named list.old.items) }
{
    let place = place_in(list, named.name.as_slice());
    list.insert(place, named)?;
    Ok(())
}

/// Puts a file in the list by name, if it has one.
pub fn list_file(alloc: Global, list: &mut Vec<Named>, file: &File) -> Result<(), NoMemory>
    requires { length file.now.content ≤ FILE_BYTES }
    ensures { OnOk result (list.new.items ≡ with_file file.now.name file.now.content list.old.items) }
{
    let Some(name) = &file.name else {
        return Ok(());
    };
    let name = name.copy(alloc)?;
    let bytes = file.content.read(0, file.content.len())?;
    insert_named(list, Named { name, bytes })
}
