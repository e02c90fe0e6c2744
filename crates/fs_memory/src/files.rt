// The files of a kernel.
ghost use Rattle.std.specs.Prelude.{◌≡◌, ◌≢◌, ◌<◌, ◌≤◌, ◌+◌, ◌^◌, [], length, max, take, drop, Some, None, is_some, IsSome, IfSome, IfOk, OnOk, OnErr, MatchOption};
ghost use Rattle.id_table.specs.Places.{at_id, lowest_free, filled, changed, edited, without};
ghost use Rattle.fs_memory.specs.Files.{id_called, named_count, content_of, holders_of, new_file, held, released, emptied, fitting, rewritten, after_unlink, named_files, IsFileTable};

use crate::file::{File, named_file};
use crate::{search, table};
use call_table::limit::{FILE_BYTES, NAMED_FILES};
use call_table::{Bytes, NamedFiles, NoMemory};
use id_table::IdTable;
use std::alloc::Global;
use std::marker::Model;

/// Named files and unlinked ones that are still held. Contracts see a table with a place for each number, empty where the number is free.
#[derive(Drop)]
pub struct Files {
    files: IdTable<File>,
    alloc: Global,
}

impl Model for Files {
    ghost use Rattle.fs_memory.specs.Files.{FileTable, IsFileTable};

    ghost Value = { FileTable };

    ghost view = { λ f. f.files };

    ghost invariant = { λ f. IsFileTable f.files };
}

impl Files {
    /// No files. It takes no memory.
    pub fn new(alloc: Global) -> Files
        ensures { result ≡ [] }
    {
        Files {
            files: IdTable::new(alloc),
            alloc,
        }
    }

    /// The number of the file of this name. None exactly where no file has it.
    pub fn find(&self, name: &[u8]) -> Option<u32>
        ensures id { result ≡ id_called name.now self.now }
        ensures there { IfSome result (λ id. IsSome (at_id self.now id)) }
        ensures table { IsFileTable self.now }
    {
        search::find(&self.files, name)
    }

    /// Makes an empty file without holders under the lowest free number. None exactly where 128 files have a name.
    pub fn create(&mut self, name: &[u8]) -> Result<Option<u32>, NoMemory>
        requires { id_called name.now self.old ≡ None }
        ensures id { IfOk result (λ made. MatchOption made (named_count self.old ≡ NAMED_FILES) (λ id. (named_count self.old < NAMED_FILES) × (id ≡ lowest_free self.old))) }
        ensures new { IfOk result (λ made. MatchOption made (self.new ≡ self.old) (λ _. self.new ≡ filled self.old (new_file name.now))) }
        ensures here { IfOk result (λ made. IfSome made (λ id. at_id self.new id ≡ Some (new_file name.now))) }
        ensures err { OnErr result (self.new ≡ self.old) }
    {
        if search::count_named(&self.files) >= NAMED_FILES as usize {
            return Ok(None);
        }
        let file = named_file(self.alloc, name)?;
        let id = self.files.add(file)?;
        Ok(Some(id))
    }

    /// How many numbers there are places for.
    pub fn places(&self) -> usize
        ensures { result ≡ length self.now }
    {
        self.files.places()
    }

    /// Takes a file away and shortens the table to so many places. It undoes a `create` in a table of that length.
    pub fn take_back(&mut self, id: u32, places: usize)
        requires { IsSome (at_id self.old id) }
        ensures { self.new ≡ take places (without self.old id) }
    {
        let _file = self.files.take_back(id, places);
    }

    /// One more holds the file.
    pub fn hold(&mut self, id: u32)
        requires there { IsSome (at_id self.old id) }
        requires few { holders_of (at_id self.old id) + 1 < 2 ^ 32 }
        ensures { self.new ≡ changed self.old id held }
    {
        table::hold(&mut self.files, id);
    }

    /// One less holds the file. An unlinked file is dropped with its last holder.
    pub fn release(&mut self, id: u32)
        requires there { IsSome (at_id self.old id) }
        requires held { 1 ≤ holders_of (at_id self.old id) }
        ensures { self.new ≡ edited self.old id released }
    {
        table::release(&mut self.files, id);
    }

    /// The bytes from `at` to the end of the file, or the first `len` of them where there are more.
    pub fn read_at(&self, id: u32, at: u32, len: u32) -> Result<Bytes, NoMemory>
        requires { IsSome (at_id self.now id) }
        ensures is { IfOk result (λ b. b ≡ take len (drop at (content_of (at_id self.now id)))) }
        ensures within { IfOk result (λ b. at + length b ≤ max at FILE_BYTES) }
    {
        let file = self.files.get(id).unwrap();
        file.content.read(at as usize, len as usize)
    }

    /// Writes what fits below 1,048,576 from `at` on, with zeros in a gap, and answers how many bytes those are.
    /// Where nothing is written the file stays as it was.
    pub fn write_at(&mut self, id: u32, at: u32, bytes: &[u8]) -> Result<u32, NoMemory>
        requires there { IsSome (at_id self.old id) }
        requires within { at ≤ FILE_BYTES }
        ensures count { IfOk result (λ count. count ≡ length (fitting at bytes.now)) }
        ensures ok { OnOk result (self.new ≡ changed self.old id (rewritten at bytes.now)) }
        ensures err { OnErr result (self.new ≡ self.old) }
    {
        table::write(&mut self.files, id, at, bytes)
    }

    /// Takes all bytes of the file away.
    pub fn truncate(&mut self, id: u32)
        requires { IsSome (at_id self.old id) }
        ensures { self.new ≡ changed self.old id emptied }
    {
        table::truncate(&mut self.files, id);
    }

    /// Takes the name from its file. A file without holders is dropped, and another stays until it is released. False exactly where no file has the name.
    pub fn unlink(&mut self, name: &[u8]) -> bool
        ensures is { result ≡ is_some (id_called name.now self.old) }
        ensures new { self.new ≡ after_unlink (id_called name.now self.old) self.old }
    {
        let Some(id) = search::find(&self.files, name) else {
            return false;
        };
        table::unlink(&mut self.files, id);
        true
    }

    /// How many bytes the file has.
    pub fn len(&self, id: u32) -> u32
        requires { IsSome (at_id self.now id) }
        ensures value { result ≡ length (content_of (at_id self.now id)) }
        ensures small { result ≤ FILE_BYTES }
    {
        let file = self.files.get(id).unwrap();
        file.content.len() as u32
    }

    /// All named files, by the bytes of their names.
    pub fn named(&self) -> Result<NamedFiles, NoMemory>
        ensures { IfOk result (λ list. list ≡ named_files self.now) }
    {
        let mut list = Vec::new(self.alloc);
        for id in (0..self.files.places()).rev() {
            if let Some(file) = self.files.get(id as u32) {
                search::list_file(self.alloc, &mut list, file)?;
            }
        }
        Ok(NamedFiles::from_vec(list))
    }
}
