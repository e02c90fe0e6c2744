// One file.
ghost use Rattle.std.specs.Prelude.{◌≡◌, IfOk};
ghost use Rattle.fs_memory.specs.Files.{is_name, new_file};

use crate::content::Content;
use call_table::{Bytes, NoMemory};
use std::alloc::Global;

/// A file: its name, none once it is unlinked; how many hold it; its bytes.
#[derive(Drop)]
pub struct File {
    pub name: Option<Bytes>,
    pub holders: u32,
    pub content: Content,
}

/// An empty file of a name, without holders.
pub fn named_file(alloc: Global, name: &[u8]) -> Result<File, NoMemory>
    ensures { IfOk result (λ file. file ≡ new_file name.now) }
{
    Ok(File {
        name: Some(Bytes::from_slice(alloc, name)?),
        holders: 0,
        content: Content::new(alloc),
    })
}

/// Whether a file has this name.
pub fn has_the_name(file: &File, name: &[u8]) -> bool
    ensures { result ≡ is_name name.now file.now.name }
{
    match &file.name {
        Some(own) => own.as_slice() == name,
        None => false,
    }
}
