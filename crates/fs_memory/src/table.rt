// Edits of the table of files.
ghost use Rattle.std.specs.Prelude.{◌≡◌, ◌<◌, ◌≤◌, ◌+◌, ◌^◌, length, take, IsSome, IfOk, OnOk, OnErr};
ghost use Rattle.id_table.specs.Places.{at_id, changed, edited};
ghost use Rattle.fs_memory.specs.Files.{holders_of, held, released, unlinked, is_unheld, unless_unheld, emptied, fitting, rewritten};

use crate::file::File;
use call_table::NoMemory;
use call_table::limit::FILE_BYTES;
use id_table::IdTable;

/// One more holds the file.
pub fn hold(files: &mut IdTable<File>, id: u32)
    requires there { IsSome (at_id files.old id) }
    requires few { holders_of (at_id files.old id) + 1 < 2 ^ 32 }
    ensures { files.new ≡ changed files.old id held }
{
    let file = files.value_mut(id);
    file.holders += 1;
}

fn is_gone(file: &File) -> bool
    ensures { result ≡ is_unheld file.now }
{
    file.name.is_none() && file.holders == 0
}

/// Drops a file that has neither a name nor a holder.
#[tactic(auto, using(crate::proofs::TableLemmas::dropped, crate::proofs::TableLemmas::stays))]
fn drop_unheld(files: &mut IdTable<File>, id: u32)
    requires { IsSome (at_id files.old id) }
    ensures { files.new ≡ edited files.old id unless_unheld }
{
    let file = files.get(id).unwrap();
    if is_gone(file) {
        let _file = files.remove(id);
    }
}

/// One less holds the file.
pub fn release(files: &mut IdTable<File>, id: u32)
    requires there { IsSome (at_id files.old id) }
    requires held { 1 ≤ holders_of (at_id files.old id) }
    ensures { files.new ≡ edited files.old id released }
{
    let file = files.value_mut(id);
    file.holders -= 1;
    drop_unheld(files, id);
}

/// Takes the name of a file.
pub fn unlink(files: &mut IdTable<File>, id: u32)
    requires { IsSome (at_id files.old id) }
    ensures { files.new ≡ edited files.old id unlinked }
{
    let file = files.value_mut(id);
    file.name = None;
    drop_unheld(files, id);
}

/// Takes all bytes of a file away.
pub fn truncate(files: &mut IdTable<File>, id: u32)
    requires { IsSome (at_id files.old id) }
    ensures { files.new ≡ changed files.old id emptied }
{
    let file = files.value_mut(id);
    file.content.clear();
}

/// Writes what fits, and answers how many bytes those are.
pub fn write(files: &mut IdTable<File>, id: u32, at: u32, bytes: &[u8]) -> Result<u32, NoMemory>
    requires there { IsSome (at_id files.old id) }
    requires within { at ≤ FILE_BYTES }
    ensures count { IfOk result (λ count. count ≡ length (fitting at bytes.now)) }
    ensures ok { OnOk result (files.new ≡ changed files.old id (rewritten at bytes.now)) }
    ensures err { OnErr result (files.new ≡ files.old) }
{
    let count = bytes.len().min((FILE_BYTES - at) as usize);
    let file = files.value_mut(id);
    file.content.write(at as usize, &bytes[..count])?;
    Ok(count as u32)
}
