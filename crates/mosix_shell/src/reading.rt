// Reading a source up to a limit.
ghost use Rattle.std.specs.Prelude.{◌≡◌, ◌≤◌, ◌+◌, IfOk, IfErr, OnErr, length, true};
ghost use Rattle.outside.specs.Outside.{Rose};
ghost use Rattle.mosix_shell.specs.Reading.{IsReadPast, IsReadTo, Reads, is_failed};

use call_table::Bytes;
use outside::Source;
use std::alloc::Global;

/// Why nothing was read.
#[derive(Clone, Copy, Debug, PartialEq, Eq)]
pub enum ReadError {
    Failed,
    NoMemory,
}

/// The next bytes of a source: to its end, or so many. No more are taken, also where it fails.
#[tactic(auto, using(crate::proofs::Readings::cut_at, crate::proofs::Readings::cut_behind))]
pub fn read_to<S: Source>(alloc: Global, source: &mut S, most: usize) -> Result<Bytes, ReadError>
    ensures ok { IfOk result (IsReadTo most (S.left source.old) (S.left source.new)) }
    ensures err { OnErr result (Reads most (S.left source.old) (S.left source.new) true) }
    ensures later { S.faults source.old ≤ S.faults source.new }
    ensures failed { IfErr result (λ e. e ≡ ReadError.Failed → Rose (S.faults source.old) (S.faults source.new)) }
{
    let mut bytes = Bytes::new(alloc);
    while bytes.len() < most {
        let mut chunk = [0u8; 256];
        let room = chunk.len().min(most - bytes.len());
        let count = match source.read(&mut chunk[..room]) {
            Ok(count) => count,
            Err(_) => return Err(ReadError::Failed),
        };
        if count == 0 {
            return Ok(bytes);
        }
        if bytes.push_slice(&chunk[..count]).is_err() {
            return Err(ReadError::NoMemory);
        }
    }
    Ok(bytes)
}

/// The text of a source, or so much of it that it is longer than the limit too.
#[tactic(auto, using(crate::proofs::Readings::read_past, crate::proofs::Readings::all_read))]
pub fn read_text<S: Source>(alloc: Global, source: &mut S, limit: u32) -> Result<Bytes, ReadError>
    ensures ok { IfOk result (IsReadPast limit (S.left source.old)) }
    ensures reads { Reads (limit + 1) (S.left source.old) (S.left source.new) (is_failed result) }
    ensures later { S.faults source.old ≤ S.faults source.new }
    ensures failed { IfErr result (λ e. e ≡ ReadError.Failed → Rose (S.faults source.old) (S.faults source.new)) }
{
    match read_to(alloc, source, limit as usize + 1) {
        Ok(text) => Ok(text),
        Err(e) => Err(e),
    }
}
