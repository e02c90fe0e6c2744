// The orders of a script.
ghost use Rattle.std.specs.Prelude.{◌≡◌, ◌≢◌, ◌+◌, Some, Err, IfOk, IfErr};
ghost use Rattle.outside.specs.Outside.{Rose};
ghost use Rattle.mosix_shell.specs.Reading.{Reads};
ghost use Rattle.mosix_shell.specs.Why.{is_cut};
ghost use Rattle.mosix_shell.specs.Orders.{IsScriptOf, IsUnread, FitStacks};

use crate::reading::{ReadError, read_text};
use crate::why::Why;
use call_table::limit::SCRIPT_BYTES;
use node_event::Script;
use outside::Source;
use shell_text::{ScriptError, read_script};
use std::alloc::Global;

/// The orders that a text writes for so many nodes, or its first fault.
#[tactic(auto, using(crate::proofs::Scripts::orders_written, crate::proofs::Scripts::fault_written, crate::proofs::Scripts::words_fit))]
pub fn orders_of(alloc: Global, text: &[u8], nodes: u8) -> Result<Script, Why>
    ensures ok { IfOk result (IsScriptOf nodes (Some text.now)) }
    ensures err { IfErr result (IsUnread nodes (Some text.now)) }
    ensures short { IfOk result FitStacks }
    ensures fault { result ≢ Err Why.ReadFault }
{
    match read_script(alloc, text, nodes) {
        Ok(orders) => Ok(orders),
        Err(ScriptError::Fault { line, kind }) => Err(Why::BadScript { line, kind }),
        Err(ScriptError::NoMemory) => Err(Why::NoMemory),
    }
}

/// The orders that the script of a source writes for so many nodes, or its first fault.
#[tactic(auto, using(crate::proofs::Readings::cut_or_not, crate::proofs::Scripts::orders_read, crate::proofs::Scripts::unread_read))]
pub fn read_orders<S: Source>(alloc: Global, source: &mut S, nodes: u8) -> Result<Script, Why>
    ensures ok { IfOk result (IsScriptOf nodes (S.left source.old)) }
    ensures err { IfErr result (IsUnread nodes (S.left source.old)) }
    ensures short { IfOk result FitStacks }
    ensures reads { Reads (SCRIPT_BYTES + 1) (S.left source.old) (S.left source.new) (is_cut result) }
    ensures fault { result ≡ Err Why.ReadFault → Rose (S.faults source.old) (S.faults source.new) }
{
    let text = match read_text(alloc, source, SCRIPT_BYTES) {
        Ok(text) => text,
        Err(ReadError::Failed) => return Err(Why::ReadFault),
        Err(ReadError::NoMemory) => return Err(Why::NoMemory),
    };
    match orders_of(alloc, text.as_slice(), nodes) {
        Ok(orders) => Ok(orders),
        Err(why) => Err(why),
    }
}
