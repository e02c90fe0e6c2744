// The table of the calls: which have a buffer, and which are answered where the process runs.
ghost use Rattle.std.specs.Prelude.{◌≡◌};
ghost use Rattle.call_table.specs.Calls.{need_of, readable, writable, is_site_local, is_signal_number};

use crate::call::{BRK, EXIT, GETPID, OPEN, PIPE, READ, SIGRETURN, UNLINK, WAIT, WRITE, YIELD};
use crate::limit::TRANSFER_BYTES;
use crate::request::Need;
use crate::signal::{
    SIGCHLD, SIGILL, SIGINT, SIGKILL, SIGPIPE, SIGSEGV, SIGTERM, SIGTRAP, SIGUSR1, SIGUSR2, SIGXCPU,
};

/// The right to read memory, as a bit of a page's rights.
pub const RIGHT_READ: u8 = 4;
/// The right to write memory, as a bit of a page's rights.
pub const RIGHT_WRITE: u8 = 2;
/// The right to run memory, as a bit of a page's rights.
pub const RIGHT_RUN: u8 = 1;

/// The most bytes of a name that are looked at: one more than a name may have.
pub const NAME_LOOK: u32 = 65;
/// The bytes of a signal frame: pc, 31 registers and the mask, four bytes each.
pub const FRAME_SIZE: u32 = 132;

fn readable(addr: u32, len: u32) -> Need
    ensures { result ≡ readable addr len }
{
    Need {
        addr,
        len,
        right: RIGHT_READ,
    }
}

fn writable(addr: u32, len: u32) -> Need
    ensures { result ≡ writable addr len }
{
    Need {
        addr,
        len,
        right: RIGHT_WRITE,
    }
}

/// The buffer that a call reads or writes, by its number, its arguments a0 to a5, and the stack pointer.
/// None exactly where the call has none.
pub fn need_of(number: u32, args: &[u32; 6], sp: u32) -> Option<Need>
    ensures { result ≡ need_of number args.now sp }
{
    match number {
        WAIT if args[0] == 0 => None,
        WAIT => Some(writable(args[0], 4)),
        OPEN | UNLINK => Some(readable(args[0], args[1].min(NAME_LOOK))),
        READ => Some(writable(args[1], args[2].min(TRANSFER_BYTES))),
        WRITE => Some(readable(args[1], args[2].min(TRANSFER_BYTES))),
        PIPE => Some(writable(args[0], 8)),
        SIGRETURN => Some(readable(sp, FRAME_SIZE)),
        _ => None,
    }
}

/// Whether a call is answered where the process runs: getpid, brk, and each number that is no call's, 0 too.
pub fn is_local(number: u32) -> bool
    ensures { result ≡ is_site_local number }
{
    number == GETPID || number == BRK || number < EXIT || YIELD < number
}

fn is_known(signal: u8) -> bool
    ensures { result ≡ is_signal_number signal }
{
    matches!(
        signal,
        SIGINT
            | SIGILL
            | SIGTRAP
            | SIGKILL
            | SIGUSR1
            | SIGSEGV
            | SIGUSR2
            | SIGPIPE
            | SIGTERM
            | SIGCHLD
            | SIGXCPU
    )
}

/// Whether a number is a signal's.
pub fn is_signal(number: u32) -> bool
    ensures { result ≡ is_signal_number number }
{
    match u8::try_from(number) {
        Ok(signal) => is_known(signal),
        Err(_) => false,
    }
}
