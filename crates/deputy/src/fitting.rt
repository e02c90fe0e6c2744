// Which calls, pauses and pids fit what home keeps.
ghost use Rattle.std.specs.Prelude.{◌≡◌};
ghost use Rattle.user_spec.specs.Fits.{read_len, handed_len, fits_request};
ghost use Rattle.deputy.specs.Calls.{may_ask, fits_call};
ghost use Rattle.deputy.specs.Moves.{was_given};

use crate::rows::Rows;
use call_table::call::SIGRETURN;
use call_table::{Need, RIGHT_READ, Request, is_local, is_signal, need_of};
use home_kernel::Kernel;

/// How many bytes a buffer hands over.
fn read_len(need: Option<Need>) -> u32
    ensures { result ≡ read_len need }
{
    match need {
        Some(need) => {
            if need.right == RIGHT_READ {
                need.len
            } else {
                0
            }
        }
        None => 0,
    }
}

/// How many bytes a call hands over.
fn handed_len(number: u32, args: &[u32; 6]) -> u32
    ensures { result ≡ handed_len number args.now }
{
    if number == SIGRETURN {
        return 0;
    }
    read_len(need_of(number, args, 0))
}

/// Whether a request is a fault, or a forwarded call with its bytes.
fn fits_request(request: &Request) -> bool
    ensures { result ≡ fits_request request.now }
{
    if request.number == 0 {
        return is_signal(request.args[0]);
    }
    !is_local(request.number)
        && request.bytes.len() == handed_len(request.number, &request.args) as usize
}

/// Whether a process is live and no call of it waits.
pub fn may_ask(kernel: &Kernel, rows: &Rows, pid: u32) -> bool
    ensures { result ≡ may_ask (record { kernel = kernel.now; rows = rows.now.list }) pid }
{
    kernel.live(pid) && !rows.is_held(pid)
}

/// Whether a call or a fault fits.
pub fn fits_call(kernel: &Kernel, rows: &Rows, pid: u32, request: &Request) -> bool
    ensures { result ≡ fits_call (record { kernel = kernel.now; rows = rows.now.list }) pid request.now }
{
    may_ask(kernel, rows, pid) && fits_request(request)
}

/// Whether a pid was given.
pub fn was_given(kernel: &Kernel, pid: u32) -> bool
    ensures { result ≡ was_given kernel.now pid }
{
    1 <= pid && pid <= kernel.given()
}
