// Which processes home pokes after a call.
ghost use Rattle.std.specs.Prelude.{◌≡◌, Some, None};
ghost use Rattle.deputy.specs.Calls.{can_poke, to_poke, in_order, pokes_of};

use crate::rows::Rows;
use home_kernel::Kernel;

/// Up to two pids, the lower first: `second` is None where `first` is.
#[derive(Clone, Copy, Debug, PartialEq, Eq)]
pub struct Pokes {
    pub first: Option<u32>,
    pub second: Option<u32>,
}

/// Whether a process at which a signal was raised while `pid` was served is to be poked.
fn can_poke(kernel: &Kernel, rows: &Rows, pid: u32, other: u32) -> bool
    ensures { result ≡ can_poke kernel.now rows.now.list pid other }
{
    other != pid && kernel.deliverable(other).is_some() && !rows.is_held(other)
}

/// That process, where it is to be poked.
fn to_poke(kernel: &Kernel, rows: &Rows, pid: u32, raised: Option<u32>) -> Option<u32>
    ensures { result ≡ to_poke kernel.now rows.now.list pid raised }
{
    match raised {
        Some(other) => {
            if can_poke(kernel, rows, pid, other) {
                Some(other)
            } else {
                None
            }
        }
        None => None,
    }
}

/// One or two, the lower first, and each once.
fn in_order(a: Option<u32>, b: Option<u32>) -> Pokes
    ensures { result ≡ in_order a b }
{
    let (first, second) = match (a, b) {
        (None, b) => (b, None),
        (Some(a), None) => (Some(a), None),
        (Some(a), Some(b)) if a == b => (Some(a), None),
        (Some(a), Some(b)) => (Some(a.min(b)), Some(a.max(b))),
    };
    Pokes { first, second }
}

/// The processes that are to be poked, of the two at which signals were raised while `pid` was served.
pub fn pokes_of(
    kernel: &Kernel,
    rows: &Rows,
    pid: u32,
    by_call: Option<u32>,
    by_death: Option<u32>,
) -> Pokes
    ensures { result ≡ pokes_of kernel.now rows.now.list pid by_call by_death }
{
    let first = to_poke(kernel, rows, pid, by_call);
    let second = to_poke(kernel, rows, pid, by_death);
    in_order(first, second)
}
