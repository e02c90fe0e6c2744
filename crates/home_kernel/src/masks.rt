// The signals of all processes by pid.
ghost use Rattle.std.specs.Prelude.{◌≡◌, ◌<◌, ◌^◌, Some, None, option_copied};
ghost use Rattle.std.specs.Option.{option_and_then};
ghost use Rattle.signal_set.specs.Signals.{lowest_deliverable, child_signals};
ghost use Rattle.kernel_spec.specs.Pids.{at_pid, changed_pid};
ghost use Rattle.kernel_spec.specs.Processes.{heeds, with_signal, with_act_for, with_mask, mask_in, act_from, is_handled, take_of};
ghost use Rattle.kernel_spec.specs.Calls.{inherited};
ghost use Rattle.home_kernel.specs.Taking.{TakesOne, TakesOf};

use call_table::Taken;
use call_table::signal::SIGSEGV;
use signal_set::{Act, Signals};

/// The signals of a pid. None exactly where it was not given.
fn signals_at(signals: &[Signals], pid: u32) -> Option<&Signals>
    ensures { option_copied result ≡ at_pid signals.now pid }
{
    if pid == 0 {
        return None;
    }
    signals.get(pid as usize - 1)
}

/// Whether a process does not ignore a signal.
pub fn heeds(signals: &[Signals], pid: u32, signal: u8) -> bool
    ensures { result ≡ heeds (at_pid signals.now pid) signal }
{
    match signals_at(signals, pid) {
        Some(own) => own.heeds(signal),
        None => false,
    }
}

/// The lowest signal that a process can take.
pub fn lowest(signals: &[Signals], pid: u32) -> Option<u8>
    ensures { result ≡ option_and_then lowest_deliverable (at_pid signals.now pid) }
{
    match signals_at(signals, pid) {
        Some(own) => own.deliverable(),
        None => None,
    }
}

/// What a child has of its parent's signals.
pub fn inherited(signals: &[Signals], pid: u32) -> Signals
    ensures { result ≡ inherited (at_pid signals.now pid) }
{
    match signals_at(signals, pid) {
        Some(own) => own.for_child(),
        None => Signals::new(),
    }
}

/// Raises a signal.
pub fn raise(signals: &mut Vec<Signals>, pid: u32, signal: u8)
    ensures { signals.new.items ≡ changed_pid (with_signal signal) signals.old.items pid }
{
    if pid == 0 || signals.len() < pid as usize {
        return;
    }
    signals[pid as usize - 1].raise(signal);
}

/// Sets the action for a signal.
pub fn set_act(signals: &mut Vec<Signals>, pid: u32, signal: u8, act: Act)
    ensures { signals.new.items ≡ changed_pid (with_act_for signal act) signals.old.items pid }
{
    if pid == 0 || signals.len() < pid as usize {
        return;
    }
    signals[pid as usize - 1].set_act(signal, act);
}

/// Sets the mask, and answers the old one.
pub fn set_mask(signals: &mut Vec<Signals>, pid: u32, mask: u32) -> u32
    ensures old { result ≡ mask_in (at_pid signals.old.items pid) }
    ensures new { signals.new.items ≡ changed_pid (with_mask mask) signals.old.items pid }
    ensures small { result < 2 ^ 31 }
{
    if pid == 0 || signals.len() < pid as usize {
        return 0;
    }
    signals[pid as usize - 1].set_mask(mask)
}

fn is_handled(act: Act) -> bool
    ensures { result ≡ is_handled act }
{
    match act {
        Act::Handler { .. } => true,
        Act::Default | Act::Ignore => false,
    }
}

/// Takes the lowest signal. A handler without room is death by 11.
fn take_own(own: &mut Signals, room: bool) -> Option<Taken>
    ensures { TakesOne result (take_of room own.old) own.old own.new }
{
    let signal = own.deliverable()?;
    if !room && is_handled(own.act(signal)) {
        own.forget(signal);
        return Some(Taken::Dies(SIGSEGV));
    }
    Some(own.take())
}

/// The same of a process by its pid.
pub fn take(signals: &mut Vec<Signals>, pid: u32, room: bool) -> Option<Taken>
    ensures { TakesOf result (option_and_then (take_of room) (at_pid signals.old.items pid)) signals.old.items pid signals.new.items }
{
    if pid == 0 || signals.len() < pid as usize {
        return None;
    }
    take_own(&mut signals[pid as usize - 1], room)
}

/// The action of a call: 0 is the default, 1 ignores.
pub fn act_from(handler: u32, restorer: u32) -> Act
    ensures { result ≡ act_from handler restorer }
{
    match handler {
        0 => Act::Default,
        1 => Act::Ignore,
        entry => Act::Handler { entry, restorer },
    }
}
