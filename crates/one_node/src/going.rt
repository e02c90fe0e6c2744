// Calls on the parts that make up the system.
ghost use Rattle.std.specs.Prelude.{◌≡◌, ◌<◌, ◌≤◌, ◌++◌, Some, IsSome, IsTrue, IfOk, true, slice_get, slice_set, vec_len, vec_capacity, ◌+◌, length};
ghost use Rattle.std.specs.Option.{option_map, option_and_then};
ghost use Rattle.user_spec.specs.Request.{number_of, returned};
ghost use Rattle.user_spec.specs.Advance.{advance, AtCall, advanced};
ghost use Rattle.kernel_spec.specs.Kernel.{given, is_live};
ghost use Rattle.kernel_spec.specs.Calls.{children_of};
ghost use Rattle.home_kernel.specs.Serving.{IsLive};
ghost use Rattle.one_node.specs.Machine.{Moves, asked_of, fault_of, has_room_at, user_taking};
ghost use Rattle.one_node.specs.Going.{gone, gone_at, copied_for, HasChild, child_in, IsEntry};

use call_table::call::FORK;
use call_table::{Answer, Kind, NoMemory, Request, Taken};
use home_kernel::Kernel;
use std::alloc::Global;
use user_ctx::{Stop, User};

/// What a process does in a turn of its own.
#[derive(Clone, Copy, Debug, PartialEq, Eq)]
pub enum Ran {
    /// It made so many steps.
    Steps(u32),
    /// It is at a forwarded call of this number, or at a fault, which is number 0.
    Asks(u32),
}

/// At most a quantum of steps, or what the process asks.
pub fn go(user: &mut User, quantum: u32) -> Result<Ran, NoMemory>
    requires { 1 ≤ quantum }
    ensures { IfOk result (λ ran. gone quantum user.old ≡ record { ran = ran; user = user.new }) }
{
    let (went, stop) = user.run(quantum);
    if went > 0 {
        return Ok(Ran::Steps(went));
    }
    match stop {
        Stop::Went => Ok(Ran::Steps(0)),
        Stop::Grows => {
            user.grow()?;
            let (more, _) = user.run(quantum - 1);
            Ok(Ran::Steps(more + 1))
        }
        Stop::AtCall => Ok(Ran::Asks(user.number())),
        Stop::Fault(_) => Ok(Ran::Asks(0)),
    }
}

/// The same for the process at an index.
pub fn go_at(users: &mut Vec<User>, i: usize, quantum: u32) -> Result<Ran, NoMemory>
    requires within { i < vec_len users.old }
    requires some { 1 ≤ quantum }
    ensures ok { IfOk result (λ ran. gone_at users.old.items i (option_map (gone quantum) (slice_get users.old.items i)) ≡ Some (record { ran = ran; users = users.new.items })) }
    ensures len { vec_len users.new ≡ vec_len users.old }
{
    let user = &mut users[i];
    let ran = go(user, quantum)?;
    Ok(ran)
}

/// So many steps, if each of them goes.
fn steps(user: &mut User, k: u32) -> Result<bool, NoMemory>
    ensures { IfOk result (λ went. Moves went (advanced k user.old) user.new) }
{
    let mut done = 0;
    while done < k {
        let (went, stop) = user.run(k - done);
        done += went;
        match stop {
            Stop::Went => return Ok(true),
            Stop::Grows => {
                user.grow()?;
                done += 1;
            }
            Stop::AtCall => return Ok(false),
            Stop::Fault(_) => return Ok(false),
        }
    }
    Ok(true)
}

/// The same for the process at an index.
pub fn steps_at(users: &mut Vec<User>, i: usize, k: u32) -> Result<bool, NoMemory>
    requires { i < vec_len users.old }
    ensures ok { IfOk result (λ went. Moves went (option_map (slice_set users.old.items i) (option_and_then (advanced k) (slice_get users.old.items i))) users.new.items) }
    ensures len { vec_len users.new ≡ vec_len users.old }
{
    let user = &mut users[i];
    let went = steps(user, k)?;
    Ok(went)
}

/// What the process at an index asks at a forwarded call. None exactly where it is at none.
pub fn asked_at(alloc: Global, users: &[User], i: usize) -> Result<Option<Request>, NoMemory>
    requires { i < length users.now }
    ensures { IfOk result (λ asked. option_and_then asked_of (slice_get users.now i) ≡ asked) }
{
    let user = &users[i];
    let asked = user.call(alloc)?;
    Ok(asked)
}

/// A copy of the process at an index for its child, where its call is a fork.
pub fn copied_at(users: &[User], i: usize, number: u32) -> Result<Option<User>, NoMemory>
    requires { i < length users.now }
    ensures { IfOk result (λ child. option_and_then (copied_for number) (slice_get users.now i) ≡ child) }
{
    if number != FORK {
        return Ok(None);
    }
    let user = &users[i];
    let child = user.fork_copy(0)?;
    Ok(Some(child))
}

/// The return of the call of the process at an index.
pub fn give_at(users: &mut Vec<User>, i: usize, answer: &Answer)
    requires { i < vec_len users.old }
    ensures is { option_map (λ u. slice_set users.old.items i (returned u answer.now)) (slice_get users.old.items i) ≡ Some users.new.items }
    ensures len { vec_len users.new ≡ vec_len users.old }
    ensures capacity { vec_capacity users.new ≡ vec_capacity users.old }
{
    let user = &mut users[i];
    user.give(answer);
}

/// The child of a fork with its pid, as the last process.
pub fn push_child(users: &mut Vec<User>, child: Option<User>, kind: Kind, pid: u32)
    requires room { vec_len users.old < vec_capacity users.old }
    ensures is { users.new.items ≡ users.old.items ++ child_in kind child pid }
    ensures len { HasChild kind child → vec_len users.new ≡ vec_len users.old + children_of kind }
{
    if kind != Kind::Fork {
        return;
    }
    if let Some(mut child) = child {
        child.set_pid(pid);
        users.push_reserved(child);
    }
}

/// Whether the process at an index has room for the frame of a signal.
pub fn room_at(users: &[User], i: usize) -> bool
    requires { i < length users.now }
    ensures { option_map has_room_at (slice_get users.now i) ≡ Some result }
{
    users[i].frame_room()
}

/// A process enters its handler, where it does not die by the signal that it took.
fn enter(user: &mut User, taken: Taken)
    requires { IsEntry taken → has_room_at user.old ≡ true }
    ensures { user.new ≡ user_taking user.old taken }
{
    match taken {
        Taken::Dies(_) => {}
        Taken::Enters {
            signal,
            handler,
            restorer,
            mask,
        } => {
            user.push_frame(signal, handler, restorer, mask);
        }
    }
}

/// The same for the process at an index.
pub fn enter_at(users: &mut Vec<User>, i: usize, taken: Taken)
    requires within { i < vec_len users.old }
    requires room { IsEntry taken → option_map has_room_at (slice_get users.old.items i) ≡ Some true }
    ensures is { option_map (λ u. slice_set users.old.items i (user_taking u taken)) (slice_get users.old.items i) ≡ Some users.new.items }
    ensures len { vec_len users.new ≡ vec_len users.old }
{
    let user = &mut users[i];
    enter(user, taken);
}

/// The signal of the fault that a process is at. A process that is at none makes its next step.
fn fault(user: &mut User) -> Option<u8>
    ensures is { result ≡ fault_of user.old }
    ensures stays { IsSome result → user.new ≡ user.old }
{
    match user.step() {
        Stop::Fault(signal) => Some(signal),
        Stop::Went => None,
        Stop::AtCall => None,
        Stop::Grows => None,
    }
}

/// The same for the process at an index.
pub fn fault_at(users: &mut Vec<User>, i: usize) -> Option<u8>
    requires { i < vec_len users.old }
    ensures is { option_and_then fault_of (slice_get users.old.items i) ≡ result }
    ensures stays { IsSome result → users.new.items ≡ users.old.items }
    ensures len { vec_len users.new ≡ vec_len users.old }
{
    let user = &mut users[i];
    let signal = fault(user);
    signal
}

/// Whether a process was given and has not ended.
pub fn live(kernel: &Kernel, pid: u32) -> bool
    ensures is { result ≡ is_live kernel.now pid }
    ensures bounds { IsTrue result → (1 ≤ pid) × (pid ≤ given kernel.now) }
    ensures live { IsTrue result → IsLive kernel.now pid }
{
    kernel.live(pid)
}
