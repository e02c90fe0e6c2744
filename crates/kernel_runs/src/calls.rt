// The calls on the plain kernel, each as its row of the table of calls says.
ghost use Rattle.std.specs.Prelude.{◌≤◌};

use crate::paths::{open, unlink};
use crate::plain::{Life, Opened, Plain, Process, Thing};
use crate::signals::is_signal;
use call_table::call::{
    CLOSE, DUP, EXIT, FORK, GETPPID, KILL, LSEEK, OPEN, PIPE, READ, SIGACT, SIGMASK, SIGRETURN,
    UNLINK, WAIT, WRITE, YIELD,
};
use call_table::error::{
    EAGAIN, EBADF, ECHILD, EFBIG, EINVAL, EMFILE, ENFILE, ENOSPC, ENOSYS, EPIPE, ESPIPE, ESRCH,
};
use call_table::{End, Kind, NoMemory};

/// What a call comes to.
#[derive(Drop)]
pub(crate) struct Answered {
    pub(crate) value: i32,
    pub(crate) bytes: Vec<u8>,
    pub(crate) kind: Kind,
    pub(crate) raised: Option<u32>,
}

/// None where the call blocks.
pub(crate) type Outcome = Result<Option<Answered>, NoMemory>;

fn plain(k: &Plain, value: i32) -> Answered {
    Answered {
        value,
        bytes: Vec::new(k.alloc),
        kind: Kind::Plain,
        raised: None,
    }
}

fn of_value(k: &Plain, value: i32) -> Outcome {
    Ok(Some(plain(k, value)))
}

/// Bytes and their count.
fn of_bytes(k: &Plain, bytes: Vec<u8>) -> Outcome {
    let mut answered = plain(k, bytes.len().min(4096) as i32);
    answered.bytes = bytes;
    Ok(Some(answered))
}

/// The description of a descriptor, by its place.
fn opened_of(k: &Plain, pid: u32, fd: u32) -> Option<(usize, Opened)> {
    let process = k.process(pid);
    let place = (*process.slots.as_slice().get(fd as usize)?)?;
    let opened = k.opened.get(place)?;
    Some((place, *opened))
}

pub(crate) fn free_slots(process: &Process) -> u32 {
    let mut count = 0u32;
    for slot in &process.slots {
        if slot.is_none() {
            count = count.saturating_add(1);
        }
    }
    count
}

/// A description goes under the lowest free descriptor.
pub(crate) fn take_slot(k: &mut Plain, pid: u32, opened: usize) -> u32
    ensures { result ≤ 16 }
{
    let mut process = k.process(pid);
    for fd in 0..16u32 {
        if let Some(slot) = process.slots.as_mut_slice().get_mut(fd as usize) {
            if slot.is_none() {
                *slot = Some(opened);
                k.set_process(pid, process);
                return fd;
            }
        }
    }
    16
}

fn set_offset(k: &mut Plain, place: usize, offset: u32) {
    if let Some(opened) = k.opened.get_mut(place) {
        opened.offset = offset;
    }
}

/// At most so many of the first bytes.
fn front(k: &Plain, bytes: &[u8], len: u32) -> Result<Vec<u8>, NoMemory> {
    let most = (len as usize).min(4096);
    let (first, _) = bytes.split_at(most.min(bytes.len()));
    Ok(first.to_vec(k.alloc)?)
}

/// The bytes from a place on.
fn rest(k: &Plain, bytes: &[u8], from: usize) -> Result<Vec<u8>, NoMemory> {
    let (_, later) = bytes.split_at(from.min(bytes.len()));
    Ok(later.to_vec(k.alloc)?)
}

// ---- reading

fn read_file(k: &mut Plain, place: usize, opened: Opened, file: usize, len: u32) -> Outcome {
    let Some(file) = k.files.get(file) else {
        return of_value(k, EBADF);
    };
    let later = rest(k, file.bytes.as_slice(), opened.offset as usize)?;
    let bytes = front(k, later.as_slice(), len)?;
    let read = bytes.len().min(4096) as u32;
    set_offset(k, place, opened.offset.saturating_add(read));
    of_bytes(k, bytes)
}

fn read_typed(k: &mut Plain, len: u32) -> Outcome {
    if k.typed.is_empty() {
        return if k.typed_all {
            of_value(k, 0)
        } else {
            Ok(None)
        };
    }
    let bytes = front(k, k.typed.as_slice(), len)?;
    k.typed = rest(k, k.typed.as_slice(), bytes.len())?;
    of_bytes(k, bytes)
}

fn read_pipe(k: &mut Plain, pipe: usize, len: u32) -> Outcome {
    let Some(here) = k.pipes.get(pipe) else {
        return of_value(k, EBADF);
    };
    if here.is_empty() {
        return if k.holds(Thing::Writes(pipe)) {
            Ok(None)
        } else {
            of_value(k, 0)
        };
    }
    let bytes = front(k, here.as_slice(), len)?;
    let left = rest(k, here.as_slice(), bytes.len())?;
    if let Some(here) = k.pipes.get_mut(pipe) {
        *here = left;
    }
    of_bytes(k, bytes)
}

fn read(k: &mut Plain, pid: u32, fd: u32, len: u32) -> Outcome {
    let Some((place, opened)) = opened_of(k, pid, fd) else {
        return of_value(k, EBADF);
    };
    if !opened.reads {
        return of_value(k, EBADF);
    }
    if len == 0 {
        return of_value(k, 0);
    }
    match opened.thing {
        Thing::File(file) => read_file(k, place, opened, file, len),
        Thing::Input => read_typed(k, len),
        Thing::Reads(pipe) => read_pipe(k, pipe, len),
        _ => of_value(k, EBADF),
    }
}

// ---- writing

/// The bytes with others written over them from a place on, with zeros before it.
fn overwritten(k: &Plain, bytes: &[u8], at: usize, new: &[u8]) -> Result<Vec<u8>, NoMemory> {
    let (before, _) = bytes.split_at(at.min(bytes.len()));
    let mut whole = before.to_vec(k.alloc)?;
    for _ in whole.len()..at {
        whole.push(0)?;
    }
    whole.extend_from_slice(new)?;
    let (_, after) = bytes.split_at(whole.len().min(bytes.len()));
    whole.extend_from_slice(after)?;
    Ok(whole)
}

fn write_file(k: &mut Plain, place: usize, opened: Opened, file: usize, bytes: &[u8]) -> Outcome {
    if opened.offset >= 1_048_576 {
        return of_value(k, EFBIG);
    }
    let fits = bytes.len().min((1_048_576 - opened.offset) as usize);
    let new = front(k, bytes, fits as u32)?;
    let at = opened.offset as usize;
    let whole = match k.files.get(file) {
        Some(file) => overwritten(k, file.bytes.as_slice(), at, new.as_slice())?,
        None => return of_value(k, EBADF),
    };
    if let Some(file) = k.files.get_mut(file) {
        file.bytes = whole;
    }
    let count = new.len().min(4096) as u32;
    set_offset(k, place, opened.offset.saturating_add(count));
    of_value(k, count as i32)
}

fn write_terminal(k: &mut Plain, bytes: &[u8]) -> Outcome {
    let room = 16_777_216usize.saturating_sub(k.terminal.len());
    if room == 0 {
        return of_value(k, ENOSPC);
    }
    let shown = front(k, bytes, room.min(4096) as u32)?;
    k.terminal.extend_from_slice(shown.as_slice())?;
    of_value(k, shown.len().min(4096) as i32)
}

fn write_pipe(k: &mut Plain, pid: u32, pipe: usize, bytes: &[u8]) -> Outcome {
    if !k.holds(Thing::Reads(pipe)) {
        let _heeds = k.raise(pid, 13);
        return of_value(k, EPIPE);
    }
    let Some(here) = k.pipes.get(pipe) else {
        return of_value(k, EBADF);
    };
    let room = 4096usize.saturating_sub(here.len());
    if room == 0 {
        return Ok(None);
    }
    let part = front(k, bytes, room as u32)?;
    if let Some(here) = k.pipes.get_mut(pipe) {
        here.extend_from_slice(part.as_slice())?;
    }
    of_value(k, part.len().min(4096) as i32)
}

fn write(k: &mut Plain, pid: u32, fd: u32, bytes: &[u8]) -> Outcome {
    let Some((place, opened)) = opened_of(k, pid, fd) else {
        return of_value(k, EBADF);
    };
    if !opened.writes {
        return of_value(k, EBADF);
    }
    if bytes.is_empty() {
        return of_value(k, 0);
    }
    match opened.thing {
        Thing::File(file) => write_file(k, place, opened, file, bytes),
        Thing::Output => write_terminal(k, bytes),
        Thing::Writes(pipe) => write_pipe(k, pid, pipe, bytes),
        _ => of_value(k, EBADF),
    }
}

// ---- descriptors

fn close(k: &mut Plain, pid: u32, fd: u32) -> i32 {
    if opened_of(k, pid, fd).is_none() {
        return EBADF;
    }
    let mut process = k.process(pid);
    if let Some(slot) = process.slots.as_mut_slice().get_mut(fd as usize) {
        *slot = None;
    }
    k.set_process(pid, process);
    0
}

/// The place that a seek goes to, none where the call has no meaning.
fn sought(k: &Plain, opened: Opened, file: usize, off: u32, whence: u32) -> Option<u32> {
    let base = match whence {
        0 => 0i64,
        1 => opened.offset as i64,
        2 => k.files.get(file)?.bytes.len().min(1_048_576) as i64,
        _ => return None,
    };
    let to = base.saturating_add(off.cast_signed() as i64);
    if to < 0 || to > 1_048_576 {
        None
    } else {
        Some(to as u32)
    }
}

fn seek(k: &mut Plain, pid: u32, fd: u32, off: u32, whence: u32) -> i32 {
    let Some((place, opened)) = opened_of(k, pid, fd) else {
        return EBADF;
    };
    let Thing::File(file) = opened.thing else {
        return ESPIPE;
    };
    let Some(to) = sought(k, opened, file, off, whence) else {
        return EINVAL;
    };
    set_offset(k, place, to);
    to.cast_signed()
}

fn dup(k: &mut Plain, pid: u32, fd: u32) -> i32 {
    let Some((place, _)) = opened_of(k, pid, fd) else {
        return EBADF;
    };
    if free_slots(&k.process(pid)) == 0 {
        return EMFILE;
    }
    take_slot(k, pid, place) as i32
}

/// A new description under the lowest free descriptor.
pub(crate) fn take_opened(k: &mut Plain, pid: u32, opened: Opened) -> Result<u32, NoMemory> {
    let place = k.opened.len();
    k.opened.push(opened)?;
    Ok(take_slot(k, pid, place))
}

fn pipe(k: &mut Plain, pid: u32) -> Outcome {
    if free_slots(&k.process(pid)) < 2 {
        return of_value(k, EMFILE);
    }
    if k.held_count() > 254 || k.pipe_count() >= 64 {
        return of_value(k, ENFILE);
    }
    let pipe = k.pipes.len();
    k.pipes.push(Vec::new(k.alloc))?;
    let (thing, other) = (Thing::Reads(pipe), Thing::Writes(pipe));
    let first = take_opened(
        k,
        pid,
        Opened {
            thing,
            reads: true,
            writes: false,
            offset: 0,
        },
    )?;
    let second = take_opened(
        k,
        pid,
        Opened {
            thing: other,
            reads: false,
            writes: true,
            offset: 0,
        },
    )?;
    let mut answered = plain(k, 0);
    answered.bytes.extend_from_slice(&first.to_le_bytes())?;
    answered.bytes.extend_from_slice(&second.to_le_bytes())?;
    Ok(Some(answered))
}

// ---- processes

fn fork(k: &mut Plain, pid: u32) -> Outcome {
    if k.present() >= 64 {
        return of_value(k, EAGAIN);
    }
    let mut child = k.process(pid);
    child.parent = pid;
    child.signals = child.signals.inherited();
    k.processes.push(child)?;
    let mut answered = plain(k, k.given() as i32);
    answered.kind = Kind::Fork;
    Ok(Some(answered))
}

/// The lowest zombie child, and whether there is any child.
fn children(k: &Plain, parent: u32) -> (Option<u32>, bool) {
    let mut any = false;
    for pid in 1..k.given() + 1 {
        if k.process(pid).parent == parent {
            if k.is_zombie(pid) {
                return (Some(pid), true);
            }
            any = any || k.lives(pid);
        }
    }
    (None, any)
}

fn status_of(end: Option<End>) -> u32 {
    match end {
        Some(End::Exit(code)) => 256 * code as u32,
        Some(End::Signal(signal)) => signal as u32,
        None => 0,
    }
}

fn wait(k: &mut Plain, pid: u32, status: u32) -> Outcome {
    let (zombie, any) = children(k, pid);
    let Some(child) = zombie else {
        return if any { Ok(None) } else { of_value(k, ECHILD) };
    };
    let mut answered = plain(k, child.cast_signed());
    if status != 0 {
        let told = status_of(k.end_of(child));
        answered.bytes.extend_from_slice(&told.to_le_bytes())?;
    }
    let mut process = k.process(child);
    if let Life::Waited(end) = process.life {
        process.life = Life::Gone(end);
    }
    k.set_process(child, process);
    Ok(Some(answered))
}

fn kill(k: &mut Plain, pid: u32, target: u32, signal: u32) -> Outcome {
    if signal != 0 && !is_signal(signal) {
        return of_value(k, EINVAL);
    }
    if !k.lives(target) && !k.is_zombie(target) {
        return of_value(k, ESRCH);
    }
    let mut answered = plain(k, 0);
    if signal != 0 && k.raise(target, signal) && target != pid {
        answered.raised = Some(target);
    }
    Ok(Some(answered))
}

fn sigact(k: &mut Plain, pid: u32, signal: u32, handler: u32, restorer: u32) -> i32 {
    if !is_signal(signal) || signal == 9 {
        return EINVAL;
    }
    let mut process = k.process(pid);
    process.signals.set_act(signal, handler, restorer);
    k.set_process(pid, process);
    0
}

/// Sets the mask: the old one.
fn set_mask(k: &mut Plain, pid: u32, mask: u32) -> u32 {
    let mut process = k.process(pid);
    let old = process.signals.mask();
    process.signals.set_mask(mask);
    k.set_process(pid, process);
    old
}

fn exit(k: &mut Plain, pid: u32, code: u32) -> Outcome {
    let raised = k.end(pid, End::Exit((code % 256) as u8));
    let mut answered = plain(k, 0);
    answered.raised = raised;
    Ok(Some(answered))
}

fn sigreturn(k: &mut Plain, pid: u32, mask: u32) -> Outcome {
    let _old = set_mask(k, pid, mask);
    let mut answered = plain(k, 0);
    answered.kind = Kind::Return;
    Ok(Some(answered))
}

/// A call on files and descriptors, none where the number is another.
fn io_call(
    k: &mut Plain,
    pid: u32,
    number: u32,
    args: [u32; 3],
    bytes: &[u8],
) -> Result<Option<i32>, NoMemory> {
    let [a, b, c] = args;
    Ok(Some(match number {
        OPEN => open(k, pid, b, bytes, c)?,
        CLOSE => close(k, pid, a),
        LSEEK => seek(k, pid, a, b, c),
        DUP => dup(k, pid, a),
        UNLINK => unlink(k, b, bytes),
        _ => return Ok(None),
    }))
}

/// A call of a live process.
pub(crate) fn call(k: &mut Plain, pid: u32, number: u32, args: [u32; 3], bytes: &[u8]) -> Outcome {
    if let Some(value) = io_call(k, pid, number, args, bytes)? {
        return of_value(k, value);
    }
    let [a, b, c] = args;
    match number {
        EXIT => exit(k, pid, a),
        GETPPID => of_value(k, k.process(pid).parent.cast_signed()),
        FORK => fork(k, pid),
        WAIT => wait(k, pid, a),
        READ => read(k, pid, a, c),
        WRITE => write(k, pid, a, bytes),
        PIPE => pipe(k, pid),
        KILL => kill(k, pid, a, b),
        SIGACT => {
            let value = sigact(k, pid, a, b, c);
            of_value(k, value)
        }
        SIGRETURN => sigreturn(k, pid, a),
        SIGMASK => {
            let old = set_mask(k, pid, a);
            of_value(k, old.cast_signed())
        }
        YIELD => of_value(k, 0),
        _ => of_value(k, ENOSYS),
    }
}
