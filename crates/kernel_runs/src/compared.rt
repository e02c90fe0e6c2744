// The same steps on both kernels.
use crate::calls::{Answered, call};
use crate::plain::Plain;
use crate::steps::{Step, random_step};
use call_table::{Answer, Bytes, End, NoMemory, Request, Taken};
use home_kernel::{Kernel, Served};
use rand_pcg::Pcg32;
use std::alloc::Global;

/// How many steps there were, how many calls were answered and how many blocked, how many steps differ, and the first one's list and place.
#[derive(Clone, Copy)]
pub(crate) struct Counts {
    pub(crate) steps: u32,
    pub(crate) answered: u32,
    pub(crate) blocked: u32,
    pub(crate) differing: u32,
    pub(crate) first: (u32, u32),
}

impl Counts {
    pub(crate) const NONE: Counts = Counts {
        steps: 0,
        answered: 0,
        blocked: 0,
        differing: 0,
        first: (0, 0),
    };

    fn add(&mut self, same: bool, list: u32, place: u32) {
        self.steps = self.steps.saturating_add(1);
        if !same {
            if self.differing == 0 {
                self.first = (list, place);
            }
            self.differing = self.differing.saturating_add(1);
        }
    }
}

fn same_answer(answer: &Answer, raised: Option<u32>, plain: &Answered) -> bool {
    if answer.value != plain.value || answer.kind != plain.kind {
        return false;
    }
    raised == plain.raised && answer.bytes.as_slice() == plain.bytes.as_slice()
}

/// A call of a live process on both; one that is not live makes none.
fn same_call(
    kernel: &mut Kernel,
    plain: &mut Plain,
    pid: u32,
    request: &Request,
    counts: &mut Counts,
) -> Result<bool, NoMemory> {
    if !kernel.live(pid) {
        return Ok(!plain.lives(pid));
    }
    let blocks = kernel.blocks(pid, request);
    let served = kernel.serve(plain.alloc, pid, request)?;
    let args = [request.args[0], request.args[1], request.args[2]];
    let answered = call(plain, pid, request.number, args, request.bytes.as_slice())?;
    match (served, answered) {
        (Served::Blocks, None) => {
            counts.blocked = counts.blocked.saturating_add(1);
            Ok(blocks)
        }
        (Served::Done { answer, raised }, Some(answered)) => {
            counts.answered = counts.answered.saturating_add(1);
            Ok(!blocks && same_answer(&answer, raised, &answered))
        }
        _ => Ok(false),
    }
}

fn same_raise(kernel: &mut Kernel, plain: &mut Plain, pid: u32, signal: u8) -> bool {
    let poked = kernel.raise(pid, signal);
    let heeds = plain.raise(pid, signal as u32);
    poked == (heeds && lowest(plain, pid).is_some())
}

/// The lowest signal that a live process can take.
fn lowest(plain: &Plain, pid: u32) -> Option<u32> {
    if plain.lives(pid) {
        plain.process(pid).signals.lowest()
    } else {
        None
    }
}

fn take(plain: &mut Plain, pid: u32, room: bool) -> (Option<Taken>, Option<u32>) {
    if !plain.lives(pid) {
        return (None, None);
    }
    let mut process = plain.process(pid);
    let taken = process.signals.take(room);
    plain.set_process(pid, process);
    match taken {
        Some(Taken::Dies(signal)) => (taken, plain.end(pid, End::Signal(signal))),
        _ => (taken, None),
    }
}

fn same_take(kernel: &mut Kernel, plain: &mut Plain, pid: u32, room: bool) -> bool {
    let took = kernel.take(pid, room);
    let (taken, raised) = take(plain, pid, room);
    took.taken == taken && took.raised == raised
}

fn same_fall(kernel: &mut Kernel, plain: &mut Plain, pid: u32, signal: u8) -> bool {
    if !kernel.live(pid) {
        return !plain.lives(pid);
    }
    kernel.fall(pid, signal) == plain.end(pid, End::Signal(signal))
}

fn same_feed(kernel: &mut Kernel, plain: &mut Plain, bytes: &[u8]) -> Result<bool, NoMemory> {
    kernel.feed(bytes)?;
    if !plain.typed_all {
        plain.typed.extend_from_slice(bytes)?;
    }
    Ok(true)
}

fn same_step(
    kernel: &mut Kernel,
    plain: &mut Plain,
    step: Step,
    counts: &mut Counts,
) -> Result<bool, NoMemory> {
    match step {
        Step::Launch => {
            let pid = kernel.launch()?;
            Ok(pid == plain.launch()?)
        }
        Step::Call {
            pid,
            number,
            args,
            bytes,
        } => {
            let request = Request {
                number,
                args: [args[0], args[1], args[2], 0, 0, 0],
                bytes: Bytes::from_vec(bytes),
                room: false,
            };
            same_call(kernel, plain, pid, &request, counts)
        }
        Step::Raise { pid, signal } => Ok(same_raise(kernel, plain, pid, signal)),
        Step::Take { pid, room } => Ok(same_take(kernel, plain, pid, room)),
        Step::Fall { pid, signal } => Ok(same_fall(kernel, plain, pid, signal)),
        Step::Feed(bytes) => same_feed(kernel, plain, bytes.as_slice()),
        Step::EndInput => {
            kernel.end_input();
            plain.typed_all = true;
            Ok(true)
        }
    }
}

/// What both tell of each process.
fn same_processes(kernel: &Kernel, plain: &Plain) -> bool {
    if kernel.given() != plain.given() {
        return false;
    }
    for pid in 0..plain.given().saturating_add(2) {
        if kernel.live(pid) != plain.lives(pid) || kernel.ended(pid) != plain.end_of(pid) {
            return false;
        }
        let signal = match kernel.deliverable(pid) {
            Some(signal) => Some(signal as u32),
            None => None,
        };
        if signal != lowest(plain, pid) {
            return false;
        }
    }
    true
}

/// Whether the plain kernel has a named file of these bytes.
fn has_file(plain: &Plain, name: &[u8], bytes: &[u8]) -> bool {
    for file in plain.files.as_slice() {
        if file.is_named && file.name.as_slice() == name {
            return file.bytes.as_slice() == bytes;
        }
    }
    false
}

/// The named files and what was written to the terminal.
fn same_ends(kernel: &Kernel, plain: &Plain) -> Result<bool, NoMemory> {
    let named = kernel.named_files()?;
    for file in named.as_slice() {
        if !has_file(plain, file.name.as_slice(), file.bytes.as_slice()) {
            return Ok(false);
        }
    }
    let mut count = 0usize;
    for file in plain.files.as_slice() {
        if file.is_named {
            count = count.saturating_add(1);
        }
    }
    Ok(count == named.len() && kernel.terminal() == plain.terminal.as_slice())
}

/// One list of random steps.
pub(crate) fn compare_list(
    rng: &mut Pcg32,
    alloc: Global,
    list: u32,
    steps: u32,
    counts: &mut Counts,
) -> Result<(), NoMemory> {
    let mut kernel = Kernel::new(alloc);
    let mut plain = Plain::new(alloc)?;
    for place in 0..steps {
        let step = random_step(rng, alloc, plain.given(), plain.present())?;
        let same = same_step(&mut kernel, &mut plain, step, counts)?;
        counts.add(same && same_processes(&kernel, &plain), list, place);
    }
    let same = same_ends(&kernel, &plain)?;
    counts.add(same, list, steps);
    Ok(())
}
