// A user process, seen as its state.
ghost use Rattle.std.specs.Prelude.{◌≡◌, ◌≢◌, ◌∷◌, [], ◌<◌, ◌≤◌, ◌%◌, ◌^◌, ◌-◌, ◌+◌, not, true, false, replicate, Ok, Some, IsSome, IfOk, OnOk, OnErr, slice_set, slice_index, nat_lt, min};
ghost use Rattle.std.specs.FinMap as map;
ghost use Rattle.page_set.specs.Pages.{with_bytes};
ghost use Rattle.user_spec.specs.User.{UserState, need_of_user};
ghost use Rattle.user_spec.specs.Request.{number_of, args_of, stack_pointer, is_local_call, frame_word, frame_registers, buffer_of, buffer_address, has_buffer, has_frame_room, handed_bytes, asked_args, returned_pointer, call_request, fault_request, returned, entered, forked, with_value, with_brk, with_break, is_break, break_maps};
ghost use Rattle.user_spec.specs.Advance.{Walk, Done, advance, walked, grows, counted, stepped, request_of};
ghost use Rattle.user_spec.specs.Fits.{forwards, fits_answer, fits_buffer, fills, has_room_at};
ghost use Rattle.user_ctx.specs.Stopping.{StopsAt, Leads, EndsAs, limited, IsAtEcall};
ghost use Rattle.user_ctx.specs.Calling.{IsPlan, IsLocal, signal_of, AsksBy, is_calling, is_at, AsksCall};
ghost use Rattle.user_ctx.specs.Heap.{mapped_for};

use crate::heap::{self, HEAP_END};
use crate::plan::Plan;
use crate::{frame, step, steps};
use call_table::call::{BRK, FORK, GETPID, READ, SIGRETURN};
use call_table::error::{EFAULT, ENOSYS};
use call_table::limit::{PAGES, STEPS};
use call_table::signal::{SIGSEGV, SIGXCPU};
use call_table::{
    Answer, Bytes, Kind, ListOf, Need, NoMemory, RIGHT_READ, RIGHT_WRITE, Request, is_local,
    need_of,
};
use page_set::Pages;
use std::alloc::Global;
use std::marker::Model;
use user_spec::effect::Effect;
use user_spec::outcome::{Outcome, Stop};

/// A break is at most this address.
const HEAP_LIMIT: u32 = 0x7000_0000;

/// User processes, as a list.
pub type Users = ListOf<User>;

/// A user process. Contracts see it as its state.
#[derive(Drop)]
pub struct User {
    pc: u32,
    x: [u32; 32],
    pages: Pages,
    base: u32,
    brk: u32,
    pid: u32,
    count: u32,
    /// The pages of the heap below this one are mapped to be read and written.
    full: u32,
    /// From this page on none below the heap's limit is mapped.
    bare: u32,
}

impl Model for User {
    ghost use Rattle.std.specs.Prelude.{◌≡◌, ◌∷◌, ◌≤◌, drop};
    ghost use Rattle.call_table.specs.declared.limit.TheConstants.{STEPS};
    ghost use Rattle.user_ctx.specs.Heap.{IsHeap};
    ghost use Rattle.page_set.specs.Pages.{with_bytes};
    ghost use Rattle.user_spec.specs.User.{UserState, coded_user};

    ghost Value = { UserState };

    ghost coded = { coded_user };

    ghost view = { λ u. record { pc = u.pc; registers = drop 1 u.x; pages = u.pages; base = u.base; brk = u.brk; pid = u.pid; count = u.count } };

    ghost invariant = { λ u. (u.x ≡ 0 ∷ drop 1 u.x) × (u.count ≤ STEPS) × IsHeap u.base u.brk u.full u.bare u.pages };
}

/// The five words that follow one another in the registers from x10 on, and a sixth.
fn arguments(x: &[u32; 32]) -> [u32; 6]
    ensures { result ≡ slice_index x.now 10 ∷ slice_index x.now 11 ∷ slice_index x.now 12 ∷ slice_index x.now 13 ∷ slice_index x.now 14 ∷ slice_index x.now 15 ∷ [] }
{
    [x[10], x[11], x[12], x[13], x[14], x[15]]
}

/// Where fewer steps could be asked for than were, the last was the last of the process.
fn limited(outcome: Outcome, is_short: bool) -> Outcome
    ensures { result ≡ limited outcome is_short }
{
    match outcome {
        Outcome::Done if is_short => Outcome::Fault(SIGXCPU),
        _ => outcome,
    }
}

impl User {
    /// A process at its start.
    #[tactic(auto, using(crate::proofs::Rights::heap_new))]
    pub fn new(pc: u32, sp: u32, a0: u32, a1: u32, pages: Pages, base: u32) -> User
        requires base { base % 4096 ≡ 0 }
        requires limit { base ≤ 0x70000000 }
        ensures { result ≡ record { pc = pc; registers = slice_set (slice_set (slice_set (replicate 31 0) 1 sp) 9 a0) 10 a1; pages = pages; base = base; brk = base; pid = 0; count = 0 } }
    {
        let mut x = [0; 32];
        x[2] = sp;
        x[10] = a0;
        x[11] = a1;
        User {
            pc,
            x,
            pages,
            base,
            brk: base,
            pid: 0,
            count: 0,
            full: base / 4096,
            bare: HEAP_END,
        }
    }

    /// Gives the process its number.
    pub fn set_pid(&mut self, pid: u32)
        ensures { self.new ≡ record self.old { pid = pid } }
    {
        self.pid = pid;
    }

    /// The number of the process.
    pub fn pid(&self) -> u32
        ensures { result ≡ self.now.pid }
    {
        self.pid
    }

    /// How many steps it has made.
    pub fn count(&self) -> u32
        ensures is { result ≡ self.now.count }
        ensures most { result ≤ STEPS }
    {
        self.count
    }

    /// How many pages it has.
    pub fn need(&self) -> u32
        ensures { result ≡ need_of_user self.now }
    {
        self.pages.count()
    }

    // ---- steps

    /// Instructions alone until `n` were done, one was not, or the process made its last step.
    #[tactic(auto, using(crate::proofs::Walks::leads, crate::proofs::Walks::ends))]
    fn instructions(&mut self, n: u32) -> (u32, Outcome)
        ensures most { result.0 ≤ n }
        ensures went { Leads result.0 self.old self.new }
        ensures end { EndsAs result.1 result.0 n self.new }
    {
        let most = n.min(STEPS - self.count);
        let (went, outcome) = steps::run(&mut self.pc, &mut self.x, &mut self.pages, most);
        self.count += went;
        (went, limited(outcome, most < n))
    }

    /// One step: an instruction, or a call that ends where the process runs.
    pub fn step(&mut self) -> Stop
        ensures { stepped self.old ≡ record { stop = result; user = self.new } }
    {
        let (_, stop) = self.run(1);
        stop
    }

    /// Steps until so many went or one did not: how many went, and how the last one came out.
    #[tactic(auto, using(crate::proofs::Walks::walked_on, crate::proofs::Walks::walked_step, crate::proofs::Walks::walked_stop, crate::proofs::Walks::walked_whole))]
    pub fn run(&mut self, k: u32) -> (u32, Stop)
        ensures most { result.0 ≤ k }
        ensures went { walked k self.old ≡ record { went = result.0; user = self.new } }
        ensures whole { result.1 ≡ Stop.Went → result.0 ≡ k }
        ensures short { result.1 ≢ Stop.Went → result.0 < k }
        ensures stop { result.1 ≢ Stop.Went → StopsAt result.1 self.new }
    {
        let mut went = 0;
        for _i in 0..k {
            let (more, outcome) = self.instructions(k - went);
            went += more;
            match outcome {
                Outcome::Done => return (went, Stop::Went),
                Outcome::Fault(signal) => return (went, Stop::Fault(signal)),
                Outcome::Call => match self.local_step() {
                    Stop::Went => went += 1,
                    stop => return (went, stop),
                },
            }
        }
        (went, Stop::Went)
    }

    // ---- calls that end where the process runs

    /// The buffer of the call that the process is at.
    fn buffer(&self) -> Option<Need>
        ensures { result ≡ buffer_of self.now }
    {
        need_of(self.x[17], &arguments(&self.x), self.x[2])
    }

    fn has_buffer(&self) -> bool
        ensures { result ≡ has_buffer self.now }
    {
        match self.buffer() {
            None => true,
            Some(need) => frame::covers(&self.pages, need.addr, need.len, need.right),
        }
    }

    /// What the call answers, where it ends here.
    fn local_value(&self) -> Option<u32>
        requires { number_of self.now ≢ BRK }
        ensures { IsLocal result self.now }
    {
        let number = self.x[17];
        if number == GETPID {
            Some(self.pid)
        } else if is_local(number) {
            Some(ENOSYS.cast_unsigned())
        } else if !self.has_buffer() {
            Some(EFAULT.cast_unsigned())
        } else {
            None
        }
    }

    /// The return of a call: its value in a0, and the next place.
    fn resume(&mut self, value: u32)
        ensures { self.new ≡ with_value self.old value }
    {
        self.x[10] = value;
        self.pc = self.pc.wrapping_add(4);
    }

    /// The return of a call that was a step.
    fn finish(&mut self, value: u32)
        requires { self.old.count < STEPS }
        ensures { self.new ≡ counted (with_value self.old value) }
    {
        self.resume(value);
        self.count += 1;
    }

    /// The call that the process is at, where it ends here.
    #[tactic(auto, using(crate::proofs::Calls::local, crate::proofs::Calls::forwarded))]
    fn local_step(&mut self) -> Stop
        requires { IsAtEcall self.old }
        ensures { stepped self.old ≡ record { stop = result; user = self.new } }
    {
        if self.x[17] == BRK {
            return self.break_step();
        }
        match self.local_value() {
            Some(value) => {
                self.finish(value);
                Stop::Went
            }
            None => Stop::AtCall,
        }
    }

    /// Looks again from which page on none is mapped.
    #[tactic(auto, using(crate::proofs::Rights::lower_bare))]
    fn settle(&mut self)
        ensures { self.new ≡ self.old }
    {
        self.bare = heap::first_bare(&self.pages, self.base / 4096, self.bare);
    }

    /// What this break does.
    fn plan(&self, a: u32) -> Plan
        ensures { IsPlan result self.now a }
    {
        if a == 0 || a < self.base || a > HEAP_LIMIT {
            return Plan::Refused;
        }
        let end = heap::page_above(a);
        if end - self.base / 4096 > PAGES {
            return Plan::Refused;
        }
        let low = self.full.min(end);
        let lacking = end - low - heap::mapped_in(&self.pages, low, end);
        let gone = heap::mapped_in(&self.pages, end, self.bare.max(end));
        let count = (self.pages.count() - gone) as u64 + lacking as u64;
        if count > PAGES as u64 {
            Plan::Refused
        } else if lacking == 0 {
            Plan::Fits
        } else {
            Plan::Maps
        }
    }

    /// Moves the break, where that maps no page.
    fn take_break(&mut self, a: u32)
        requires { IsPlan Plan.Fits self.old a }
        ensures is { self.new ≡ with_break self.old a }
        ensures count { self.new.count ≡ self.old.count }
    {
        let end = heap::page_above(a);
        heap::set_heap(&mut self.pages, self.full.min(end), end, self.bare.max(end));
        self.brk = a;
        self.full = end;
        self.bare = end;
    }

    /// The return of a brk that was a step.
    fn finish_break(&mut self)
        requires { self.old.count < STEPS }
        ensures { self.new ≡ counted (with_brk self.old) }
    {
        let brk = self.brk;
        self.finish(brk);
    }

    /// Where the brk that the process is at wants the break.
    fn wanted_break(&self) -> u32
        ensures { result ≡ slice_index (args_of self.now) 0 }
    {
        self.x[10]
    }

    /// The brk that the process is at, where it maps no page.
    #[tactic(auto, using(crate::proofs::Calls::break_refused, crate::proofs::Calls::break_moved, crate::proofs::Calls::break_grows))]
    fn break_step(&mut self) -> Stop
        requires at { IsAtEcall self.old }
        requires brk { number_of self.old ≡ BRK }
        ensures { stepped self.old ≡ record { stop = result; user = self.new } }
    {
        self.settle();
        let a = self.wanted_break();
        match self.plan(a) {
            Plan::Refused => {
                self.finish_break();
                Stop::Went
            }
            Plan::Fits => {
                self.take_break(a);
                self.finish_break();
                Stop::Went
            }
            Plan::Maps => Stop::Grows,
        }
    }

    /// Maps the pages that a break wants. Where memory is not found nothing changes.
    #[tactic(auto, using(crate::proofs::Breaks::limits))]
    fn map_pages(&mut self, a: u32) -> Result<(), NoMemory>
        requires { is_break self.old a ≡ true }
        ensures ok { OnOk result (self.new ≡ mapped_for self.old a) }
        ensures err { OnErr result (self.new ≡ self.old) }
    {
        let end = heap::page_above(a);
        match heap::map_lacking(&mut self.pages, self.full.min(end), end) {
            Ok(()) => {
                let bare = self.bare.max(end);
                self.bare = bare;
                Ok(())
            }
            Err(e) => Err(e),
        }
    }

    /// The brk that the process is at as one step, which maps pages. Where memory is not found nothing changes.
    #[tactic(auto, using(crate::proofs::Breaks::fits_after, crate::proofs::Calls::grows_at_break, crate::proofs::Calls::grown))]
    pub fn grow(&mut self) -> Result<(), NoMemory>
        requires { grows self.old ≡ true }
        ensures ok { OnOk result (advance self.old ≡ Done self.new) }
        ensures err { OnErr result (self.new ≡ self.old) }
    {
        let a = self.wanted_break();
        match self.map_pages(a) {
            Err(e) => Err(e),
            Ok(()) => {
                self.take_break(a);
                self.finish_break();
                Ok(())
            }
        }
    }

    // ---- what it asks, and the return

    fn stack_pointer(&self) -> u32
        ensures { result ≡ stack_pointer self.now }
    {
        self.x[2]
    }

    /// The number of the call that it makes, where it is at one.
    pub fn number(&self) -> u32
        ensures { result ≡ number_of self.now }
    {
        self.x[17]
    }

    /// Whether the 132 bytes of a signal's frame can be written below the stack pointer.
    pub fn frame_room(&self) -> bool
        ensures { result ≡ has_frame_room self.now.pages (stack_pointer self.now) }
    {
        frame::has_room(&self.pages, self.stack_pointer())
    }

    /// Word `i` of the frame at the stack pointer.
    fn top_word(&self, i: u32) -> u32
        requires { i ≤ 32 }
        ensures { result ≡ frame_word self.now.pages (stack_pointer self.now) i }
    {
        frame::frame_word(&self.pages, self.stack_pointer(), i)
    }

    /// The bytes that the kernel is handed.
    fn handed_bytes(&self, alloc: Global) -> Result<Bytes, NoMemory>
        ensures { IfOk result (λ b. b ≡ handed_bytes self.now) }
    {
        match self.buffer() {
            None => Ok(Bytes::new(alloc)),
            Some(need) => {
                if need.right == RIGHT_READ && self.number() != SIGRETURN {
                    frame::read_bytes(alloc, &self.pages, need.addr, need.len)
                } else {
                    Ok(Bytes::new(alloc))
                }
            }
        }
    }

    /// The arguments that the kernel is handed.
    fn asked_args(&self) -> [u32; 6]
        ensures { result ≡ asked_args self.now }
    {
        let mut args = arguments(&self.x);
        if self.number() == SIGRETURN {
            args[0] = self.top_word(32);
        }
        args
    }

    /// The stack pointer after the return.
    fn returned_pointer(&self) -> u32
        ensures { result ≡ returned_pointer self.now }
    {
        if self.number() == SIGRETURN {
            self.top_word(2)
        } else {
            self.stack_pointer()
        }
    }

    fn returned_room(&self) -> bool
        ensures { result ≡ has_frame_room self.now.pages (returned_pointer self.now) }
    {
        frame::has_room(&self.pages, self.returned_pointer())
    }

    fn call_request(&self, alloc: Global) -> Result<Request, NoMemory>
        ensures { IfOk result (λ r. r ≡ call_request self.now) }
    {
        let bytes = self.handed_bytes(alloc)?;
        Ok(Request {
            number: self.number(),
            args: self.asked_args(),
            bytes,
            room: self.returned_room(),
        })
    }

    /// The signal of its fault, none at a forwarded call.
    #[tactic(auto, using(crate::proofs::Asking::asks_full))]
    fn signal(&self) -> Option<u8>
        requires { IsSome (request_of self.now) }
        ensures { AsksBy result self.now }
    {
        if self.count >= STEPS {
            return Some(SIGXCPU);
        }
        signal_of(step::next(self.pc, &self.x, &self.pages))
    }

    /// What it asks at a forwarded call or at a fault.
    #[tactic(auto, using(crate::proofs::Asking::asks_call, crate::proofs::Asking::asks_fault))]
    pub fn request(&self, alloc: Global) -> Result<Request, NoMemory>
        requires { IsSome (request_of self.now) }
        ensures { IfOk result (λ r. request_of self.now ≡ Some r) }
    {
        match self.signal() {
            None => Ok(self.call_request(alloc)?),
            Some(signal) => Ok(fault_request(alloc, signal)),
        }
    }

    // ---- what it can get

    /// Whether the call that the process is at does not end where it runs.
    fn is_forwarded(&self) -> bool
        ensures { result ≡ not (is_local_call self.now) }
    {
        if is_local(self.number()) {
            return false;
        }
        self.has_buffer()
    }

    /// Whether it is at a forwarded call.
    #[tactic(auto, using(crate::proofs::Fitting::full_forwards, crate::proofs::Asking::not_at_full))]
    pub fn is_at_call(&self) -> bool
        ensures forwards { result ≡ forwards (request_of self.now) }
        ensures at { result ≡ is_at (advance self.now) }
    {
        if self.count >= STEPS {
            return false;
        }
        if !is_calling(step::next(self.pc, &self.x, &self.pages)) {
            return false;
        }
        self.is_forwarded()
    }

    /// What it asks at a forwarded call. None exactly where it is at none.
    pub fn call(&self, alloc: Global) -> Result<Option<Request>, NoMemory>
        ensures { IfOk result (λ asked. AsksCall asked self.now) }
    {
        if !self.is_at_call() {
            return Ok(None);
        }
        let request = self.call_request(alloc)?;
        Ok(Some(request))
    }

    /// Whether so many bytes fit the buffer that the call which the process is at writes.
    fn fits_buffer(&self, len: usize) -> bool
        ensures { result ≡ fits_buffer (number_of self.now) (buffer_of self.now) len }
    {
        match self.buffer() {
            None => len == 0,
            Some(need) => {
                if len == 0 {
                    return true;
                }
                if need.right != RIGHT_WRITE {
                    return false;
                }
                fills(self.number() == READ, len, need.len as usize)
            }
        }
    }

    /// Whether the call that the process is at can get this answer.
    pub fn fits_answer(&self, answer: &Answer) -> bool
        ensures { result ≡ fits_answer self.now answer.now }
    {
        let number = self.number();
        let len = answer.bytes.len();
        match answer.kind {
            Kind::Plain => number != SIGRETURN && self.fits_buffer(len),
            Kind::Fork => number == FORK && (answer.value > 0 && len == 0),
            Kind::Return => number == SIGRETURN && len == 0,
        }
    }

    /// Whether there is room for a signal's frame after the return of the call that the process is at, with this answer.
    #[tactic(auto, using(crate::proofs::Fitting::room_returned))]
    pub fn room_after(&self, answer: &Answer) -> bool
        requires { fits_answer self.now answer.now ≡ true }
        ensures { result ≡ has_room_at (returned self.now answer.now) }
    {
        let _answer = answer;
        self.returned_room()
    }

    // ---- the return

    /// The pc and the registers of the frame at the stack pointer.
    fn restore(&mut self)
        ensures { self.new ≡ record self.old { pc = frame_word self.old.pages (stack_pointer self.old) 0; registers = frame_registers self.old.pages (stack_pointer self.old) 1 31 } }
    {
        let at = self.stack_pointer();
        self.pc = frame::frame_word(&self.pages, at, 0);
        frame::load_registers(&mut self.x, &self.pages, at);
    }

    /// Where the bytes of an answer go.
    fn buffer_address(&self) -> u32
        ensures { result ≡ buffer_address (buffer_of self.now) }
    {
        match self.buffer() {
            None => 0,
            Some(need) => need.addr,
        }
    }

    /// Writes the bytes of an answer at the buffer.
    fn fill_buffer(&mut self, bytes: &[u8])
        ensures { self.new ≡ record self.old { pages = with_bytes self.old.pages (buffer_address (buffer_of self.old)) bytes.now } }
    {
        let addr = self.buffer_address();
        self.pages.write(addr, bytes);
    }

    /// The return of the forwarded call that the process is at.
    pub fn give(&mut self, answer: &Answer)
        ensures { self.new ≡ returned self.old answer.now }
    {
        let value = answer.value.cast_unsigned();
        match answer.kind {
            Kind::Plain => {
                self.fill_buffer(answer.bytes.as_slice());
                self.resume(value);
            }
            Kind::Fork => self.resume(value),
            Kind::Return => self.restore(),
        }
    }

    /// Enters the handler of a signal, with its frame pushed. False exactly where there is no room for the frame, and then
    /// nothing changes.
    pub fn push_frame(&mut self, signal: u8, handler: u32, restorer: u32, mask: u32) -> bool
        ensures room { result ≡ has_frame_room self.old.pages (stack_pointer self.old) }
        ensures yes { result ≡ true → self.new ≡ entered self.old signal handler restorer mask }
        ensures no { result ≡ false → self.new ≡ self.old }
    {
        if !self.frame_room() {
            return false;
        }
        self.enter(signal, handler, restorer, mask);
        true
    }

    fn enter(&mut self, signal: u8, handler: u32, restorer: u32, mask: u32)
        ensures { self.new ≡ entered self.old signal handler restorer mask }
    {
        let at = frame::frame_at(self.x[2]);
        frame::write_frame(&mut self.pages, at, self.pc, &self.x, mask);
        self.x[1] = restorer;
        self.x[2] = at;
        self.x[10] = signal as u32;
        self.pc = handler;
    }

    /// The child of a process at a fork.
    pub fn fork_copy(&self, child: u32) -> Result<User, NoMemory>
        ensures { IfOk result (λ u. u ≡ forked self.now child) }
    {
        let mut copy = self.copy()?;
        copy.resume(0);
        copy.set_pid(child);
        Ok(copy)
    }

    /// An equal process.
    pub fn copy(&self) -> Result<User, NoMemory>
        ensures { IfOk result (λ u. u ≡ self.now) }
    {
        match self.pages.copy() {
            Err(_) => Err(NoMemory),
            Ok(pages) => Ok(User {
                pc: self.pc,
                x: self.x,
                pages,
                base: self.base,
                brk: self.brk,
                pid: self.pid,
                count: self.count,
                full: self.full,
                bare: self.bare,
            }),
        }
    }
}

/// The request of a fault.
fn fault_request(alloc: Global, signal: u8) -> Request
    ensures { result ≡ fault_request signal }
{
    Request {
        number: 0,
        args: [signal as u32, 0, 0, 0, 0, 0],
        bytes: Bytes::new(alloc),
        room: false,
    }
}

/// Whether so many bytes fill a buffer: those of a read may be fewer.
fn fills(is_read: bool, len: usize, room: usize) -> bool
    ensures { result ≡ fills is_read len room }
{
    if is_read { len <= room } else { len == room }
}

/// Whether an instruction is an environment call.
fn is_calling(effect: Effect) -> bool
    ensures { result ≡ is_calling effect }
{
    match effect {
        Effect::Calls => true,
        Effect::Raises(_) => false,
        Effect::Loads { .. } => false,
        Effect::Stores { .. } => false,
        Effect::Sets { .. } => false,
    }
}

/// The signal of an instruction that does not go, none where it is a call.
fn signal_of(effect: Effect) -> Option<u8>
    ensures { result ≡ signal_of effect }
{
    match effect {
        Effect::Calls => None,
        Effect::Raises(signal) => Some(signal),
        Effect::Loads { .. } => Some(SIGSEGV),
        Effect::Stores { .. } => Some(SIGSEGV),
        Effect::Sets { .. } => Some(SIGSEGV),
    }
}
