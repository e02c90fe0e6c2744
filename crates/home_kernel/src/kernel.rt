// The kernel: all calls, the signals and the ends of processes.
ghost use Rattle.std.specs.Prelude.{◌≡◌, ℕ, ◌+◌, ◌-◌, ◌<◌, ◌≤◌, Some, None, true, false, IsTrue, IsSome, OnErr, OnOk, IfOk, length, is_some, is_none};
ghost use Rattle.id_table.specs.Places.{at_id};
ghost use Rattle.fs_memory.specs.Files.{named_files};
ghost use Rattle.fd_table.specs.Descriptors.{look_at};
ghost use Rattle.proc_tree.specs.Tree.{zombie_at};
ghost use Rattle.kernel_spec.specs.Io.{open_result, close_result, seek_result, dup_result, unlink_result, pipe_result};
ghost use Rattle.kernel_spec.specs.Processes.{heeding, kill_result, sigact_result, sigmask_result};
ghost use Rattle.kernel_spec.specs.Kernel.{KernelState, no_process, given, end_at, is_live, has_room, answers, answers_io, answers_done, value_answer, deliverable, with_end, exited, raised_by_end, with_raised, after_taken, take_result, fed};
ghost use Rattle.kernel_spec.specs.Calls.{call_result, read_in, write_in, wait_answer, without_zombie, read_input, read_pipe, read_result, write_file, write_terminal, write_pipe, write_result, fork_result, wait_result, sigreturn_result, answers_given};
ghost use Rattle.home_kernel.specs.Serving.{Serves, GivesAfter, Launches, IsLive, Takes, is_poked};

use crate::answers::{
    Served, bytes_answer, child_answer, done, fork_answer, status_bytes, value, value_answer,
};
use crate::io::Io;
use crate::processes::Processes;
use crate::terminal::show;
use crate::typed::Typed;
use call_table::call::{
    CLOSE, DUP, EXIT, FORK, GETPPID, KILL, LSEEK, OPEN, PIPE, READ, SIGACT, SIGMASK, SIGRETURN,
    UNLINK, WAIT, WRITE, YIELD,
};
use call_table::error::{EAGAIN, EBADF, ECHILD, EFBIG, EINTR, ENOSYS, EPIPE};
use call_table::limit::FILE_BYTES;
use call_table::signal::SIGPIPE;
use call_table::{Answer, Bytes, End, Kind, NamedFiles, NoMemory, Request, Taken};
use fd_table::{Look, Target};
use std::alloc::Global;
use std::marker::Model;

/// How a signal was taken, none where there was none, and a live parent at which a death raised 17 that it does not ignore.
#[derive(Clone, Copy, Debug, PartialEq, Eq)]
pub struct Took {
    pub taken: Option<Taken>,
    pub raised: Option<u32>,
}

/// The home's side of all processes, seen as the state of the kernel.
#[derive(Drop)]
pub struct Kernel {
    io: Io,
    terminal: Bytes,
    typed: Typed,
    processes: Processes,
}

impl Model for Kernel {
    ghost use Rattle.kernel_spec.specs.Kernel.{KernelState, coded_kernel};
    ghost use Rattle.home_kernel.specs.Rules.{IsKernel};
    ghost use Rattle.home_kernel.specs.Serving.{kernel_of};

    ghost Value = { KernelState };

    ghost coded = { coded_kernel };

    ghost view = { λ k. kernel_of k.io k.terminal k.typed k.processes };

    ghost invariant = { λ k. IsKernel (kernel_of k.io k.terminal k.typed k.processes) };
}

impl Kernel {
    /// No process, no file, and nothing written or typed.
    pub fn new(alloc: Global) -> Kernel
        ensures { result ≡ no_process }
    {
        Kernel {
            io: Io::new(alloc),
            terminal: Bytes::new(alloc),
            typed: Typed::new(alloc),
            processes: Processes::new(alloc),
        }
    }

    /// Whether one more process can be launched: at most 64 are live or zombies, and pids go to 32,767.
    pub fn can_launch(&self) -> bool
        ensures { result ≡ has_room self.now }
    {
        self.processes.next_pid(0).is_some()
    }

    /// One more process with the terminal's descriptors: its pid, None exactly where there is no room. Want of memory changes nothing.
    pub fn launch(&mut self) -> Result<Option<u32>, NoMemory>
        ensures ok { IfOk result (λ pid. Launches pid self.old self.new) }
        ensures err { OnErr result (self.new ≡ self.old) }
    {
        let Some(pid) = self.processes.launch()? else {
            return Ok(None);
        };
        match self.io.launch(pid) {
            Ok(()) => Ok(Some(pid)),
            Err(e) => {
                self.processes.take_back(0);
                Err(e)
            }
        }
    }

    /// Ends a live process, whose descriptors are closed. The answer is a live parent that does not ignore the 17 that is raised at it.
    fn end(&mut self, pid: u32, end: End) -> Option<u32>
        requires { IsLive self.old pid }
        ensures is { self.new ≡ with_end self.old pid end }
        ensures raised { result ≡ raised_by_end self.old pid }
    {
        self.io.close_all(pid);
        self.processes.end(pid, end)
    }

    /// The end of a live process by a call.
    fn exit(&mut self, alloc: Global, pid: u32, code: u32) -> Served
        requires { IsLive self.old pid }
        ensures { Serves result (Some (exited self.old pid code)) self.old self.new }
    {
        let raised = self.end(pid, End::Exit((code % 256) as u8));
        Served::Done {
            answer: value_answer(alloc, 0),
            raised,
        }
    }

    /// A child with its parent's descriptions, mask and actions.
    fn fork(&mut self, alloc: Global, pid: u32) -> Result<Served, NoMemory>
        requires { IsLive self.old pid }
        ensures ok { IfOk result (λ served. Serves served (Some (fork_result self.old pid)) self.old self.new) }
        ensures err { OnErr result (self.new ≡ self.old) }
    {
        let Some(child) = self.processes.fork(pid)? else {
            return Ok(value(alloc, EAGAIN));
        };
        match self.io.fork(pid, child) {
            Ok(()) => Ok(done(fork_answer(alloc, child))),
            Err(e) => {
                self.processes.take_back(pid);
                Err(e)
            }
        }
    }

    /// Takes a zombie out, and tells how it ended.
    fn reap(&mut self, alloc: Global, child: u32, status: u32) -> Result<Answer, NoMemory>
        requires { zombie_at self.old.processes.tree child ≡ true }
        ensures answer { IfOk result (λ answer. answer ≡ wait_answer self.old child status) }
        ensures ok { OnOk result (self.new ≡ without_zombie self.old child) }
        ensures err { OnErr result (self.new ≡ self.old) }
    {
        let end = self.processes.ended(child);
        let bytes = status_bytes(alloc, status, end)?;
        self.processes.reap(child);
        Ok(child_answer(child, bytes))
    }

    /// The lowest zombie child, which goes. Without one a process with children waits.
    fn wait(&mut self, alloc: Global, pid: u32, status: u32) -> Result<Served, NoMemory>
        ensures ok { IfOk result (λ served. Serves served (wait_result self.old pid status) self.old self.new) }
        ensures err { OnErr result (self.new ≡ self.old) }
    {
        match self.processes.zombie_of(pid) {
            Some(child) => {
                let answer = self.reap(alloc, child, status)?;
                Ok(done(answer))
            }
            None => {
                if self.processes.has_child(pid) {
                    return Ok(Served::Blocks);
                }
                Ok(value(alloc, ECHILD))
            }
        }
    }

    /// A read of the terminal's input, which blocks where nothing was typed until the input ends.
    fn read_input(&mut self, alloc: Global, len: u32) -> Result<Served, NoMemory>
        ensures ok { IfOk result (λ served. Serves served (read_input self.old len) self.old self.new) }
        ensures err { OnErr result (self.new ≡ self.old) }
    {
        if self.typed.len() == 0 {
            if self.typed.has_ended() {
                return Ok(value(alloc, 0));
            }
            return Ok(Served::Blocks);
        }
        let bytes = self.typed.take(alloc, len)?;
        Ok(done(bytes_answer(bytes)))
    }

    /// A read of a pipe, which blocks where it is empty while an end that writes is held.
    fn read_pipe(&mut self, alloc: Global, pipe: u32, len: u32) -> Result<Served, NoMemory>
        ensures ok { IfOk result (λ served. Serves served (read_pipe self.old pipe len) self.old self.new) }
        ensures err { OnErr result (self.new ≡ self.old) }
    {
        if self.io.piped(pipe) == 0 {
            if self.io.ends(Target::WriteEnd(pipe)) == 0 {
                return Ok(value(alloc, 0));
            }
            return Ok(Served::Blocks);
        }
        let bytes = self.io.take(pipe, len)?;
        Ok(done(bytes_answer(bytes)))
    }

    /// A write to a pipe, which blocks where it is full. Without an end that reads it raises 13 at the caller.
    fn write_pipe(&mut self, alloc: Global, pid: u32, pipe: u32, bytes: &[u8]) -> Served
        ensures { Serves result (write_pipe self.old pid pipe bytes.now) self.old self.new }
    {
        if self.io.ends(Target::ReadEnd(pipe)) == 0 {
            self.processes.raise(pid, SIGPIPE);
            return value(alloc, EPIPE);
        }
        if self.io.space(pipe) == 0 {
            return Served::Blocks;
        }
        let count = self.io.put(pipe, bytes);
        value(alloc, count as i32)
    }

    /// A read of a descriptor.
    fn read(&mut self, alloc: Global, pid: u32, fd: u32, len: u32) -> Result<Served, NoMemory>
        ensures ok { IfOk result (λ served. Serves served (read_result self.old pid fd len) self.old self.new) }
        ensures err { OnErr result (self.new ≡ self.old) }
    {
        let Some(look) = self.io.look(pid, fd) else {
            return Ok(value(alloc, EBADF));
        };
        if look.rights % 2 != 1 {
            return Ok(value(alloc, EBADF));
        }
        if len == 0 {
            return Ok(value(alloc, 0));
        }
        match look.target {
            Target::File(id) => {
                let bytes = self.io.read(pid, fd, look, id, len)?;
                Ok(done(bytes_answer(bytes)))
            }
            Target::TermIn => Ok(self.read_input(alloc, len)?),
            Target::TermOut => Ok(value(alloc, EBADF)),
            Target::ReadEnd(pipe) => Ok(self.read_pipe(alloc, pipe, len)?),
            Target::WriteEnd(_) => Ok(value(alloc, EBADF)),
        }
    }

    /// A write into a file.
    fn write_file(
        &mut self,
        pid: u32,
        fd: u32,
        look: Look,
        id: u32,
        bytes: &[u8],
    ) -> Result<i32, NoMemory>
        requires here { look_at self.old.io.fds pid fd ≡ Some look }
        requires file { look.target ≡ Target.File id }
        ensures ok { IfOk result (λ value. write_file self.old pid fd id look.offset bytes.now ≡ answers self.new value) }
        ensures err { OnErr result (self.new ≡ self.old) }
    {
        if look.offset >= FILE_BYTES {
            return Ok(EFBIG);
        }
        let count = self.io.write(pid, fd, look, id, bytes)?;
        Ok(count as i32)
    }

    /// A write to the terminal.
    fn write_terminal(&mut self, bytes: &[u8]) -> Result<i32, NoMemory>
        ensures ok { IfOk result (λ value. write_terminal self.old bytes.now ≡ answers self.new value) }
        ensures err { OnErr result (self.new ≡ self.old) }
    {
        let value = show(&mut self.terminal, bytes)?;
        Ok(value)
    }

    /// A write to a descriptor.
    fn write(&mut self, alloc: Global, pid: u32, fd: u32, bytes: &[u8]) -> Result<Served, NoMemory>
        ensures ok { IfOk result (λ served. Serves served (write_result self.old pid fd bytes.now) self.old self.new) }
        ensures err { OnErr result (self.new ≡ self.old) }
    {
        let Some(look) = self.io.look(pid, fd) else {
            return Ok(value(alloc, EBADF));
        };
        if look.rights / 2 % 2 != 1 {
            return Ok(value(alloc, EBADF));
        }
        if bytes.is_empty() {
            return Ok(value(alloc, 0));
        }
        match look.target {
            Target::File(id) => {
                let written = self.write_file(pid, fd, look, id, bytes)?;
                Ok(value(alloc, written))
            }
            Target::TermOut => {
                let written = self.write_terminal(bytes)?;
                Ok(value(alloc, written))
            }
            Target::TermIn => Ok(value(alloc, EBADF)),
            Target::ReadEnd(_) => Ok(value(alloc, EBADF)),
            Target::WriteEnd(pipe) => Ok(self.write_pipe(alloc, pid, pipe, bytes)),
        }
    }

    /// Opens a file, and makes it where the flags ask for that.
    fn open(
        &mut self,
        alloc: Global,
        pid: u32,
        len: u32,
        name: &[u8],
        flags: u32,
    ) -> Result<Served, NoMemory>
        requires { IsLive self.old pid }
        ensures ok { IfOk result (λ served. Serves served (Some (answers_io self.old (open_result self.old.io pid len name.now flags))) self.old self.new) }
        ensures err { OnErr result (self.new ≡ self.old) }
    {
        let opened = self.io.open(pid, len, name, flags)?;
        Ok(value(alloc, opened))
    }

    /// Closes a descriptor.
    fn close(&mut self, pid: u32, fd: u32) -> i32
        ensures is { answers_io self.old (close_result self.old.io pid fd) ≡ answers self.new result }
    {
        self.io.close(pid, fd)
    }

    /// Moves the offset of a descriptor's description.
    fn seek(&mut self, pid: u32, fd: u32, off: u32, whence: u32) -> i32
        ensures is { answers_io self.old (seek_result self.old.io pid fd off whence) ≡ answers self.new result }
    {
        self.io.seek(pid, fd, off, whence)
    }

    /// Shares a descriptor's description.
    fn dup(&mut self, pid: u32, fd: u32) -> i32
        ensures is { answers_io self.old (dup_result self.old.io pid fd) ≡ answers self.new result }
    {
        self.io.dup(pid, fd)
    }

    /// Takes the name from a file.
    fn unlink(&mut self, len: u32, name: &Bytes) -> i32
        ensures is { answers_io self.old (unlink_result self.old.io len name.now) ≡ answers self.new result }
    {
        self.io.unlink(len, name.as_slice())
    }

    /// Makes a pipe with two ends.
    fn pipe(&mut self, alloc: Global, pid: u32) -> Result<Served, NoMemory>
        requires { IsLive self.old pid }
        ensures ok { IfOk result (λ served. Serves served (Some (answers_given self.old (pipe_result self.old.io pid))) self.old self.new) }
        ensures err { OnErr result (self.new ≡ self.old) }
    {
        let (value, bytes) = self.io.pipe(alloc, pid)?;
        Ok(done(Answer {
            value,
            bytes,
            kind: Kind::Plain,
        }))
    }

    /// Raises a signal at a process by a call.
    fn kill(&mut self, alloc: Global, pid: u32, target: u32, signal: u32) -> Served
        ensures { Serves result (Some (answers_done self.old (kill_result self.old.processes pid target signal))) self.old self.new }
    {
        let (value, raised) = self.processes.kill(pid, target, signal);
        Served::Done {
            answer: value_answer(alloc, value),
            raised,
        }
    }

    /// Sets the action for a signal.
    fn sigact(
        &mut self,
        alloc: Global,
        pid: u32,
        signal: u32,
        handler: u32,
        restorer: u32,
    ) -> Served
        ensures { Serves result (Some (answers_done self.old (sigact_result self.old.processes pid signal handler restorer))) self.old self.new }
    {
        let set = self.processes.sigact(pid, signal, handler, restorer);
        value(alloc, set)
    }

    /// The return from a handler, after which the mask is that of its frame.
    fn sigreturn(&mut self, alloc: Global, pid: u32, mask: u32) -> Served
        ensures { Serves result (Some (sigreturn_result self.old pid mask)) self.old self.new }
    {
        let _old = self.processes.set_mask(pid, mask);
        done(Answer {
            value: 0,
            bytes: Bytes::new(alloc),
            kind: Kind::Return,
        })
    }

    /// Sets the mask. The value is the old one.
    fn sigmask(&mut self, alloc: Global, pid: u32, mask: u32) -> Served
        ensures { Serves result (Some (answers_done self.old (sigmask_result self.old.processes pid mask))) self.old self.new }
    {
        let old = self.processes.set_mask(pid, mask);
        value(alloc, old as i32)
    }

    /// A call of a live process by its number.
    #[tactic(auto, unfolding(kernel_spec::specs::Calls::call_row))]
    fn call(&mut self, alloc: Global, pid: u32, request: &Request) -> Result<Served, NoMemory>
        requires { IsLive self.old pid }
        ensures ok { IfOk result (λ served. Serves served (call_result self.old pid request.now) self.old self.new) }
        ensures err { OnErr result (self.new ≡ self.old) }
    {
        let (a, b, c) = (request.args[0], request.args[1], request.args[2]);
        match request.number {
            EXIT => Ok(self.exit(alloc, pid, a)),
            GETPPID => Ok(value(alloc, self.processes.parent(pid).cast_signed())),
            FORK => Ok(self.fork(alloc, pid)?),
            WAIT => Ok(self.wait(alloc, pid, a)?),
            OPEN => Ok(self.open(alloc, pid, b, request.bytes.as_slice(), c)?),
            CLOSE => Ok(value(alloc, self.close(pid, a))),
            READ => Ok(self.read(alloc, pid, a, c)?),
            WRITE => Ok(self.write(alloc, pid, a, request.bytes.as_slice())?),
            LSEEK => Ok(value(alloc, self.seek(pid, a, b, c))),
            PIPE => Ok(self.pipe(alloc, pid)?),
            DUP => Ok(value(alloc, self.dup(pid, a))),
            UNLINK => Ok(value(alloc, self.unlink(b, &request.bytes))),
            KILL => Ok(self.kill(alloc, pid, a, b)),
            SIGACT => Ok(self.sigact(alloc, pid, a, b, c)),
            SIGRETURN => Ok(self.sigreturn(alloc, pid, a)),
            SIGMASK => Ok(self.sigmask(alloc, pid, a)),
            YIELD => Ok(value(alloc, 0)),
            _ => Ok(value(alloc, ENOSYS)),
        }
    }

    /// A call of a live process by its number. A call that blocks and want of memory change nothing. A fork gives one pid, and no other call
    /// gives or takes one.
    pub fn serve(&mut self, alloc: Global, pid: u32, request: &Request) -> Result<Served, NoMemory>
        requires { IsLive self.old pid }
        ensures ok { IfOk result (λ served. Serves served (call_result self.old pid request.now) self.old self.new) }
        ensures given { IfOk result (λ served. GivesAfter served (given self.old) (given self.new)) }
        ensures err { OnErr result (self.new ≡ self.old) }
    {
        let served = self.call(alloc, pid, request)?;
        Ok(served)
    }

    /// Whether a wait would block.
    fn wait_blocks(&self, pid: u32) -> bool
        ensures { (status : ℕ) → result ≡ is_none (wait_result self.now pid status) }
    {
        self.processes.zombie_of(pid).is_none() && self.processes.has_child(pid)
    }

    /// Whether a read of what a descriptor stands for would block.
    fn read_in_blocks(&self, pid: u32, fd: u32, look: Look, len: u32) -> bool
        ensures { result ≡ is_none (read_in look.target look.offset self.now pid fd len) }
    {
        match look.target {
            Target::File(_) => false,
            Target::TermIn => self.typed.len() == 0 && !self.typed.has_ended(),
            Target::TermOut => false,
            Target::ReadEnd(pipe) => {
                self.io.piped(pipe) == 0 && self.io.ends(Target::WriteEnd(pipe)) != 0
            }
            Target::WriteEnd(_) => false,
        }
    }

    /// Whether a read would block.
    fn read_blocks(&self, pid: u32, fd: u32, len: u32) -> bool
        ensures { result ≡ is_none (read_result self.now pid fd len) }
    {
        let Some(look) = self.io.look(pid, fd) else {
            return false;
        };
        if look.rights % 2 != 1 {
            return false;
        }
        if len == 0 {
            return false;
        }
        self.read_in_blocks(pid, fd, look, len)
    }

    /// Whether a write to what a descriptor stands for would block.
    fn write_in_blocks(&self, pid: u32, fd: u32, look: Look, bytes: &[u8]) -> bool
        ensures { result ≡ is_none (write_in look.target look.offset self.now pid fd bytes.now) }
    {
        match look.target {
            Target::WriteEnd(pipe) => {
                self.io.ends(Target::ReadEnd(pipe)) != 0 && self.io.space(pipe) == 0
            }
            Target::File(_) => false,
            Target::TermIn => false,
            Target::TermOut => false,
            Target::ReadEnd(_) => false,
        }
    }

    /// Whether a write would block.
    fn write_blocks(&self, pid: u32, fd: u32, bytes: &[u8]) -> bool
        ensures { result ≡ is_none (write_result self.now pid fd bytes.now) }
    {
        let Some(look) = self.io.look(pid, fd) else {
            return false;
        };
        if look.rights / 2 % 2 != 1 {
            return false;
        }
        if bytes.is_empty() {
            return false;
        }
        self.write_in_blocks(pid, fd, look, bytes)
    }

    /// Whether a call would block: exactly where `serve` would answer that it does.
    #[tactic(auto, unfolding(kernel_spec::specs::Calls::call_row), using(kernel_spec::proofs::Blocking::never_blocks))]
    pub fn blocks(&self, pid: u32, request: &Request) -> bool
        ensures { result ≡ is_none (call_result self.now pid request.now) }
    {
        match request.number {
            WAIT => self.wait_blocks(pid),
            READ => self.read_blocks(pid, request.args[0], request.args[2]),
            WRITE => self.write_blocks(pid, request.args[0], request.bytes.as_slice()),
            _ => false,
        }
    }

    /// Breaks off a call that blocks: its answer. Nothing changes.
    pub fn break_call(&mut self, alloc: Global, _pid: u32, _request: &Request) -> Answer
        ensures answer { result ≡ value_answer EINTR }
        ensures same { self.new ≡ self.old }
    {
        value_answer(alloc, EINTR)
    }

    /// Ends a live process by the signal of its fault. The answer is a live parent that does not ignore the 17 that is raised at it.
    pub fn fall(&mut self, pid: u32, signal: u8) -> Option<u32>
        requires { IsLive self.old pid }
        ensures raised { result ≡ raised_by_end self.old pid }
        ensures is { self.new ≡ with_end self.old pid (End.Signal signal) }
    {
        self.end(pid, End::Signal(signal))
    }

    /// A death by a signal that was taken ends the process. The answer is as of an end.
    fn after_taken(&mut self, pid: u32, taken: Taken) -> Option<u32>
        requires { IsLive self.old pid }
        ensures { after_taken self.old pid taken ≡ record { kernel = self.new; taken = taken; raised = result } }
    {
        match taken {
            Taken::Dies(signal) => self.end(pid, End::Signal(signal)),
            Taken::Enters { .. } => None,
        }
    }

    /// Takes the lowest signal that a process can take. None exactly where it is not live or can take none. A handler without room is death by 11.
    pub fn take(&mut self, pid: u32, room: bool) -> Took
        ensures { Takes result (take_result self.old pid room) self.old self.new }
    {
        let Some(taken) = self.processes.take(pid, room) else {
            return Took {
                taken: None,
                raised: None,
            };
        };
        let raised = self.after_taken(pid, taken);
        Took {
            taken: Some(taken),
            raised,
        }
    }

    /// Raises a signal at a process. True exactly where it is live, does not ignore the signal, and can take a signal afterwards.
    pub fn raise(&mut self, pid: u32, signal: u8) -> bool
        ensures is { self.new ≡ with_raised self.old pid signal }
        ensures poked { result ≡ is_poked self.old pid signal }
    {
        let heeds = self.processes.heeding(pid, signal).is_some();
        self.processes.raise(pid, signal);
        heeds && self.processes.deliverable(pid).is_some()
    }

    /// The process, where it is live and does not ignore the signal.
    pub fn heeding(&self, pid: u32, signal: u8) -> Option<u32>
        ensures { result ≡ heeding self.now.processes pid signal }
    {
        self.processes.heeding(pid, signal)
    }

    /// The lowest signal that a process can take. None exactly where it is not live or can take none.
    pub fn deliverable(&self, pid: u32) -> Option<u8>
        ensures { result ≡ deliverable self.now pid }
    {
        self.processes.deliverable(pid)
    }

    /// How a process ended: None where it is live or was never given.
    pub fn ended(&self, pid: u32) -> Option<End>
        ensures { result ≡ end_at self.now pid }
    {
        self.processes.ended(pid)
    }

    /// Whether a process was given and has not ended.
    pub fn live(&self, pid: u32) -> bool
        ensures { result ≡ is_live self.now pid }
    {
        self.processes.live(pid)
    }

    /// How many pids were given.
    pub fn given(&self) -> u32
        ensures { result ≡ given self.now }
    {
        self.processes.given()
    }

    /// More is typed at the terminal. After the end of the input nothing changes, nor at want of memory.
    pub fn feed(&mut self, bytes: &[u8]) -> Result<(), NoMemory>
        ensures ok { OnOk result (self.new ≡ record self.old { input = fed bytes.now self.old.input }) }
        ensures err { OnErr result (self.new ≡ self.old) }
    {
        self.typed.feed(bytes)?;
        Ok(())
    }

    /// Nothing more is typed.
    pub fn end_input(&mut self)
        ensures { self.new ≡ record self.old { input = record self.old.input { ended = true } } }
    {
        self.typed.end();
    }

    /// What was written to the terminal.
    pub fn terminal(&self) -> &[u8]
        ensures { result.now ≡ self.now.terminal }
    {
        self.terminal.as_slice()
    }

    /// All named files, by the bytes of their names.
    pub fn named_files(&self) -> Result<NamedFiles, NoMemory>
        ensures { IfOk result (λ list. list ≡ named_files self.now.io.files) }
    {
        self.io.named()
    }
}
