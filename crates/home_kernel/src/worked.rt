// Calls of a process of one kernel, each with the value that it is to have.
use crate::answers::Served;
use crate::kernel::Kernel;
use call_table::call::{
    CLOSE, DUP, EXIT, FORK, GETPPID, KILL, LSEEK, OPEN, PIPE, READ, SIGACT, SIGMASK, SIGRETURN,
    UNLINK, WAIT, WRITE, YIELD,
};
use call_table::{Answer, Bytes, End, Request, Taken};
use std::alloc::Global;
use std::process::Abort;
use std::test::Fail;

/// A call of a process.
#[derive(Clone, Copy)]
pub(crate) enum Call {
    Exit(u32),
    /// A name and flags.
    Open(&'static [u8], u32),
    /// The same, with a name of so many letters, of which 65 at most are handed over.
    OpenLong(u32, u32),
    Close(u32),
    /// A descriptor, a length, and the bytes that are to come.
    Read(u32, u32, &'static [u8]),
    Write(u32, &'static [u8]),
    /// A descriptor, a distance, and from where.
    Seek(u32, u32, u32),
    Dup(u32),
    Unlink(&'static [u8]),
    Yield,
    /// One more process, which makes the next calls: its pid.
    Launch,
    /// The process of this pid makes the next calls.
    By(u32),
    /// The process that makes the calls falls by signal 11.
    Fall,
    /// How the process of this pid ended.
    Ended(u32),
    Getppid,
    Fork,
    /// An address, and the bytes that are to come.
    Wait(u32, &'static [u8]),
    /// The bytes that are to come.
    Pipe(&'static [u8]),
    /// A pid and a signal.
    Kill(u32, u32),
    /// A signal, a handler and a restorer.
    Sigact(u32, u32, u32),
    Sigreturn(u32),
    Sigmask(u32),
    /// A signal raised from outside: 1 where the process has one to take afterwards.
    Raise(u32, u8),
    /// The process takes its lowest signal, with room for a frame or without.
    Take(bool),
    /// The lowest signal that the process of this pid can take.
    Deliverable(u32),
    /// The other process at which the last call raised a signal.
    Raised,
}

use Call::*;

/// Calls, one after the other, each with the value that it is to have.
pub(crate) type Calls<'a> = &'a [(Call, i32)];

/// The value of a read whose bytes are not those that were to come.
pub(crate) const OTHER_BYTES: i32 = -1_000;

/// The value of a call that blocks.
pub(crate) const BLOCKS: i32 = -1_001;

/// The value of a call of a process that is not live.
pub(crate) const NO_CALL: i32 = -1_002;

/// No process can be launched, or it has not ended.
pub(crate) const NONE: i32 = -1_003;

/// This and its signal is how a process ended that fell, or a signal that a process dies of.
pub(crate) const SIGNAL: i32 = 1_000;

/// This and its signal is a signal whose handler is entered.
pub(crate) const ENTERS: i32 = 2_000;

/// A kernel, and the process whose calls it serves.
#[derive(Drop)]
pub(crate) struct Caller {
    pub(crate) kernel: Kernel,
    pub(crate) alloc: Global,
    pid: u32,
    raised: Option<u32>,
}

impl Caller {
    /// After one launch.
    pub(crate) fn new(alloc: Global) -> Result<Caller, Fail> {
        let mut kernel = Kernel::new(alloc);
        let pid = kernel.launch()?.ok_or("no room")?;
        Ok(Caller {
            kernel,
            alloc,
            pid,
            raised: None,
        })
    }

    /// The pid of one more process.
    pub(crate) fn launch(&mut self) -> Result<i32, Fail> {
        let Some(pid) = self.kernel.launch()? else {
            return Ok(NONE);
        };
        self.pid = pid;
        Ok(pid.cast_signed())
    }

    fn by(&mut self, pid: u32) -> i32 {
        self.pid = pid;
        0
    }

    fn fall(&mut self) -> i32 {
        if !self.kernel.live(self.pid) {
            return NO_CALL;
        }
        match self.kernel.fall(self.pid, 11) {
            Some(_) => 1,
            None => 0,
        }
    }

    fn ended(&self, pid: u32) -> i32 {
        match self.kernel.ended(pid) {
            Some(End::Exit(code)) => code as i32,
            Some(End::Signal(signal)) => SIGNAL + signal as i32,
            None => NONE,
        }
    }

    /// A call of the process, none where it is not live. Whether it would block is asked before.
    fn serve(&mut self, number: u32, args: [u32; 3], bytes: &[u8]) -> Result<Option<Served>, Fail> {
        let request = Request {
            number,
            args: [args[0], args[1], args[2], 0, 0, 0],
            bytes: Bytes::from_slice(self.alloc, bytes)?,
            room: false,
        };
        if !self.kernel.live(self.pid) {
            return Ok(None);
        }
        if self.kernel.blocks(self.pid, &request) {
            return Ok(Some(Served::Blocks));
        }
        Ok(Some(self.kernel.serve(self.alloc, self.pid, &request)?))
    }

    /// The value of a call that is to give these bytes.
    pub(crate) fn value(
        &mut self,
        number: u32,
        args: [u32; 3],
        bytes: &[u8],
        want: &[u8],
    ) -> Result<i32, Fail> {
        match self.serve(number, args, bytes)? {
            Some(Served::Done { answer, raised }) => {
                self.raised = raised;
                Ok(value_with(&answer, want))
            }
            Some(Served::Blocks) => Ok(BLOCKS),
            None => Ok(NO_CALL),
        }
    }

    fn take(&mut self, room: bool) -> i32 {
        let took = self.kernel.take(self.pid, room);
        self.raised = took.raised;
        match took.taken {
            Some(Taken::Dies(signal)) => SIGNAL + signal as i32,
            Some(Taken::Enters { signal, .. }) => ENTERS + signal as i32,
            None => NONE,
        }
    }

    fn deliverable(&self, pid: u32) -> i32 {
        match self.kernel.deliverable(pid) {
            Some(signal) => signal as i32,
            None => NONE,
        }
    }

    fn told(&self) -> i32 {
        match self.raised {
            Some(pid) => pid.cast_signed(),
            None => NONE,
        }
    }

    /// A call on processes and signals, none where it is another.
    fn process_call(&mut self, call: Call) -> Result<Option<i32>, Fail> {
        let none = b"".as_slice();
        Ok(Some(match call {
            Getppid => self.value(GETPPID, [0, 0, 0], none, none)?,
            Fork => self.value(FORK, [0, 0, 0], none, none)?,
            Wait(status, want) => self.value(WAIT, [status, 0, 0], none, want)?,
            Pipe(want) => self.value(PIPE, [0, 0, 0], none, want)?,
            Kill(pid, signal) => self.value(KILL, [pid, signal, 0], none, none)?,
            Sigact(signal, handler, restorer) => {
                self.value(SIGACT, [signal, handler, restorer], none, none)?
            }
            Sigreturn(mask) => self.value(SIGRETURN, [mask, 0, 0], none, none)?,
            Sigmask(mask) => self.value(SIGMASK, [mask, 0, 0], none, none)?,
            Raise(pid, signal) => self.kernel.raise(pid, signal) as i32,
            Take(room) => self.take(room),
            Deliverable(pid) => self.deliverable(pid),
            Raised => self.told(),
            _ => return Ok(None),
        }))
    }

    fn call(&mut self, call: Call) -> Result<i32, Fail> {
        if let Some(value) = self.process_call(call)? {
            return Ok(value);
        }
        let none = b"".as_slice();
        let long = [b'n'; 65];
        match call {
            Exit(code) => self.value(EXIT, [code, 0, 0], none, none),
            Open(name, flags) => self.value(OPEN, [0, count(name), flags], name, none),
            OpenLong(len, flags) => {
                self.value(OPEN, [0, len, flags], &long[..len.min(65) as usize], none)
            }
            Close(fd) => self.value(CLOSE, [fd, 0, 0], none, none),
            Read(fd, len, want) => self.value(READ, [fd, 0, len], none, want),
            Write(fd, bytes) => self.value(WRITE, [fd, 0, count(bytes)], bytes, none),
            Seek(fd, off, whence) => self.value(LSEEK, [fd, off, whence], none, none),
            Dup(fd) => self.value(DUP, [fd, 0, 0], none, none),
            Unlink(name) => self.value(UNLINK, [0, count(name), 0], name, none),
            Yield => self.value(YIELD, [1, 2, 3], none, none),
            Launch => self.launch(),
            By(pid) => Ok(self.by(pid)),
            Fall => Ok(self.fall()),
            Ended(pid) => Ok(self.ended(pid)),
            _ => Ok(NO_CALL),
        }
    }
}

/// How many bytes a call hands over, 4,096 at most.
fn count(bytes: &[u8]) -> u32 {
    bytes.len().min(4096) as u32
}

/// The value of an answer with these bytes.
fn value_with(answer: &Answer, want: &[u8]) -> i32 {
    if answer.bytes.as_slice() == want {
        return answer.value;
    }
    OTHER_BYTES
}

/// Each call has the value that stands beside it.
pub(crate) fn check(rt: &impl Abort, caller: &mut Caller, calls: Calls) -> Result<(), Fail> {
    for (place, (call, want)) in calls.iter().enumerate() {
        let value = caller.call(*call)?;
        assert_eq!(rt; value, *want, "call {place}");
    }
    Ok(())
}

/// These calls, after one launch.
pub(crate) fn check_first(rt: &impl Abort, alloc: Global, calls: Calls) -> Result<(), Fail> {
    let mut caller = Caller::new(alloc)?;
    check(rt, &mut caller, calls)
}

/// These are the named files, in their order.
pub(crate) fn files_are(
    rt: &impl Abort,
    caller: &Caller,
    want: &[(&[u8], &[u8])],
) -> Result<(), Fail> {
    let list = caller.kernel.named_files()?;
    assert_eq!(rt; list.len(), want.len());
    for (file, (name, bytes)) in list.as_slice().iter().zip(want) {
        assert_eq!(rt;
            (file.name.as_slice(), file.bytes.as_slice()),
            (*name, *bytes)
        );
    }
    Ok(())
}
