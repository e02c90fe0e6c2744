// The home side of all processes.
ghost use Rattle.std.specs.Prelude.{◌≡◌, ℕ, length, ◌^◌, ◌-◌, ◌≤◌, true, false, Some, None, IfOk, OnOk, OnErr, min, is_some, is_none};
ghost use Rattle.kernel_spec.specs.Kernel.{fed, given};
ghost use Rattle.deputy.specs.Rows.{no_home, held_at, served_at};
ghost use Rattle.deputy.specs.Calls.{called_in, paused_in, retried_in, next_ready};
ghost use Rattle.deputy.specs.declared.row.HeldCall.{HeldCall};
ghost use Rattle.deputy.specs.Rules.{CanWait};
ghost use Rattle.deputy.specs.Moves.{LaunchesAt, killed_in, went_in, landed_in, missed_in, closed_acted, held_number, home_suits, was_given};

use crate::fitting::{fits_call, may_ask, was_given};
use crate::orders::{self, Landing};
use crate::posting::{alone, strange};
use crate::rows::Rows;
use crate::serving::{next_ready, serve_held, serve_or_hold, serve_pause};
use call_forward::{Acted, Message};
use call_table::{NoMemory, Request};
use home_kernel::Kernel;
use node_event::What;
use std::alloc::Global;
use std::marker::Model;

/// The kernel, and what home keeps of each process beside it. Of calls that wait only the pids are gone over, and only after something changed.
#[derive(Drop)]
pub struct Deputies {
    kernel: Kernel,
    rows: Rows,
    // No call that waits can go on: nothing changed since a turn found that.
    settled: bool,
}

impl Model for Deputies {
    ghost use Rattle.deputy.specs.Rows.{HomeState, coded_home};
    ghost use Rattle.deputy.specs.Rules.{IsHome};

    ghost Value = { HomeState };

    ghost coded = { coded_home };

    ghost view = { λ d. record { kernel = d.kernel; rows = d.rows.list } };

    ghost invariant = { λ d. IsHome d.kernel d.rows.list d.settled };
}

impl Deputies {
    /// An empty kernel.
    pub fn new(alloc: Global) -> Result<Deputies, NoMemory>
        ensures { IfOk result (λ deputies. deputies ≡ no_home) }
    {
        Ok(Deputies {
            kernel: Kernel::new(alloc),
            rows: Rows::new(alloc),
            settled: false,
        })
    }

    /// One more process: its pid, None exactly where there is no room. It is believed at node 0. Want of memory changes nothing.
    pub fn launch(&mut self) -> Result<Option<u32>, NoMemory>
        ensures ok { IfOk result (λ pid. LaunchesAt pid self.old self.new) }
        ensures each { length self.old.rows ≡ given self.old.kernel }
        ensures err { OnErr result (self.new ≡ self.old) }
    {
        self.rows.reserve()?;
        let Some(pid) = self.kernel.launch()? else {
            return Ok(None);
        };
        self.rows.push(0);
        self.settled = false;
        Ok(Some(pid))
    }

    /// A call or a fault that node `from` sent. It is Held exactly where it blocks and no signal of its process is deliverable, else Served, with the
    /// reply to `from` and then the pokes. It is Strange where it does not fit. Want of memory changes nothing.
    pub fn called(
        &mut self,
        alloc: Global,
        from: u8,
        pid: u32,
        request: Request,
    ) -> Result<Acted, NoMemory>
        ensures ok { IfOk result (λ acted. called_in self.old from pid request ≡ record { home = self.new; acted = acted }) }
        ensures each { length self.old.rows ≡ given self.old.kernel }
        ensures err { OnErr result (self.new ≡ self.old) }
    {
        if !fits_call(&self.kernel, &self.rows, pid, &request) {
            return Ok(strange(alloc));
        }
        self.settled = false;
        let acted = serve_or_hold(&mut self.kernel, &mut self.rows, alloc, from, pid, request)?;
        Ok(acted)
    }

    /// A pause that node `from` sent: a signal is taken where one is deliverable, with the reply to `from` and then a poke. It is Strange where it does
    /// not fit. Want of memory changes nothing.
    pub fn paused(
        &mut self,
        alloc: Global,
        from: u8,
        pid: u32,
        room: bool,
    ) -> Result<Acted, NoMemory>
        ensures ok { IfOk result (λ acted. paused_in self.old from pid room ≡ record { home = self.new; acted = acted }) }
        ensures each { length self.old.rows ≡ given self.old.kernel }
        ensures err { OnErr result (self.new ≡ self.old) }
    {
        if !may_ask(&self.kernel, &self.rows, pid) {
            return Ok(strange(alloc));
        }
        self.settled = false;
        let acted = serve_pause(&mut self.kernel, &mut self.rows, alloc, from, pid, room)?;
        Ok(acted)
    }

    /// Serves the waiting call of the lowest pid that blocks no more, or that blocks with a deliverable signal. None exactly where there is none. Want of
    /// memory changes nothing.
    pub fn retry(&mut self, alloc: Global) -> Result<Option<Acted>, NoMemory>
        ensures ok { IfOk result (λ acted. retried_in self.old ≡ record { home = self.new; acted = acted }) }
        ensures some { IfOk result (λ acted. is_some acted ≡ is_some (next_ready self.old)) }
        ensures each { length self.old.rows ≡ given self.old.kernel }
        ensures held { (pid : ℕ) (call : HeldCall) → held_at self.old.rows pid ≡ Some call → CanWait self.old.kernel pid call.request }
        ensures err { OnErr result (self.new ≡ self.old) }
    {
        if self.settled {
            return Ok(None);
        }
        let Some(pid) = next_ready(&self.kernel, &self.rows) else {
            self.settled = true;
            return Ok(None);
        };
        let acted = serve_held(&mut self.kernel, &mut self.rows, alloc, pid)?;
        Ok(acted)
    }

    /// Whether a call that waits can go on: exactly where `retry` would serve one.
    pub fn due(&self) -> bool
        ensures is { result ≡ is_some (next_ready self.now) }
        ensures each { length self.now.rows ≡ given self.now.kernel }
        ensures held { (pid : ℕ) (call : HeldCall) → held_at self.now.rows pid ≡ Some call → CanWait self.now.kernel pid call.request }
    {
        !self.settled && next_ready(&self.kernel, &self.rows).is_some()
    }

    /// Raises a signal for line `line` of the script. The process is poked where the signal counts there, one is deliverable afterwards and no call of it
    /// waits. Want of memory changes nothing.
    pub fn kill(
        &mut self,
        alloc: Global,
        pid: u32,
        signal: u8,
        line: u32,
    ) -> Result<Acted, NoMemory>
        ensures ok { IfOk result (λ acted. killed_in self.old pid signal line ≡ record { home = self.new; acted = acted }) }
        ensures err { OnErr result (self.new ≡ self.old) }
    {
        self.settled = false;
        let acted = orders::kill(&mut self.kernel, &self.rows, alloc, pid, signal, line)?;
        Ok(acted)
    }

    /// Sends the order to move for line `line` of the script to where the process is believed to be. It sends none where the process ended or never was,
    /// and says which.
    pub fn go(&mut self, alloc: Global, pid: u32, to: u8, line: u32) -> Result<Acted, NoMemory>
        ensures ok { IfOk result (λ acted. went_in self.old pid to line ≡ record { home = self.new; acted = acted }) }
        ensures err { OnErr result (self.new ≡ self.old) }
    {
        Ok(orders::go(&self.kernel, &self.rows, alloc, pid, to, line)?)
    }

    /// A process landed at node `at` from `source`, its landings being `hops` now. It is believed there only where that is more than was told. It is poked
    /// where a signal is deliverable. It is Strange where the pid was never given. Want of memory changes nothing.
    pub fn landed(
        &mut self,
        alloc: Global,
        at: u8,
        pid: u32,
        source: u8,
        hops: u32,
        line: Option<u32>,
    ) -> Result<Acted, NoMemory>
        ensures ok { IfOk result (λ acted. landed_in self.old at pid source hops line ≡ record { home = self.new; acted = acted }) }
        ensures each { length self.old.rows ≡ given self.old.kernel }
        ensures err { OnErr result (self.new ≡ self.old) }
    {
        if !was_given(&self.kernel, pid) {
            return Ok(strange(alloc));
        }
        self.settled = false;
        let landing = Landing {
            at,
            source,
            hops,
            line,
        };
        let acted = orders::land(&self.kernel, &mut self.rows, alloc, pid, landing)?;
        Ok(acted)
    }

    /// An order to move, sent when `hops` landings were known, missed its process. Where more were told since, it is sent again; else it is refused, as it
    /// is where the process ended. It is Strange where the pid was never given. Nothing changes.
    pub fn missed(
        &mut self,
        alloc: Global,
        pid: u32,
        to: u8,
        hops: u32,
        line: u32,
    ) -> Result<Acted, NoMemory>
        ensures ok { IfOk result (λ acted. missed_in self.old pid to hops line ≡ record { home = self.new; acted = acted }) }
        ensures err { OnErr result (self.new ≡ self.old) }
    {
        if !was_given(&self.kernel, pid) {
            return Ok(strange(alloc));
        }
        Ok(orders::miss(&self.kernel, &self.rows, alloc, pid, to, hops, line)?)
    }

    /// The move of line `line` is over without a move.
    pub fn closed(&mut self, alloc: Global, line: u32) -> Acted
        ensures is { result ≡ closed_acted line }
        ensures same { self.new ≡ self.old }
    {
        alone(alloc, What::Closed { line })
    }

    /// The number of the call of a process that waits. None exactly where none does.
    pub fn held(&self, pid: u32) -> Option<u32>
        ensures { result ≡ held_number (held_at self.now.rows pid) }
    {
        match self.rows.held(pid) {
            Some(call) => Some(call.request.number),
            None => None,
        }
    }

    /// How many forwarded calls of a process were served, or 2^32 - 1 where they are more.
    pub fn served(&self, pid: u32) -> u32
        ensures { result ≡ min (served_at self.now.rows pid) (2 ^ 32 - 1) }
    {
        self.rows.served(pid).min(u32::MAX as u64) as u32
    }

    /// Whether a message that goes to home fits. Of any other it is true.
    pub fn suits(&self, message: &Message) -> bool
        ensures { result ≡ home_suits self.now message.now }
    {
        match message {
            Message::Call { pid, request } => fits_call(&self.kernel, &self.rows, *pid, request),
            Message::Pause { pid, .. } => may_ask(&self.kernel, &self.rows, *pid),
            Message::NotHere { pid, .. } | Message::Landed { pid, .. } => was_given(
                &self.kernel,
                *pid,
            ),
            _ => true,
        }
    }

    /// Whether a pid was given.
    pub fn given(&self, pid: u32) -> bool
        ensures is { result ≡ was_given self.now.kernel pid }
        ensures each { length self.now.rows ≡ given self.now.kernel }
    {
        let _rows = &self.rows;
        was_given(&self.kernel, pid)
    }

    /// More is typed at the terminal. After the end of the input nothing changes, nor at want of memory.
    pub fn feed(&mut self, bytes: &[u8]) -> Result<(), NoMemory>
        ensures ok { OnOk result (self.new ≡ record self.old { kernel = record self.old.kernel { input = fed bytes.now self.old.kernel.input } }) }
        ensures err { OnErr result (self.new ≡ self.old) }
    {
        self.settled = false;
        self.kernel.feed(bytes)?;
        Ok(())
    }

    /// Nothing more is typed.
    pub fn end_input(&mut self)
        ensures { self.new ≡ record self.old { kernel = record self.old.kernel { input = record self.old.kernel.input { ended = true } } } }
    {
        self.settled = false;
        self.kernel.end_input();
    }

    /// The kernel.
    pub fn kernel(&self) -> &Kernel
        ensures { result.now ≡ self.now.kernel }
    {
        &self.kernel
    }
}
