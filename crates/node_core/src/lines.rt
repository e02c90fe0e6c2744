// What home does with the lines of its script.
ghost use Rattle.std.specs.Prelude.{◌≡◌, ◌&&◌, ◌||◌, ◌==◌, ◌+◌, ◌++◌, ◌∷◌, [], ℕ, not, nat_le, nat_lt, is_some, slice_get, length, ◌<◌, true, false, Some, None, OnOk, IfOk, MatchOption};
ghost use Rattle.remote_ctx.specs.Hosted.{Puts};
ghost use Rattle.remote_ctx.specs.Acting.{fresh};
ghost use Rattle.kernel_spec.specs.Kernel.{is_live};
ghost use Rattle.protocol.specs.Home.{live_of};
ghost use Rattle.node_core.specs.Kinds.{advanced, has_ended, is_enabled, line_enabled, task_of, task_at, passed, EndsInput, Launches, Passes, TasksSome};
ghost use Rattle.deputy.specs.Moves.{killed_in, went_in};

use crate::course::Course;
use crate::node::Node;
use call_forward::{Acted, Mail};
use call_table::NoMemory;
use deputy::Deputies;
use node_event::{Order, What};
use remote_ctx::Hosted;
use std::alloc::Global;
use user_ctx::User;

/// How many of these processes live.
#[tactic(auto, using(crate::proofs::Living::live_most))]
fn live_count(deputies: &Deputies, pids: &[u32]) -> usize
    ensures { result ≡ live_of (is_live deputies.now.kernel) pids.now }
{
    let mut count = 0;
    for pid in pids {
        if deputies.kernel().live(*pid) {
            count += 1;
        }
    }
    count
}

/// What an order wants done.
#[derive(Clone, Copy, Debug, PartialEq, Eq)]
pub enum Task {
    Launch,
    Kill { pid: u32, signal: u8 },
    Move { pid: u32, to: u8 },
    Feed,
    End,
    Pass,
}

/// What an order wants done.
fn task_of(order: &Order) -> Task
    ensures { result ≡ task_of order.now }
{
    match order {
        Order::Run { .. } => Task::Launch,
        Order::Kill { pid, signal } => Task::Kill {
            pid: *pid,
            signal: *signal,
        },
        Order::Move { pid, to } => Task::Move { pid: *pid, to: *to },
        Order::Feed { .. } => Task::Feed,
        Order::Eof => Task::End,
        Order::Wait { .. } | Order::After { .. } | Order::Held { .. } | Order::Slots { .. } => {
            Task::Pass
        }
    }
}

/// The event of a line that does nothing to a process.
fn passed(alloc: Global, line: u32) -> Acted
    ensures { result ≡ passed line }
{
    Acted {
        what: What::Command {
            line,
            launched: None,
            unsent: None,
            poked: None,
        },
        mail: Mail::new(alloc),
    }
}

/// A process gets its number and runs, whatever stood at that number.
#[tactic(auto, using(crate::proofs::Placing::gone_now, crate::proofs::Placing::put_over))]
fn place(hosted: &mut Hosted, mut user: User, pid: u32) -> Result<(), NoMemory>
    ensures { OnOk result (Puts pid (Some (fresh (record user { pid = pid }) 0)) hosted.old hosted.new) }
{
    let _gone = hosted.take_out(pid);
    user.set_pid(pid);
    hosted.put(user, 0)?;
    Ok(())
}

impl Course {
    /// The next line was carried out, which has this number.
    fn advance(&mut self, line: u32)
        requires { self.old.done < length self.old.script }
        ensures { self.new ≡ advanced line self.old }
    {
        let _lines = self.script.len();
        self.done += 1;
        self.line = line as u64 + 1;
    }
}

impl Node {
    /// Whether a process has ended.
    fn has_ended(&self, pid: u32) -> bool
        ensures { result ≡ has_ended self.now.deputies.kernel pid }
    {
        self.deputies.given(pid) && !self.deputies.kernel().live(pid)
    }

    /// Whether a line with this order can be carried out.
    fn is_enabled(&self, order: &Order) -> bool
        ensures { result ≡ is_enabled order.now self.now }
    {
        match order {
            Order::Run { .. } => self.deputies.kernel().can_launch(),
            Order::Wait { pid } => self.has_ended(*pid),
            Order::After { pid, count } => {
                self.deputies.served(*pid) >= *count || self.has_ended(*pid)
            }
            Order::Held { pid } => self.deputies.held(*pid).is_some() || self.has_ended(*pid),
            Order::Slots { count } => {
                live_count(&self.deputies, self.course.launched.as_slice()) < *count as usize
            }
            Order::Kill { .. } | Order::Move { .. } | Order::Feed { .. } | Order::Eof => true,
        }
    }

    /// Whether the next line can be carried out.
    pub fn line_ready(&self) -> bool
        ensures { result ≡ ((self.now.id == 0) && line_enabled (slice_get self.now.course.script self.now.course.done) self.now) }
    {
        if self.id != 0 {
            return false;
        }
        match self.course.script.get(self.course.done) {
            None => false,
            Some(line) => self.is_enabled(&line.order),
        }
    }

    /// The next line's number, and what it wants done. None at the end of the script.
    #[tactic(auto, using(crate::proofs::Courses::get_in))]
    fn next_task(&self) -> Option<(u32, Task)>
        ensures task { result ≡ task_at (slice_get self.now.course.script self.now.course.done) }
        ensures within { MatchOption result (Unit {0}) (λ next. self.now.course.done < length self.now.course.script) }
    {
        match self.course.script.get(self.course.done) {
            None => None,
            Some(line) => Some((line.line, task_of(&line.order))),
        }
    }

    /// A process is launched, with the context of this line. None where that cannot be, and then nothing changes.
    fn launch(&mut self, alloc: Global, line: u32) -> Result<Option<Acted>, NoMemory>
        requires { self.old.course.done < length self.old.course.script }
        ensures { IfOk result (λ acted. TasksSome (Some (line, Task.Launch)) acted self.old self.new) }
    {
        if self.course.users.len() == 0 {
            return Ok(None);
        }
        let Some(pid) = self.deputies.launch()? else {
            return Ok(None);
        };
        let Some(user) = self.course.users.pop() else {
            return Ok(None);
        };
        place(&mut self.hosted, user, pid)?;
        self.course.launched.push(pid)?;
        self.course.advance(line);
        Ok(Some(Acted {
            what: What::Command {
                line,
                launched: Some(pid),
                unsent: None,
                poked: None,
            },
            mail: Mail::new(alloc),
        }))
    }

    /// A signal is raised.
    fn kill(&mut self, alloc: Global, line: u32, pid: u32, signal: u8) -> Result<Acted, NoMemory>
        requires { self.old.course.done < length self.old.course.script }
        ensures { IfOk result (λ acted. Passes line (killed_in self.old.deputies pid signal line) acted self.old self.new) }
    {
        let acted = self.deputies.kill(alloc, pid, signal, line)?;
        self.course.advance(line);
        Ok(acted)
    }

    /// A process is to move.
    fn order_move(&mut self, alloc: Global, line: u32, pid: u32, to: u8) -> Result<Acted, NoMemory>
        requires { self.old.course.done < length self.old.course.script }
        ensures { IfOk result (λ acted. Passes line (went_in self.old.deputies pid to line) acted self.old self.new) }
    {
        let acted = self.deputies.go(alloc, pid, to, line)?;
        self.course.advance(line);
        Ok(acted)
    }

    /// The next line's text is typed.
    fn feed(&mut self, alloc: Global, line: u32) -> Result<Option<Acted>, NoMemory>
        requires within { self.old.course.done < length self.old.course.script }
        requires feeds { task_at (slice_get self.old.course.script self.old.course.done) ≡ Some (line, Task.Feed) }
        ensures { IfOk result (λ acted. TasksSome (task_at (slice_get self.old.course.script self.old.course.done)) acted self.old self.new) }
    {
        let Some(next) = self.course.script.get(self.course.done) else {
            return Ok(None);
        };
        let Order::Feed { text } = &next.order else {
            return Ok(None);
        };
        self.deputies.feed(text.as_slice())?;
        self.course.advance(line);
        Ok(Some(passed(alloc, line)))
    }

    /// Nothing more is typed.
    fn end_input(&mut self, alloc: Global, line: u32) -> Acted
        requires { self.old.course.done < length self.old.course.script }
        ensures { EndsInput line result self.old self.new }
    {
        self.deputies.end_input();
        self.course.advance(line);
        passed(alloc, line)
    }

    /// A line that only waits is passed.
    fn pass(&mut self, alloc: Global, line: u32) -> Acted
        requires { self.old.course.done < length self.old.course.script }
        ensures { Passes line (record { home = self.old.deputies; acted = passed line }) result self.old self.new }
    {
        self.course.advance(line);
        passed(alloc, line)
    }

    /// The next line is carried out. None where that cannot be, and then nothing changes.
    pub fn next_line(&mut self, alloc: Global) -> Result<Option<Acted>, NoMemory>
        ensures { IfOk result (λ acted. TasksSome (task_at (slice_get self.old.course.script self.old.course.done)) acted self.old self.new) }
    {
        match self.next_task() {
            Some((line, Task::Launch)) => {
                let acted = self.launch(alloc, line)?;
                Ok(acted)
            }
            Some((line, Task::Kill { pid, signal })) => {
                let acted = self.kill(alloc, line, pid, signal)?;
                Ok(Some(acted))
            }
            Some((line, Task::Move { pid, to })) => {
                let acted = self.order_move(alloc, line, pid, to)?;
                Ok(Some(acted))
            }
            Some((line, Task::Feed)) => {
                let acted = self.feed(alloc, line)?;
                Ok(acted)
            }
            Some((line, Task::End)) => {
                let acted = self.end_input(alloc, line);
                Ok(Some(acted))
            }
            Some((line, Task::Pass)) => {
                let acted = self.pass(alloc, line);
                Ok(Some(acted))
            }
            None => Ok(None),
        }
    }
}
