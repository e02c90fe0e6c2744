// How a process leaves a node for another one, stays, and lands.
ghost use Rattle.std.specs.Prelude.{◌≡◌, ◌==◌, cond, true, Option, Some, None, IfOk};
ghost use Rattle.remote_ctx.specs.Acting.{asks_at};
ghost use Rattle.node_core.specs.Moves.{asked_line, asked_of, closing, landings, may_land, Departs, Remains, LandsHere, HearsAllow, HearsDeny, HearsMove, HearsLanded};

use crate::letters::strange;
use crate::moves::one;
use crate::node::Node;
use call_forward::{Acted, Mail, Message, State};
use call_table::NoMemory;
use node_event::What;
use std::alloc::Global;
use user_ctx::User;

const HOME: u8 = 0;

/// The line for which a process asks this node for room, if it does.
fn asked_line(node: u8, state: Option<State>) -> Option<Option<u32>>
    ensures { result ≡ asked_line node state }
{
    match state {
        Some(State::Asking { to, line }) => { if to == node { Some(line) } else { None } }
        Some(State::Running) => None,
        Some(State::Waiting) => None,
        None => None,
    }
}

/// Home closes the line of a move that is over, if a line asked for it.
fn closing(alloc: Global, line: Option<u32>) -> Result<Mail, NoMemory>
    ensures { IfOk result (λ mail. mail ≡ closing line) }
{
    match line {
        None => Ok(Mail::new(alloc)),
        Some(line) => {
            let mail = one(alloc, HOME, Message::NoMove { line })?;
            Ok(mail)
        }
    }
}

/// One landing more.
fn landings(hops: u32) -> u32
    ensures { result ≡ landings hops }
{
    hops.saturating_add(1)
}

impl Node {
    /// The line for which a process here asks that node for room, if it does.
    fn asked_of(&self, node: u8, pid: u32) -> Option<Option<u32>>
        ensures { result ≡ asked_of self.now node pid }
    {
        asked_line(node, self.hosted.state(pid))
    }

    /// A process that asked for room leaves.
    fn depart(
        &mut self,
        alloc: Global,
        to: u8,
        pid: u32,
        line: Option<u32>,
    ) -> Result<Acted, NoMemory>
        requires { asks_at pid self.old.hosted ≡ true }
        ensures { IfOk result (λ acted. Departs pid to line acted self.old self.new) }
    {
        match self.hosted.depart(pid) {
            None => Ok(strange(alloc)),
            Some((user, hops)) => {
                let message = Message::Move {
                    pid,
                    user,
                    hops,
                    line,
                };
                let mail = one(alloc, to, message)?;
                Ok(Acted {
                    what: What::Depart { pid, to },
                    mail,
                })
            }
        }
    }

    /// A process that asked for room gets it.
    pub fn allowed(&mut self, alloc: Global, from: u8, pid: u32) -> Result<Acted, NoMemory>
        ensures { IfOk result (λ acted. HearsAllow from pid acted self.old self.new) }
    {
        match self.asked_of(from, pid) {
            None => Ok(strange(alloc)),
            Some(line) => {
                let acted = self.depart(alloc, from, pid, line)?;
                Ok(acted)
            }
        }
    }

    /// A process that asked for room stays.
    fn remain(
        &mut self,
        alloc: Global,
        to: u8,
        pid: u32,
        need: u32,
        free: u32,
        line: Option<u32>,
    ) -> Result<Acted, NoMemory>
        requires { asks_at pid self.old.hosted ≡ true }
        ensures { IfOk result (λ acted. Remains pid to need free line acted self.old self.new) }
    {
        let mail = closing(alloc, line)?;
        self.hosted.stay(pid);
        Ok(Acted {
            what: What::Stay {
                pid,
                to,
                need,
                free,
            },
            mail,
        })
    }

    /// A process that asked for room gets none.
    pub fn denied(
        &mut self,
        alloc: Global,
        from: u8,
        pid: u32,
        need: u32,
        free: u32,
    ) -> Result<Acted, NoMemory>
        ensures { IfOk result (λ acted. HearsDeny from pid need free acted self.old self.new) }
    {
        match self.asked_of(from, pid) {
            None => Ok(strange(alloc)),
            Some(line) => {
                let acted = self.remain(alloc, from, pid, need, free, line)?;
                Ok(acted)
            }
        }
    }

    /// Whether a process that comes may land: it is the one that is named, it is not here, and pages are kept for it.
    fn may_land(&self, pid: u32, user: &User) -> bool
        ensures { result ≡ may_land self.now pid user.now }
    {
        if !self.hosted.is_absent(pid) {
            return false;
        }
        if user.pid() != pid {
            return false;
        }
        self.reserve.has(pid)
    }

    /// A process lands, with so many landings.
    fn land(
        &mut self,
        alloc: Global,
        source: u8,
        pid: u32,
        user: User,
        hops: u32,
        line: Option<u32>,
    ) -> Result<Acted, NoMemory>
        requires { may_land self.old pid user ≡ true }
        ensures { IfOk result (λ acted. LandsHere pid source user hops line acted self.old self.new) }
    {
        self.hosted.put(user, hops)?;
        let _had = self.reserve.land(pid);
        let message = Message::Landed {
            pid,
            source,
            hops,
            line,
        };
        let mail = one(alloc, HOME, message)?;
        Ok(Acted {
            what: What::Land { pid, source },
            mail,
        })
    }

    /// A process comes.
    pub fn came(
        &mut self,
        alloc: Global,
        from: u8,
        pid: u32,
        user: User,
        hops: u32,
        line: Option<u32>,
    ) -> Result<Acted, NoMemory>
        ensures { IfOk result (λ acted. HearsMove from pid user hops line acted self.old self.new) }
    {
        if self.may_land(pid, &user) {
            let acted = self.land(alloc, from, pid, user, landings(hops), line)?;
            return Ok(acted);
        }
        Ok(strange(alloc))
    }

    /// Home is told that a process landed.
    pub fn landed(
        &mut self,
        alloc: Global,
        from: u8,
        pid: u32,
        source: u8,
        hops: u32,
        line: Option<u32>,
    ) -> Result<Acted, NoMemory>
        ensures { IfOk result (λ acted. HearsLanded from pid source hops line acted self.old self.new) }
    {
        let acted = self.deputies.landed(alloc, from, pid, source, hops, line)?;
        Ok(acted)
    }
}
