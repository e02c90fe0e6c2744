// What a node answers to a process that asks it for room.
ghost use Rattle.std.specs.Prelude.{◌≡◌, true, IfOk};
ghost use Rattle.node_core.specs.Moves.{may_come, allowed, denied, Decides, HearsAsk};

use crate::letters::strange;
use crate::moves::one;
use crate::node::Node;
use call_forward::{Acted, Message};
use call_table::NoMemory;
use call_table::limit::PROCESSES;
use migrate_proto::Decision;
use node_event::What;
use std::alloc::Global;

/// The process may come.
fn allowed(alloc: Global, pid: u32, from: u8, need: u32) -> Result<Acted, NoMemory>
    ensures { IfOk result (λ acted. acted ≡ allowed pid from need) }
{
    let mail = one(alloc, from, Message::Allow { pid })?;
    Ok(Acted {
        what: What::Allow { pid, from, need },
        mail,
    })
}

/// The process needs more pages than are free.
fn denied(alloc: Global, pid: u32, from: u8, need: u32, free: u32) -> Result<Acted, NoMemory>
    ensures { IfOk result (λ acted. acted ≡ denied pid from need free) }
{
    let mail = one(alloc, from, Message::Deny { pid, need, free })?;
    Ok(Acted {
        what: What::Deny {
            pid,
            from,
            need,
            free,
        },
        mail,
    })
}

impl Node {
    /// Whether a process may ask for room here: it is not here, nothing is kept for it, home knows of it, and fewer are to come than there may be processes.
    fn may_come(&self, pid: u32) -> bool
        ensures { result ≡ may_come self.now pid }
    {
        if !self.hosted.is_absent(pid) {
            return false;
        }
        if self.reserve.has(pid) {
            return false;
        }
        if self.is_stray(Some(pid)) {
            return false;
        }
        self.reserve.len() < PROCESSES
    }

    /// Keeps the pages of a process where so many are free.
    fn decide(&mut self, alloc: Global, from: u8, pid: u32, need: u32) -> Result<Acted, NoMemory>
        requires { may_come self.old pid ≡ true }
        ensures { IfOk result (λ acted. Decides pid from need acted self.old self.new) }
    {
        let held = self.hosted.pages();
        match self.reserve.allow_or_deny(pid, need, self.shape.cap, held) {
            Decision::Allow => {
                let acted = allowed(alloc, pid, from, need)?;
                Ok(acted)
            }
            Decision::Deny { need, free } => {
                let acted = denied(alloc, pid, from, need, free)?;
                Ok(acted)
            }
        }
    }

    /// A process asks for room here.
    pub fn asked(&mut self, alloc: Global, from: u8, pid: u32, need: u32) -> Result<Acted, NoMemory>
        ensures { IfOk result (λ acted. HearsAsk from pid need acted self.old self.new) }
    {
        if self.may_come(pid) {
            let acted = self.decide(alloc, from, pid, need)?;
            return Ok(acted);
        }
        Ok(strange(alloc))
    }
}
