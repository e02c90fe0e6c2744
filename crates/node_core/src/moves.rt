// What a node does with an order to move.
ghost use Rattle.std.specs.Prelude.{◌≡◌, ◌∷◌, [], true, IfOk, unwrap_or};
ghost use Rattle.std.specs.Option.{option_map};
ghost use Rattle.migrate_proto.specs.declared.go.GoAnswer.TheVariants as answer;
ghost use Rattle.remote_ctx.specs.Hosted.{lookup, pages_of, runs_at};
ghost use Rattle.remote_ctx.specs.Acting.{waits_at};
ghost use Rattle.deputy.specs.Moves.{missed_in, closed_acted};
ghost use Rattle.node_core.specs.Kinds.{answer_at, refused, missed, BeginsMove, KeepsMove, GoActs, OnHome, Says};

use crate::node::Node;
use call_forward::{Acted, Mail, Message};
use call_table::NoMemory;
use migrate_proto::{GoAnswer, on_go};
use node_event::{Refusal, What};
use std::alloc::Global;

const HOME: u8 = 0;

/// One message to a node.
pub fn one(alloc: Global, to: u8, message: Message) -> Result<Mail, NoMemory>
    ensures { IfOk result (λ mail. mail ≡ (to, message) ∷ []) }
{
    let mut mail = Mail::new(alloc);
    mail.push((to, message))?;
    Ok(mail)
}

/// A move is refused at a node that has its process, and so is over.
fn refused(alloc: Global, pid: u32, to: u8, why: Refusal, line: u32) -> Result<Acted, NoMemory>
    ensures { IfOk result (λ acted. acted ≡ refused pid to why line) }
{
    let mail = one(alloc, HOME, Message::NoMove { line })?;
    Ok(Acted {
        what: What::Refused { pid, to, why, line },
        mail,
    })
}

/// A move did not find its process.
fn missed(alloc: Global, pid: u32, to: u8, hops: u32, line: u32) -> Result<Acted, NoMemory>
    ensures { IfOk result (λ acted. acted ≡ missed pid to hops line) }
{
    let mail = one(
        alloc,
        HOME,
        Message::NotHere {
            pid,
            to,
            hops,
            line,
        },
    )?;
    Ok(Acted {
        what: What::Missed { pid, to, line },
        mail,
    })
}

impl Node {
    /// A process begins to move: it asks its target for room.
    fn begin_move(&mut self, alloc: Global, pid: u32, to: u8, line: u32) -> Result<Acted, NoMemory>
        requires { runs_at pid self.old.hosted ≡ true }
        ensures { IfOk result (λ acted. BeginsMove pid to line acted self.old self.new) }
    {
        let need = self.hosted.need(pid).unwrap_or(0);
        let mail = one(alloc, to, Message::Ask { pid, need })?;
        self.hosted.begin(pid, to, Some(line));
        Ok(Acted {
            what: What::Begin { pid, to, line },
            mail,
        })
    }

    /// A process that waits keeps the move.
    fn keep_move(&mut self, alloc: Global, pid: u32, to: u8, line: u32) -> Acted
        requires { waits_at pid self.old.hosted ≡ true }
        ensures { KeepsMove pid to line result self.old self.new }
    {
        self.hosted.keep(pid, to, line);
        Acted {
            what: What::Keep { pid, to, line },
            mail: Mail::new(alloc),
        }
    }

    /// An order to move.
    pub fn order(
        &mut self,
        alloc: Global,
        pid: u32,
        to: u8,
        hops: u32,
        line: u32,
    ) -> Result<Acted, NoMemory>
        ensures { IfOk result (λ acted. GoActs (answer_at self.old pid to) pid to hops line acted self.old self.new) }
    {
        match on_go(self.hosted.state(pid), self.hosted.kept(pid), self.id, to) {
            GoAnswer::Begin => {
                let acted = self.begin_move(alloc, pid, to, line)?;
                Ok(acted)
            }
            GoAnswer::Keep => {
                let acted = self.keep_move(alloc, pid, to, line);
                Ok(acted)
            }
            GoAnswer::There => {
                let acted = refused(alloc, pid, to, Refusal::There, line)?;
                Ok(acted)
            }
            GoAnswer::Moving => {
                let acted = refused(alloc, pid, to, Refusal::Moving, line)?;
                Ok(acted)
            }
            GoAnswer::Missed => {
                let acted = missed(alloc, pid, to, hops, line)?;
                Ok(acted)
            }
        }
    }

    /// An order to move missed its process.
    pub fn not_here(
        &mut self,
        alloc: Global,
        pid: u32,
        to: u8,
        hops: u32,
        line: u32,
    ) -> Result<Acted, NoMemory>
        ensures { IfOk result (λ acted. OnHome (missed_in self.old.deputies pid to hops line) acted self.old self.new) }
    {
        let acted = self.deputies.missed(alloc, pid, to, hops, line)?;
        Ok(acted)
    }

    /// A move of the script is over.
    pub fn close(&mut self, alloc: Global, line: u32) -> Acted
        ensures { Says (closed_acted line) result self.old self.new }
    {
        let acted = self.deputies.closed(alloc, line);
        acted
    }
}
