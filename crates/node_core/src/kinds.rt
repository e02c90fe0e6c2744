// What a node does in a turn without a letter.
ghost use Rattle.std.specs.Prelude.{◌≡◌, ◌&&◌, ◌==◌, ◌⊎◌, ℕ, min, is_some, slice_get, Some, true, false, IfOk, IsSome, MatchOption};
ghost use Rattle.std.specs.Bool.{MatchBool};
ghost use Rattle.remote_ctx.specs.Hosted.{lookup, runs_at, IsNext, NonePasses};
ghost use Rattle.remote_ctx.specs.Acting.{Heeds, Sends, poked_as};
ghost use Rattle.deputy.specs.Calls.{next_ready};
ghost use Rattle.node_core.specs.Kinds.{ContextActs, CallsWait, CarriesSome, IsReady, OnHosted, RetriesSome, RunsSome, Steps, line_enabled};

use crate::node::Node;
use crate::rotation::{Kind, Ready};
use call_forward::{Acted, Mail};
use call_table::NoMemory;
use node_event::What;
use policy_box::{Chooser, Policy};
use remote_ctx::Ran;
use std::alloc::Global;

impl Node {
    /// Whether a held call can go on.
    fn retry_ready(&self) -> bool
        ensures is { result ≡ ((self.now.id == 0) && is_some (next_ready self.now.deputies)) }
        ensures waits { result ≡ true → CallsWait self.now.deputies }
    {
        if self.id != 0 {
            return false;
        }
        self.deputies.due()
    }

    /// Which kinds of turn have something to do.
    pub fn ready(&self) -> Ready
        ensures { IsReady self.now result }
    {
        let retry = self.retry_ready();
        let context = self.hosted.next(self.rotation.after);
        let line = self.line_ready();
        let half = self.half_ready(context.is_none());
        let late = self.late_half();
        Ready {
            retry,
            context,
            line,
            half,
            late,
        }
    }

    /// A held call goes on. None where none can, and then nothing changes.
    #[tactic(auto, using(crate::proofs::Doing::none_retried))]
    fn retry(&mut self, alloc: Global) -> Result<Option<Acted>, NoMemory>
        ensures { IfOk result (λ acted. RetriesSome acted self.old self.new) }
    {
        match self.deputies.retry(alloc)? {
            None => Ok(None),
            Some(acted) => Ok(Some(acted)),
        }
    }

    /// A quantum of steps was made.
    fn count_steps(&mut self)
        ensures { self.new ≡ record self.old { talk = Rattle.node_core.specs.Kinds.stepped self.old.talk } }
    {
        self.talk.steps = self.talk.steps.saturating_add(1);
    }

    /// A turn of a process that runs and is not poked: steps, or its call or fault goes home.
    fn go(&mut self, alloc: Global, pid: u32) -> Result<Acted, NoMemory>
        requires { runs_at pid self.old.hosted ≡ true }
        ensures { IfOk result (λ acted. ((k : ℕ) × Steps k pid acted self.old self.new) ⊎ OnHosted (Sends acted pid) self.old self.new) }
    {
        let quantum = self.shape.quantum.max(1);
        match self.hosted.run(pid, quantum)? {
            Ran::Steps(k) => {
                self.count_steps();
                Ok(Acted {
                    what: What::Steps { pid, k },
                    mail: Mail::new(alloc),
                })
            }
            Ran::AtCall => {
                let acted = self.hosted.send(alloc, pid)?;
                Ok(acted)
            }
            Ran::AtFault => {
                let acted = self.hosted.send(alloc, pid)?;
                Ok(acted)
            }
        }
    }

    /// A turn of a process that runs.
    fn run_on(&mut self, alloc: Global, pid: u32) -> Result<Acted, NoMemory>
        requires { runs_at pid self.old.hosted ≡ true }
        ensures { IfOk result (λ acted. ContextActs pid acted self.old self.new) }
    {
        if self.hosted.is_poked(pid) {
            let acted = self.hosted.heed(alloc, pid)?;
            return Ok(acted);
        }
        let acted = self.go(alloc, pid)?;
        Ok(acted)
    }

    /// A turn of a process that runs, if there is one.
    fn run_some(&mut self, alloc: Global, pid: Option<u32>) -> Result<Option<Acted>, NoMemory>
        requires { MatchOption pid (Unit {0}) (λ p. runs_at p self.old.hosted ≡ true) }
        ensures { IfOk result (λ acted. RunsSome pid acted self.old self.new) }
    {
        match pid {
            None => Ok(None),
            Some(pid) => {
                let acted = self.run_on(alloc, pid)?;
                Ok(Some(acted))
            }
        }
    }

    /// A turn of this kind, whose event has this stamp. None where there is nothing of the kind to do, and then nothing changes.
    #[tactic(auto, using(crate::proofs::Doing::carried_retry, crate::proofs::Doing::carried_context, crate::proofs::Doing::carried_line))]
    pub fn carry_out<C: Chooser>(
        &mut self,
        alloc: Global,
        stamp: u64,
        kind: Kind,
        pid: Option<u32>,
        policy: &Policy<C>,
    ) -> Result<Option<Acted>, NoMemory>
        requires { MatchOption pid (Unit {0}) (λ p. runs_at p self.old.hosted ≡ true) }
        ensures { IfOk result (λ acted. CarriesSome (C.answers policy.now) stamp kind pid acted self.old self.new) }
    {
        match kind {
            Kind::Retry => {
                let acted = self.retry(alloc)?;
                Ok(acted)
            }
            Kind::Context => {
                let acted = self.run_some(alloc, pid)?;
                Ok(acted)
            }
            Kind::Line => {
                let acted = self.next_line(alloc)?;
                Ok(acted)
            }
            Kind::Half => {
                let acted = self.send_half(alloc, stamp, policy)?;
                Ok(Some(acted))
            }
        }
    }
}
