// What a node makes of a letter.
ghost use Rattle.std.specs.Prelude.{◌≡◌, [], length, not, ◌&&◌, nat_le, true, false, IfOk, IfSome};
ghost use Rattle.std.specs.Bool.{MatchBool};
ghost use Rattle.kernel_spec.specs.Kernel.{given};
ghost use Rattle.remote_ctx.specs.Acting.{PokedOn, Gets, child_in};
ghost use Rattle.deputy.specs.Calls.{called_in, paused_in};
ghost use Rattle.call_forward.specs.declared.message.Message.TheVariants as message;
ghost use Rattle.node_core.specs.Kinds.{is_misplaced, is_of_calls, is_of_moves, is_stray, is_stray_pid, IsStrange, HearsCall, HearsHere, HearsOfMove, HearsReply, OnHome, OnHosted};

use crate::node::Node;
use call_forward::{Acted, Done, Mail, Message};
use call_table::{Entry, NoMemory, Request};
use node_event::What;
use policy_box::{Chooser, Policy};
use remote_ctx::child_in;
use std::alloc::Global;

/// A letter that does not fit.
pub fn strange(alloc: Global) -> Acted
    ensures { result ≡ record { what = What.Strange; mail = [] } }
{
    Acted {
        what: What::Strange,
        mail: Mail::new(alloc),
    }
}

/// Whether a message is about a call or a signal.
fn is_of_calls(message: &Message) -> bool
    ensures { result ≡ is_of_calls message.now }
{
    matches!(
        message,
        Message::Call { .. } | Message::Pause { .. } | Message::Reply { .. } | Message::Poke { .. }
    )
}

impl Node {
    /// Whether a message comes from a node that the cluster does not have, or names one, or would have to go to home.
    pub fn is_misplaced(&self, from: u8, message: &Message) -> bool
        ensures { result ≡ is_misplaced self.now from message.now }
    {
        if from >= self.shape.nodes || !message.is_below(self.shape.nodes) {
            return true;
        }
        self.id != 0 && message.is_to_home()
    }

    /// A call that came home.
    fn called(
        &mut self,
        alloc: Global,
        from: u8,
        pid: u32,
        request: Request,
    ) -> Result<Acted, NoMemory>
        ensures each { length self.old.deputies.rows ≡ given self.old.deputies.kernel }
        ensures ok { IfOk result (λ acted. OnHome (called_in self.old.deputies from pid request) acted self.old self.new) }
    {
        let acted = self.deputies.called(alloc, from, pid, request)?;
        Ok(acted)
    }

    /// A pause that came home.
    fn paused(&mut self, alloc: Global, from: u8, pid: u32, room: bool) -> Result<Acted, NoMemory>
        ensures { IfOk result (λ acted. OnHome (paused_in self.old.deputies from pid room) acted self.old self.new) }
    {
        let acted = self.deputies.paused(alloc, from, pid, room)?;
        Ok(acted)
    }

    /// A poke.
    fn poked(&mut self, alloc: Global, pid: u32) -> Acted
        ensures { OnHosted (PokedOn result pid) self.old self.new }
    {
        let acted = self.hosted.poked(alloc, pid);
        acted
    }

    /// Whether a pid, if there is one, is at home one that was never given.
    pub(crate) fn is_stray(&self, child: Option<u32>) -> bool
        ensures { result ≡ is_stray self.now child }
    {
        if self.id != 0 {
            return false;
        }
        match child {
            None => false,
            Some(child) => !self.deputies.given(child),
        }
    }

    /// A reply from home.
    fn got(&mut self, alloc: Global, pid: u32, done: Done) -> Result<Acted, NoMemory>
        ensures { IfOk result (λ acted. HearsReply pid done acted self.old self.new) }
    {
        let stray = self.is_stray(child_in(&done.answer));
        if stray {
            return Ok(strange(alloc));
        }
        let acted = self.hosted.got(alloc, pid, done)?;
        Ok(acted)
    }

    /// A half comes. One from the node itself does not fit.
    fn half_came<C: Chooser>(
        &mut self,
        alloc: Global,
        from: u8,
        stamp: u64,
        places: &[Option<Entry>; 4],
        policy: &Policy<C>,
    ) -> Result<Acted, NoMemory>
        ensures { IfOk result (λ acted. HearsHere (C.answers policy.now) stamp from (message.Half places.now) acted self.old self.new) }
    {
        if from == self.id {
            return Ok(strange(alloc));
        }
        let acted = self.hear_half(alloc, from, stamp, places, policy)?;
        Ok(acted)
    }

    /// What the node makes of a message about a call or a signal.
    fn hear_call(&mut self, alloc: Global, from: u8, message: Message) -> Result<Acted, NoMemory>
        requires { is_of_calls message ≡ true }
        ensures { IfOk result (λ acted. HearsCall from message acted self.old self.new) }
    {
        match message {
            Message::Call { pid, request } => self.called(alloc, from, pid, request),
            Message::Pause { pid, room } => self.paused(alloc, from, pid, room),
            Message::Reply { pid, done } => self.got(alloc, pid, done),
            Message::Poke { pid } => Ok(self.poked(alloc, pid)),
            _ => unreachable!(),
        }
    }

    /// What the node makes of a message about a move.
    fn hear_move(&mut self, alloc: Global, from: u8, message: Message) -> Result<Acted, NoMemory>
        requires { is_of_moves message ≡ true }
        ensures { IfOk result (λ acted. HearsOfMove from message acted self.old self.new) }
    {
        match message {
            Message::Go {
                pid,
                to,
                hops,
                line,
            } => self.order(alloc, pid, to, hops, line),
            Message::NotHere {
                pid,
                to,
                hops,
                line,
            } => self.not_here(alloc, pid, to, hops, line),
            Message::NoMove { line } => Ok(self.close(alloc, line)),
            Message::Ask { pid, need } => self.asked(alloc, from, pid, need),
            Message::Allow { pid } => self.allowed(alloc, from, pid),
            Message::Deny { pid, need, free } => self.denied(alloc, from, pid, need, free),
            Message::Move {
                pid,
                user,
                hops,
                line,
            } => self.came(alloc, from, pid, user, hops, line),
            Message::Landed {
                pid,
                source,
                hops,
                line,
            } => self.landed(alloc, from, pid, source, hops, line),
            _ => unreachable!(),
        }
    }

    /// What the node makes of a message that is in its place, with an event of this stamp.
    pub fn hear<C: Chooser>(
        &mut self,
        alloc: Global,
        stamp: u64,
        from: u8,
        message: Message,
        policy: &Policy<C>,
    ) -> Result<Acted, NoMemory>
        ensures { IfOk result (λ acted. HearsHere (C.answers policy.now) stamp from message acted self.old self.new) }
    {
        if is_of_calls(&message) {
            let acted = self.hear_call(alloc, from, message)?;
            return Ok(acted);
        }
        match message {
            Message::Half { places } => {
                let acted = self.half_came(alloc, from, stamp, &places, policy)?;
                Ok(acted)
            }
            message => {
                let acted = self.hear_move(alloc, from, message)?;
                Ok(acted)
            }
        }
    }
}
