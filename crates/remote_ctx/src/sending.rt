// What a process that is hosted sends home, what pokes it, and how it moves.
ghost use Rattle.std.specs.Prelude.{◌≡◌, true, None, is_none, IsSome, IfOk, OnErr};
ghost use Rattle.remote_ctx.specs.Hosted.{lookup, Changes, runs_at};
ghost use Rattle.remote_ctx.specs.Acting.{asking, keeping, standing_as, waits_at, asks_at, poked_as, asked_of, Sends, Heeds, PokedBy, PokedOn, LeavesOr, poked_context, comes, suits};
ghost use Rattle.remote_ctx.specs.declared.context.Stance.TheVariants.{Running};

use crate::context::{Context, Stance};
use crate::hosted::Hosted;
use crate::mail::{one, strange};
use crate::standing::keeping;
use call_forward::{Acted, Mail, Message};
use call_table::NoMemory;
use node_event::What;
use std::alloc::Global;
use user_ctx::User;

/// The node that keeps the home side of all processes.
const HOME: u8 = 0;

impl Hosted {
    /// A process that runs sends the forwarded call or the fault that it is at home, and waits. Where memory is not found nothing changes.
    pub fn send(&mut self, alloc: Global, pid: u32) -> Result<Acted, NoMemory>
        requires runs { runs_at pid self.old ≡ true }
        requires asks { IsSome (asked_of (lookup pid self.old)) }
        ensures ok { IfOk result (λ acted. Sends acted pid self.old self.new) }
        ensures err { OnErr result (self.new ≡ self.old) }
    {
        match self.request(alloc, pid)? {
            None => Ok(strange(alloc)),
            Some(request) => {
                let number = request.number;
                let mail = one(alloc, HOME, Message::Call { pid, request })?;
                self.turn_to(
                    pid,
                    Stance::Waiting {
                        pause: false,
                        kept: None,
                    },
                );
                Ok(Acted {
                    what: What::Sent { pid, number },
                    mail,
                })
            }
        }
    }

    /// A process that runs and was poked pauses, so that home takes a signal, and waits. Where memory is not found nothing changes.
    pub fn heed(&mut self, alloc: Global, pid: u32) -> Result<Acted, NoMemory>
        requires runs { runs_at pid self.old ≡ true }
        requires poked { poked_as (lookup pid self.old) ≡ true }
        ensures ok { IfOk result (λ acted. Heeds acted pid self.old self.new) }
        ensures err { OnErr result (self.new ≡ self.old) }
    {
        let room = self.has_room(pid);
        let mail = one(alloc, HOME, Message::Pause { pid, room })?;
        self.stand(
            pid,
            false,
            Stance::Waiting {
                pause: true,
                kept: None,
            },
        );
        Ok(Acted {
            what: What::Heed { pid },
            mail,
        })
    }

    /// A poke: noted by a process that runs or asks for room, and dropped where it waits or is not here.
    pub fn poked(&mut self, alloc: Global, pid: u32) -> Acted
        ensures { PokedOn result pid self.old self.new }
    {
        let used = self.mark(pid);
        Acted {
            what: What::Poked { pid, used },
            mail: Mail::new(alloc),
        }
    }

    /// Notes a poke, where the process runs or asks for room. Whether it does.
    fn mark(&mut self, pid: u32) -> bool
        ensures { PokedBy result pid self.old self.new }
    {
        if !self.is_awake(pid) {
            return false;
        }
        self.note_poke(pid);
        true
    }

    /// Notes a poke of a process that is here.
    fn note_poke(&mut self, pid: u32)
        requires { IsSome (lookup pid self.old) }
        ensures { Changes pid poked_context self.old self.new }
    {
        match self.stance(pid) {
            None => {}
            Some(state) => self.stand(pid, true, state),
        }
    }

    /// Changes the stance of a process that is here.
    fn turn_to(&mut self, pid: u32, state: Stance)
        requires { IsSome (lookup pid self.old) }
        ensures { Changes pid (standing_as state) self.old self.new }
    {
        let poked = self.is_poked(pid);
        self.stand(pid, poked, state);
    }

    /// A process that runs begins its move to a node: it asks for room.
    pub fn begin(&mut self, pid: u32, to: u8, line: Option<u32>)
        requires { runs_at pid self.old ≡ true }
        ensures { Changes pid (asking to line) self.old self.new }
    {
        self.turn_to(pid, Stance::Asking { to, line });
    }

    /// A process that waits keeps a move, which begins once the reply is here.
    pub fn keep(&mut self, pid: u32, to: u8, line: u32)
        requires { waits_at pid self.old ≡ true }
        ensures { Changes pid (keeping to line) self.old self.new }
    {
        match self.stance(pid) {
            None => {}
            Some(state) => self.turn_to(pid, keeping(state, to, line)),
        }
    }

    /// A process that asked for room stays, and runs on.
    pub fn stay(&mut self, pid: u32)
        requires { asks_at pid self.old ≡ true }
        ensures { Changes pid (standing_as Running) self.old self.new }
    {
        self.turn_to(pid, Stance::Running);
    }

    /// A process that asked for room leaves: its state, which is not copied, and how many times it landed. None exactly where it does not ask, and then nothing changes.
    pub fn depart(&mut self, pid: u32) -> Option<(User, u32)>
        ensures { LeavesOr result pid self.old self.new }
    {
        if !self.is_asking(pid) {
            return None;
        }
        match self.take_out(pid) {
            None => None,
            Some(context) => {
                let Context {
                    pid: _,
                    user,
                    hops,
                    poked: _,
                    state: _,
                } = context;
                Some((user, hops))
            }
        }
    }

    /// Whether no context of the process is here.
    pub fn is_absent(&self, pid: u32) -> bool
        ensures is { result ≡ is_none (lookup pid self.now) }
        ensures none { result ≡ true → lookup pid self.now ≡ None }
    {
        self.find(pid).is_none()
    }

    /// Whether a process that comes is the one that is named, is not here, and has not landed too often.
    fn can_come(&self, pid: u32, user: &User, hops: u32) -> bool
        ensures { result ≡ comes pid user.now hops self.now }
    {
        if !self.is_absent(pid) {
            return false;
        }
        user.pid() == pid && hops < u32::MAX
    }

    /// Whether a message to a holder from node `from` fits, as far as the contexts here decide it.
    pub fn suits(&self, from: u8, message: &Message) -> bool
        ensures { result ≡ suits from message.now self.now }
    {
        match message {
            Message::Reply { pid, done } => self.fits_reply(*pid, done),
            Message::Ask { pid, .. } => self.is_absent(*pid),
            Message::Allow { pid } => self.asks_node(*pid, from),
            Message::Deny { pid, .. } => self.asks_node(*pid, from),
            Message::Move {
                pid,
                user,
                hops,
                ..
            } => self.can_come(*pid, user, *hops),
            Message::Call { .. } => true,
            Message::Pause { .. } => true,
            Message::Poke { .. } => true,
            Message::Go { .. } => true,
            Message::NotHere { .. } => true,
            Message::Landed { .. } => true,
            Message::NoMove { .. } => true,
            Message::Half { .. } => true,
        }
    }
}
