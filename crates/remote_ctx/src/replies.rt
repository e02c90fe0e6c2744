// Replies from home.
ghost use Rattle.std.specs.Prelude.{◌≡◌, true, [], ◌<◌, ◌≤◌, is_none, unwrap_or, vec_len, vec_capacity, IfOk, IsSome, OnOk, OnErr};
ghost use Rattle.std.specs.Option.{option_map};
ghost use Rattle.remote_ctx.specs.Hosted.{lookup, Changes};
ghost use Rattle.remote_ctx.specs.Acting.{fits_here, fits_reply, is_new_child, child_user, kept_of, resumed_as, Bears, Finishes, Gets, what_of, mail_of, kept_word};

use crate::context::KeptMove;
use crate::hosted::Hosted;
use crate::mail::strange;
use crate::standing::{child_in, fits_context, resumed};
use call_forward::{Acted, Done, Mail, Message};
use call_table::NoMemory;
use node_event::{Kept, What};
use std::alloc::Global;
use user_ctx::User;

/// The node that keeps the home side of all processes.
const HOME: u8 = 0;

/// What becomes of a kept move.
fn kept_word(ended: bool) -> Kept
    ensures { result ≡ kept_word ended }
{
    if ended { Kept::Ended } else { Kept::Begins }
}

/// The event of a reply.
fn got_what(pid: u32, kept: Option<KeptMove>, child: Option<u32>, ended: bool) -> What
    ensures { result ≡ what_of pid kept child ended }
{
    match kept {
        None => What::Got {
            pid,
            child,
            ended,
            kept: None,
            to: None,
        },
        Some(kept) => What::Got {
            pid,
            child,
            ended,
            kept: Some(kept_word(ended)),
            to: Some(kept.to),
        },
    }
}

/// Mail with room for what a kept move posts.
fn mail_room(alloc: Global, kept: Option<KeptMove>) -> Result<Vec<(u8, Message)>, NoMemory>
    ensures empty { IfOk result (λ mail. mail.items ≡ []) }
    ensures none { IfOk result (λ mail. vec_len mail ≡ 0) }
    ensures room { IfOk result (λ mail. IsSome kept → 0 < vec_capacity mail) }
{
    match kept {
        None => Ok(Vec::new(alloc)),
        Some(_) => Ok(Vec::with_capacity(alloc, 1)?),
    }
}

/// What a kept move posts: it asks its target for room, or is closed where the process ended. There is room for it in the mail.
fn kept_mail(
    mut mail: Vec<(u8, Message)>,
    pid: u32,
    kept: Option<KeptMove>,
    ended: bool,
    need: u32,
) -> Mail
    requires empty { mail.items ≡ [] }
    requires none { vec_len mail ≡ 0 }
    requires room { IsSome kept → 0 < vec_capacity mail }
    ensures { result ≡ mail_of pid kept ended need }
{
    if let Some(kept) = kept {
        if ended {
            mail.push_reserved((HOME, Message::NoMove { line: kept.line }));
        } else {
            mail.push_reserved((kept.to, Message::Ask { pid, need }));
        }
    }
    Mail::from_vec(mail)
}

impl Hosted {
    /// Whether what a call or a pause came to fits the process, which waits for it.
    fn fits_here(&self, pid: u32, done: &Done) -> bool
        ensures { result ≡ fits_here (lookup pid self.now) done.now }
    {
        match self.find(pid) {
            None => false,
            Some(context) => fits_context(context, done),
        }
    }

    /// Whether no context of the child is here, if there is one.
    fn is_new_child(&self, child: Option<u32>) -> bool
        ensures { result ≡ is_new_child child self.now }
    {
        match child {
            None => true,
            Some(child) => self.is_absent(child),
        }
    }

    /// Whether a reply fits.
    pub(crate) fn fits_reply(&self, pid: u32, done: &Done) -> bool
        ensures { result ≡ fits_reply pid done.now self.now }
    {
        if !self.fits_here(pid, done) {
            return false;
        }
        self.is_new_child(child_in(&done.answer))
    }

    /// The child of a process at a fork, whose pages are copied.
    fn child_copy(&self, pid: u32, child: u32) -> Result<Option<User>, NoMemory>
        ensures { IfOk result (λ copy. copy ≡ child_user child (lookup pid self.now)) }
    {
        match self.find(pid) {
            None => Ok(None),
            Some(context) => Ok(Some(context.user.fork_copy(child)?)),
        }
    }

    /// Puts the child of a process here, if there is one. Where memory is not found nothing changes.
    fn bear(&mut self, pid: u32, child: Option<u32>) -> Result<(), NoMemory>
        requires { is_new_child child self.old ≡ true }
        ensures ok { OnOk result (Bears (lookup pid self.old) child self.old self.new) }
        ensures err { OnErr result (self.new ≡ self.old) }
    {
        let Some(child) = child else {
            return Ok(());
        };
        match self.child_copy(pid, child)? {
            None => Ok(()),
            Some(user) => self.put(user, 0),
        }
    }

    /// A process gets what its call or its pause came to, and runs on, or begins its kept move.
    fn resume(&mut self, pid: u32, kept: Option<KeptMove>, done: &Done)
        requires { fits_here (lookup pid self.old) done.now ≡ true }
        ensures { Changes pid (resumed_as kept done.now) self.old self.new }
    {
        self.reply(pid, done);
        self.stand(pid, done.more, resumed(kept));
    }

    /// The same, or it is dropped where it ended.
    fn finish(&mut self, pid: u32, kept: Option<KeptMove>, done: &Done)
        requires { fits_here (lookup pid self.old) done.now ≡ true }
        ensures { Finishes pid kept done.now self.old self.new }
    {
        if done.ended {
            let _context = self.take_out(pid);
        } else {
            self.resume(pid, kept, done);
        }
    }

    /// A reply: the process gets the answer, then enters the handler of a signal that is taken, and runs on, or begins its kept move. The child of a fork is put here.
    /// A process that ended is dropped, and its kept move closed. Where memory is not found nothing changes.
    pub fn got(&mut self, alloc: Global, pid: u32, done: Done) -> Result<Acted, NoMemory>
        ensures ok { IfOk result (λ acted. Gets acted pid done self.old self.new) }
        ensures err { OnErr result (self.new ≡ self.old) }
    {
        if !self.fits_reply(pid, &done) {
            return Ok(strange(alloc));
        }
        let kept = self.kept_move(pid);
        let child = child_in(&done.answer);
        let mail = mail_room(alloc, kept)?;
        self.bear(pid, child)?;
        self.finish(pid, kept, &done);
        let need = self.need(pid).unwrap_or(0);
        Ok(Acted {
            what: got_what(pid, kept, child, done.ended),
            mail: kept_mail(mail, pid, kept, done.ended, need),
        })
    }
}
