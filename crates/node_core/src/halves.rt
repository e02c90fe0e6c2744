// Halves of load vectors, as a node sends and hears them.
ghost use Rattle.std.specs.Prelude.{◌≡◌, ◌∷◌, ◌++◌, [], ◌<◌, ◌&&◌, true, None, IfOk, IfSome, take};
ghost use Rattle.load_gossip.specs.Vectors.{renewed};
ghost use Rattle.call_forward.specs.declared.message.Message.TheVariants as message;
ghost use Rattle.protocol.specs.Gossip.{other_at};
ghost use Rattle.remote_ctx.specs.Hosted.{runs_at};
ghost use Rattle.node_core.specs.Sight.{AreCounted, own_entry};
ghost use Rattle.node_core.specs.Halves.{ActsOnChoice, BeginsChosen, Follows, HearsHalf, SendsHalf, chance_after, has_news, has_others, heard_talk, in_first_round, is_half_due, is_late, target_of, told_half, told_heard, told_talk};

use crate::moves::one;
use crate::node::Node;
use crate::talk::Talk;
use call_forward::{Acted, Mail, Message};
use call_table::{Entry, NoMemory};
use mem_usher::Choice;
use node_event::What;
use policy_box::{Chooser, Policy};
use rand_core::utils::NextWord;
use std::alloc::Global;

/// So many quanta of steps are made between two halves at most.
const QUANTA: u32 = 16;

/// What a policy chose at a half, and what is posted then.
#[derive(Drop)]
struct Decided {
    choice: Option<Choice>,
    mail: Mail,
}

/// The other node at this place of their order.
fn other_at(id: u8, place: u8) -> u8
    requires { place < 255 }
    ensures { result ≡ other_at id place }
{
    if place < id { place } else { place + 1 }
}

/// The event of a half that was sent.
fn told_half(other: u8, choice: Option<Choice>) -> What
    ensures { result ≡ told_half other choice }
{
    match choice {
        None => What::Half {
            other,
            pid: None,
            to: None,
        },
        Some(Choice { pid, to }) => What::Half {
            other,
            pid: Some(pid),
            to: Some(to),
        },
    }
}

/// The event of a half that was heard.
fn told_heard(other: u8, choice: Option<Choice>) -> What
    ensures { result ≡ told_heard other choice }
{
    match choice {
        None => What::Heard {
            other,
            pid: None,
            to: None,
        },
        Some(Choice { pid, to }) => What::Heard {
            other,
            pid: Some(pid),
            to: Some(to),
        },
    }
}

impl Talk {
    /// A half was sent, which told this of the own node.
    fn told(&mut self, own: Entry)
        ensures { self.new ≡ told_talk own self.old }
    {
        self.vector.renew(own);
        self.sent = self.sent.saturating_add(1);
        self.steps = 0;
        self.load = own.load;
        self.free = own.free;
    }

    /// A half is heard, after the own entry is renewed.
    fn heard(&mut self, own: Entry, places: &[Option<Entry>; 4])
        ensures { self.new ≡ heard_talk own places.now self.old }
    {
        self.vector.renew(own);
        self.vector.hear(places);
    }
}

impl Node {
    // ---- when a half is due

    /// Whether some other node was not sent a half yet.
    fn in_first_round(&self) -> bool
        ensures { result ≡ in_first_round self.now }
    {
        self.talk.sent < self.shape.nodes.saturating_sub(1) as u32
    }

    /// Whether load or free pages are not those that were last told.
    fn has_news(&self) -> bool
        ensures is { result ≡ has_news self.now }
        ensures counted { AreCounted self.now.hosted }
    {
        let own = self.own_entry(0);
        own.load != self.talk.load || own.free != self.talk.free
    }

    /// Whether a half is due since sixteen quanta of steps.
    pub fn late_half(&self) -> bool
        ensures { result ≡ (has_others self.now && is_late self.now) }
    {
        self.shape.nodes >= 2 && self.talk.steps >= QUANTA
    }

    /// Whether a half is due, where no context runs or one does.
    pub fn half_ready(&self, rests: bool) -> bool
        ensures is { result ≡ is_half_due rests self.now }
        ensures counted { AreCounted self.now.hosted }
    {
        let news = self.has_news();
        if self.shape.nodes < 2 {
            return false;
        }
        if self.in_first_round() || self.talk.steps >= QUANTA {
            return true;
        }
        rests && news
    }

    // ---- to which node

    /// The node that a half goes to. After the first round it takes a word of chance.
    fn next_target(&mut self) -> u8
        ensures is { result ≡ target_of self.old }
        ensures rest { self.new ≡ record self.old { talk = record self.old.talk { chance = chance_after self.old } } }
    {
        let others = self.shape.nodes.saturating_sub(1);
        if self.in_first_round() {
            return other_at(self.id, self.talk.sent as u8);
        }
        let word: u32 = self.talk.chance.next_word();
        other_at(self.id, (word % others.max(1) as u32) as u8)
    }

    // ---- what becomes of it

    /// A process that was chosen asks its target for room.
    fn begin_chosen(&mut self, mut mail: Mail, choice: Choice) -> Result<Mail, NoMemory>
        requires { runs_at choice.pid self.old.hosted ≡ true }
        ensures { IfOk result (λ posted. BeginsChosen choice mail posted self.old self.new) }
    {
        let need = self.hosted.need(choice.pid).unwrap_or(0);
        mail.push((
            choice.to,
            Message::Ask {
                pid: choice.pid,
                need,
            },
        ))?;
        self.hosted.begin(choice.pid, choice.to, None);
        Ok(mail)
    }

    /// What was chosen begins, if anything was.
    fn follow(&mut self, mail: Mail, choice: Option<Choice>) -> Result<Mail, NoMemory>
        requires { IfSome choice (λ c. runs_at c.pid self.old.hosted ≡ true) }
        ensures { IfOk result (λ posted. Follows choice mail posted self.old self.new) }
    {
        match choice {
            None => Ok(mail),
            Some(choice) => {
                let posted = self.begin_chosen(mail, choice)?;
                Ok(posted)
            }
        }
    }

    /// The policy is asked, and what it chooses begins.
    fn act_on_choice<C: Chooser>(
        &mut self,
        alloc: Global,
        own: Entry,
        mail: Mail,
        policy: &Policy<C>,
    ) -> Result<Decided, NoMemory>
        ensures { IfOk result (λ decided. ActsOnChoice (C.answers policy.now) own mail decided.mail decided.choice self.old self.new) }
    {
        let choice = self.choose(alloc, own, policy)?;
        let posted = self.follow(mail, choice)?;
        Ok(Decided {
            choice,
            mail: posted,
        })
    }

    /// A half goes out.
    pub fn send_half<C: Chooser>(
        &mut self,
        alloc: Global,
        stamp: u64,
        policy: &Policy<C>,
    ) -> Result<Acted, NoMemory>
        ensures { IfOk result (λ acted. SendsHalf (C.answers policy.now) stamp acted self.old self.new) }
    {
        let own = self.own_entry(stamp);
        let other = self.next_target();
        self.talk.told(own);
        let places = self.talk.vector.half();
        let first = one(alloc, other, Message::Half { places })?;
        let decided = self.act_on_choice(alloc, own, first, policy)?;
        Ok(Acted {
            what: told_half(other, decided.choice),
            mail: decided.mail,
        })
    }

    /// A half comes.
    pub fn hear_half<C: Chooser>(
        &mut self,
        alloc: Global,
        from: u8,
        stamp: u64,
        places: &[Option<Entry>; 4],
        policy: &Policy<C>,
    ) -> Result<Acted, NoMemory>
        ensures { IfOk result (λ acted. HearsHalf (C.answers policy.now) stamp from places.now acted self.old self.new) }
    {
        let own = self.own_entry(stamp);
        self.talk.heard(own, places);
        let decided = self.act_on_choice(alloc, own, Mail::new(alloc), policy)?;
        Ok(Acted {
            what: told_heard(from, decided.choice),
            mail: decided.mail,
        })
    }
}
