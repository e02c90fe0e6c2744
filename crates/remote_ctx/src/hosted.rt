// The contexts at a node.
ghost use Rattle.std.specs.Prelude.{◌≡◌, ℕ, Option, ◌+◌, ◌-◌, ◌<◌, ◌≤◌, ◌^◌, cond, true, false, Some, None, IsSome, [], length, min, MatchOption, IfOk, OnOk, OnErr, option_copied};
ghost use Rattle.std.specs.Option.{option_map};
ghost use Rattle.call_forward.specs.declared.state.State.TheVariants as state;
ghost use Rattle.remote_ctx.specs.Hosted.{lookup, AreApart, Puts, Changes, runs_at, IsNext, NonePasses, IsRising, has, state_of, pages_of, pages_here, IsPast, sum_to, counts};
ghost use Rattle.remote_ctx.specs.Acting.{fresh, standing, asks_at, waits_at, holds_for, has_kept, asks_node, is_awake, stance_of, poked_as, room_of, kept_of, asked_of, RunsAs, AsksAfter, fits_here, with_replied, TakesOut};

use crate::context::{Context, KeptMove, Stance};
use crate::pids;
use crate::place::{go_at, insert, place_of, reply_at, reserve, stand_at};
use crate::quantum::Ran;
use crate::standing::{
    Change, asks_node, has_kept, is_asking, is_running, is_waiting, kept_move, state_of,
};
use call_forward::{Done, State};
use call_table::{NoMemory, Request};
use std::alloc::Global;
use std::marker::Model;
use user_ctx::User;

/// The contexts at a node. Contracts see them as a list, in which no pid stands twice.
#[derive(Drop)]
pub struct Hosted {
    /// By rising pids.
    contexts: Vec<Context>,
    /// The pids of those that run, rising, with room for the pid of each context.
    running: Vec<u32>,
    /// The sum of their pages.
    total: u128,
}

impl Model for Hosted {
    ghost use Rattle.std.specs.Prelude.{List, vec_capacity};
    ghost use Rattle.std.specs.Coded.{coded_list};
    ghost use Rattle.remote_ctx.specs.declared.context.Context.{Context};
    ghost use Rattle.remote_ctx.specs.contracts.context.Context as context_row;
    ghost use Rattle.remote_ctx.specs.Kept.{IsKept};

    ghost Value = { List Context };

    ghost coded = { coded_list context_row.the_row.coded };

    ghost view = { λ h. h.contexts.items };

    ghost invariant = { λ h. IsKept h.contexts.items h.running.items (vec_capacity h.running) h.total };
}

/// A process that comes: it runs.
fn fresh(pid: u32, user: User, hops: u32) -> Context
    requires { user.pid ≡ pid }
    ensures { result ≡ fresh user hops }
{
    Context {
        pid,
        user,
        hops,
        poked: false,
        state: Stance::Running,
    }
}

/// A sum of pages in which those of one context changed.
fn counted(total: u128, change: Change) -> u128
    requires within { change.before ≤ total }
    requires fits { total + change.after < 2 ^ 128 }
    ensures { result + change.before ≡ total + change.after }
{
    total - change.before as u128 + change.after as u128
}

impl Hosted {
    /// No context. It takes no memory.
    pub fn new(alloc: Global) -> Hosted
        ensures { result ≡ [] }
    {
        Hosted {
            contexts: Vec::new(alloc),
            running: Vec::new(alloc),
            total: 0,
        }
    }

    // ---- what is here

    /// The context of a pid.
    pub(crate) fn find(&self, pid: u32) -> Option<&Context>
        ensures { option_copied result ≡ lookup pid self.now }
    {
        match place_of(&self.contexts, pid) {
            Ok(place) => Some(&self.contexts[place]),
            Err(_) => None,
        }
    }

    /// How the process stands. None exactly where it is not here.
    pub fn state(&self, pid: u32) -> Option<State>
        ensures is { result ≡ option_map state_of (lookup pid self.now) }
        ensures runs { result ≡ Some state.Running → runs_at pid self.now ≡ true }
        ensures waits { result ≡ Some state.Waiting → waits_at pid self.now ≡ true }
        ensures asks { (to : ℕ) (line : Option ℕ) → result ≡ Some (state.Asking to line) → asks_at pid self.now ≡ true }
    {
        match self.find(pid) {
            None => None,
            Some(context) => Some(state_of(context)),
        }
    }

    pub(crate) fn stance(&self, pid: u32) -> Option<Stance>
        ensures { result ≡ stance_of (lookup pid self.now) }
    {
        match self.find(pid) {
            None => None,
            Some(context) => Some(context.state),
        }
    }

    /// Whether it is here, waits and has a kept move.
    pub fn kept(&self, pid: u32) -> bool
        ensures { result ≡ holds_for has_kept (lookup pid self.now) }
    {
        match self.stance(pid) {
            None => false,
            Some(state) => has_kept(&state),
        }
    }

    /// Its kept move, where it waits and has one.
    pub(crate) fn kept_move(&self, pid: u32) -> Option<KeptMove>
        ensures { result ≡ kept_of (lookup pid self.now) }
    {
        match self.stance(pid) {
            None => None,
            Some(state) => kept_move(&state),
        }
    }

    /// Whether it is here and asks for room.
    pub(crate) fn is_asking(&self, pid: u32) -> bool
        ensures { result ≡ asks_at pid self.now }
    {
        match self.stance(pid) {
            None => false,
            Some(state) => is_asking(&state),
        }
    }

    /// Whether it is here and asks this node for room.
    pub(crate) fn asks_node(&self, pid: u32, node: u8) -> bool
        ensures { result ≡ holds_for (asks_node node) (lookup pid self.now) }
    {
        match self.stance(pid) {
            None => false,
            Some(state) => asks_node(&state, node),
        }
    }

    /// Whether it is here and does not wait.
    pub(crate) fn is_awake(&self, pid: u32) -> bool
        ensures { result ≡ holds_for is_awake (lookup pid self.now) }
    {
        match self.stance(pid) {
            None => false,
            Some(state) => !is_waiting(&state),
        }
    }

    /// How many pages it has. None exactly where it is not here.
    pub fn need(&self, pid: u32) -> Option<u32>
        ensures { result ≡ option_map pages_of (lookup pid self.now) }
    {
        match self.find(pid) {
            None => None,
            Some(context) => Some(context.user.need()),
        }
    }

    /// Whether it is here, and a poke of it was not heeded.
    pub fn is_poked(&self, pid: u32) -> bool
        ensures { result ≡ poked_as (lookup pid self.now) }
    {
        match self.find(pid) {
            None => false,
            Some(context) => context.poked,
        }
    }

    /// Whether it is here and has room for a signal's frame.
    pub(crate) fn has_room(&self, pid: u32) -> bool
        ensures { result ≡ room_of (lookup pid self.now) }
    {
        match self.find(pid) {
            None => false,
            Some(context) => context.user.frame_room(),
        }
    }

    /// What it asks at a forwarded call or a fault.
    pub(crate) fn request(&self, alloc: Global, pid: u32) -> Result<Option<Request>, NoMemory>
        requires { IsSome (asked_of (lookup pid self.now)) }
        ensures { IfOk result (λ request. request ≡ asked_of (lookup pid self.now)) }
    {
        match self.find(pid) {
            None => Ok(None),
            Some(context) => Ok(Some(context.user.request(alloc)?)),
        }
    }

    /// How many contexts there are, or 2^32 - 1 where they are more.
    pub fn load(&self) -> u32
        ensures is { result ≡ min (length self.now) (2 ^ 32 - 1) }
        ensures apart { AreApart self.now }
        ensures sum { (n : ℕ) → IsPast n self.now → length self.now ≡ sum_to n (λ q. counts (λ _. 1) (lookup q self.now)) }
    {
        let count = self.contexts.len();
        if count < u32::MAX as usize {
            count as u32
        } else {
            u32::MAX
        }
    }

    /// The sum of their pages, or 2^32 - 1 where it is more.
    pub fn pages(&self) -> u32
        ensures is { result ≡ min (pages_here self.now) (2 ^ 32 - 1) }
        ensures apart { AreApart self.now }
        ensures sum { (n : ℕ) → IsPast n self.now → pages_here self.now ≡ sum_to n (λ q. counts pages_of (lookup q self.now)) }
    {
        if self.total < u32::MAX as u128 {
            self.total as u32
        } else {
            u32::MAX
        }
    }

    /// The pids of those that run, rising.
    pub fn running(&self) -> &[u32]
        ensures rising { IsRising result.now }
        ensures is { (q : ℕ) → has q result.now ≡ runs_at q self.now }
    {
        &self.running
    }

    /// The least pid above `after` that runs, else the least. None exactly where none runs.
    pub fn next(&self, after: u32) -> Option<u32>
        ensures { MatchOption result (NonePasses (λ q. runs_at q self.now)) (IsNext (λ q. runs_at q self.now) after) }
    {
        pids::next(&self.running, after)
    }

    // ---- one context more, less or changed

    /// Puts a process here, which runs. Where memory is not found nothing changes.
    pub fn put(&mut self, user: User, hops: u32) -> Result<(), NoMemory>
        requires { lookup user.pid self.old ≡ None }
        ensures ok { OnOk result (Puts user.pid (Some (fresh user hops)) self.old self.new) }
        ensures err { OnErr result (self.new ≡ self.old) }
    {
        let pid = user.pid();
        let pages = user.need();
        match place_of(&self.contexts, pid) {
            Ok(_) => Ok(()),
            Err(place) => {
                reserve(&mut self.contexts, &mut self.running)?;
                pids::note(&mut self.running, pid, false, true);
                insert(&mut self.contexts, place, fresh(pid, user, hops));
                self.total += pages as u128;
                Ok(())
            }
        }
    }

    /// Takes a context out. None exactly where it is not here.
    pub fn take_out(&mut self, pid: u32) -> Option<Context>
        ensures { TakesOut result pid self.old self.new }
    {
        match place_of(&self.contexts, pid) {
            Err(_) => None,
            Ok(place) => {
                let context = self.contexts.remove(place);
                let ran = is_running(&context.state);
                pids::note(&mut self.running, pid, ran, false);
                self.total -= context.user.need() as u128;
                Some(context)
            }
        }
    }

    /// Changes how a context stands.
    pub(crate) fn stand(&mut self, pid: u32, poked: bool, state: Stance)
        requires { IsSome (lookup pid self.old) }
        ensures { Changes pid (standing poked state) self.old self.new }
    {
        match place_of(&self.contexts, pid) {
            Err(_) => {}
            Ok(place) => {
                let runs = is_running(&state);
                let ran = stand_at(&mut self.contexts, place, poked, state);
                pids::note(&mut self.running, pid, ran, runs);
            }
        }
    }

    /// A process gets what its call or its pause came to.
    pub(crate) fn reply(&mut self, pid: u32, done: &Done)
        requires { fits_here (lookup pid self.old) done.now ≡ true }
        ensures { Changes pid (with_replied done.now) self.old self.new }
    {
        match place_of(&self.contexts, pid) {
            Err(_) => {}
            Ok(place) => {
                let change = reply_at(&mut self.contexts, place, done);
                self.total = counted(self.total, change);
            }
        }
    }

    /// A turn of a process that runs: at most a quantum of steps, up to a forwarded call, a fault, or a growth that is not the first of them.
    /// At a call or a fault, and where memory is not found, nothing changes.
    pub fn run(&mut self, pid: u32, quantum: u32) -> Result<Ran, NoMemory>
        requires runs { runs_at pid self.old ≡ true }
        requires some { 1 ≤ quantum }
        ensures ok { IfOk result (λ ran. RunsAs ran pid quantum self.old self.new) }
        ensures asks { IfOk result (λ ran. AsksAfter ran (asked_of (lookup pid self.new))) }
        ensures err { OnErr result (self.new ≡ self.old) }
    {
        match place_of(&self.contexts, pid) {
            Err(_) => Err(NoMemory),
            Ok(place) => {
                let (ran, change) = go_at(&mut self.contexts, place, quantum)?;
                self.total = counted(self.total, change);
                Ok(ran)
            }
        }
    }
}
