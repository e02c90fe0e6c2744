// What is asked and told of one context.
ghost use Rattle.std.specs.Prelude.{◌≡◌, ◌<◌, ◌≤◌, ◌^◌, true, IfOk, OnErr};
ghost use Rattle.user_spec.specs.Fits.{child_of, given_by, taken_by, fits_given, fits_entered, has_room_at};
ghost use Rattle.remote_ctx.specs.Hosted.{is_running, state_of, pages_of};
ghost use Rattle.remote_ctx.specs.Acting.{is_waiting, is_asking, asks_node, has_kept, kept_move, keeping_as, resumed_stance, child_in, replied, fits_done, fits_stance, enters, is_possible, with_user, GoesIn};

use crate::context::{Context, KeptMove, Stance};
use crate::quantum::{Ran, go};
use call_forward::{Done, State};
use call_table::{Answer, Kind, NoMemory, Taken};
use user_ctx::User;

pub fn is_running(state: &Stance) -> bool
    ensures { result ≡ is_running state.now }
{
    match state {
        Stance::Running => true,
        Stance::Waiting { .. } => false,
        Stance::Asking { .. } => false,
    }
}

pub fn is_waiting(state: &Stance) -> bool
    ensures { result ≡ is_waiting state.now }
{
    match state {
        Stance::Running => false,
        Stance::Waiting { .. } => true,
        Stance::Asking { .. } => false,
    }
}

pub fn is_asking(state: &Stance) -> bool
    ensures { result ≡ is_asking state.now }
{
    match state {
        Stance::Running => false,
        Stance::Waiting { .. } => false,
        Stance::Asking { .. } => true,
    }
}

/// Whether it asked this node for room.
pub fn asks_node(state: &Stance, node: u8) -> bool
    ensures { result ≡ asks_node node state.now }
{
    match state {
        Stance::Running => false,
        Stance::Waiting { .. } => false,
        Stance::Asking { to, .. } => *to == node,
    }
}

pub fn kept_move(state: &Stance) -> Option<KeptMove>
    ensures { result ≡ kept_move state.now }
{
    match state {
        Stance::Running => None,
        Stance::Waiting { kept, .. } => *kept,
        Stance::Asking { .. } => None,
    }
}

pub fn has_kept(state: &Stance) -> bool
    ensures { result ≡ has_kept state.now }
{
    match state {
        Stance::Running => false,
        Stance::Waiting { kept: None, .. } => false,
        Stance::Waiting { kept: Some(_), .. } => true,
        Stance::Asking { .. } => false,
    }
}

/// A stance with a move that is kept, where it waits.
pub fn keeping(state: Stance, to: u8, line: u32) -> Stance
    ensures { result ≡ keeping_as state to line }
{
    match state {
        Stance::Running => Stance::Running,
        Stance::Waiting { pause, .. } => Stance::Waiting {
            pause,
            kept: Some(KeptMove { to, line }),
        },
        Stance::Asking { to, line } => Stance::Asking { to, line },
    }
}

/// The stance after a reply: it runs on, or begins its kept move.
pub fn resumed(kept: Option<KeptMove>) -> Stance
    ensures { result ≡ resumed_stance kept }
{
    match kept {
        None => Stance::Running,
        Some(kept) => Stance::Asking {
            to: kept.to,
            line: Some(kept.line),
        },
    }
}

/// How the context stands, without what is kept of its waiting.
pub fn state_of(context: &Context) -> State
    ensures { result ≡ state_of context.now }
{
    match context.state {
        Stance::Running => State::Running,
        Stance::Waiting { .. } => State::Waiting,
        Stance::Asking { to, line } => State::Asking { to, line },
    }
}

/// The child that an answer brings.
fn child_of(answer: &Answer) -> Option<u32>
    ensures { result ≡ child_of answer.now }
{
    match answer.kind {
        Kind::Plain => None,
        Kind::Return => None,
        Kind::Fork => {
            if answer.value > 0 {
                Some(answer.value as u32)
            } else {
                None
            }
        }
    }
}

/// The child that a reply brings.
pub fn child_in(answer: &Option<Answer>) -> Option<u32>
    ensures { result ≡ child_in answer.now }
{
    match answer {
        None => None,
        Some(answer) => child_of(answer),
    }
}

// ---- a reply

/// Whether a process that waits can get this answer, or none.
fn fits_given(pause: bool, user: &User, answer: &Option<Answer>) -> bool
    ensures { result ≡ fits_given pause user.now answer.now }
{
    match answer {
        None => pause || !user.is_at_call(),
        Some(answer) => !pause && (user.is_at_call() && user.fits_answer(answer)),
    }
}

/// Whether a handler is entered.
fn enters(taken: &Option<Taken>) -> bool
    ensures { result ≡ enters taken.now }
{
    match taken {
        None => false,
        Some(Taken::Dies(_)) => false,
        Some(Taken::Enters { .. }) => true,
    }
}

/// Whether there is room for a signal's frame once this answer, or none, was given.
fn has_room(user: &User, answer: &Option<Answer>) -> bool
    requires { is_possible user.now answer.now ≡ true }
    ensures { result ≡ has_room_at (given_by user.now answer.now) }
{
    match answer {
        None => user.frame_room(),
        Some(answer) => user.room_after(answer),
    }
}

/// Whether what a call or a pause comes to fits a process that waits for it.
#[tactic(auto, using(crate::proofs::Fitting::given_is_possible, crate::proofs::Fitting::enters_not, crate::proofs::Fitting::enters_there))]
fn fits_done(pause: bool, user: &User, done: &Done) -> bool
    ensures { result ≡ fits_done pause user.now done.now }
{
    if !fits_given(pause, user, &done.answer) {
        return false;
    }
    if !enters(&done.taken) {
        return true;
    }
    has_room(user, &done.answer)
}

/// Whether a reply fits a context.
pub fn fits_context(context: &Context, done: &Done) -> bool
    ensures { result ≡ fits_stance context.now.state context.now.user done.now }
{
    match context.state {
        Stance::Running => false,
        Stance::Waiting { pause, .. } => fits_done(pause, &context.user, done),
        Stance::Asking { .. } => false,
    }
}

fn give(user: &mut User, answer: &Option<Answer>)
    ensures { user.new ≡ given_by user.old answer.now }
{
    match answer {
        None => {}
        Some(answer) => user.give(answer),
    }
}

/// Enters the handler of a signal that is taken, unless the process dies of it. There is room for the frame.
fn take(user: &mut User, taken: &Option<Taken>)
    requires { fits_entered user.old taken.now ≡ true }
    ensures { user.new ≡ taken_by user.old taken.now }
{
    match taken {
        None => {}
        Some(Taken::Dies(_)) => {}
        Some(
            Taken::Enters {
                signal,
                handler,
                restorer,
                mask,
            },
        ) => {
            let _entered = user.push_frame(*signal, *handler, *restorer, *mask);
        }
    }
}

/// The process gets an answer, and then a signal.
fn reply(user: &mut User, done: &Done)
    requires { fits_entered (given_by user.old done.now.answer) done.now.taken ≡ true }
    ensures { user.new ≡ replied user.old done.now }
{
    give(user, &done.answer);
    take(user, &done.taken);
}

/// How many pages a process had and has.
#[derive(Clone, Copy, Debug, PartialEq, Eq)]
pub struct Change {
    pub before: u32,
    pub after: u32,
}

/// The process of a context gets an answer, and then a signal.
#[tactic(auto, using(crate::proofs::Fitting::stance_enters))]
pub fn reply_in(context: &mut Context, done: &Done) -> Change
    requires { fits_stance context.old.state context.old.user done.now ≡ true }
    ensures is { context.new ≡ with_user (replied context.old.user done.now) context.old }
    ensures before { result.before ≡ pages_of context.old }
    ensures after { result.after ≡ pages_of context.new }
    ensures few { result.after < 2 ^ 32 }
{
    let before = context.user.need();
    reply(&mut context.user, done);
    Change {
        before,
        after: context.user.need(),
    }
}

/// A turn of the process of a context. Where memory is not found nothing changes.
pub fn go_in(context: &mut Context, quantum: u32) -> Result<(Ran, Change), NoMemory>
    requires { 1 ≤ quantum }
    ensures ok { IfOk result (λ r. GoesIn r.0 r.1 quantum context.old context.new) }
    ensures err { OnErr result (context.new ≡ context.old) }
{
    let before = context.user.need();
    let ran = go(&mut context.user, quantum)?;
    let after = context.user.need();
    Ok((ran, Change { before, after }))
}
