// What home makes of a call: the call itself, then the taking of a signal, then the reply and the pokes.
ghost use Rattle.std.specs.Prelude.{◌≡◌, ◌≤◌, ◌<◌, ◌+◌, ◌++◌, ◌∷◌, [], Some, None, true, not, is_some, slice_index, MatchOption, length, IfOk, OnErr, vec_len, vec_capacity};
ghost use Rattle.call_table.specs.Calls.{is_signal_number};
ghost use Rattle.kernel_spec.specs.Kernel.{deliverable, end_at, is_live};
ghost use Rattle.user_spec.specs.Fits.{fits_request};
ghost use Rattle.home_kernel.specs.Serving.{IsLive};
ghost use Rattle.deputy.specs.Rows.{held_at, is_fork, with_born};
ghost use Rattle.deputy.specs.Calls.{broken_by, fell, first_of, last_of, counted_rows, poke_mail, answered, value_in, call_asks, pause_asks, paused, call_turn, fits_call, goes_on, next_ready, retry_call};
ghost use Rattle.deputy.specs.Rules.{CanWait};
ghost use Rattle.deputy.specs.Serving.{ComesTo, first_with, last_with};

use crate::asks::Asks;
use crate::outcome::Outcome;
use crate::pokes::{Pokes, pokes_of};
use crate::posting::alone;
use crate::row::HeldCall;
use crate::rows::Rows;
use call_forward::{Acted, Done, Mail, Message};
use call_table::{Answer, Kind, NoMemory, Request};
use home_kernel::{Kernel, Served, Took};
use node_event::{Way, What};
use std::alloc::Global;

/// A call that blocks is broken off where the process can take a signal. None exactly where it cannot.
fn break_off(kernel: &mut Kernel, alloc: Global, pid: u32, request: &Request) -> Option<Outcome>
    ensures comes { ComesTo result (broken_by (deliverable kernel.old pid) kernel.old) kernel.old kernel.new }
    ensures same { kernel.new ≡ kernel.old }
{
    if kernel.deliverable(pid).is_none() {
        return None;
    }
    let answer = kernel.break_call(alloc, pid, request);
    Some(Outcome {
        way: Way::Broke,
        answer: Some(answer),
        raised: None,
    })
}

/// The end of a process by its fault.
fn fall(kernel: &mut Kernel, pid: u32, request: &Request) -> Outcome
    requires live { IsLive kernel.old pid }
    requires fault { is_signal_number (slice_index request.now.args 0) ≡ true }
    ensures { first_with kernel.new result ≡ fell kernel.old pid (slice_index request.now.args 0) }
{
    let raised = kernel.fall(pid, request.args[0] as u8);
    Outcome {
        way: Way::Fell,
        answer: None,
        raised,
    }
}

/// The call itself, or the fault. None exactly where the call is to wait; then, and at want of memory, nothing changes.
fn serve_first(
    kernel: &mut Kernel,
    alloc: Global,
    pid: u32,
    request: &Request,
) -> Result<Option<Outcome>, NoMemory>
    requires live { IsLive kernel.old pid }
    requires fits { fits_request request.now ≡ true }
    ensures ok { IfOk result (λ outcome. ComesTo outcome (first_of kernel.old pid request.now) kernel.old kernel.new) }
    ensures err { OnErr result (kernel.new ≡ kernel.old) }
{
    if request.number == 0 {
        return Ok(Some(fall(kernel, pid, request)));
    }
    match kernel.serve(alloc, pid, request)? {
        Served::Done { answer, raised } => Ok(Some(Outcome {
            way: Way::Did,
            answer: Some(answer),
            raised,
        })),
        Served::Blocks => Ok(break_off(kernel, alloc, pid, request)),
    }
}

/// Takes a signal where the process can take one.
fn take_last(kernel: &mut Kernel, asks: Asks) -> Took
    ensures { last_of kernel.old asks.pid asks.room ≡ last_with kernel.new result }
{
    kernel.take(asks.pid, asks.room)
}

/// The value of an answer.
fn value_of(answer: &Option<Answer>) -> Option<i32>
    ensures { result ≡ value_in answer.now }
{
    match answer {
        Some(answer) => Some(answer.value),
        None => None,
    }
}

/// What happened, `signal` being the lowest that could be taken.
fn served_event(
    kernel: &Kernel,
    asks: Asks,
    outcome: &Outcome,
    signal: Option<u8>,
    pokes: Pokes,
) -> What
    ensures { result ≡ What.Served asks.pid outcome.now.way asks.number (value_in outcome.now.answer) signal (end_at kernel.now asks.pid) (is_some (deliverable kernel.now asks.pid)) pokes.first pokes.second }
{
    What::Served {
        pid: asks.pid,
        way: outcome.way,
        number: asks.number,
        value: value_of(&outcome.answer),
        taken: signal,
        end: kernel.ended(asks.pid),
        more: kernel.deliverable(asks.pid).is_some(),
        poked: pokes.first,
        poked_too: pokes.second,
    }
}

/// What the process is told.
fn done_of(kernel: &Kernel, pid: u32, answer: Option<Answer>, took: Took) -> Done
    ensures { result ≡ record { answer = answer; taken = took.taken; ended = not (is_live kernel.now pid); more = is_some (deliverable kernel.now pid) } }
{
    Done {
        answer,
        taken: took.taken,
        ended: !kernel.live(pid),
        more: kernel.deliverable(pid).is_some(),
    }
}

/// Posts a poke, if there is one.
pub fn post_poke(mail: &mut Vec<(u8, Message)>, rows: &Rows, poked: Option<u32>)
    requires { vec_len mail.old < vec_capacity mail.old }
    ensures items { mail.new.items ≡ mail.old.items ++ poke_mail rows.now.list poked }
    ensures len { vec_len mail.new ≤ vec_len mail.old + 1 }
    ensures capacity { vec_capacity mail.new ≡ vec_capacity mail.old }
{
    if let Some(pid) = poked {
        mail.push_reserved((rows.place(pid), Message::Poke { pid }));
    }
}

/// The reply, and then the pokes.
fn post(mut mail: Vec<(u8, Message)>, rows: &Rows, asks: Asks, done: Done, pokes: Pokes) -> Mail
    requires empty { mail.items ≡ [] }
    requires len { vec_len mail ≡ 0 }
    requires room { 3 ≤ vec_capacity mail }
    ensures { result ≡ (asks.from, Message.Reply asks.pid done) ∷ (poke_mail rows.now.list pokes.first ++ poke_mail rows.now.list pokes.second) }
{
    mail.push_reserved((
        asks.from,
        Message::Reply {
            pid: asks.pid,
            done,
        },
    ));
    post_poke(&mut mail, rows, pokes.first);
    post_poke(&mut mail, rows, pokes.second);
    Mail::from_vec(mail)
}

/// Whether an answer is that of a fork that made a child.
fn is_fork(answer: &Option<Answer>) -> bool
    ensures { result ≡ is_fork answer.now }
{
    match answer {
        Some(answer) => answer.kind == Kind::Fork,
        None => false,
    }
}

/// A forwarded call is counted, and a fork's child has a row.
fn update(rows: &mut Rows, asks: Asks, forked: bool)
    requires { 1 ≤ rows.old.room }
    ensures { rows.new.list ≡ counted_rows asks.number asks.pid (with_born forked asks.from rows.old.list) }
{
    if forked {
        rows.push(asks.from);
    }
    if asks.number.is_some() {
        rows.count(asks.pid);
    }
}

/// Who asks by a call.
fn asks_of(from: u8, pid: u32, request: &Request) -> Asks
    ensures { result ≡ call_asks from pid request.now }
{
    Asks {
        from,
        pid,
        number: Some(request.number),
        room: request.room,
    }
}

/// Room for a reply and two pokes.
fn mail_room(alloc: Global) -> Result<Vec<(u8, Message)>, NoMemory>
    ensures empty { IfOk result (λ mail. mail.items ≡ []) }
    ensures len { IfOk result (λ mail. vec_len mail ≡ 0) }
    ensures room { IfOk result (λ mail. 3 ≤ vec_capacity mail) }
{
    Ok(Vec::with_capacity(alloc, 3)?)
}

/// The taking of a signal after the call itself, the reply and the pokes.
fn answer(
    kernel: &mut Kernel,
    rows: &mut Rows,
    mail: Vec<(u8, Message)>,
    asks: Asks,
    outcome: Outcome,
) -> Acted
    requires row { 1 ≤ rows.old.room }
    requires empty { mail.items ≡ [] }
    requires len { vec_len mail ≡ 0 }
    requires room { 3 ≤ vec_capacity mail }
    ensures { answered asks (first_with kernel.old outcome) rows.old.list ≡ record { home = record { kernel = kernel.new; rows = rows.new.list }; acted = result } }
{
    let signal = kernel.deliverable(asks.pid);
    let forked = is_fork(&outcome.answer);
    let took = take_last(kernel, asks);
    let pokes = pokes_of(kernel, rows, asks.pid, outcome.raised, took.raised);
    let what = served_event(kernel, asks, &outcome, signal, pokes);
    let done = done_of(kernel, asks.pid, outcome.answer, took);
    let mail = post(mail, rows, asks, done, pokes);
    update(rows, asks, forked);
    Acted { what, mail }
}

/// A call or a fault is served, or is to wait. Want of memory changes nothing.
pub fn serve_or_hold(
    kernel: &mut Kernel,
    rows: &mut Rows,
    alloc: Global,
    from: u8,
    pid: u32,
    request: Request,
) -> Result<Acted, NoMemory>
    requires fits { fits_call (record { kernel = kernel.old; rows = rows.old.list }) pid request ≡ true }
    requires given { pid ≤ length rows.old.list }
    ensures ok { IfOk result (λ acted. call_turn (first_of kernel.old pid request) (record { kernel = kernel.old; rows = rows.old.list }) from pid request ≡ record { home = record { kernel = kernel.new; rows = rows.new.list }; acted = acted }) }
    ensures kernel { OnErr result (kernel.new ≡ kernel.old) }
    ensures rows { OnErr result (rows.new.list ≡ rows.old.list) }
{
    rows.reserve()?;
    let mail = mail_room(alloc)?;
    let asks = asks_of(from, pid, &request);
    match serve_first(kernel, alloc, pid, &request)? {
        Some(outcome) => Ok(answer(kernel, rows, mail, asks, outcome)),
        None => {
            let what = What::Held {
                pid,
                number: request.number,
            };
            rows.hold(pid, HeldCall { from, request })?;
            Ok(alone(alloc, what))
        }
    }
}

/// A pause is served. Want of memory changes nothing.
pub fn serve_pause(
    kernel: &mut Kernel,
    rows: &mut Rows,
    alloc: Global,
    from: u8,
    pid: u32,
    room: bool,
) -> Result<Acted, NoMemory>
    ensures ok { IfOk result (λ acted. answered (pause_asks from pid room) (paused kernel.old) rows.old.list ≡ record { home = record { kernel = kernel.new; rows = rows.new.list }; acted = acted }) }
    ensures kernel { OnErr result (kernel.new ≡ kernel.old) }
    ensures rows { OnErr result (rows.new.list ≡ rows.old.list) }
{
    rows.reserve()?;
    let mail = mail_room(alloc)?;
    let asks = Asks {
        from,
        pid,
        number: None,
        room,
    };
    let outcome = Outcome {
        way: Way::Paused,
        answer: None,
        raised: None,
    };
    Ok(answer(kernel, rows, mail, asks, outcome))
}

/// The lowest pid whose call waits and can go on.
pub fn next_ready(kernel: &Kernel, rows: &Rows) -> Option<u32>
    ensures { result ≡ next_ready (record { kernel = kernel.now; rows = rows.now.list }) }
{
    let waiting = rows.waiting();
    for pid in waiting {
        if goes_on(kernel, rows, *pid) {
            return Some(*pid);
        }
    }
    None
}

/// Whether a call of a process waits and can go on.
fn goes_on(kernel: &Kernel, rows: &Rows, pid: u32) -> bool
    ensures { result ≡ goes_on (record { kernel = kernel.now; rows = rows.now.list }) pid }
{
    match rows.held(pid) {
        Some(call) => !kernel.blocks(pid, &call.request) || kernel.deliverable(pid).is_some(),
        None => false,
    }
}

/// The call of a process that waits is served. None where none waits, or where it cannot go on. Want of memory changes nothing.
pub fn serve_held(
    kernel: &mut Kernel,
    rows: &mut Rows,
    alloc: Global,
    pid: u32,
) -> Result<Option<Acted>, NoMemory>
    requires { MatchOption (held_at rows.old.list pid) (Unit {0}) (λ call. CanWait kernel.old pid call.request) }
    ensures ok { IfOk result (λ acted. retry_call (held_at rows.old.list pid) (record { kernel = kernel.old; rows = rows.old.list }) pid ≡ record { home = record { kernel = kernel.new; rows = rows.new.list }; acted = acted }) }
    ensures kernel { OnErr result (kernel.new ≡ kernel.old) }
    ensures rows { OnErr result (rows.new.list ≡ rows.old.list) }
{
    rows.reserve()?;
    let mail = mail_room(alloc)?;
    let Some(call) = rows.held(pid) else {
        return Ok(None);
    };
    let asks = asks_of(call.from, pid, &call.request);
    match serve_first(kernel, alloc, pid, &call.request)? {
        Some(outcome) => Ok(Some(answer(kernel, rows, mail, asks, outcome))),
        None => Ok(None),
    }
}
