// Contexts at their places.
ghost use Rattle.std.specs.Prelude.{◌≡◌, ◌<◌, ◌≤◌, vec_len, vec_capacity, true, slice_get, length, IfOk, IfErr, OnOk, OnErr, ◌+◌};
ghost use Rattle.std.specs.List.{insert};
ghost use Rattle.remote_ctx.specs.Hosted.{IsRising};
ghost use Rattle.remote_ctx.specs.Kept.{pids_of, IsAt, IsGap};
ghost use Rattle.remote_ctx.specs.Acting.{StoodThere, WentThere, RepliedThere, fits_here};

use crate::context::{Context, Stance};
use crate::quantum::Ran;
use crate::standing::{Change, go_in, is_running, reply_in};
use call_forward::Done;
use call_table::NoMemory;

/// The place of the context of a pid, or the place that it would have.
pub fn place_of(contexts: &[Context], pid: u32) -> Result<usize, usize>
    requires { IsRising (pids_of contexts.now) }
    ensures found { IfOk result (IsAt (pids_of contexts.now) pid) }
    ensures absent { IfErr result (IsGap (pids_of contexts.now) pid) }
{
    contexts.binary_search_by_key(&pid, |context| context.pid)
}

/// Finds room for one more context and its pid. Where memory is not found nothing changes.
pub fn reserve(contexts: &mut Vec<Context>, running: &mut Vec<u32>) -> Result<(), NoMemory>
    requires { vec_len running.old ≤ vec_len contexts.old }
    ensures contexts { contexts.new.items ≡ contexts.old.items }
    ensures running { running.new.items ≡ running.old.items }
    ensures capacity { vec_capacity running.old ≤ vec_capacity running.new }
    ensures place { OnOk result (vec_len contexts.new < vec_capacity contexts.new) }
    ensures room { OnOk result (vec_len contexts.new < vec_capacity running.new) }
    ensures pid { OnOk result (vec_len running.new < vec_capacity running.new) }
{
    contexts.reserve(1)?;
    running.reserve(contexts.len() - running.len() + 1)?;
    Ok(())
}

/// Puts a context at a place. There is room, so it takes no memory.
pub fn insert(contexts: &mut Vec<Context>, place: usize, context: Context)
    requires within { place ≤ vec_len contexts.old }
    requires room { vec_len contexts.old < vec_capacity contexts.old }
    ensures { contexts.new.items ≡ insert contexts.old.items place context }
{
    let _inserted = contexts.insert(place, context);
}

/// Changes how the context at a place stands. Whether it ran.
pub fn stand_at(contexts: &mut Vec<Context>, place: usize, poked: bool, state: Stance) -> bool
    requires { place < vec_len contexts.old }
    ensures { StoodThere result place poked state contexts.old.items contexts.new.items }
{
    let context = &mut contexts[place];
    let ran = is_running(&context.state);
    context.poked = poked;
    context.state = state;
    ran
}

/// A turn of the context at a place. Where memory is not found nothing changes.
pub fn go_at(
    contexts: &mut Vec<Context>,
    place: usize,
    quantum: u32,
) -> Result<(Ran, Change), NoMemory>
    requires within { place < vec_len contexts.old }
    requires some { 1 ≤ quantum }
    ensures ok { IfOk result (λ r. WentThere r.0 r.1 place quantum contexts.old.items contexts.new.items) }
    ensures err { OnErr result (contexts.new.items ≡ contexts.old.items) }
{
    let context = &mut contexts[place];
    match go_in(context, quantum) {
        Ok(went) => Ok(went),
        Err(e) => Err(e),
    }
}

/// The context at a place gets what its call or its pause came to.
pub fn reply_at(contexts: &mut Vec<Context>, place: usize, done: &Done) -> Change
    requires within { place < vec_len contexts.old }
    requires fits { fits_here (slice_get contexts.old.items place) done.now ≡ true }
    ensures { RepliedThere result place done.now contexts.old.items contexts.new.items }
{
    let context = &mut contexts[place];
    reply_in(context, done)
}
