// Pids in rising order.
ghost use Rattle.std.specs.Prelude.{◌≡◌, ℕ, ◌+◌, ◌<◌, ◌≤◌, ◌==◌, cond, true, false, length, vec_len, vec_capacity, IfOk, IfErr, MatchOption};
ghost use Rattle.remote_ctx.specs.Hosted.{IsRising, has, IsNext, NonePasses};
ghost use Rattle.remote_ctx.specs.Kept.{IsAt, IsGap, IsCut, Notes, one_if};

/// The place of a pid, or the place that it would have.
fn search(pids: &[u32], pid: u32) -> Result<usize, usize>
    requires { IsRising pids.now }
    ensures found { IfOk result (IsAt pids.now pid) }
    ensures absent { IfErr result (IsGap pids.now pid) }
{
    pids.binary_search(&pid)
}

/// Puts a pid in its place. There is room, so it takes no memory.
fn add(pids: &mut Vec<u32>, pid: u32)
    requires rising { IsRising pids.old.items }
    requires new { has pid pids.old.items ≡ false }
    requires room { vec_len pids.old < vec_capacity pids.old }
    ensures rising { IsRising pids.new.items }
    ensures notes { Notes pid true pids.old.items pids.new.items }
    ensures count { length pids.new.items ≡ length pids.old.items + 1 }
    ensures capacity { vec_capacity pids.old ≤ vec_capacity pids.new }
{
    match search(pids, pid) {
        Ok(_) => {}
        Err(place) => {
            let _inserted = pids.insert(place, pid);
        }
    }
}

/// Takes a pid out.
fn remove(pids: &mut Vec<u32>, pid: u32)
    requires rising { IsRising pids.old.items }
    requires here { has pid pids.old.items ≡ true }
    ensures rising { IsRising pids.new.items }
    ensures notes { Notes pid false pids.old.items pids.new.items }
    ensures count { length pids.new.items + 1 ≡ length pids.old.items }
    ensures capacity { vec_capacity pids.old ≤ vec_capacity pids.new }
{
    match search(pids, pid) {
        Ok(place) => {
            let _pid = pids.remove(place);
        }
        Err(_) => {}
    }
}

/// Notes whether a process runs, of which it is known whether it ran.
#[tactic(auto, using(crate::proofs::Rising::notes_same))]
pub fn note(pids: &mut Vec<u32>, pid: u32, ran: bool, runs: bool)
    requires rising { IsRising pids.old.items }
    requires ran { has pid pids.old.items ≡ ran }
    requires room { ran ≡ false → runs ≡ true → vec_len pids.old < vec_capacity pids.old }
    ensures rising { IsRising pids.new.items }
    ensures notes { Notes pid runs pids.old.items pids.new.items }
    ensures count { length pids.new.items + one_if ran ≡ length pids.old.items + one_if runs }
    ensures capacity { vec_capacity pids.old ≤ vec_capacity pids.new }
{
    if ran == runs {
        return;
    }
    if runs {
        add(pids, pid);
    } else {
        remove(pids, pid);
    }
}

/// How many pids are at most `after`.
#[tactic(auto, using(crate::proofs::Rising::cut_at, crate::proofs::Rising::cut_gap))]
fn cut(pids: &[u32], after: u32) -> usize
    requires { IsRising pids.now }
    ensures { IsCut pids.now after result }
{
    match search(pids, after) {
        Ok(place) => place + 1,
        Err(place) => place,
    }
}

/// The least pid above `after`, else the least. None exactly where there is none.
#[tactic(auto, using(crate::proofs::Rising::next_cut, crate::proofs::Rising::next_first, crate::proofs::Rising::next_none))]
pub fn next(pids: &[u32], after: u32) -> Option<u32>
    requires { IsRising pids.now }
    ensures { MatchOption result (NonePasses (λ q. has q pids.now)) (IsNext (λ q. has q pids.now) after) }
{
    let place = cut(pids, after);
    if place < pids.len() {
        Some(pids[place])
    } else if pids.is_empty() {
        None
    } else {
        Some(pids[0])
    }
}
