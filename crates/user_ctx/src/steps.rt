// Many instructions, one after another.
ghost use Rattle.std.specs.Prelude.{◌≡◌, ◌≢◌, ◌≤◌, Some, ◌∷◌, ◌<◌, drop};
ghost use Rattle.user_spec.specs.Instruction.{one_instruction, ran};
ghost use Rattle.user_ctx.specs.Stopping.{core};

use crate::step::step;
use crate::windows::Windows;
use page_set::{CachedPages, Pages};
use user_spec::outcome::Outcome;

/// More instructions than this pay for making them ready.
const PLAIN_STEPS: u32 = 128;

/// Instructions as they are written until so many were done or one was not: how many were done, and how the last one came
/// out.
#[inline(never)]
fn run_plain(pc: &mut u32, x: &mut [u32; 32], pages: &mut Pages, n: u32) -> (u32, Outcome)
    requires { x.old ≡ 0 ∷ drop 1 x.old }
    ensures zero { x.new ≡ 0 ∷ drop 1 x.new }
    ensures most { result.0 ≤ n }
    ensures went { ran result.0 (core pc.old x.old pages.old) ≡ Some (core pc.new x.new pages.new) }
    ensures whole { result.1 ≡ Outcome.Done → result.0 ≡ n }
    ensures short { result.1 ≢ Outcome.Done → result.0 < n }
    ensures stop { result.1 ≢ Outcome.Done → one_instruction (core pc.new x.new pages.new) ≡ record { outcome = result.1; core = core pc.new x.new pages.new } }
{
    let mut at = *pc;
    for i in 0..n {
        let (outcome, _) = step(&mut at, x, pages);
        match outcome {
            Outcome::Done => {}
            outcome => {
                *pc = at;
                return (i, outcome);
            }
        }
    }
    *pc = at;
    (n, Outcome::Done)
}

/// The same, by what is made ready on the way. The registers are a copy meanwhile, so that none of the host's is needed to find
/// them.
#[inline(never)]
fn run_ready(pc: &mut u32, x: &mut [u32; 32], pages: &mut Pages, n: u32) -> (u32, Outcome)
    requires { x.old ≡ 0 ∷ drop 1 x.old }
    ensures zero { x.new ≡ 0 ∷ drop 1 x.new }
    ensures most { result.0 ≤ n }
    ensures went { ran result.0 (core pc.old x.old pages.old) ≡ Some (core pc.new x.new pages.new) }
    ensures whole { result.1 ≡ Outcome.Done → result.0 ≡ n }
    ensures short { result.1 ≢ Outcome.Done → result.0 < n }
    ensures stop { result.1 ≢ Outcome.Done → one_instruction (core pc.new x.new pages.new) ≡ record { outcome = result.1; core = core pc.new x.new pages.new } }
{
    let mut at = *pc;
    let mut windows = Windows::new(at);
    let mut registers = *x;
    let alloc = pages.allocator();
    let mut cached = CachedPages::new(std::mem::replace(pages, Pages::new(alloc)));
    let mut done = 0;
    loop {
        let (more, goes_on) = windows.run(&mut at, &mut registers, &mut cached, n - done);
        done += more;
        if done == n {
            *pages = cached.into_pages();
            *x = registers;
            *pc = at;
            return (n, Outcome::Done);
        }
        if goes_on {
            continue;
        }
        let (outcome, stepped) = windows.step(&mut at, &mut registers, cached);
        cached = stepped;
        match outcome {
            Outcome::Done => done += 1,
            outcome => {
                *pages = cached.into_pages();
                *x = registers;
                *pc = at;
                return (done, outcome);
            }
        }
    }
}

/// The same, plainly at first.
pub fn run(pc: &mut u32, x: &mut [u32; 32], pages: &mut Pages, n: u32) -> (u32, Outcome)
    requires { x.old ≡ 0 ∷ drop 1 x.old }
    ensures zero { x.new ≡ 0 ∷ drop 1 x.new }
    ensures most { result.0 ≤ n }
    ensures went { ran result.0 (core pc.old x.old pages.old) ≡ Some (core pc.new x.new pages.new) }
    ensures whole { result.1 ≡ Outcome.Done → result.0 ≡ n }
    ensures short { result.1 ≢ Outcome.Done → result.0 < n }
    ensures stop { result.1 ≢ Outcome.Done → one_instruction (core pc.new x.new pages.new) ≡ record { outcome = result.1; core = core pc.new x.new pages.new } }
{
    let (went, outcome) = run_plain(pc, x, pages, n.min(PLAIN_STEPS));
    match outcome {
        Outcome::Done if went < n => {
            let (more, last) = run_ready(pc, x, pages, n - went);
            (went + more, last)
        }
        _ => (went, outcome),
    }
}
