// Playing a list of steps from the empty state.
ghost use Rattle.std.specs.Prelude.{◌≡◌, ◌<◌, Some, None, IfOk, IfErr, length, min, ◌-◌, ◌^◌};
ghost use Rattle.one_node.specs.Machine.{play, statuses};
ghost use Rattle.one_node.specs.Playing.{IsOutcomeOf, Fails};

use crate::home::{Applied, Home, Outcome};
use crate::step::{Setup, Step};
use std::alloc::Global;
use thiserror::Error;

/// Why steps were not played.
#[derive(Clone, Copy, Debug, PartialEq, Eq, Error)]
pub enum PlayFault {
    /// The first step whose condition fails, counted from 0; 2^32 - 1 where it is more.
    #[error("step {at} is not enabled")]
    NotEnabled { at: u32 },
    #[error("out of memory")]
    NoMemory,
}

/// An index as a number: 2^32 - 1 where it is more.
fn number_of(at: usize) -> u32
    ensures { result ≡ min at (2 ^ 32 - 1) }
{
    at.min(0xFFFF_FFFF) as u32
}

/// The system after these steps from the empty state, as it is told at the end.
pub fn play(alloc: Global, setup: &Setup, steps: &[Step]) -> Result<Outcome, PlayFault>
    ensures ok { IfOk result (λ o. IsOutcomeOf o (play setup.now steps.now)) }
    ensures err { IfErr result (λ fault. Fails fault setup.now steps.now) }
{
    let mut home = Home::new(alloc);
    for (at, step) in steps.iter().enumerate() {
        match home.apply(alloc, setup, step) {
            Ok(Applied::Did { .. }) => {}
            Ok(Applied::Not) => return Err(PlayFault::NotEnabled { at: number_of(at) }),
            Err(_) => return Err(PlayFault::NoMemory),
        }
    }
    match home.outcome(alloc) {
        Ok(outcome) => Ok(outcome),
        Err(_) => Err(PlayFault::NoMemory),
    }
}
