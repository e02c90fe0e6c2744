// What a runner on threads calls before each turn. It has no meaning, so contracts do not speak of it.
ghost use Rattle.std.specs.Prelude.{◌≡◌};

use std::thread;
use std::time::{Clock, Duration};

/// Called once before each turn of a node on a thread.
pub trait Gate {
    /// `idle` is whether the node's turn before it in the same shift found nothing to do.
    fn turn(&self, node: u8, idle: bool);
}

/// A gate that lets each turn go on at once.
#[derive(Clone, Copy, Debug, PartialEq, Eq)]
pub struct StillGate;

impl Gate for StillGate {
    fn turn(&self, _node: u8, _idle: bool) {}
}

/// How long a node sleeps where its last turn found nothing to do.
const PAUSE_MICROS: u64 = 100;

/// A gate that leaves the processor to others for 100 microseconds where a node has nothing to do.
#[derive(Drop)]
pub struct YieldGate<C: Clock + Drop> {
    clock: C,
}

impl<C: Clock + Drop> YieldGate<C> {
    /// A gate by a runtime's clock.
    pub fn new(clock: C) -> YieldGate<C>
        ensures { result ≡ record { clock = clock } }
    {
        YieldGate { clock }
    }
}

impl<C: Clock + Drop> Gate for YieldGate<C> {
    fn turn(&self, _node: u8, idle: bool) {
        if idle {
            thread::sleep(&self.clock, Duration::from_micros(PAUSE_MICROS));
        }
    }
}
