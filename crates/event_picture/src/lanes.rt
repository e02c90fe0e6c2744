// What each lane shows so far, so that marks that fall together are drawn once.
ghost use Rattle.std.specs.Prelude.{◌≡◌, ◌≤◌, IfSome};

use crate::marks::Bar;
use call_table::limit;

/// Bars of one process that are so near become one.
const NEAR: u32 = 1;

/// How far apart arrows of a kind in a lane end at least, and signs on a line stand.
const ARROWS_APART: u32 = 10;

const SIGNS_APART: u32 = 8;

/// What a lane shows: the bar that may still grow, and the first places that are free for an arrow of a call, an answer, and a sign.
#[derive(Clone, Copy, Debug, PartialEq, Eq)]
pub struct Lane {
    bar: Option<Bar>,
    calls: u32,
    answers: u32,
    signs: u32,
}

impl Lane {
    /// A lane that shows nothing.
    pub const EMPTY: Lane = Lane {
        bar: None,
        calls: 0,
        answers: 0,
        signs: 0,
    };

    /// The bar that may still grow.
    pub fn bar(&self) -> Option<Bar>
        ensures { result ≡ self.now.bar }
    {
        self.bar
    }

    /// Shows steps, and gives the bar that is done by them. Steps that lie near the bar of the same process make it longer; of those
    /// of another process only what lies behind it is seen.
    pub fn add_steps(&mut self, steps: Bar) -> Option<Bar>
        ensures { IfSome result (λ bar. IfSome self.new.bar (λ next. bar.to ≤ next.from)) }
    {
        let Some(bar) = self.bar else {
            self.bar = Some(steps);
            return None;
        };
        if steps.pid == bar.pid && steps.from <= bar.to.saturating_add(NEAR) {
            self.bar = Some(Bar {
                to: bar.to.max(steps.to),
                ..bar
            });
            return None;
        }
        if steps.to <= bar.to {
            return None;
        }
        self.bar = Some(Bar {
            from: steps.from.max(bar.to),
            ..steps
        });
        Some(bar)
    }

    /// Whether there is room for the arrow of a call that comes home there, which is taken then.
    pub fn takes_call(&mut self, x: u32) -> bool {
        takes(&mut self.calls, x, ARROWS_APART)
    }

    /// Whether there is room for the arrow of an answer that comes in there, which is taken then.
    pub fn takes_answer(&mut self, x: u32) -> bool {
        takes(&mut self.answers, x, ARROWS_APART)
    }

    /// Whether there is room for a sign there, which is taken then.
    pub fn takes_sign(&mut self, x: u32) -> bool {
        takes(&mut self.signs, x, SIGNS_APART)
    }
}

/// Whether a place is free, which is taken then with those up to so far behind it.
fn takes(free: &mut u32, x: u32, apart: u32) -> bool {
    if x < *free {
        return false;
    }
    *free = x.saturating_add(apart);
    true
}

/// The lanes of all nodes, and the line of home.
#[derive(Clone, Copy, Debug, PartialEq, Eq)]
pub struct Lanes {
    nodes: [Lane; 8],
    home: Lane,
}

impl Lanes {
    /// Lanes that show nothing.
    pub const EMPTY: Lanes = Lanes {
        nodes: [Lane::EMPTY; 8],
        home: Lane::EMPTY,
    };

    /// The lane of a node. None where no cluster has it.
    pub fn lane(&mut self, node: u8) -> Option<&mut Lane> {
        self.nodes.get_mut(node as usize)
    }

    /// The line of home.
    pub fn home(&mut self) -> &mut Lane {
        &mut self.home
    }

    /// The bars that are still open.
    pub fn bars(&self) -> [Option<Bar>; 8] {
        self.nodes.map(|lane| lane.bar())
    }
}
