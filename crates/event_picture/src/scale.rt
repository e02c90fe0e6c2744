// The scale of time: where a stamp stands.
ghost use Rattle.std.specs.Prelude.{◌≡◌, ◌≤◌, ◌<◌, ◌^◌, ℕ};
ghost use Rattle.event_picture.specs.Scales.{place_of, span_of, width_of};

/// The least and the greatest width that time is given, and the width of a stamp where there is room.
const NARROWEST: u64 = 800;

const WIDEST: u64 = 1600;

const STAMP: u64 = 32;

/// A scale from one stamp to another.
#[derive(Clone, Copy, Debug, PartialEq, Eq)]
pub struct Scale {
    first: u64,
    span: u64,
    width: u64,
    ghost some: { 1 ≤ span },
    ghost short: { span ≤ 2 ^ 40 },
    ghost narrow: { width ≤ 1600 },
}

/// How wide so many stamps are drawn.
fn width_of(span: u64) -> u64
    ensures is { result ≡ width_of span }
    ensures narrow { result ≤ 1600 }
{
    span.min(WIDEST / STAMP).max(NARROWEST / STAMP) * STAMP
}

impl Scale {
    /// The scale on which the cells of the stamps `first` to `last` stand one behind the other.
    pub fn new(first: u64, last: u64) -> Scale
        requires ordered { first ≤ last }
        requires short { last < 2 ^ 40 }
        ensures first { result.first ≡ first }
        ensures span { result.span ≡ span_of first last }
        ensures width { result.width ≡ width_of (span_of first last) }
    {
        let span = last - first + 1;
        Scale {
            first,
            span,
            width: width_of(span),
        }
    }

    /// How wide all stamps are.
    pub fn width(&self) -> u32
        ensures { result ≡ self.now.width }
    {
        self.width as u32
    }

    /// Where a stamp's cell begins, counted from where the first one does. A later stamp never begins before an earlier one.
    #[tactic(auto, using(crate::proofs::Places::place_within, crate::proofs::Places::place_rises))]
    pub fn place(&self, stamp: u64) -> u32
        ensures is { result ≡ place_of self.now.first self.now.span self.now.width stamp }
        ensures within { result ≤ self.now.width }
        ensures rises { (earlier : ℕ) → earlier ≤ stamp → place_of self.now.first self.now.span self.now.width earlier ≤ result }
    {
        let passed = stamp.saturating_sub(self.first).min(self.span);
        (passed * self.width / self.span) as u32
    }
}
