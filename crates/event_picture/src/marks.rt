// The marks of a picture.
ghost use Rattle.std.specs.Prelude.{◌≡◌, ◌≤◌};

/// A place in the picture.
#[derive(Clone, Copy, Debug, PartialEq, Eq)]
pub struct Point {
    pub x: u32,
    pub y: u32,
}

/// Steps of a process, from one place to another in its node's lane.
#[derive(Clone, Copy, Debug, PartialEq, Eq)]
pub struct Bar {
    pub pid: u32,
    pub from: u32,
    pub to: u32,
    pub y: u32,
}

/// What an arrow stands for: a call on its way home, its answer on the way back, or a process that moves.
#[derive(Clone, Copy, Debug, PartialEq, Eq)]
pub enum Trip {
    Call,
    Answer,
    Move,
}

/// An arrow from where something was sent to where it came.
#[derive(Clone, Copy, Debug, PartialEq, Eq)]
pub struct Arrow {
    pub trip: Trip,
    pub pid: u32,
    pub from: Point,
    pub to: Point,
}

/// What a sign stands for: a signal that was taken or told, a move that was refused, or the end of a process.
#[derive(Clone, Copy, Debug, PartialEq, Eq)]
pub enum Occasion {
    Signal,
    Refusal,
    End,
}

/// A sign at a place.
#[derive(Clone, Copy, Debug, PartialEq, Eq)]
pub struct Sign {
    pub occasion: Occasion,
    pub at: Point,
}

/// What an event adds to the picture: at most one mark of each kind.
#[derive(Clone, Copy, Debug, PartialEq, Eq)]
pub struct Marks {
    pub bar: Option<Bar>,
    pub arrow: Option<Arrow>,
    pub sign: Option<Sign>,
}

impl Marks {
    /// Whether nothing is added.
    pub fn is_empty(&self) -> bool {
        self.bar.is_none() && self.arrow.is_none() && self.sign.is_none()
    }
}
