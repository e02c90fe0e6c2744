// Where the parts of a picture stand, in units of the picture.
ghost use Rattle.std.specs.Prelude.{◌≡◌, ◌+◌, ◌-◌, ◌*◌};

/// Where time begins: the names of the lanes stand to the left.
pub const LEFT: u32 = 72;

/// What is kept free to the right.
pub const RIGHT: u32 = 24;

/// The middle of the title, of the legend of processes and of the legend of marks.
pub const TITLE: u32 = 24;

pub const PROCESSES: u32 = 46;

pub const MARKS: u32 = 68;

/// The line of home, to which calls go.
pub const HOME: u32 = 100;

/// The middle of the first node's lane, and how far the lanes are apart.
pub const FIRST_LANE: u32 = 152;

pub const LANE: u32 = 64;

/// Half of the height of a lane, and of a bar in it.
pub const HALF_LANE: u32 = 24;

pub const HALF_BAR: u32 = 8;

/// How far below a lane's middle its signs stand.
pub const SIGNS: u32 = 16;

/// How far below the last lane's middle the axis of time is, and how much stands below it.
pub const AXIS: u32 = 40;

pub const BELOW: u32 = 32;

/// The middle of a node's lane.
pub fn lane_middle(node: u8) -> u32
    ensures { result ≡ 152 + 64 * node }
{
    FIRST_LANE + LANE * node as u32
}

/// Where the axis of time is, below the lanes of so many nodes.
pub fn axis_of(nodes: u8) -> u32
    ensures { result ≡ 152 + 64 * (nodes - 1) + 40 }
{
    lane_middle(nodes.saturating_sub(1)) + AXIS
}
