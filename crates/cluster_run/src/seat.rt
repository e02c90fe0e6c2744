// The seat of a node in a run: the node with its side of the carriers.
use call_forward::Letter;
use node_links::Side;

/// What the last turn at a seat answered.
#[derive(Clone, Copy, Debug, PartialEq, Eq)]
pub enum Rest {
    /// The node did something, or has made no turn yet.
    Busy,
    /// No letter came, and nothing was due.
    Idle,
    /// So too, at home, where the script is at its end and every process has ended.
    Over,
    /// More was due, and the journal is full.
    Full,
}

/// A node, whatever it is, at its seat: its side of the carriers, the letter that a link gave back and that goes out first, the source of the
/// letter that came last, what its last turn answered, and whether memory was wanting in a shift.
#[derive(Drop)]
pub struct Seat<N, C> {
    pub node: N,
    pub waits: Option<Letter>,
    pub side: Side<C>,
    pub source: u8,
    pub rest: Rest,
    pub failed: bool,
}
