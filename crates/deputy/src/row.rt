// What home keeps of one process.
use call_table::Request;

/// A call that waits at home: the node that sent it, and what it asks.
#[derive(Debug, Drop)]
pub struct HeldCall {
    pub from: u8,
    pub request: Request,
}

/// What home keeps of a process: the node where it believes it to be, the number of landings by which that was told, how many of its forwarded calls
/// were served (2^64 - 1 where they are more), and its call that waits, if one does.
#[derive(Debug, Drop)]
pub struct Row {
    pub place: u8,
    pub hops: u32,
    pub served: u64,
    pub held: Option<HeldCall>,
}
