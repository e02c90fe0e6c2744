// Who asks something of home.

/// The node that sent a call or a pause, the process, the call's number (0 for a fault, None for a pause), and whether the process has room for a
/// signal's frame.
#[derive(Clone, Copy, Debug, PartialEq, Eq)]
pub struct Asks {
    pub from: u8,
    pub pid: u32,
    pub number: Option<u32>,
    pub room: bool,
}
