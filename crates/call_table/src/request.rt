// A forwarded call and its answer.
use crate::bytes::Bytes;

/// What is done with an answer: `Plain` writes its bytes at the buffer of the call, `Fork` writes none, `Return` takes the registers from a signal frame.
#[derive(Clone, Copy, Debug, PartialEq, Eq)]
pub enum Kind {
    Plain,
    Fork,
    Return,
}

/// A forwarded call: its number, its arguments, the bytes that it hands over, and whether there is room for a signal frame after it.
/// A fault is a request with the number 0 and the signal in `args[0]`.
#[derive(Debug, Drop)]
pub struct Request {
    pub number: u32,
    pub args: [u32; 6],
    pub bytes: Bytes,
    pub room: bool,
}

/// The answer of a call. A negative value is an error.
#[derive(Debug, Drop)]
pub struct Answer {
    pub value: i32,
    pub bytes: Bytes,
    pub kind: Kind,
}

/// A signal as it is taken: the process dies of it, or enters its handler with the mask that stood before.
#[derive(Clone, Copy, Debug, PartialEq, Eq)]
pub enum Taken {
    Dies(u8),
    Enters {
        signal: u8,
        handler: u32,
        restorer: u32,
        mask: u32,
    },
}

/// The buffer of a call: `len` bytes from `addr` on, each with the right `right` (4 to read, 2 to write).
#[derive(Clone, Copy, Debug, PartialEq, Eq)]
pub struct Need {
    pub addr: u32,
    pub len: u32,
    pub right: u8,
}
