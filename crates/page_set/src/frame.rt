// One stored page, and a leaf of 1,024 places for them.

/// The bytes of a page and its rights.
#[derive(Clone, Copy)]
pub struct Frame {
    pub bytes: [u8; 4096],
    pub rights: u8,
}

/// The pages whose numbers agree above the low ten bits.
#[derive(Drop)]
pub struct Leaf {
    pub frames: [Option<Box<Frame>>; 1024],
}
