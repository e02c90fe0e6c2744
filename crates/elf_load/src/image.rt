// The parts of an executable file, as plain data.

/// A program header, without its physical address and its alignment.
#[derive(Clone, Copy, Debug, PartialEq, Eq)]
pub struct Header {
    pub kind: u32,
    pub offset: u32,
    pub addr: u32,
    pub file_size: u32,
    pub memory_size: u32,
    pub flags: u32,
}
