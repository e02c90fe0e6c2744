// What a descriptor stands for.

/// What is read or written by a descriptor: the terminal's input or output, a file, or an end of a pipe.
#[derive(Clone, Copy, Debug, PartialEq, Eq)]
pub enum Target {
    TermIn,
    TermOut,
    File(u32),
    ReadEnd(u32),
    WriteEnd(u32),
}

/// A description: its target; its rights, of which 1 is to read and 2 to write; its offset.
#[derive(Clone, Copy, Debug, PartialEq, Eq)]
pub struct Look {
    pub target: Target,
    pub rights: u8,
    pub offset: u32,
}

/// A description and how many descriptors have it.
#[derive(Clone, Copy, Debug, PartialEq, Eq)]
pub struct Description {
    pub look: Look,
    pub holders: u64,
}
