// Why a file is refused.
ghost use Rattle.std.specs.Prelude.{◌≡◌};
ghost use Rattle.elf_load.specs.Faults.{fault_number};

use thiserror::Error;

/// What is wrong with an executable, in the order in which it is looked for.
#[derive(Clone, Copy, Debug, PartialEq, Eq, Error)]
pub enum ImageFault {
    /// There are fewer than the 52 bytes of the header.
    #[error("the file is shorter than its header")]
    Short,
    /// The file is not ELF of 32 bits, little endian, version 1.
    #[error("the file is not ELF of 32 bits, little endian")]
    NotElf32Le,
    /// The file's type is not that of an executable, 2.
    #[error("the file is not an executable")]
    NotExec,
    /// The machine is not RISC-V, 243.
    #[error("the file is not for RISC-V")]
    NotRiscv,
    /// The flags ask for compressed instructions, a float ABI or fewer registers.
    #[error("the file asks for an extension")]
    Flags,
    /// There are program headers that are not 32 bytes long, or that end past the file.
    #[error("the program headers are not within the file")]
    Header,
    /// A program header asks for dynamic linking or an interpreter.
    #[error("the file is linked dynamically")]
    Dynamic,
    /// A segment's part of the file is larger than the segment, or ends past the file.
    #[error("a segment is not within the file")]
    Segment,
    /// A segment does not lie within 0x1000 to 0x70000000.
    #[error("a segment is out of range")]
    Range,
    /// The segments and the stack are more than 1,024 pages.
    #[error("the segments have too many pages")]
    TooManyPages,
    /// The entry is not a multiple of 4, or its page cannot be executed.
    #[error("the entry cannot be executed")]
    Entry,
}

impl ImageFault {
    /// The fault's number, 1 to 11 in the order above.
    pub fn number(&self) -> u8
        ensures { result ≡ fault_number self.now }
    {
        match self {
            ImageFault::Short => 1,
            ImageFault::NotElf32Le => 2,
            ImageFault::NotExec => 3,
            ImageFault::NotRiscv => 4,
            ImageFault::Flags => 5,
            ImageFault::Header => 6,
            ImageFault::Dynamic => 7,
            ImageFault::Segment => 8,
            ImageFault::Range => 9,
            ImageFault::TooManyPages => 10,
            ImageFault::Entry => 11,
        }
    }
}

/// Why a file is not loaded.
#[derive(Clone, Copy, Debug, PartialEq, Eq, Error)]
pub enum LoadError {
    #[error("{0}")]
    Image(ImageFault),
    #[error("out of memory")]
    NoMemory,
}
