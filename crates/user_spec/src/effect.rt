// What an instruction asks for, as plain data.
use rv_decode::Register;

/// How the bytes that are loaded become a register's value.
#[derive(Clone, Copy, Debug, PartialEq, Eq)]
pub enum Form {
    SignedByte,
    SignedHalf,
    Word,
    Byte,
    Half,
}

/// How many low bytes are stored.
#[derive(Clone, Copy, Debug, PartialEq, Eq)]
pub enum Width {
    One,
    Two,
    Four,
}

/// What an instruction does to a process.
#[derive(Clone, Copy, Debug, PartialEq, Eq)]
pub enum Effect {
    /// A value for a register, and the next place.
    Sets { rd: Register, value: u32, next: u32 },
    /// A value from memory for a register.
    Loads { rd: Register, addr: u32, form: Form },
    /// The low bytes of a value to memory.
    Stores { addr: u32, value: u32, width: Width },
    /// An environment call.
    Calls,
    /// A fault, by its signal.
    Raises(u8),
}
