// How an instruction and a step come out.

/// How one instruction came out.
#[derive(Clone, Copy, Debug, PartialEq, Eq)]
pub enum Outcome {
    /// It was done.
    Done,
    /// It is an environment call.
    Call,
    /// The signal of a fault.
    Fault(u8),
}

/// How a step of a process came out.
#[derive(Clone, Copy, Debug, PartialEq, Eq)]
pub enum Stop {
    /// It was done.
    Went,
    /// The process is at a forwarded call.
    AtCall,
    /// The next step is a brk that maps a page.
    Grows,
    /// The signal of a fault.
    Fault(u8),
}
