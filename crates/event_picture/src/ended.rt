// How the call ended.
/// Why the call ended.
#[derive(Clone, Copy, Debug, PartialEq, Eq)]
pub enum Ended {
    /// The picture was written.
    Done,
    /// The first faulty line of the report, counted from 1; its line was written.
    BadReport { line: u32 },
    /// The report could not be read.
    ReadFault,
    /// The picture could not be written whole.
    WriteFault,
    NoMemory,
}
