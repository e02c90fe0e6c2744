// The table of the answers: the status of each, and the text of the line that stands in place of a report, a summary or a file.

/// The report, the summary or the file was written, and every process has ended.
pub const DONE: u8 = 0;

/// The report or the summary was written, and nothing can go on.
pub const STUCK: u8 = 1;

/// The words ask for nothing.
pub const BAD_WORDS: u8 = 2;

pub const BAD_WORDS_LINE: &str = "bad words\n";

/// A line of the script is faulty.
pub const BAD_SCRIPT: u8 = 3;

/// Behind it stand the line and the kind of its fault.
pub const BAD_SCRIPT_TEXT: &str = "bad script";

/// The image of a `run` line is refused.
pub const BAD_IMAGE: u8 = 4;

/// Behind it stand the line and the kind of the refusal.
pub const BAD_IMAGE_TEXT: &str = "bad image";

/// The script, the text or an image could not be read.
pub const READ_FAULT: u8 = 5;

pub const READ_FAULT_LINE: &str = "read fault\n";

/// The report, the summary or the file could not be written whole.
pub const WRITE_FAULT: u8 = 6;

/// Memory that was asked for was not found.
pub const NO_MEMORY: u8 = 7;

/// The report or the summary was written, and the journal of a node was full.
pub const JOURNAL_FULL: u8 = 8;

/// A line of a text that is assembled is faulty.
pub const BAD_SOURCE: u8 = 11;

/// Behind it stand the line and the kind of its fault.
pub const BAD_SOURCE_TEXT: &str = "bad source";
