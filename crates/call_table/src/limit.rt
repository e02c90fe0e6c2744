// How much there may be of what the cluster holds.

/// Nodes of a cluster.
pub const NODES: u8 = 8;

/// The least pages of a node.
pub const LEAST_NODE_PAGES: u32 = 16;

/// Pages of a node.
pub const NODE_PAGES: u32 = 65_536;

/// Steps of a turn.
pub const QUANTUM: u32 = 65_536;

/// Events of a node's journal.
pub const JOURNAL: u32 = 1_048_576;

/// Pages of a process.
pub const PAGES: u32 = 1024;

/// Steps of a process before it ends by the signal for too much processor time.
pub const STEPS: u32 = 67_108_864;

/// Processes that live or are zombies.
pub const PROCESSES: u32 = 64;

/// The highest pid that a launch gives.
pub const LAST_LAUNCHED: u32 = 32_767;

/// The highest pid that a fork gives.
pub const LAST_FORKED: u32 = 32_511;

/// Descriptors of a process.
pub const DESCRIPTORS: u32 = 16;

/// Open descriptions.
pub const DESCRIPTIONS: u32 = 256;

/// Pipes.
pub const PIPES: u32 = 64;

/// Bytes in a pipe.
pub const PIPE_BYTES: u32 = 4096;

/// Files that have a name.
pub const NAMED_FILES: u32 = 128;

/// Files that have lost their name and are held.
pub const UNLINKED_FILES: u32 = 256;

/// Bytes of a file.
pub const FILE_BYTES: u32 = 1_048_576;

/// Bytes of a name.
pub const NAME_BYTES: u32 = 64;

/// Bytes that one read or write moves.
pub const TRANSFER_BYTES: u32 = 4096;

/// Bytes of the terminal's output.
pub const TERMINAL_BYTES: u32 = 16_777_216;

/// Bytes of the file of an image.
pub const IMAGE_BYTES: u32 = 16_777_216;

/// Bytes of an assembler text.
pub const SOURCE_BYTES: u32 = 1_048_576;

/// Bytes of a script.
pub const SCRIPT_BYTES: u32 = 65_536;

/// Bytes of a line of a script.
pub const LINE_BYTES: u32 = 1024;

/// Lines of a script.
pub const LINES: u32 = 1000;

/// Lines of a script that launch a process.
pub const RUN_LINES: u32 = 256;

/// Bytes of the report that are written by one call.
pub const PIECE_BYTES: u32 = 65_536;

/// The least stamp that no letter of a run has.
pub const STAMPS: u64 = 1_099_511_627_776;
