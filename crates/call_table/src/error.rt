// The values of refused calls: minus the number that the error has on Linux.

/// No file has the name.
pub const ENOENT: i32 = -2;

/// No process has the pid.
pub const ESRCH: i32 = -3;

/// A signal broke the call off.
pub const EINTR: i32 = -4;

/// The descriptor is not open, or has not the right.
pub const EBADF: i32 = -9;

/// The caller has no child.
pub const ECHILD: i32 = -10;

/// There is no room for another process.
pub const EAGAIN: i32 = -11;

/// A byte of the buffer lacks its right.
pub const EFAULT: i32 = -14;

/// The file is there already.
pub const EEXIST: i32 = -17;

/// An argument has no meaning.
pub const EINVAL: i32 = -22;

/// There is no room for another description, pipe or file.
pub const ENFILE: i32 = -23;

/// The process has no free descriptor.
pub const EMFILE: i32 = -24;

/// The file ends at its longest.
pub const EFBIG: i32 = -27;

/// There is no room for the bytes.
pub const ENOSPC: i32 = -28;

/// The description has no offset.
pub const ESPIPE: i32 = -29;

/// The pipe has no end that reads.
pub const EPIPE: i32 = -32;

/// The name is empty or too long.
pub const ENAMETOOLONG: i32 = -36;

/// No call has the number.
pub const ENOSYS: i32 = -38;
