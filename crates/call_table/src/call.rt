// The numbers of the calls.

pub const EXIT: u32 = 1;

pub const GETPID: u32 = 2;

pub const GETPPID: u32 = 3;

pub const FORK: u32 = 4;

pub const WAIT: u32 = 5;

pub const OPEN: u32 = 6;

pub const CLOSE: u32 = 7;

pub const READ: u32 = 8;

pub const WRITE: u32 = 9;

pub const LSEEK: u32 = 10;

pub const PIPE: u32 = 11;

pub const DUP: u32 = 12;

pub const UNLINK: u32 = 13;

pub const KILL: u32 = 14;

pub const SIGACT: u32 = 15;

pub const SIGRETURN: u32 = 16;

pub const SIGMASK: u32 = 17;

pub const BRK: u32 = 18;

pub const YIELD: u32 = 19;
