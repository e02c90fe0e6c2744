// The numbers of the signals, as on Linux.

pub const SIGINT: u8 = 2;

pub const SIGILL: u8 = 4;

pub const SIGTRAP: u8 = 5;

pub const SIGKILL: u8 = 9;

pub const SIGUSR1: u8 = 10;

pub const SIGSEGV: u8 = 11;

pub const SIGUSR2: u8 = 12;

pub const SIGPIPE: u8 = 13;

pub const SIGTERM: u8 = 15;

pub const SIGCHLD: u8 = 17;

pub const SIGXCPU: u8 = 24;
