// The flags of an open.
ghost use Rattle.std.specs.Prelude.{◌≡◌, ◌<◌, ◌≤◌};
ghost use Rattle.kernel_spec.specs.Io.{has_flag, are_flags, flags_error};

use call_table::error::EINVAL;

pub const READ: u32 = 1;

pub const WRITE: u32 = 2;

pub const CREATE: u32 = 4;

pub const TRUNCATE: u32 = 8;

pub const EXCLUSIVE: u32 = 16;

/// Whether a flag is set.
pub fn has_flag(flags: u32, flag: u32) -> bool
    requires { 1 ≤ flag }
    ensures { result ≡ has_flag flags flag }
{
    flags / flag % 2 == 1
}

fn are_flags(flags: u32) -> bool
    ensures { result ≡ are_flags flags }
{
    flags < 32
        && (has_flag(flags, READ) || has_flag(flags, WRITE))
        && (has_flag(flags, WRITE) || !has_flag(flags, TRUNCATE))
        && (has_flag(flags, CREATE) || !has_flag(flags, EXCLUSIVE))
}

/// The error of flags. None exactly where they are in order.
pub fn flags_error(flags: u32) -> Option<i32>
    ensures { result ≡ flags_error flags }
{
    if are_flags(flags) {
        return None;
    }
    Some(EINVAL)
}
