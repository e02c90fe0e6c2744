// The check of a name.
ghost use Rattle.std.specs.Prelude.{◌≡◌};
ghost use Rattle.std.specs.List.{list_all};
ghost use Rattle.kernel_spec.specs.Io.{is_name_byte, name_error};

use call_table::error::{EINVAL, ENAMETOOLONG, ENOENT};
use call_table::limit::NAME_BYTES;

fn is_name_byte(byte: u8) -> bool
    ensures { result ≡ is_name_byte byte }
{
    (33..=126).contains(&byte) && byte != b'/'
}

fn are_name_bytes(name: &[u8]) -> bool
    ensures { result ≡ list_all is_name_byte name.now }
{
    name.iter().all(|byte| is_name_byte(*byte))
}

/// The error of a name of so many bytes. None exactly where the name is in order.
pub fn name_error(len: u32, name: &[u8]) -> Option<i32>
    ensures { result ≡ name_error len name.now }
{
    if len > NAME_BYTES {
        return Some(ENAMETOOLONG);
    }
    if len == 0 {
        return Some(ENOENT);
    }
    if are_name_bytes(name) {
        return None;
    }
    Some(EINVAL)
}
