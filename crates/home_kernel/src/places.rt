// Where a seek leads.
ghost use Rattle.std.specs.Prelude.{◌≡◌, ◌≤◌, IfSome};
ghost use Rattle.kernel_spec.specs.Io.{place_from, in_file, base_of, place_of};

use call_table::limit::FILE_BYTES;

/// A place with a signed distance added: from 2^31 on the distance is minus what is missing to 2^32.
fn place_from(base: u32, off: u32) -> Option<u64>
    ensures { result ≡ place_from base off }
{
    let base = u64::from(base);
    let off = u64::from(off);
    if off < 0x8000_0000 {
        return Some(base + off);
    }
    base.checked_sub(0x1_0000_0000 - off)
}

fn in_file(place: u64) -> Option<u32>
    ensures is { result ≡ in_file place }
    ensures low { IfSome result (λ place. place ≤ FILE_BYTES) }
{
    if place <= u64::from(FILE_BYTES) {
        return Some(place as u32);
    }
    None
}

/// Where a distance counts from: the start, the offset or the end.
fn base_of(whence: u32, offset: u32, len: u32) -> Option<u32>
    ensures { result ≡ base_of whence offset len }
{
    match whence {
        0 => Some(0),
        1 => Some(offset),
        2 => Some(len),
        _ => None,
    }
}

/// The place that a seek leads to. None exactly where there is none from 0 to 1,048,576.
pub fn place_of(whence: u32, offset: u32, len: u32, off: u32) -> Option<u32>
    ensures is { result ≡ place_of whence offset len off }
    ensures low { IfSome result (λ place. place ≤ FILE_BYTES) }
{
    let base = base_of(whence, offset, len)?;
    let place = place_from(base, off)?;
    in_file(place)
}
