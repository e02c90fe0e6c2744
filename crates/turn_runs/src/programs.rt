// Small programs, and processes that run them.
use call_table::NoMemory;
use page_set::Pages;
use std::alloc::Global;
use user_ctx::User;

/// Where the words of a process stand.
const CODE: u32 = 0x1000;

/// jal x0, 0
const LOOP: [u32; 1] = [0x0000_006F];

/// A read of two bytes from descriptor 0 to 0x2000.
const READ: [u32; 4] = [0x0000_25B7, 0x0020_0613, 0x0080_0893, 0x0000_0073];

/// A fork.
const FORK: [u32; 2] = [0x0040_0893, 0x0000_0073];

/// A write of one byte at 0x2000 to descriptor 1, and then 0, which is no instruction.
const WRITE: [u32; 6] = [
    0x0010_0513,
    0x0000_25B7,
    0x0010_0613,
    0x0090_0893,
    0x0000_0073,
    0,
];

/// The words of the program of a name. A name that is none has a word that is no instruction.
pub fn code_of(name: &str) -> &'static [u32] {
    match name {
        "loop" => &LOOP,
        "read" => &READ,
        "fork" => &FORK,
        "write" => &WRITE,
        _ => &[0],
    }
}

/// As many pages, from page 1 on, with all rights and with these words at their start.
fn pages_of(alloc: Global, count: u32, words: &[u32]) -> Result<Pages, NoMemory> {
    let mut pages = Pages::new(alloc);
    if pages.map_range(1, 1 + count.min(1024), 7).is_err() {
        return Err(NoMemory);
    }
    let mut at = CODE;
    for word in words {
        pages.write(at, &word.to_le_bytes());
        at = at.wrapping_add(4);
    }
    Ok(pages)
}

/// A process with a program, as many pages and this stack pointer.
pub fn user_of(
    alloc: Global,
    pid: u32,
    count: u32,
    stack: u32,
    words: &[u32],
) -> Result<User, NoMemory> {
    let pages = pages_of(alloc, count, words)?;
    let mut user = User::new(CODE, stack, 0, 0, pages, 0x50_0000);
    user.set_pid(pid);
    Ok(user)
}
