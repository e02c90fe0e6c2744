// One block of a file.
ghost use Rattle.std.specs.Prelude.{◌≡◌, length, replicate, IfOk};

use call_table::NoMemory;
use std::alloc::Global;

/// 4,096 bytes.
#[derive(Drop)]
pub struct Block {
    pub bytes: [u8; 4096],
    ghost whole: { length bytes ≡ 4096 },
}

/// A block of zeros.
pub fn zero_block(alloc: Global) -> Result<Box<Block>, NoMemory>
    ensures { IfOk result (λ b. b.value.bytes ≡ replicate 4096 0) }
{
    Ok(Box::new(alloc, Block { bytes: [0; 4096] })?)
}
