use super::*;
use call_table::Named;
use std::alloc::Global;
use std::test::Fail;

/// A number that hangs on every byte and on its place.
fn mixed(sum: u64, bytes: &[u8]) -> u64 {
    let mut sum = sum;
    for byte in bytes {
        sum = sum.wrapping_mul(31).wrapping_add(*byte as u64);
    }
    sum
}

/// The same of the names and bytes of images.
fn mixed_images(images: &[Named]) -> u64 {
    let mut sum = 0;
    for image in images {
        sum = mixed(mixed(sum, image.name.as_slice()), image.bytes.as_slice());
    }
    sum
}

/// How many images there are, and the number of all names, images and the script.
fn summed(alloc: Global, seed: u64, nodes: u8) -> Result<(usize, u64), Fail> {
    if nodes == 0 {
        return Ok((0, 0));
    }
    let Ok(made) = work(alloc, seed, nodes) else {
        return Ok((0, 0));
    };
    let images = mixed_images(made.images.as_slice());
    Ok((made.images.len(), mixed(images, made.script.as_slice())))
}

/// Seeds, nodes, and the number of the work, worked out by another program with an assembler of its own.
const WORKS: [(u64, u8, u64); 4] = [
    (0, 1, 5_032_992_180_400_184_023),
    (1, 3, 13_508_120_811_811_209_667),
    (2, 8, 5_190_671_023_989_244_819),
    (18_446_744_073_709_551_615, 4, 4_166_466_694_394_733_286),
];

#[test]
fn seeds(rt: HostRuntime) -> Result<(), Fail> {
    for (seed, nodes, sum) in WORKS.iter() {
        let got = summed(rt.alloc(), *seed, *nodes)?;
        assert!(rt; got == (16, *sum), "seed {seed}");
    }
    Ok(())
}
