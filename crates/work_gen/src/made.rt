// What generated work is.
use call_table::{Bytes, Names};

/// A script, and the images that it runs.
#[derive(Debug, Drop)]
pub struct Work {
    pub script: Bytes,
    pub images: Names,
}
