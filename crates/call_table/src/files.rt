// Files by name.
use crate::bytes::Bytes;
use crate::list::ListOf;

/// A name and the bytes that it stands for.
#[derive(Debug, Drop)]
pub struct Named {
    pub name: Bytes,
    pub bytes: Bytes,
}

/// Files by name, of which the first of a name counts.
pub type Names = ListOf<Named>;

/// The files of a run, in the order of their names.
pub type NamedFiles = ListOf<Named>;
