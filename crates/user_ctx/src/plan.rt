// What a break does to the pages.

/// What a break does to the pages.
#[derive(Clone, Copy, Debug, PartialEq, Eq)]
pub enum Plan {
    /// It cannot be had.
    Refused,
    /// No page is to be mapped.
    Fits,
    /// Pages are to be mapped.
    Maps,
}
