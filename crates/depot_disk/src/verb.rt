//! The kinds of calls of a disk.

/// A call of a disk.
#[derive(Clone, Copy, Debug, PartialEq, Eq)]
pub enum Verb {
    Size,
    FirstFrom,
    Read,
    Write,
    Sync,
    Remove,
}
