//! What was done to a file of a disk in memory.

/// What is done to a file.
#[derive(Drop)]
pub(crate) enum Act {
    Write { at: u64, bytes: Vec<u8> },
    Sync,
    Remove,
}

/// A file, and what was done to it.
#[derive(Drop)]
pub(crate) struct Step {
    pub(crate) file: u64,
    pub(crate) act: Act,
}
