//! A version that is held, with the journal entry that made it.

use desc_types::Key;

/// A held version of a partition, and the number of the install that made it. It has its name from
/// its use: reclaim finds dead versions, and drops them under this name.
#[derive(Clone, Copy, Debug, PartialEq, Eq)]
pub struct Dead {
    pub key: Key,
    pub version: u64,
    pub entry: u64,
}
