//! A version of a partition, as claims and pins name it.

use desc_types::Key;

/// A version of a partition that something reads. Versions go by their partitions, then by number.
#[derive(Clone, Copy, Debug, PartialEq, Eq, PartialOrd, Ord)]
pub struct Input {
    pub key: Key,
    pub version: u64,
}
