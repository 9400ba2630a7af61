//! Claims: who computes which partition.

use desc_types::Key;

/// A partition that somebody computes from the versions that its sources had after the first `at`
/// entries of the journal.
#[derive(Clone, Copy, Debug, PartialEq, Eq)]
pub struct Claim {
    pub who: u64,
    pub id: u64,
    pub key: Key,
    pub at: u64,
}
