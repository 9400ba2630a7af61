//! The steps of a journal, in their order.

use desc_types::Key;

/// What an entry of the journal is. The deliveries of loads are kept apart, in the same order.
#[derive(Clone, Copy, Debug, PartialEq, Eq)]
pub enum Step {
    /// The next delivery was accepted.
    Load,
    /// A partition of a view was computed. Its sources counted all entries up to the place `at`.
    Install { key: Key, at: u64 },
}
