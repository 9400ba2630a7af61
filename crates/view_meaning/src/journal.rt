//! The journal: the list of what was accepted, in order. Its places are numbered from 1.

use desc_types::{Delivery, Key};

/// An entry of the journal.
#[derive(Debug, Drop)]
pub enum Entry {
    /// An accepted delivery.
    Load(Delivery),
    /// A partition of a view was computed. `at` is the place up to which its sources were counted.
    Install { key: Key, at: u64 },
}

/// What a load did: its place in the journal, and how many of its rows were kept and set aside.
#[derive(Clone, Copy, Debug, PartialEq, Eq)]
pub struct Loaded {
    pub entry: u64,
    pub kept: u64,
    pub aside: u64,
}
