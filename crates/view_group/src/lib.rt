//! Groups: a row for each different key among the rows of a source, with aggregates over the rows
//! that have it.
//!
//! The rows of each key are found by an index that holds references. So a group takes time by the
//! rows of its source, for each aggregate once more, and copies no cell that its result does not
//! hold.
#![tactic(auto)]

mod aggregates;
mod grouping;

pub use grouping::group;
