//! Joins: each left row beside each right row that agrees with it on all pairs.
//!
//! The right rows are found by an index of their keys, so a join takes time by the rows of its
//! sources and of its result, and not by their product. No row is copied that the result does not
//! hold.
#![tactic(auto)]

mod joining;

pub use joining::join;
