//! Rows by their key: the one place under groups and joins that finds rows by the cells of some of
//! their columns.
//!
//! An index holds references to rows that stand elsewhere, and copies none of them. Its hash has a
//! fixed seed: keys chosen by an enemy can make a group slow, never wrong.
#![tactic(auto)]

mod few;
mod index;
mod key;
mod members;

pub use index::{RowIndex, index_rows};
pub use key::KeyCells;
pub use members::Members;
