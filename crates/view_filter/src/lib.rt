//! What a filter makes of the rows of its source, which lie in parts.
#![tactic(auto)]

mod filtering;

pub use filtering::filter;
