//! What a table of a description makes of the rows of its sources, whatever its kind is.
#![tactic(auto)]

mod evaluating;

pub use evaluating::eval;
