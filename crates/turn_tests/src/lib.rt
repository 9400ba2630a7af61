//! Callers of the turn lock: a log of numbers behind a turn, and threads that add to it.
//!
//! The callers are proved, and the tests run them. They stand in a crate of their own, since the
//! gate proves a crate with tests twice.
#![tactic(auto)]

mod callers;
mod numbers;
#[cfg(test)]
mod tests;
mod threads;

pub use callers::{add_all, add_one, fail_one, finish_one, open};
pub use numbers::Numbers;
pub use threads::{many_callers, two_callers};
