//! Tests of the crates below the program: that each call succeeds if there is memory, and cases
//! from outside.
//!
//! They stand in a crate of their own, since the gate proves a crate with tests twice.
#![tactic(auto)]

#[cfg(test)]
mod bodies;
#[cfg(test)]
mod cells;
#[cfg(test)]
mod meaning;
#[cfg(test)]
mod operations;
#[cfg(test)]
mod partitions;
#[cfg(test)]
mod streams;
#[cfg(test)]
mod texts;
