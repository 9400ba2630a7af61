//! Tests of recovery: that a depot is found if there is memory, what is told of damage, and which
//! files a sweep leaves.
//!
//! They stand in a crate of their own, since the gate proves a crate with tests twice.
#![tactic(auto)]

#[cfg(test)]
mod found;
#[cfg(test)]
mod swept;
