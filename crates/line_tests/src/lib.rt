//! Tests of the crates that read and write lines, of descriptions and of sessions: that each call
//! succeeds if there is memory, and cases from outside.
//!
//! They stand in a crate of their own, since the gate proves a crate with tests twice.
#![tactic(auto)]

#[cfg(test)]
mod canonical;
#[cfg(test)]
mod commands;
#[cfg(test)]
mod descriptions;
#[cfg(test)]
mod lines;
#[cfg(test)]
mod listings;
#[cfg(test)]
mod requests;
