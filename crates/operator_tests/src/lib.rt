//! Tests of the operators: that each call succeeds if there is memory, and that filters, groups and
//! joins make what the plain programs make of the same rows, however these are cut into parts.
//!
//! They stand in a crate of their own, since the gate proves a crate with tests twice.
#![tactic(auto)]

#[cfg(test)]
mod cases;
#[cfg(test)]
mod evals;
#[cfg(test)]
mod filters;
#[cfg(test)]
mod groups;
#[cfg(test)]
mod indexes;
#[cfg(test)]
mod joins;
