//! Tests of what the machine of claims and installs keeps: that each call succeeds if there is
//! memory, and that what is told after any history is what a plain program tells.
//!
//! They stand in a crate of their own, since the gate proves a crate with tests twice.
#![tactic(auto)]

#[cfg(test)]
mod history;
#[cfg(test)]
mod kept;
#[cfg(test)]
mod pins;
#[cfg(test)]
mod plain;
#[cfg(test)]
mod served;
#[cfg(test)]
mod staleness;
