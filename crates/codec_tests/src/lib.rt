//! Tests of the bytes of rows, deliveries and bodies: that each call succeeds if there is memory, the
//! worked bytes of docs/FORMATS.md, and the place that is blamed for each damage.
//!
//! They stand in a crate of their own, since the gate proves a crate with tests twice.
#![tactic(auto)]

#[cfg(test)]
mod bodies;
#[cfg(test)]
mod deliveries;
#[cfg(test)]
mod rows;
#[cfg(test)]
mod spelling;
