//! Tests of the disks: that each call succeeds if there is memory, and what a stop leaves.
#![tactic(auto)]

#[cfg(test)]
mod calls;
#[cfg(test)]
mod stops;
