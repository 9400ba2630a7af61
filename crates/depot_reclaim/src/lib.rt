//! Which held versions are dead: those that were replaced and that no pin keeps. Reclaim drops
//! them.
#![tactic(auto)]

mod dead;

pub use dead::next_dead;
