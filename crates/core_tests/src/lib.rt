//! Tests of the machine in memory: that each call succeeds if there is memory, and that a core
//! answers to histories of loads, claims, installs, pins and reclaims what the rules say.
//!
//! They stand in a crate of their own, since the gate proves a crate with tests twice.
#![tactic(auto)]

#[cfg(test)]
mod asking;
#[cfg(test)]
mod histories;
#[cfg(test)]
mod orders;
#[cfg(test)]
mod plain;
#[cfg(test)]
mod playing;
#[cfg(test)]
mod served;
#[cfg(test)]
mod step;
