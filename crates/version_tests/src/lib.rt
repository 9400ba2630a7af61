//! Tests of the files of entries and of the shelf in memory: that each call succeeds if there is
//! memory, what is told of damage, what a stop leaves, and what a refusal keeps.
#![tactic(auto)]

#[cfg(test)]
mod damage;
#[cfg(test)]
mod shelves;
#[cfg(test)]
mod stops;
#[cfg(test)]
mod versions;
