//! Tests of the catalogue: its bytes, what is told of damage, and that a stop at any call leaves the
//! records from before it or those after.
#![tactic(auto)]

#[cfg(test)]
mod damage;
#[cfg(test)]
mod logs;
#[cfg(test)]
mod made;
#[cfg(test)]
mod stops;
