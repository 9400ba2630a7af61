//! A folder as a disk: one file per number.
//!
//! Proofs know nothing of this disk but how it counts its faults. What is asked of the file system
//! below is trusted; `docs/CRASH_MODEL.md` lists it.
#![tactic(auto)]

mod dir_disk;
mod folder;
#[cfg(test)]
mod tests;

pub use dir_disk::DirDisk;
