//! Disks: files that are named by numbers, and what a stop may leave of them.
//!
//! A disk may tell proofs what it holds, and which images a stop may leave, now and since an earlier
//! moment; `docs/CRASH_MODEL.md` has the rules. Each disk counts its faults: a call fails only if
//! that count rose. Places and sizes are in bytes.
#![tactic(auto)]

mod disk;
mod fail_disk;
mod fault;
mod files;
mod front;
mod mem_disk;
mod pick;
mod step;
mod stop_disk;
mod through;
mod verb;

pub use disk::{Disk, DiskFailed};
pub use fail_disk::FailDisk;
pub use front::read_front;
pub use mem_disk::MemDisk;
pub use stop_disk::StopDisk;
pub use through::write_through;
pub use verb::Verb;
