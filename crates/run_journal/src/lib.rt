//! The journal of a run, in memory: the core of the machine, with the rows of what it holds.
//!
//! One thread loads deliveries. A drain claims one partition after another, computes it from the
//! versions that its claim tells, and installs it. So an install costs what its own sources hold,
//! whatever lies below them and whatever was loaded before.
#![tactic(auto)]

mod content;
mod contents;
mod draining;
mod journal;

pub use content::Content;
pub use draining::drain;
pub use journal::Journal;
