//! A value that one thread at a time reads and changes, and whose log only grows.
//!
//! A thread takes turns by a pass, which tells what it has seen of the value: a beginning of the
//! log, and exactly its own entries and its own part. Passes have numbers, are split for other
//! threads and joined again. With every pass joined the value comes back.
//!
//! Nothing is promised of progress: a thread that waits gives the processor away and tries again.
#![tactic(auto)]

mod close;
mod enter;
mod grows;
mod known;
mod laws;
mod leave;
mod open;
mod pass;
mod split;
mod steps;
mod turn;

pub use grows::Grows;
pub use known::{Growth, Known, Share, View};
pub use laws::own_entries_are_those_added;
pub use pass::{Held, Pass};
pub use steps::Law;
pub use turn::Turn;
