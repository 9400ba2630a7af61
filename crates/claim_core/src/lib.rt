//! The machine in memory: each step is one event, and each state is good.
//!
//! The core keeps the journal, what is claimed and pinned, which versions are held, and the books that
//! tell all of it without a pass over the journal. It knows no file, no rows of views and no thread:
//! whoever holds those asks it what to do next.
#![tactic(auto)]

mod claims;
mod machine;
mod reads;
mod step;
mod ticket;

pub use machine::Core;
pub use ticket::{ClaimFault, Ticket};
