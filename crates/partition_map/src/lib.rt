//! Partitions of time by number: which one covers a tick, where it ends, what it reads of a source,
//! and what depends on it.
//!
//! A tick is a whole number below [`END`]. A table of width W is cut into partitions, numbered from
//! 0: partition P covers W ticks from `P * W` on, and the last one stops at `END`. Nothing here
//! takes memory, refuses or searches: each call divides, and asks for arguments that make sense.
#![tactic(auto)]

mod fitting;
mod laws;
mod parts;
mod time;

pub use fitting::span_fits;
pub use laws::dependents_mirror_sources;
pub use parts::{Parts, dependents_of, part_end, part_of, parts_of_span, sources_of};
pub use time::{END, Span, Width, time_ends_as_defined};
