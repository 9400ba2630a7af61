//! Why a line of a description is bad after what was declared before it: a test for each cause, and
//! the first one that holds.
//!
//! Each test is total. A table that is not there has no columns and the width 1, so that a test
//! means something also on a line that an earlier one has refused.
#![tactic(auto)]

mod absent;
mod cause;
mod causes;
mod fitting;
mod named;
mod ticks;
mod typed;
mod utf8;
mod written;

pub use cause::DescCause;
pub use causes::cause_of;
pub use ticks::{read_span, read_width};
pub use utf8::is_utf8;
pub use written::written_place;
