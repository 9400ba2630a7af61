//! Descriptions from their lines and back: what the lines of a text declare, or the first bad line
//! and why it is bad, and the text that declares a description again.
//!
//! What a description is stands in `desc_types`, the shapes of lines in `desc_lines`, and the tests
//! that find a line bad in `desc_causes`. Here lines are put together to a description.
#![tactic(auto)]

mod columns;
mod declaring;
mod describing;
mod draft;
mod fault;
mod parts;
mod writing;

pub use describing::{described_is_accepted, read_desc};
pub use draft::{Draft, texts_are_drafted};
pub use fault::{BadLine, DescFault};
pub use writing::{accepted_is_declared_again, write_desc};
