//! The delivery that a CSV body brings, or the first record of it that is no row.
//!
//! What a record is, the crate `csv` says. Which records are rows, and why one is none,
//! `specs/Bodies.antt` says, and `docs/FORMATS.md` tells it in words.
#![tactic(auto)]

mod body;
mod fault;

pub use body::{read_delivery, rows_fit};
pub use fault::{BadRecord, DeliveryFault, RowCause};
