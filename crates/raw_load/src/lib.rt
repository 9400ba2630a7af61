//! The accepted deliveries of a journal, each with the place of its entry.
//!
//! A raw partition's rows are found by its key, and a delivery by its feed and number. Neither goes
//! over other deliveries or other rows. A delivery is moved in whole: none of its rows is copied or
//! moved, and beside them is kept only where those of each partition lie. Rows that came after
//! their partition was closed are set aside: no partition keeps them, and each is named.
#![tactic(auto)]

mod book;
mod copying;
mod feed;
mod lending;
mod loads;
mod parts;
mod piece;
mod prepared;
mod sorting;
mod stretches;

pub use book::RawBook;
pub use prepared::{Counts, LoadFault, Prepared};
