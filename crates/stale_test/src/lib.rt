//! Which partitions of views have to be computed again: a walk upwards from the partitions that
//! gained rows, and a book that keeps what such walks found from entry to entry of a journal.
#![tactic(auto)]

mod book;
mod history;
mod kept;
mod places;
mod reached;
mod readers;
mod ready;
mod standing;

pub use book::StaleBook;
pub use reached::reached_keys;
