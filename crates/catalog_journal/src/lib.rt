//! The catalogue of a depot: a file of records that gains each one whole or not at all.
//!
//! A gate byte stands before each record, and only an open gate counts. A record is written after
//! the closed gate at the end, and once it is on the disk the gate is opened: one byte, which a stop
//! leaves as it was or as it is wanted, or as any other that counts as closed. docs/FORMATS.md,
//! "The catalogue", has the bytes, and docs/CRASH_MODEL.md what a stop may leave.
#![tactic(auto)]

mod append;
mod bodies;
mod fault;
mod files;
mod framed;
mod fresh;
mod gate;
mod laws;
mod log;
mod open;

pub use bodies::Bodies;
pub use fault::LogFault;
pub use files::{CATALOG_FILE, MARK_FILE};
pub use framed::Framed;
pub use laws::catalogs_have_one_reading;
pub use log::Log;
