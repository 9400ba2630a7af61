//! A depot is found again: its catalogue and its files, read back into the machine.
//!
//! docs/FORMATS.md, "Files of a depot", has the files, and docs/CRASH_MODEL.md what a stop may leave.
#![tactic(auto)]

mod claims;
mod fault;
mod found;
mod growth;
mod latest;
mod laws;
mod record;
mod replay;
mod shelving;
mod sweeping;
mod typed;

pub use fault::OpenFault;
pub use found::{Found, recover};
pub use growth::{
    bodies_grow, claims_tell_rows, depots_come_whole, depots_grow, empty_depots_are_sound,
    only_bodies_count, only_needed_files_count, some_files_do_not_count,
};
pub use laws::{image_holds_one_depot, sound_is_found, what_is_held_is_found};
pub use shelving::types_of;
pub use sweeping::sweep;
pub use typed::contents_have_types;
