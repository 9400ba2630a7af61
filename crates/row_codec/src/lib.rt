//! Rows, deliveries and the bodies of journal entries as bytes, and back.
//!
//! Each has one spelling. A decoder answers `Ok` exactly for the bytes that the encoder makes of its
//! answer, and otherwise the place, from 0, of the first field that cannot be read or of the first
//! byte after the value. No count makes a decoder take memory: only what was read does.
//! docs/FORMATS.md, "Files of a depot", has the formats.
#![tactic(auto)]

mod body;
mod delivery;
mod fault;
mod field;
mod laws;
mod rows;

pub use body::{Body, decode_body, encode_body};
pub use delivery::{decode_delivery, encode_delivery};
pub use fault::CodecFault;
pub use laws::{bodies_have_one_spelling, deliveries_have_one_spelling, rows_have_one_spelling};
pub use rows::{decode_rows, encode_rows};
