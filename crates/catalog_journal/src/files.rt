//! The two files of a catalogue, and how many records it has at most.

/// The file of the catalogue.
pub const CATALOG_FILE: u64 = 0;

/// The file that stands once a depot is made. What it holds is never read.
pub const MARK_FILE: u64 = 4_294_967_296;

/// How many bytes a catalogue has at most.
pub(crate) const MOST_BYTES: u64 = 9_223_372_036_854_775_807;

/// A catalogue's numbers have 32 bits.
pub(crate) const MOST_RECORDS: u64 = 4_294_967_296;
