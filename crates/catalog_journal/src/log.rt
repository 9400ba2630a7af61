//! What is known of a catalogue between its calls.

/// A catalogue that records are appended to. It knows where its end is, so that an append reads
/// nothing.
#[derive(Debug, Drop)]
pub struct Log {
    /// The place of the closed gate after the last record, in bytes.
    pub(crate) end: u64,
    /// How many records there are.
    pub(crate) count: u64,
}
