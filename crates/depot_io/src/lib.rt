//! Where bytes come from and where they go: sources, sinks, and the lines and bodies of a source.
//!
//! A source and a sink may tell their bytes to proofs, a sink its room too, and each counts its
//! faults: a call fails only if that count rose, so a fault can always be laid at the outside.
//! [`LineReader`] takes lines and bodies off a source, and never a byte past the one that it
//! answers. Lengths and counts are in bytes.
#![tactic(auto)]

mod adapters;
mod in_memory;
mod line_reader;
mod sink;
mod source;
mod standard;

pub use adapters::{PutTo, ReadAhead};
pub use in_memory::{Memory, NeverSource, VecSink, VecSource};
pub use line_reader::{Line, LineFault, LineReader};
pub use sink::{Sink, WriteFault, put_all};
pub use source::{Failed, Source};
pub use standard::{Printer, StdSink, StdSource};
