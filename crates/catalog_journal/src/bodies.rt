//! The bodies of a catalogue that was read.

ghost use Rattle.std.specs.Prelude.{◌≡◌, All, length, option_map, slice_get};
ghost use Rattle.catalog_journal.specs.Logs.{LiesWithin, bodies_at};

use std::marker::Model;

/// Where a body stands among the bytes of the catalogue.
#[derive(Clone, Copy, Drop)]
pub(crate) struct Span {
    pub(crate) start: usize,
    pub(crate) len: usize,
}

/// The bodies of a catalogue, body 0 first. The bytes are kept as they were read, so that a body
/// takes no memory of its own.
#[derive(Drop)]
pub struct Bodies {
    pub(crate) bytes: Vec<u8>,
    pub(crate) spans: Vec<Span>,
}

impl Model for Bodies {
    ghost use Rattle.std.specs.Prelude.{ℕ, All, List, length};
    ghost use Rattle.catalog_journal.specs.Logs.{LiesWithin, bodies_at};

    ghost Value = { List (List ℕ) };

    ghost view = { λ inside. bodies_at inside.bytes.items inside.spans.items };

    ghost invariant = { λ inside. All (LiesWithin (length inside.bytes.items)) inside.spans.items };
}

impl Bodies {
    /// The bodies at these places among these bytes.
    pub(crate) fn new(bytes: Vec<u8>, spans: Vec<Span>) -> Bodies
        requires within { All (LiesWithin (length bytes.items)) spans.items }
        ensures exact { result ≡ bodies_at bytes.items spans.items }
    {
        Bodies { bytes, spans }
    }

    /// How many there are.
    pub fn len(&self) -> usize
        ensures exact { result ≡ length self.now }
    {
        self.spans.len()
    }

    /// The body with this number, from 0, if there is one.
    pub fn get(&self, number: usize) -> Option<&[u8]>
        ensures exact { option_map (λ body. body.now) result ≡ slice_get self.now number }
    {
        match self.spans.get(number) {
            Some(span) => Some(&self.bytes[span.start..span.start + span.len]),
            None => None,
        }
    }
}
