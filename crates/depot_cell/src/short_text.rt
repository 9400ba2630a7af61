//! Short texts: UTF-8 of at most 255 bytes, as text cells and declared names hold them.
//!
//! A text is made once and never grows, so it keeps exactly the memory of its bytes.

ghost use Rattle.std.specs.Prelude.{List, ℕ, [], ◌∷◌, ◌≡◌, nat_eq, IfOk};
ghost use Rattle.std.specs.Cmp.Lexicographic.{pointwise, slice_cmp};
ghost use Rattle.std.specs.Cmp.Rules.{comparing, hashing};
ghost use Rattle.std.specs.Ordering.{as_partial_cmp, nat_cmp};
ghost use Rattle.std.specs.Hash as fed;
ghost use Rattle.std.proofs.Common.{rules};
ghost use Rattle.depot_cell.specs.ShortText.{IsShortText};

use crate::memory::Memory;
use std::alloc::Global;
use std::cmp::Ordering;
use std::hash::{Hash, Hasher};
use std::marker::Model;

/// A text of at most 255 bytes of UTF-8. Texts are ordered by their bytes.
#[derive(Debug, Drop)]
pub struct Str {
    bytes: Vec<u8>,
}

impl Model for Str {
    ghost Value = { List ℕ };

    ghost view = { λ text. text.bytes.items };

    ghost invariant = { λ text. IsShortText text.bytes.items };
}

impl Str {
    /// Makes a text of bytes that are one.
    pub fn from_bytes(alloc: Global, bytes: &[u8]) -> Result<Str, Memory>
        requires short { IsShortText bytes.now }
        ensures exact { IfOk result (λ text. text ≡ bytes.now) }
    {
        Ok(Str {
            bytes: Vec::from_slice(alloc, bytes)?,
        })
    }

    /// The bytes of the text.
    pub fn as_bytes(&self) -> &[u8]
        ensures exact { result.now ≡ self.now }
        ensures short { IsShortText self.now }
    {
        self.bytes.as_slice()
    }
}

impl PartialEq for Str {
    ghost eq = { pointwise nat_eq };

    ghost laws = { Prim.search (comparing, rules) };

    fn eq(&self, other: &Str) -> bool {
        self.as_bytes() == other.as_bytes()
    }
}

impl Eq for Str {
    ghost laws = { Prim.search (comparing, rules) };
}

impl PartialOrd for Str {
    ghost partial_cmp = { as_partial_cmp (slice_cmp nat_cmp) };

    ghost laws = { Prim.search (comparing, rules) };

    fn partial_cmp(&self, other: &Str) -> Option<Ordering> {
        Some(self.cmp(other))
    }
}

impl Ord for Str {
    ghost cmp = { slice_cmp nat_cmp };

    ghost total = { Prim.search (comparing, rules) };

    ghost matches_partial_cmp = { Prim.search (comparing, rules) };

    ghost matches_eq = { Prim.search (comparing, rules) };

    fn cmp(&self, other: &Str) -> Ordering {
        self.as_bytes().cmp(other.as_bytes())
    }
}

impl Hash for Str {
    ghost hash_input = { λ text. text ∷ [] };

    ghost respects_eq = { Prim.search (hashing, rules) };

    // In one write. A text inside a list is fed without its length: what follows it tells no more
    // than that two lists may have one hash.
    fn hash<H: Hasher>(&self, state: &mut H) {
        state.write(self.as_bytes());
    }
}
