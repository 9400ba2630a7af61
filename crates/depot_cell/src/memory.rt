//! The refusal of every call here that has to make something.

ghost use Rattle.std.specs.Prelude.{◌≡◌};

use std::alloc::{AllocError, AllocFailed};

/// There was no memory for what a call had to make. It says nothing else.
///
/// `?` makes it of what std answers: of a refused piece of memory, and of a refused push, whose
/// item is dropped.
#[derive(Clone, Copy, Debug, PartialEq, Eq, Drop)]
pub struct Memory;

impl From<AllocError> for Memory {
    ghost from_gives = { λ _ memory. memory ≡ record {} };

    fn from(_refused: AllocError) -> Memory {
        Memory
    }
}

impl<T: Drop> From<AllocFailed<T>> for Memory {
    ghost from_gives = { λ _ memory. memory ≡ record {} };

    fn from(_refused: AllocFailed<T>) -> Memory {
        Memory
    }
}

impl<T: Drop> From<(T, Memory)> for Memory {
    ghost from_gives = { λ _ memory. memory ≡ record {} };

    fn from(refused: (T, Memory)) -> Memory {
        refused.1
    }
}
