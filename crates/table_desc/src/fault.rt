//! Why a description is refused.

use depot_cell::Memory;
use desc_causes::DescCause;

/// A bad line of a description: its number, from 1, and the first cause that makes it bad.
#[derive(Clone, Copy, Debug, PartialEq, Eq, Drop)]
pub struct BadLine {
    pub line: u64,
    pub cause: DescCause,
}

/// Why there is no description of a text.
#[derive(Clone, Copy, Debug, PartialEq, Eq, Drop)]
pub enum DescFault {
    /// This line is the first bad one.
    At(BadLine),
    Memory,
}

impl From<Memory> for DescFault {
    ghost use Rattle.std.specs.Prelude.{◌≡◌};
    ghost use Rattle.table_desc.specs.declared.fault.DescFault.TheVariants.{Memory as NoMemory};

    ghost from_gives = { λ _ fault. fault ≡ NoMemory };

    fn from(_refused: Memory) -> DescFault {
        DescFault::Memory
    }
}
