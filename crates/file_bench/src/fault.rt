//! Why a run stopped.

use depot_cell::Memory;

/// Why a run stopped.
#[derive(Clone, Copy, Debug, PartialEq, Eq)]
pub enum Fault {
    /// The words ask for no run.
    Words,
    Memory,
    /// What was read is not what was written. Then there is nothing to measure.
    Broken,
}

impl Fault {
    /// The exit code of the program.
    pub fn code(self) -> u8 {
        match self {
            Fault::Words | Fault::Memory => 1,
            Fault::Broken => 2,
        }
    }
}

impl From<Memory> for Fault {
    ghost use Rattle.std.specs.Prelude.{◌≡◌};
    ghost use Rattle.file_bench.specs.declared.fault.Fault.TheVariants.{Memory as NoMemory};

    ghost from_gives = { λ _ fault. fault ≡ NoMemory };

    fn from(_refused: Memory) -> Fault {
        Fault::Memory
    }
}
