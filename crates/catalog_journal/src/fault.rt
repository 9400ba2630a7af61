//! Why a catalogue is not made, opened or added to.

use depot_cell::Memory;
use depot_disk::DiskFailed;

/// Why a call on a catalogue is refused.
#[derive(Clone, Copy, Debug, PartialEq, Eq, Drop)]
pub enum LogFault {
    /// There is a depot here already.
    Exists,
    /// There is no depot here.
    NotFound,
    /// A file is not as it has to be from this byte on, counted from 0.
    Damaged { file: u64, place: u64 },
    /// A call of the disk failed.
    DiskFault,
    Memory,
}

impl From<DiskFailed> for LogFault {
    ghost use Rattle.std.specs.Prelude.{◌≡◌};
    ghost use Rattle.catalog_journal.specs.declared.fault.LogFault.TheVariants.{DiskFault};

    ghost from_gives = { λ _ fault. fault ≡ DiskFault };

    fn from(_failed: DiskFailed) -> LogFault {
        LogFault::DiskFault
    }
}

impl From<Memory> for LogFault {
    ghost use Rattle.std.specs.Prelude.{◌≡◌};
    ghost use Rattle.catalog_journal.specs.declared.fault.LogFault.TheVariants.{Memory as NoMemory};

    ghost from_gives = { λ _ fault. fault ≡ NoMemory };

    fn from(_refused: Memory) -> LogFault {
        LogFault::Memory
    }
}
