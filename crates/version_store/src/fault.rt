//! Why the file of an entry is not read.

use depot_cell::Memory;
use depot_disk::DiskFailed;

/// Why a call on the file of an entry is refused.
#[derive(Clone, Copy, Debug, PartialEq, Eq, Drop)]
pub enum FileFault {
    /// A file is absent or shorter than it has to be, and then the place is its size; or its bytes
    /// are not what they have to be, from this one on, counted from 0.
    Damaged { file: u64, place: u64 },
    /// A call of the disk failed.
    DiskFault,
    Memory,
}

impl From<DiskFailed> for FileFault {
    ghost use Rattle.std.specs.Prelude.{◌≡◌};
    ghost use Rattle.version_store.specs.declared.fault.FileFault.TheVariants.{DiskFault};

    ghost from_gives = { λ _ fault. fault ≡ DiskFault };

    fn from(_failed: DiskFailed) -> FileFault {
        FileFault::DiskFault
    }
}

impl From<Memory> for FileFault {
    ghost use Rattle.std.specs.Prelude.{◌≡◌};
    ghost use Rattle.version_store.specs.declared.fault.FileFault.TheVariants.{Memory as NoMemory};

    ghost from_gives = { λ _ fault. fault ≡ NoMemory };

    fn from(_refused: Memory) -> FileFault {
        FileFault::Memory
    }
}
