//! Why a depot is not opened.

ghost use Rattle.std.specs.Prelude.{◌≡◌};
ghost use Rattle.catalog_journal.specs.Catalog.{CATALOG_FILE as catalog_file};
ghost use Rattle.catalog_journal.specs.declared.fault.LogFault.TheVariants.{Damaged};
ghost use Rattle.depot_recovery.specs.Faults.{as_open_fault};

use catalog_journal::{CATALOG_FILE, LogFault};
use version_store::FileFault;

/// Why a depot is not made or opened.
pub type OpenFault = LogFault;

/// A record of the catalogue, whose gate is at this place, is not as it has to be.
pub(crate) fn damaged(gate: u64) -> OpenFault
    ensures exact { result ≡ Damaged catalog_file gate }
{
    OpenFault::Damaged {
        file: CATALOG_FILE,
        place: gate,
    }
}

/// The fault of a file, as one of the depot.
pub(crate) fn file_fault(fault: FileFault) -> OpenFault
    ensures exact { result ≡ as_open_fault fault }
{
    match fault {
        FileFault::Damaged { file, place } => OpenFault::Damaged { file, place },
        FileFault::DiskFault => OpenFault::DiskFault,
        FileFault::Memory => OpenFault::Memory,
    }
}
