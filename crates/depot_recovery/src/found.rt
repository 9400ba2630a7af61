//! A depot is found on a disk.

ghost use Rattle.std.specs.Prelude.{◌≡◌, IfOk, IfSome};
ghost use Rattle.catalog_journal.specs.Answers.{IsLogReading};
ghost use Rattle.catalog_journal.specs.Moments.{HoldsLog};
ghost use Rattle.claim_core.specs.Cores.{IsFound};
ghost use Rattle.depot_recovery.specs.Depots.{DepotOf};
ghost use Rattle.depot_recovery.specs.Recovered.{IsFoundAs, Recovers};

use crate::OpenFault;
use crate::replay::read_journal;
use crate::shelving::shelve;
use catalog_journal::Log;
use claim_core::Core;
use depot_disk::Disk;
use std::alloc::Global;
use version_store::MemShelf;

/// What was found on a disk: the machine after the journal, with nothing claimed or pinned; the
/// catalogue, for the next append; and the rows of the latest versions.
#[derive(Drop)]
pub struct Found {
    pub core: Core,
    pub log: Log,
    pub shelf: MemShelf,
}

/// Reads a depot back. It changes nothing.
///
/// `NotFound` comes exactly if the mark file is absent. `Damaged` tells the first fault in the order
/// of the reading: the catalogue up to its end; its records one by one, each with the file of a
/// load; the files of the latest installs. A record that cannot be read, or an entry that may not
/// follow those before it, is a fault of file 0 at the record's gate; a damaged description is one at
/// 0. `DiskFault` comes only if the disk counted a fault.
pub fn recover<D: Disk>(alloc: Global, disk: &mut D) -> Result<Found, OpenFault>
    ensures exact { IfSome (D.state disk.old).holds (λ image. Recovers image result) }
    ensures ok { IfOk result (λ found. (depot : DepotOf) × IsFoundAs depot found) }
    ensures found { IfOk result (λ found.
        IsFound found.core.desc found.core.state.journal found.core) }
    ensures held { IfOk result (λ found. IfSome (D.state disk.new).holds (HoldsLog found.log)) }
    ensures reading { IsLogReading (D.state disk.old) (D.state disk.new) result }
    ensures loan { D.loan disk.new ≡ D.loan disk.old }
{
    let (log, bodies) = Log::open(alloc, disk)?;
    let core = read_journal(alloc, disk, &bodies)?;
    let shelf = shelve(alloc, disk, &core, &bodies)?;
    Ok(Found { core, log, shelf })
}
