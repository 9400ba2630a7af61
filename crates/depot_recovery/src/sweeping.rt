//! Files that nothing needs are taken away.

ghost use Rattle.std.specs.Prelude.{◌≡◌, ◌<◌, ◌-◌, ◌^◌, ◌↔◌, IfOk, IfSome, IsSome, IsTrue, OnOk};
ghost use Rattle.depot_io.specs.Causes.{HasCause};
ghost use Rattle.claim_core.specs.Cores.{IsFound};
ghost use Rattle.depot_recovery.specs.Images.{IsNeeded};
ghost use Rattle.depot_recovery.specs.Sweeping.{IsSwept, IsSweptBefore, IsSweptUpTo, Sweeps};

use crate::latest::is_latest;
use catalog_journal::{CATALOG_FILE, MARK_FILE};
use claim_core::Core;
use depot_disk::{Disk, DiskFailed};

/// Removes each file but those of the catalogue, of loads, and of the latest installs. It takes no
/// memory. At each moment a stop leaves all files that are needed as they were. A refusal may leave
/// some of the others.
pub fn sweep<D: Disk>(disk: &mut D, core: &Core) -> Result<(), DiskFailed>
    requires found { IsFound core.now.desc core.now.state.journal core.now }
    ensures swept { OnOk result (IfSome (D.state disk.new).holds (IsSwept core.now.state.journal)) }
    ensures sweeps { Sweeps core.now.state.journal (D.state disk.old) (D.state disk.new) }
    ensures cause { HasCause (D.state disk.old).faults (D.state disk.new).faults result }
    ensures loan { D.loan disk.new ≡ D.loan disk.old }
{
    let mut next = Some(0);
    while let Some(from) = next {
        next = sweep_first(disk, core, from)?;
    }
    Ok(())
}

/// Looks at the first file from a number on, and removes it if nothing needs it. The answer is the
/// number to go on from, or `None` after the last file.
fn sweep_first<D: Disk>(disk: &mut D, core: &Core, from: u64) -> Result<Option<u64>, DiskFailed>
    requires found { IsFound core.now.desc core.now.state.journal core.now }
    requires before { IfSome (D.state disk.old).holds
        (IsSweptBefore core.now.state.journal from) }
    ensures swept { IfOk result (λ next. IfSome (D.state disk.new).holds
        (IsSweptUpTo core.now.state.journal next)) }
    ensures later { IfOk result (λ next. IfSome next (λ next. from < next)) }
    ensures sweeps { Sweeps core.now.state.journal (D.state disk.old) (D.state disk.new) }
    ensures cause { HasCause (D.state disk.old).faults (D.state disk.new).faults result }
    ensures loan { D.loan disk.new ≡ D.loan disk.old }
{
    match disk.first_from(from)? {
        Some(file) => {
            sweep_file(disk, core, file)?;
            if file == u64::MAX {
                // No entry has this number, so no file is found from it on.
                disk.first_from(file)?;
                return Ok(None);
            }
            Ok(Some(file + 1))
        }
        None => Ok(None),
    }
}

/// Removes a file if nothing needs it.
fn sweep_file<D: Disk>(disk: &mut D, core: &Core, file: u64) -> Result<(), DiskFailed>
    requires found { IsFound core.now.desc core.now.state.journal core.now }
    ensures swept { OnOk result (IfSome (D.state disk.new).holds (λ image.
        IsSome (image file) → IsNeeded core.now.state.journal file)) }
    ensures bound { IsNeeded core.now.state.journal file → file < 2 ^ 64 - 1 }
    ensures sweeps { Sweeps core.now.state.journal (D.state disk.old) (D.state disk.new) }
    ensures cause { HasCause (D.state disk.old).faults (D.state disk.new).faults result }
    ensures loan { D.loan disk.new ≡ D.loan disk.old }
{
    if is_needed(core, file) {
        return Ok(());
    }
    disk.remove(file)
}

/// Whether a file is one of the catalogue's two, that of a load, or that of the latest install of a
/// partition.
fn is_needed(core: &Core, file: u64) -> bool
    requires found { IsFound core.now.desc core.now.state.journal core.now }
    ensures exact { IsTrue result ↔ IsNeeded core.now.state.journal file }
    ensures bound { IsNeeded core.now.state.journal file → file < 2 ^ 64 - 1 }
{
    if file == CATALOG_FILE || file == MARK_FILE {
        return true;
    }
    if file > core.len() {
        return false;
    }
    match core.installed_after(file - 1) {
        Some(key) => is_latest(core, key, file),
        None => true,
    }
}
