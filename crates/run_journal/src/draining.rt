//! A drain: it computes each partition of a view that is not settled.

ghost use Rattle.std.specs.Prelude.{◌≡◌, OnErr, OnOk};
ghost use Rattle.view_meaning.specs.Drains.{drained};
ghost use Rattle.run_journal.specs.KeptJournals.{DrainsSome, IsKept, entries_of, reclaimed_of};

use crate::journal::Journal;
use depot_cell::Memory;
use std::alloc::Global;

/// Installs each partition of a view that is not settled, in order of key. Each is computed from the
/// latest versions of its sources, so it costs what these hold. Without memory the first of them may
/// be installed.
pub fn drain(alloc: Global, journal: &mut Journal) -> Result<(), Memory>
    requires kept { IsKept journal.old.core.desc journal.old }
    ensures ok { OnOk result
        (entries_of journal.new ≡ drained journal.old.core.desc (entries_of journal.old)) }
    ensures reclaimed { reclaimed_of journal.new ≡ reclaimed_of journal.old }
    ensures kept { IsKept journal.old.core.desc journal.new }
    ensures err { OnErr result
        (DrainsSome journal.old.core.desc (entries_of journal.old) (entries_of journal.new)) }
{
    'keys: while let Some(key) = journal.next_unsettled() {
        journal.install(alloc, key)?;
    }
    Ok(())
}
