//! A catalogue is made: its first record whole, and then the mark file.

ghost use Rattle.std.specs.Prelude.{◌≡◌, [], ◌∷◌, ◌++◌, IfOk, IfSome, IsSome, OnOk, is_some, OnErr};
ghost use Rattle.depot_disk.specs.State.{LeavesOnly, Within};
ghost use Rattle.catalog_journal.specs.Catalog.{IsBody, framed};
ghost use Rattle.catalog_journal.specs.Logs.{IsLogOf};
ghost use Rattle.catalog_journal.specs.Moments.{HoldsLog, IsMade, IsUnmadeOrMade, IsUnmarked};
ghost use Rattle.catalog_journal.specs.Answers.{HasFaultCause, LeavesUnlessFailed, Makes};

use crate::files::{CATALOG_FILE, MARK_FILE};
use crate::framed::put_framed;
use crate::{Log, LogFault};
use depot_cell::Memory;
use depot_disk::{Disk, write_through};
use std::alloc::Global;

impl Log {
    /// Makes a catalogue of one record, and then the mark file. It asks for the size of the mark
    /// file, and makes two writes and two syncs. A stop before the last of them leaves no mark file,
    /// or one whose catalogue is whole.
    ///
    /// `Exists` comes exactly if the mark file is there. It and `Memory` leave the disk as it was.
    pub fn fresh<D: Disk>(alloc: Global, disk: &mut D, body: &[u8]) -> Result<Log, LogFault>
        requires short { IsBody body.now }
        ensures exact { IfSome (D.state disk.old).holds (λ image. Makes image result) }
        ensures ok { IfOk result (λ log. IsLogOf log (body.now ∷ [])) }
        ensures held { IfOk result (λ log. IfSome (D.state disk.new).holds (HoldsLog log)) }
        ensures any_moment { IsSome (D.state disk.old).holds
            → Within (D.state disk.old).may_leave IsUnmarked
            → LeavesOnly (D.state disk.old) (D.state disk.new)
            (IsUnmadeOrMade (D.state disk.old).may_leave body.now) }
        ensures durable { IsSome (D.state disk.old).holds
            → Within (D.state disk.old).may_leave IsUnmarked
            → OnOk result (Within (D.state disk.new).may_leave
            (IsMade (D.state disk.old).may_leave body.now)) }
        ensures err { LeavesUnlessFailed (D.state disk.old) (D.state disk.new) result }
        ensures told { is_some (D.state disk.new).holds ≡ is_some (D.state disk.old).holds }
        ensures cause { HasFaultCause (D.state disk.old).faults (D.state disk.new).faults result }
        ensures loan { D.loan disk.new ≡ D.loan disk.old }
    {
        if disk.size(MARK_FILE)?.is_some() {
            return Err(LogFault::Exists);
        }
        let bytes = first_record(alloc, body)?;
        write_through(disk, CATALOG_FILE, 0, &bytes)?;
        write_through(disk, MARK_FILE, 0, &[1])?;
        Ok(Log {
            end: bytes.len() as u64 - 1,
            count: 1,
        })
    }
}

/// An open record and the closed gate after it.
fn first_record(alloc: Global, body: &[u8]) -> Result<Vec<u8>, Memory>
    requires short { IsBody body.now }
    ensures exact { IfOk result (λ bytes. bytes.items ≡ 1 ∷ framed body.now) }
{
    let mut bytes = Vec::new(alloc);
    bytes.push(1)?;
    put_framed(&mut bytes, body)?;
    Ok(bytes)
}
