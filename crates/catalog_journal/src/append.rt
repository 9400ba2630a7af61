//! A catalogue gains a record.

ghost use Rattle.std.specs.Prelude.{◌≡◌, ◌+◌, ◌<◌, ◌^◌, ℕ, List, [], ◌∷◌, ◌++◌, ◌↔◌, IfErr, IfOk, IfSome};
ghost use Rattle.std.specs.Prelude.{IsSome, IsTrue, OnErr, OnOk, is_some, length};
ghost use Rattle.depot_io.specs.Causes.{HasCause};
ghost use Rattle.depot_disk.specs.State.{LeavesOnly, Within};
ghost use Rattle.catalog_journal.specs.declared.fault.LogFault.TheVariants.{DiskFault};
ghost use Rattle.catalog_journal.specs.Catalog.{MOST_RECORDS, framed};
ghost use Rattle.catalog_journal.specs.Logs.{IsLogOf};
ghost use Rattle.catalog_journal.specs.Moments.{HasBeforeOrAfter, HasBodies, HasNow, HoldsLog};

use crate::files::{CATALOG_FILE, MOST_BYTES, MOST_RECORDS};
use crate::framed::Framed;
use crate::{Log, LogFault};
use depot_disk::{Disk, write_through};

impl Log {
    /// Whether there is room for one record more, with this body.
    pub fn has_room(&self, framed: &Framed) -> bool
        ensures exact { IsTrue result ↔ ((self.now.count < MOST_RECORDS)
            × (self.now.end + 6 + length framed.now < 2 ^ 63)) }
    {
        let added = (framed.bytes.len() as u64).saturating_add(1);
        self.count < MOST_RECORDS && self.end.saturating_add(added) <= MOST_BYTES
    }

    /// Adds a record and answers its number, from 0. It makes two writes and two syncs, and takes no
    /// memory. At each moment a stop leaves the records from before, or those and the new one; after
    /// an Ok it leaves the new one.
    ///
    /// `DiskFault` is the only refusal. It leaves the log as it was, but the disk may have the record
    /// or not: open the log anew before the next append.
    pub fn append<D: Disk>(&mut self, disk: &mut D, framed: Framed) -> Result<u64, LogFault>
        requires held { IfSome (D.state disk.old).holds (HoldsLog self.old) }
        requires room { self.old.end + 6 + length framed < 2 ^ 63 }
        requires few { self.old.count < MOST_RECORDS }
        ensures exact { IfOk result (λ number. number ≡ self.old.count) }
        ensures ok { (bodies : List (List ℕ)) → IsLogOf self.old bodies
            → OnOk result (IsLogOf self.new (bodies ++ framed ∷ [])) }
        ensures held { OnOk result (IfSome (D.state disk.new).holds (HoldsLog self.new)) }
        ensures any_moment { (bodies : List (List ℕ)) → IsLogOf self.old bodies
            → IsSome (D.state disk.old).holds
            → Within (D.state disk.old).may_leave (HasBodies bodies)
            → LeavesOnly (D.state disk.old) (D.state disk.new)
            (HasBeforeOrAfter (D.state disk.old).may_leave bodies framed) }
        ensures durable { (bodies : List (List ℕ)) → IsLogOf self.old bodies
            → IsSome (D.state disk.old).holds
            → Within (D.state disk.old).may_leave (HasBodies bodies)
            → OnOk result (Within (D.state disk.new).may_leave
            (HasNow (D.state disk.old).may_leave (bodies ++ framed ∷ []))) }
        ensures err { OnErr result (self.new ≡ self.old) }
        ensures refusal { IfErr result (λ fault. fault ≡ DiskFault) }
        ensures told { is_some (D.state disk.new).holds ≡ is_some (D.state disk.old).holds }
        ensures cause { HasCause (D.state disk.old).faults (D.state disk.new).faults result }
        ensures loan { D.loan disk.new ≡ D.loan disk.old }
    {
        let gate = self.end;
        write_through(disk, CATALOG_FILE, gate + 1, &framed.bytes)?;
        write_through(disk, CATALOG_FILE, gate, &[1])?;
        let number = self.count;
        self.end = gate + framed.bytes.len() as u64;
        self.count = number + 1;
        Ok(number)
    }
}
