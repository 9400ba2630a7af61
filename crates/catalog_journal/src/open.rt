//! A catalogue is opened: all of it is read, and each record is looked at from the front.

ghost use Rattle.std.specs.Prelude.{◌≡◌, ◌+◌, ◌<◌, ◌^◌, [], ◌∷◌, ◌++◌, IfErr, IfOk, IfSome, OnOk, length};
ghost use Rattle.std.specs.Prelude.{IsErrOf};
ghost use Rattle.depot_disk.specs.Image.{bytes_in};
ghost use Rattle.catalog_journal.specs.declared.fault.LogFault.TheVariants.{Exists};
ghost use Rattle.catalog_journal.specs.Logs.{IsLogOf};
ghost use Rattle.catalog_journal.specs.Moments.{HoldsLog};
ghost use Rattle.catalog_journal.specs.Answers.{HasFound, IsLogReading, IsOutside, IsReadAs, Opens};

use crate::bodies::{Bodies, Span};
use crate::files::{CATALOG_FILE, MARK_FILE, MOST_RECORDS};
use crate::gate::{Gate, gate_of};
use crate::{Log, LogFault};
use depot_cell::Memory;
use depot_disk::{Disk, read_front};
use std::alloc::Global;

impl Log {
    /// Opens the catalogue and gives the bodies of its records. It changes nothing.
    ///
    /// `NotFound` comes exactly if the mark file is absent. `Damaged` tells the first record that is
    /// not whole with a gate after it, by the place of its gate; of a catalogue without record 0
    /// that is 0.
    pub fn open<D: Disk>(alloc: Global, disk: &mut D) -> Result<(Log, Bodies), LogFault>
        ensures exact { IfSome (D.state disk.old).holds (λ image. Opens image result) }
        ensures ok { IfOk result (λ opened. IsLogOf opened.0 opened.1) }
        ensures held { IfOk result (λ opened. IfSome (D.state disk.new).holds (HoldsLog opened.0)) }
        ensures never { IsErrOf result Exists → ⊥ }
        ensures reading { IsLogReading (D.state disk.old) (D.state disk.new) result }
        ensures loan { D.loan disk.new ≡ D.loan disk.old }
    {
        if disk.size(MARK_FILE)?.is_none() {
            return Err(LogFault::NotFound);
        }
        let bytes = read_catalog_file(alloc, disk)?;
        read_bodies(alloc, bytes)
    }
}

/// All bytes of the catalogue's file; an absent one has none.
fn read_catalog_file<D: Disk>(alloc: Global, disk: &mut D) -> Result<Vec<u8>, LogFault>
    ensures exact { IfOk result (λ bytes. IfSome (D.state disk.old).holds (λ image.
        bytes.items ≡ bytes_in image CATALOG_FILE)) }
    ensures refusal { IfErr result IsOutside }
    ensures reading { IsLogReading (D.state disk.old) (D.state disk.new) result }
    ensures loan { D.loan disk.new ≡ D.loan disk.old }
{
    let size = disk.size(CATALOG_FILE)?.unwrap_or(0);
    let mut bytes = zeros(alloc, size as usize)?;
    let count = read_front(disk, CATALOG_FILE, &mut bytes)?;
    bytes.truncate(count);
    Ok(bytes)
}

/// So many bytes.
fn zeros(alloc: Global, count: usize) -> Result<Vec<u8>, Memory>
    ensures exact { IfOk result (λ bytes. length bytes.items ≡ count) }
{
    Ok(vec![in alloc; 0; count]?)
}

/// The bodies of a catalogue with these bytes.
fn read_bodies(alloc: Global, bytes: Vec<u8>) -> Result<(Log, Bodies), LogFault>
    ensures exact { IsReadAs bytes.items result }
{
    let records = find_records(alloc, bytes.as_slice())?;
    if records.spans.is_empty() {
        return Err(damaged(0));
    }
    let log = Log {
        end: records.end as u64,
        count: records.spans.len() as u64,
    };
    Ok((log, Bodies::new(bytes, records.spans)))
}

/// Where the bodies of the records stand that were found so far, and where the gate after them is.
#[derive(Drop)]
struct Records {
    spans: Vec<Span>,
    end: usize,
}

impl Records {
    /// One more record, whose body has this length.
    fn push(&mut self, len: usize) -> Result<(), Memory>
        requires room { self.old.end + (5 + len) < 2 ^ 63 }
        ensures ok { OnOk result (self.new.spans.items
            ≡ self.old.spans.items ++ record { start = self.old.end + 5; len = len } ∷ []) }
        ensures end { OnOk result (self.new.end ≡ self.old.end + (5 + len)) }
    {
        self.spans.push(Span {
            start: self.end + 5,
            len,
        })?;
        self.end += 5 + len;
        Ok(())
    }
}

/// Looks at each gate from the front, as long as they are open.
fn find_records(alloc: Global, bytes: &[u8]) -> Result<Records, LogFault>
    ensures exact { HasFound bytes.now result }
{
    let mut records = Records {
        spans: Vec::new(alloc),
        end: 0,
    };
    for _ in 0..MOST_RECORDS {
        match gate_of(&bytes[records.end..]) {
            Gate::Open { len } => records.push(len)?,
            Gate::Closed => return Ok(records),
            Gate::Cut => return Err(damaged(records.end)),
        }
    }
    Ok(records)
}

/// The catalogue is not as it has to be from this place on.
fn damaged(place: usize) -> LogFault
    ensures exact { result ≡ LogFault.Damaged CATALOG_FILE place }
{
    LogFault::Damaged {
        file: CATALOG_FILE,
        place: place as u64,
    }
}
