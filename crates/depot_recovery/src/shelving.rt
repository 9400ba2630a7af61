//! The rows of the latest versions are read from their files.

ghost use Rattle.std.specs.Prelude.{◌≡◌, ◌<◌, IfOk, IfSome, None, OnOk, length};
ghost use Rattle.std.specs.Arc.{arc_value};
ghost use Rattle.catalog_journal.specs.Answers.{IsLogReading};
ghost use Rattle.row_codec.specs.Laws.{AreRowsOf};
ghost use Rattle.version_store.specs.Reading.{rows_in};
ghost use Rattle.version_store.specs.Shelves.{kept_in};
ghost use Rattle.depot_recovery.specs.Depots.{types_of};
ghost use Rattle.depot_recovery.specs.Found.{in_file};
ghost use Rattle.depot_recovery.specs.Recovered.{Answers, KeepsHeld};
ghost use Rattle.depot_recovery.specs.Replaying.{IsReplayOf, depot_by};
ghost use Rattle.depot_recovery.specs.Shelving.{Shelves, ShelvesNext, latest_in, rows_found};

use crate::OpenFault;
use crate::fault::file_fault;
use crate::latest::is_latest;
use catalog_journal::Bodies;
use claim_core::Core;
use depot_cell::{Memory, Rows, Ty};
use depot_disk::Disk;
use desc_types::{AcceptedDesc, Key};
use row_codec::{Body, decode_body};
use std::alloc::Global;
use std::sync::Arc;
use version_store::{MemShelf, Shelf, read_version};

/// A shelf with the rows of the latest versions, each read from the file of its install.
pub(crate) fn shelve<D: Disk>(
    alloc: Global,
    disk: &mut D,
    core: &Core,
    bodies: &Bodies,
) -> Result<MemShelf, OpenFault>
    requires replayed { IsReplayOf bodies.now core.now }
    ensures exact { IfSome (D.state disk.old).holds (λ image.
        Shelves image (depot_by bodies.now core.now) core.now result) }
    ensures ok { IfOk result (λ shelf. KeepsHeld core.now (kept_in shelf)) }
    ensures reading { IsLogReading (D.state disk.old) (D.state disk.new) result }
    ensures loan { D.loan disk.new ≡ D.loan disk.old }
{
    let mut shelf = MemShelf::new(alloc);
    for number in 1..bodies.len() {
        shelve_next(alloc, disk, core, bodies, number, &mut shelf)?;
    }
    Ok(shelf)
}

/// Puts the rows of the entry with a number onto the shelf, if it is the latest install of a
/// partition. After an `Err` the shelf cannot be used on.
fn shelve_next<D: Disk>(
    alloc: Global,
    disk: &mut D,
    core: &Core,
    bodies: &Bodies,
    number: usize,
    shelf: &mut MemShelf,
) -> Result<(), OpenFault>
    requires replayed { IsReplayOf bodies.now core.now }
    requires some { 0 < number }
    requires there { number < length bodies.now }
    requires fresh { kept_in shelf.old number ≡ None }
    ensures exact { IfSome (D.state disk.old).holds (λ image.
        Answers (λ _. kept_in shelf.new number) (rows_found image core.now.desc number
        (latest_in (depot_by bodies.now core.now) number)) result) }
    ensures ok { OnOk result (ShelvesNext core.now.desc number
        (latest_in (depot_by bodies.now core.now) number) (kept_in shelf.old)
        (kept_in shelf.new)) }
    ensures reading { IsLogReading (D.state disk.old) (D.state disk.new) result }
    ensures loan { D.loan disk.new ≡ D.loan disk.old }
{
    let Some(latest) = latest_at(core, bodies, number) else {
        return Ok(());
    };
    let rows = read_rows(alloc, disk, core.served(), number as u64, &latest)?;
    shelf.reserve()?;
    shelf.adopt(number as u64, rows, latest.len);
    Ok(())
}

/// The latest install of a partition: the partition, and the length of the rows in its file.
#[derive(Drop)]
pub(crate) struct Latest {
    pub(crate) key: Key,
    pub(crate) len: u64,
}

/// What the record with a number states, if its entry is the latest install of a partition.
fn latest_at(core: &Core, bodies: &Bodies, number: usize) -> Option<Latest>
    requires replayed { IsReplayOf bodies.now core.now }
    requires some { 0 < number }
    requires there { number < length bodies.now }
    ensures exact { result ≡ latest_in (depot_by bodies.now core.now) number }
{
    let bytes = match bodies.get(number) {
        Some(bytes) => bytes,
        None => unreachable!(),
    };
    match decode_body(bytes) {
        Ok(Body::Install { key, len, .. }) => {
            if is_latest(core, key, number as u64) {
                Some(Latest { key, len })
            } else {
                None
            }
        }
        Ok(Body::Load { .. }) => None,
        Err(_) => unreachable!(),
    }
}

/// The rows in the file of an entry that made the latest version of a partition.
fn read_rows<D: Disk>(
    alloc: Global,
    disk: &mut D,
    served: &AcceptedDesc,
    file: u64,
    latest: &Latest,
) -> Result<Arc<Rows>, OpenFault>
    ensures exact { IfSome (D.state disk.old).holds (λ image. Answers arc_value (in_file file
        (rows_in image (types_of served.now.desc latest.now.key.table) file latest.now.len)) result) }
    ensures typed { IfOk result (λ rows.
        AreRowsOf (types_of served.now.desc latest.now.key.table) (arc_value rows)) }
    ensures reading { IsLogReading (D.state disk.old) (D.state disk.new) result }
    ensures loan { D.loan disk.new ≡ D.loan disk.old }
{
    let types = types_of(alloc, served, latest.key.table)?;
    match read_version(alloc, disk, &types, file, latest.len) {
        Ok(rows) => match Arc::new(alloc, rows) {
            Ok(rows) => Ok(rows),
            Err(_) => Err(OpenFault::Memory),
        },
        Err(fault) => Err(file_fault(fault)),
    }
}

/// The types of a table's columns.
pub fn types_of(alloc: Global, served: &AcceptedDesc, table: u16) -> Result<Vec<Ty>, Memory>
    ensures exact { IfOk result (λ types. types.items ≡ types_of served.now.desc table) }
{
    let mut types = Vec::new(alloc);
    if let Some(found) = served.desc.tables.get(usize::from(table)) {
        types.reserve_exact(found.columns.len())?;
        for column in &found.columns {
            types.push(column.ty)?;
        }
    }
    Ok(types)
}
