//! The shelf in memory, over disks that serve and disks that fail.

ghost use Rattle.std.specs.Prelude.{◌≡◌, None, IsSomeAnd, OnErr, OnOk};
ghost use Rattle.row_codec.specs.Laws.{AreRowsOf};
ghost use Rattle.version_store.specs.Shelves.{KeepsNothing};

use crate::versions::{NONE, ROWS, TYPES, are_spelled, rows_of, shared};
use depot_cell::Ty;
use depot_disk::{Disk, DiskFailed, FailDisk, MemDisk, Verb};
use std::alloc::Global;
use std::test::Fail;
use version_store::{FileFault, MemShelf, Shelf, read_version};

/// Keeps the rows that are spelled by these bytes under entry 3.
fn put_rows<S: Shelf, D: Disk>(
    alloc: Global,
    shelf: &mut S,
    disk: &mut D,
    types: &[Ty],
    bytes: &[u8],
) -> Result<(), FileFault>
    requires fresh { S.kept shelf.old 3 ≡ None }
    ensures kept { OnOk result (IsSomeAnd (S.kept shelf.new 3) (AreRowsOf types.now)) }
    ensures err { OnErr result (S.kept shelf.new 3 ≡ None) }
{
    let rows = rows_of(alloc, types, bytes)?;
    shelf.reserve()?;
    shelf.put(disk, 3, rows, bytes)?;
    Ok(())
}

/// Whether the shelf gives the rows that are spelled by these bytes for entry 3.
fn gives<S: Shelf, D: Disk>(
    alloc: Global,
    shelf: &mut S,
    disk: &mut D,
    types: &[Ty],
    bytes: &[u8],
) -> Result<bool, FileFault>
    requires kept { IsSomeAnd (S.kept shelf.old 3) (AreRowsOf types.now) }
{
    let rows = shelf.get(alloc, disk, types, 3)?;
    Ok(are_spelled(alloc, &rows, bytes)?)
}

/// Whether rows that are put are given, stand in their file, and are gone once they are dropped.
fn serves<S: Shelf, D: Disk>(
    alloc: Global,
    shelf: &mut S,
    disk: &mut D,
    types: &[Ty],
) -> Result<bool, FileFault>
    requires empty { KeepsNothing (S.kept shelf.old) }
{
    put_rows(alloc, shelf, disk, types, ROWS)?;
    let given = gives(alloc, shelf, disk, types, ROWS)?;
    let read = read_version(alloc, disk, types, 3, 44)?;
    let same = are_spelled(alloc, &read, ROWS)?;
    shelf.drop_one(disk, 3)?;
    Ok(given && same && disk.size(3)?.is_none())
}

/// Whether rows that were read from a file are given once they are adopted.
fn adopts<S: Shelf, D: Disk>(
    alloc: Global,
    shelf: &mut S,
    disk: &mut D,
    types: &[Ty],
) -> Result<bool, FileFault>
    requires empty { KeepsNothing (S.kept shelf.old) }
{
    let read = read_version(alloc, disk, types, 3, 44)?;
    shelf.reserve()?;
    shelf.adopt(3, shared(alloc, read)?, 44);
    gives(alloc, shelf, disk, types, ROWS)
}

#[test]
fn rows_are_kept_until_they_are_dropped(rt: HostRuntime) -> Result<(), Fail> {
    let alloc = rt.alloc();
    let mut disk = MemDisk::new(alloc);
    let mut shelf = MemShelf::new(alloc);
    assert!(rt; serves(alloc, &mut shelf, &mut disk, &TYPES) == Ok(true));
    Ok(())
}

#[test]
fn a_version_in_a_file_is_adopted(rt: HostRuntime) -> Result<(), Fail> {
    let alloc = rt.alloc();
    let mut disk = MemDisk::new(alloc);
    let mut shelf = MemShelf::new(alloc);
    assert!(rt; disk.write(3, 0, ROWS) == Ok(()));
    assert!(rt; adopts(alloc, &mut shelf, &mut disk, &TYPES) == Ok(true));
    Ok(())
}

/// A disk of which the first call of a verb fails.
fn failing(alloc: Global, verb: Verb) -> Result<FailDisk<MemDisk>, Fail> {
    Ok(FailDisk::new(MemDisk::new(alloc), vec![in alloc; (verb, 1)]?))
}

/// Whether the disk refuses to put no rows, and the shelf then gives the rows that are put next.
fn puts_after_a_refusal<S: Shelf, D: Disk>(
    alloc: Global,
    shelf: &mut S,
    disk: &mut D,
    types: &[Ty],
) -> Result<bool, FileFault>
    requires empty { KeepsNothing (S.kept shelf.old) }
{
    match put_rows(alloc, shelf, disk, types, NONE) {
        Ok(()) => return Ok(false),
        Err(FileFault::DiskFault) => {}
        Err(fault) => return Err(fault),
    }
    put_rows(alloc, shelf, disk, types, ROWS)?;
    gives(alloc, shelf, disk, types, ROWS)
}

#[test]
fn a_refused_put_keeps_nothing(rt: HostRuntime) -> Result<(), Fail> {
    let alloc = rt.alloc();
    for &verb in &[Verb::Write, Verb::Sync] {
        let mut disk = failing(alloc, verb)?;
        let mut shelf = MemShelf::new(alloc);
        assert!(rt; puts_after_a_refusal(alloc, &mut shelf, &mut disk, &TYPES) == Ok(true));
    }
    Ok(())
}

/// Whether the disk refuses to drop rows, and the shelf then gives the others that are put next.
fn drops_in_any_case<S: Shelf, D: Disk>(
    alloc: Global,
    shelf: &mut S,
    disk: &mut D,
    types: &[Ty],
) -> Result<bool, FileFault>
    requires empty { KeepsNothing (S.kept shelf.old) }
{
    put_rows(alloc, shelf, disk, types, ROWS)?;
    let dropped = shelf.drop_one(disk, 3);
    put_rows(alloc, shelf, disk, types, NONE)?;
    let given = gives(alloc, shelf, disk, types, NONE)?;
    Ok(dropped == Err(DiskFailed) && given)
}

#[test]
fn a_refused_drop_keeps_nothing(rt: HostRuntime) -> Result<(), Fail> {
    let alloc = rt.alloc();
    let mut disk = failing(alloc, Verb::Remove)?;
    let mut shelf = MemShelf::new(alloc);
    assert!(rt; drops_in_any_case(alloc, &mut shelf, &mut disk, &TYPES) == Ok(true));
    Ok(())
}
