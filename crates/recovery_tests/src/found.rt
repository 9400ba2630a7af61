//! A depot with a load and an install, and what is told if a part of it is damaged.

use catalog_journal::MARK_FILE;
use depot_cell::Memory;
use depot_disk::{Disk, MemDisk};
use depot_recovery::{OpenFault, recover};
use std::alloc::Global;
use std::test::Fail;

/// The body of record 0: a feed, a table of its rows, and a view of those with 5 or more.
static FIRST: &[u8] = b"depot 1\n\
    feed f\n\
    raw r feed f width 10 time at cols at:int k:text n:int\n\
    view big width 10 filter r 0 0 where n >= 5 keep at k n\n";

/// The body of a load, and its delivery: the rows 3, `a`, 5 and 12, `b`, 2.
static LOAD: &[u8] = b"\x01\0\0\0\0\0\0\0\x42";

pub(crate) static DELIVERY: &[u8] = b"\0\0\0\0\0\0\0\0\0\0\0\0\0\0\0\0\0\x02\
    \0\0\0\x01\0\0\0\0\0\0\0\0\0\x03\x01a\0\0\0\0\0\0\0\x05\
    \0\0\0\x02\0\0\0\0\0\0\0\0\0\x0c\x01b\0\0\0\0\0\0\0\x02";

/// The body of the install of the view's first partition, claimed after the load, and its row.
static INSTALL: &[u8] = b"\x02\0\x01\0\0\0\0\0\0\0\0\0\0\0\0\0\0\0\x01\0\0\0\0\0\0\0\x1a";

pub(crate) static ROWS: &[u8] = b"\0\0\0\0\0\0\0\x01\0\0\0\0\0\0\0\x03\x01a\0\0\0\0\0\0\0\x05";

/// The bytes of a catalogue with these bodies.
fn catalog(alloc: Global, bodies: &[&[u8]]) -> Result<Vec<u8>, Memory> {
    let mut bytes = Vec::new(alloc);
    for body in bodies {
        bytes.push(1)?;
        bytes.extend_from_slice(&(body.len() as u64).to_be_bytes()[4..])?;
        bytes.extend_from_slice(body)?;
    }
    bytes.push(0)?;
    Ok(bytes)
}

/// A disk with this catalogue, and these bytes in the files 1 and 2.
fn disk_of(alloc: Global, bodies: &[&[u8]], files: [&[u8]; 2]) -> Result<MemDisk, OpenFault> {
    let mut disk = MemDisk::new(alloc);
    disk.write(0, 0, &catalog(alloc, bodies)?)?;
    disk.write(MARK_FILE, 0, b"?")?;
    disk.write(1, 0, files[0])?;
    disk.write(2, 0, files[1])?;
    Ok(disk)
}

/// A disk with the load and the install.
pub(crate) fn whole(alloc: Global) -> Result<MemDisk, OpenFault> {
    disk_of(alloc, &[FIRST, LOAD, INSTALL], [DELIVERY, ROWS])
}

/// How many entries are found, or the fault.
fn told(alloc: Global, bodies: &[&[u8]], files: [&[u8]; 2]) -> Result<u64, OpenFault> {
    let mut disk = disk_of(alloc, bodies, files)?;
    let found = recover(alloc, &mut disk)?;
    Ok(found.core.len())
}

/// A file is damaged at a place.
fn at(file: u64, place: u64) -> Result<u64, OpenFault> {
    Err(OpenFault::Damaged { file, place })
}

/// The place of the gate of record 1.
fn gate() -> u64 {
    FIRST.len() as u64 + 5
}

#[test]
fn a_depot_is_found(rt: HostRuntime) -> Result<(), Fail> {
    let alloc = rt.alloc();
    let files = [DELIVERY, ROWS];
    assert!(rt; told(alloc, &[FIRST], files) == Ok(0));
    assert!(rt; told(alloc, &[FIRST, LOAD], files) == Ok(1));
    assert!(rt; told(alloc, &[FIRST, LOAD, INSTALL], files) == Ok(2));
    Ok(())
}

#[test]
fn damage_is_told_at_its_place(rt: HostRuntime) -> Result<(), Fail> {
    let alloc = rt.alloc();
    let files = [DELIVERY, ROWS];
    assert!(rt; told(alloc, &[b"depot 2\n"], files) == at(0, 0));
    // The text of a description that is not the canonical one.
    assert!(rt; told(alloc, &[b"depot 1\n feed f\n"], files) == at(0, 0));
    // No body of an entry, a delivery that was loaded, and an install that nothing is to be done for.
    assert!(rt; told(alloc, &[FIRST, b"\x03"], files) == at(0, gate()));
    assert!(rt;
        told(alloc, &[FIRST, LOAD, LOAD], [DELIVERY, DELIVERY]) == at(0, gate().saturating_add(14))
    );
    assert!(rt; told(alloc, &[FIRST, INSTALL], files) == at(0, gate()));
    assert!(rt;
        told(alloc, &[FIRST, LOAD, INSTALL, INSTALL], files) == at(0, gate().saturating_add(46))
    );
    // The files of the load and of the install.
    assert!(rt; told(alloc, &[FIRST, LOAD], [b"", ROWS]) == at(1, 0));
    assert!(rt; told(alloc, &[FIRST, LOAD, INSTALL], [DELIVERY, &ROWS[..20]]) == at(2, 20));
    Ok(())
}

#[test]
fn a_disk_without_the_mark_file_holds_no_depot(rt: HostRuntime) -> Result<(), Fail> {
    let mut disk = whole(rt.alloc())?;
    assert!(rt; disk.remove(MARK_FILE) == Ok(()));
    assert!(rt; recover(rt.alloc(), &mut disk).err() == Some(OpenFault::NotFound));
    Ok(())
}
