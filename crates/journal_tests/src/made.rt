//! What a catalogue is on the disk.

use crate::logs::{count_in, make_load, make_two};
use catalog_journal::{Log, LogFault};
use depot_disk::{Disk, DiskFailed, MemDisk};
use std::test::Fail;

/// Whether file 0 has these bytes.
fn has(disk: &mut MemDisk, want: &[u8]) -> Result<bool, DiskFailed> {
    let mut room = [0; 20];
    let count = disk.read(0, 0, &mut room)?;
    Ok(count <= 20 && &room[..count] == want)
}

#[test]
fn two_records_are_fifteen_bytes(rt: HostRuntime) -> Result<(), Fail> {
    let alloc = rt.alloc();
    let mut disk = MemDisk::new(alloc);
    assert!(rt; make_two(alloc, &mut disk) == Ok(()));
    assert!(rt; has(&mut disk, b"\x01\0\0\0\x03abc\x01\0\0\0\x01x\0") == Ok(true));
    assert!(rt; disk.size(4_294_967_296) == Ok(Some(1)));
    assert!(rt; count_in(alloc, &mut disk) == Ok(Some(2)));
    Ok(())
}

#[test]
fn a_load_is_a_record_of_fourteen_bytes(rt: HostRuntime) -> Result<(), Fail> {
    let mut disk = MemDisk::new(rt.alloc());
    assert!(rt; make_load(rt.alloc(), &mut disk) == Ok(()));
    let want = b"\x01\0\0\0\0\x01\0\0\0\x09\x01\0\0\0\0\0\0\0\x42\0";
    assert!(rt; has(&mut disk, want) == Ok(true));
    Ok(())
}

#[test]
fn a_depot_is_made_once(rt: HostRuntime) -> Result<(), Fail> {
    let alloc = rt.alloc();
    let mut disk = MemDisk::new(alloc);
    assert!(rt; count_in(alloc, &mut disk) == Err(LogFault::NotFound));
    assert!(rt; Log::fresh(alloc, &mut disk, b"abc").is_ok());
    assert!(rt; make_two(alloc, &mut disk) == Err(LogFault::Exists));
    assert!(rt; count_in(alloc, &mut disk) == Ok(Some(1)));
    Ok(())
}
