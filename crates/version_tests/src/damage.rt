//! What is told of files that are absent, short or not what they have to be.

use crate::versions::{ROWS, TYPES};
use depot_disk::{Disk, FailDisk, MemDisk, Verb};
use std::alloc::Global;
use std::test::Fail;
use version_store::{FileFault, files_are_read_again, put_file, read_content, read_version};

/// The rows, with a count of one.
static ONE: &[u8] = b"\0\0\0\0\0\0\0\x01\
    \x01a\0\0\0\0\0\0\0\x05\0\0\0\0\0\0\0\x01\
    \x01b\0\0\0\0\0\0\0\x02\0\0\0\0\0\0\0\x01";

/// The rows, with a first text of 255 bytes.
static LONG: &[u8] = b"\0\0\0\0\0\0\0\x02\
    \xffa\0\0\0\0\0\0\0\x05\0\0\0\0\0\0\0\x01\
    \x01b\0\0\0\0\0\0\0\x02\0\0\0\0\0\0\0\x01";

/// How many rows are read from file 5.
pub(crate) fn count_in<D: Disk>(alloc: Global, disk: &mut D, len: u64) -> Result<usize, FileFault> {
    Ok(read_version(alloc, disk, &TYPES, 5, len)?.rows().len())
}

/// The same once these bytes were put there.
fn told(alloc: Global, bytes: &[u8], len: u64) -> Result<usize, FileFault> {
    let mut disk = MemDisk::new(alloc);
    put_file(&mut disk, 5, bytes)?;
    count_in(alloc, &mut disk, len)
}

/// The fault at a place of the file.
pub(crate) fn at(place: u64) -> Result<usize, FileFault> {
    Err(FileFault::Damaged { file: 5, place })
}

#[test]
fn damage_is_told_at_its_place(rt: HostRuntime) -> Result<(), Fail> {
    for &(bytes, len, want) in &[
        (ROWS, 44, Ok(2)),
        (ROWS, 45, at(44)),
        (&ROWS[..43], 44, at(43)),
        (&ROWS[..0], 44, at(0)),
        (ROWS, 43, at(36)),
        (ROWS, 8, at(8)),
        (ROWS, 0, at(0)),
        (ONE, 44, at(26)),
        (ONE, 26, Ok(1)),
        (LONG, 44, at(8)),
    ] {
        assert!(rt; told(rt.alloc(), bytes, len) == want, "at {len}");
    }
    files_are_read_again();
    Ok(())
}

/// Whether these are the first bytes of file 5.
fn begins<D: Disk>(alloc: Global, disk: &mut D, bytes: &[u8]) -> Result<bool, FileFault> {
    let content = read_content(alloc, disk, 5, bytes.len() as u64)?;
    Ok(content.as_slice() == bytes)
}

#[test]
fn an_absent_file_is_no_empty_one(rt: HostRuntime) -> Result<(), Fail> {
    let alloc = rt.alloc();
    let mut disk = MemDisk::new(alloc);
    let absent = Err(FileFault::Damaged { file: 5, place: 0 });
    assert!(rt; begins(alloc, &mut disk, b"") == absent);
    assert!(rt; begins(alloc, &mut disk, b"a") == absent);
    assert!(rt; put_file(&mut disk, 5, b"") == Ok(()));
    assert!(rt; begins(alloc, &mut disk, b"") == Ok(true));
    Ok(())
}

#[test]
fn what_stood_there_is_not_read(rt: HostRuntime) -> Result<(), Fail> {
    let mut disk = MemDisk::new(rt.alloc());
    assert!(rt; put_file(&mut disk, 5, b"abcd") == Ok(()));
    assert!(rt; put_file(&mut disk, 5, b"xy") == Ok(()));
    assert!(rt; begins(rt.alloc(), &mut disk, b"xy") == Ok(true));
    assert!(rt; disk.size(5) == Ok(Some(4)));
    Ok(())
}

/// What is told if the first call of a verb fails.
fn told_by_failing(alloc: Global, verb: Verb) -> Result<usize, FileFault> {
    let mut fails = Vec::new(alloc);
    if fails.push((verb, 1)).is_err() {
        return Err(FileFault::Memory);
    }
    let mut disk = FailDisk::new(MemDisk::new(alloc), fails);
    put_file(&mut disk, 5, ROWS)?;
    count_in(alloc, &mut disk, 44)
}

#[test]
fn a_failed_read_is_a_fault_of_the_disk(rt: HostRuntime) -> Result<(), Fail> {
    for &verb in &[Verb::Size, Verb::Read] {
        assert!(rt; told_by_failing(rt.alloc(), verb) == Err(FileFault::DiskFault));
    }
    Ok(())
}
