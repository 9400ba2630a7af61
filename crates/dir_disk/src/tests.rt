//! Calls on a folder of this machine.

use crate::DirDisk;
use depot_disk::{Disk, DiskFailed};
use std::alloc::AllocError;
use std::fs;
use std::rt::Files;
use std::test::Fail;

const FOLDER: &str = "dir_disk_test";

fn open<R: Files + AllocGlobal>(rt: &R) -> Result<DirDisk<'_, R>, AllocError> {
    Ok(DirDisk::new(rt, String::from_str(rt.alloc(), FOLDER)?))
}

/// What stands in the first bytes of a file from a place on, and how many they are.
fn front<D: Disk>(disk: &mut D, file: u64, at: u64) -> Result<(usize, [u8; 8]), DiskFailed> {
    let mut room = [0; 8];
    let count = disk.read(file, at, &mut room)?;
    Ok((count, room))
}

#[test]
fn a_folder_that_is_absent_has_no_files(rt: HostRuntime) -> Result<(), Fail> {
    let _ = fs::remove_dir_all(&rt, FOLDER);
    let mut disk = open(&rt)?;
    assert!(rt; disk.size(0) == Ok(None));
    assert!(rt; disk.first_from(0) == Ok(None));
    assert!(rt; front(&mut disk, 0, 0) == Ok((0, [0; 8])));
    assert!(rt; disk.sync(0) == Ok(()) && disk.remove(0) == Ok(()));
    assert!(rt; disk.write(0, 0, b"a") == Err(DiskFailed));
    Ok(())
}

/// Whether files 7 and 4,294,967,296 are there, of 4 bytes and of none, and no others.
fn has_both_files<D: Disk>(disk: &mut D) -> Result<bool, DiskFailed> {
    let first = disk.first_from(0)?;
    let second = disk.first_from(8)?;
    let third = disk.first_from(4_294_967_297)?;
    let sizes = (disk.size(7)?, disk.size(4_294_967_296)?);
    Ok(
        (first, second, third) == (Some(7), Some(4_294_967_296), None)
            && sizes == (Some(4), Some(0)),
    )
}

#[test]
fn a_folder_keeps_files(rt: HostRuntime) -> Result<(), Fail> {
    let _ = fs::remove_dir_all(&rt, FOLDER);
    fs::create_dir(&rt, FOLDER)?;
    // None of these is a file of the disk.
    for name in ["007", "+8", "9a", "18446744073709551616", "x"] {
        fs::write(
            &rt,
            format!(in rt.alloc(); "{FOLDER}/{name}")?,
            b"kept".as_slice(),
        )?;
    }
    let mut disk = open(&rt)?;
    assert!(rt; disk.first_from(0) == Ok(None));
    assert!(rt; disk.write(7, 0, b"abc") == Ok(()) && disk.write(7, 2, b"de") == Ok(()));
    assert!(rt; disk.write(4_294_967_296, 0, &[]) == Ok(()));
    assert!(rt; disk.sync(7) == Ok(()) && disk.sync(4_294_967_296) == Ok(()));
    assert!(rt; front(&mut disk, 7, 1) == Ok((3, *b"bde\0\0\0\0\0")));
    assert!(rt; front(&mut disk, 7, 4) == Ok((0, [0; 8])));
    assert!(rt; fs::read(&rt, "dir_disk_test/7")?.as_slice() == b"abde".as_slice());
    let mut again = open(&rt)?;
    assert!(rt; has_both_files(&mut disk) == Ok(true));
    assert!(rt; has_both_files(&mut again) == Ok(true));
    assert!(rt; again.remove(7) == Ok(()) && again.size(7) == Ok(None));
    assert!(rt; again.first_from(0) == Ok(Some(4_294_967_296)));
    fs::remove_dir_all(&rt, FOLDER)?;
    Ok(())
}
