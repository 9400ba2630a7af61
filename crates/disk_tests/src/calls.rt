//! Each call on each kind of disk, and disks that fail.

use depot_disk::{Disk, DiskFailed, FailDisk, MemDisk, StopDisk, Verb, read_front, write_through};
use std::test::Fail;

/// Writes file 3 of an empty disk, reads it and removes it, and tells whether each call answered
/// what it should.
fn serves<D: Disk>(disk: &mut D) -> Result<bool, DiskFailed> {
    write_through(disk, 3, 0, b"abcd")?;
    disk.write(3, 0, b"XY")?;
    disk.sync(3)?;
    let size = disk.size(3)?;
    let first = disk.first_from(0)?;
    let behind = disk.first_from(4)?;
    let mut room = [0; 9];
    let count = disk.read(3, 1, &mut room)?;
    disk.remove(3)?;
    let gone = disk.first_from(0)?;
    Ok(is_file_3(size, first, behind) && is_tail(count, &room) && gone.is_none())
}

/// Whether file 3 is the only one, and has four bytes.
fn is_file_3(size: Option<u64>, first: Option<u64>, behind: Option<u64>) -> bool {
    size == Some(4) && first == Some(3) && behind.is_none()
}

/// Whether the bytes from place 1 on were read.
fn is_tail(count: usize, room: &[u8]) -> bool {
    count == 3 && room.starts_with(b"Ycd")
}

#[test]
fn a_disk_in_memory_serves(rt: HostRuntime) -> Result<(), Fail> {
    let mut disk = MemDisk::new(rt.alloc());
    assert!(rt; serves(&mut disk) == Ok(true));
    let mut lent = &mut disk;
    assert!(rt; serves(&mut lent) == Ok(true));
    Ok(())
}

#[test]
fn a_disk_that_never_fails_serves(rt: HostRuntime) -> Result<(), Fail> {
    let alloc = rt.alloc();
    let mut listed = FailDisk::new(MemDisk::new(alloc), Vec::new(alloc));
    assert!(rt; serves(&mut listed) == Ok(true));
    // The run makes ten calls.
    let mut stopping = StopDisk::new(MemDisk::new(alloc), 10);
    assert!(rt; serves(&mut stopping) == Ok(true));
    assert!(rt; serves(&mut stopping).is_err());
    Ok(())
}

/// Which of three writes fail.
fn writes_failed<D: Disk>(disk: &mut D) -> [bool; 3] {
    [
        disk.write(1, 0, b"a").is_err(),
        disk.write(1, 0, b"b").is_err(),
        disk.write(1, 0, b"c").is_err(),
    ]
}

#[test]
fn listed_calls_fail(rt: HostRuntime) -> Result<(), Fail> {
    let alloc = rt.alloc();
    let mut fails = Vec::new(alloc);
    fails.push((Verb::Write, 2))?;
    fails.push((Verb::Sync, 1))?;
    let mut disk = FailDisk::new(MemDisk::new(alloc), fails);
    assert!(rt; writes_failed(&mut disk) == [false, true, false]);
    assert!(rt; disk.sync(1).is_err());
    assert!(rt; disk.inner().size(1) == Ok(Some(1)));
    Ok(())
}

#[test]
fn a_file_is_read_from_its_front(rt: HostRuntime) -> Result<(), Fail> {
    let mut disk = MemDisk::new(rt.alloc());
    let mut room = [0; 9];
    assert!(rt; disk.write(3, 0, b"abcd") == Ok(()));
    assert!(rt; read_front(&mut disk, 3, &mut room[..3]) == Ok(3) && room.starts_with(b"abc\0"));
    assert!(rt; read_front(&mut disk, 3, &mut room) == Ok(4) && room.starts_with(b"abcd\0"));
    assert!(rt; read_front(&mut disk, 4, &mut room) == Ok(0));
    Ok(())
}

/// Which of the six calls fail, each made once.
fn calls_failed<D: Disk>(disk: &mut D) -> [bool; 6] {
    [
        disk.size(1).is_err(),
        disk.first_from(1).is_err(),
        disk.read(1, 0, &mut [0]).is_err(),
        disk.write(1, 0, b"a").is_err(),
        disk.sync(1).is_err(),
        disk.remove(1).is_err(),
    ]
}

#[test]
fn each_verb_names_its_own_calls(rt: HostRuntime) -> Result<(), Fail> {
    let alloc = rt.alloc();
    for &(verb, want) in &[
        (Verb::Size, [true, false, false, false, false, false]),
        (Verb::FirstFrom, [false, true, false, false, false, false]),
        (Verb::Read, [false, false, true, false, false, false]),
        (Verb::Write, [false, false, false, true, false, false]),
        (Verb::Sync, [false, false, false, false, true, false]),
        (Verb::Remove, [false, false, false, false, false, true]),
    ] {
        let mut fails = Vec::new(alloc);
        fails.push((verb, 1))?;
        let mut disk = FailDisk::new(MemDisk::new(alloc), fails);
        assert!(rt; calls_failed(&mut disk) == want, "at {verb:?}");
    }
    Ok(())
}

#[test]
fn a_stopped_disk_fails_each_call(rt: HostRuntime) -> Result<(), Fail> {
    let mut disk = StopDisk::new(MemDisk::new(rt.alloc()), 2);
    assert!(rt; writes_failed(&mut disk) == [false, false, true]);
    assert!(rt; calls_failed(&mut disk) == [true; 6]);
    assert!(rt; disk.inner().size(1) == Ok(Some(1)));
    Ok(())
}
