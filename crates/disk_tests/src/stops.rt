//! What a stop leaves of one file, pick by pick.

use depot_cell::Memory;
use depot_disk::{Disk, DiskFailed, MemDisk};
use std::alloc::Global;
use std::test::Fail;

/// Does one call to file 7: `w2ab` writes `ab` at 2, `s` syncs, `r` removes.
fn call(disk: &mut MemDisk, word: &[u8]) -> Result<(), DiskFailed> {
    match word {
        [b'w', at, bytes @ ..] => disk.write(7, u64::from(at.saturating_sub(b'0')), bytes),
        [b's'] => disk.sync(7),
        [b'r'] => disk.remove(7),
        _ => Ok(()),
    }
}

/// A disk after these calls.
fn disk_after(alloc: Global, calls: &[u8]) -> Result<MemDisk, Memory> {
    let mut disk = MemDisk::new(alloc);
    for word in calls.split(|byte| *byte == b' ') {
        if call(&mut disk, word).is_err() {
            return Err(Memory);
        }
    }
    Ok(disk)
}

/// Whether file 7 has these bytes, or is absent if they are `-`.
fn has(disk: &mut MemDisk, want: &[u8]) -> bool {
    let mut room = [0; 9];
    match (disk.size(7), disk.read(7, 0, &mut room)) {
        (Ok(None), Ok(0)) => want == b"-".as_slice(),
        (Ok(Some(_)), Ok(count)) if count <= 9 => want == &room[..count],
        _ => false,
    }
}

/// Whether a pick leaves these bytes after some calls.
fn leaves(alloc: Global, calls: &str, pick: u64, want: &str) -> Result<bool, Memory> {
    let mut left = disk_after(alloc, calls.as_bytes())?.after_stop(pick)?;
    Ok(has(&mut left, want.as_bytes()))
}

#[test]
fn a_stop_leaves_what_its_pick_says(rt: HostRuntime) -> Result<(), Fail> {
    // Pick 97 puts the byte `a` at place 0, `b` at place 1, and so on.
    for &(calls, none, all, own) in &[
        ("", "-", "-", "-"),
        ("w0wxyz", "-", "wxyz", "abcd"),
        ("w0wxyz s", "wxyz", "wxyz", "wxyz"),
        ("w0wxyz s w2STU", "wxyz", "wxSTU", "wxcde"),
        ("w0wxyz s w2STU w0Q", "wxyz", "QxSTU", "axcde"),
        ("w0wxyz s w2STU s", "wxSTU", "wxSTU", "wxSTU"),
        ("w0wxyz s r", "wxyz", "-", "abcd"),
        ("w0wxyz r", "-", "-", "-"),
        ("w0wxyz s r w0Q", "wxyz", "Q", "a"),
        ("w0wxyz s r w0Q s", "Q", "Q", "Q"),
    ] {
        assert!(rt; leaves(rt.alloc(), calls, 0, none)?, "at {calls:?}");
        assert!(rt; leaves(rt.alloc(), calls, 1, all)?, "at {calls:?}");
        assert!(rt; leaves(rt.alloc(), calls, 97, own)?, "at {calls:?}");
    }
    Ok(())
}
