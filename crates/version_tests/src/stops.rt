//! A stop while a file is put on the disk, and afterwards.

use crate::damage::{at, count_in};
use crate::versions::ROWS;
use depot_disk::{MemDisk, StopDisk};
use std::alloc::Global;
use std::test::Fail;
use version_store::{FileFault, put_file};

/// How many rows file 5 has if the disk stops after so many calls, as a pick leaves it.
fn left(alloc: Global, pass: u64, pick: u64) -> Result<usize, FileFault> {
    let mut disk = StopDisk::new(MemDisk::new(alloc), pass);
    let _ = put_file(&mut disk, 5, ROWS);
    let mut left = disk.inner().after_stop(pick)?;
    count_in(alloc, &mut left, 44)
}

#[test]
fn a_file_stays_once_it_is_synced(rt: HostRuntime) -> Result<(), Fail> {
    for &(pass, pick, want) in &[
        (0, 1, at(0)),
        // Written and not synced: nothing is left, or all, or other bytes. Of these the second text
        // has a length of 39.
        (1, 0, at(0)),
        (1, 1, Ok(2)),
        (1, 3, at(36)),
        (2, 0, Ok(2)),
        (2, 1, Ok(2)),
        (2, 3, Ok(2)),
    ] {
        assert!(rt; left(rt.alloc(), pass, pick) == want, "at {pass} {pick}");
    }
    Ok(())
}
