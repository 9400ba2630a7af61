//! Files that nothing needs, beside a depot.

use crate::found::{ROWS, whole};
use depot_disk::Disk;
use depot_recovery::{OpenFault, recover, sweep};
use std::alloc::Global;
use std::test::Fail;

/// The sizes of the files 1 to 4, after a sweep of a depot that needs the first two.
fn left(alloc: Global) -> Result<[Option<u64>; 4], OpenFault> {
    let mut disk = whole(alloc)?;
    disk.write(3, 0, ROWS)?;
    disk.write(4, 0, ROWS)?;
    let found = recover(alloc, &mut disk)?;
    sweep(&mut disk, &found.core)?;
    Ok([disk.size(1)?, disk.size(2)?, disk.size(3)?, disk.size(4)?])
}

#[test]
fn a_sweep_leaves_what_is_needed(rt: HostRuntime) -> Result<(), Fail> {
    assert!(rt; left(rt.alloc()) == Ok([Some(66), Some(26), None, None]));
    Ok(())
}
