//! A stop after each call of the disk, while a catalogue is made and gains three records.

use crate::logs::{count_in, make_four, make_two};
use catalog_journal::LogFault;
use depot_cell::Memory;
use depot_disk::{MemDisk, StopDisk};
use std::alloc::Global;
use std::test::Fail;

/// A disk that stopped after so many calls, as a pick leaves it.
fn stopped(alloc: Global, pass: u64, pick: u64) -> Result<MemDisk, Memory> {
    let mut disk = StopDisk::new(MemDisk::new(alloc), pass);
    let _ = make_four(alloc, &mut disk);
    disk.inner().after_stop(pick)
}

/// How many records were acknowledged after so many calls. To make the catalogue takes five: the
/// mark file's size, and two writes with their syncs. A record takes four.
fn acknowledged(pass: u64) -> usize {
    match pass {
        0..5 => 0,
        5..9 => 1,
        9..13 => 2,
        13..17 => 3,
        _ => 4,
    }
}

/// How many records are found after a stop; 0 if there is no catalogue.
fn found(alloc: Global, pass: u64, pick: u64) -> Result<Option<usize>, LogFault> {
    let mut disk = stopped(alloc, pass, pick)?;
    match count_in(alloc, &mut disk) {
        Err(LogFault::NotFound) => Ok(Some(0)),
        told => told,
    }
}

#[test]
fn a_stop_leaves_what_was_acknowledged_or_one_more(rt: HostRuntime) -> Result<(), Fail> {
    for pass in 0..18 {
        let before = acknowledged(pass);
        for pick in 0..6 {
            let count = found(rt.alloc(), pass, pick);
            let fits = count == Ok(Some(before)) || count == Ok(Some(before.saturating_add(1)));
            assert!(rt; fits, "at {pass}");
        }
        assert!(rt; found(rt.alloc(), pass, 0) == Ok(Some(before)), "at {pass}");
    }
    Ok(())
}

#[test]
fn a_record_counts_once_its_gate_is_open(rt: HostRuntime) -> Result<(), Fail> {
    // The call that is left out is the last sync of the second record.
    let alloc = rt.alloc();
    let mut disk = StopDisk::new(MemDisk::new(alloc), 8);
    assert!(rt; make_two(alloc, &mut disk) == Err(LogFault::DiskFault));
    let left = disk.inner();
    let mut none = left.after_stop(0)?;
    let mut all = left.after_stop(1)?;
    assert!(rt; count_in(alloc, &mut none) == Ok(Some(1)));
    assert!(rt; count_in(alloc, &mut all) == Ok(Some(2)));
    Ok(())
}
