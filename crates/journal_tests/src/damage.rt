//! What is told of a catalogue that is cut.

use crate::logs::count_in;
use catalog_journal::LogFault;
use depot_disk::{Disk, MemDisk};
use std::alloc::Global;
use std::test::Fail;

/// The bodies `abc` and `x`.
static TWO: &[u8] = b"\x01\0\0\0\x03abc\x01\0\0\0\x01x\0";

/// What is told of a catalogue with these bytes.
fn told(alloc: Global, bytes: &[u8]) -> Result<Option<usize>, LogFault> {
    let mut disk = MemDisk::new(alloc);
    disk.write(0, 0, bytes)?;
    disk.write(4_294_967_296, 0, b"?")?;
    count_in(alloc, &mut disk)
}

/// The fault at a place of the catalogue.
fn at(place: u64) -> Result<Option<usize>, LogFault> {
    Err(LogFault::Damaged { file: 0, place })
}

#[test]
fn a_cut_is_told_at_its_record(rt: HostRuntime) -> Result<(), Fail> {
    // Record 1 has its gate at 8.
    for (cut, _) in TWO.iter().enumerate() {
        let want = if cut < 9 { at(0) } else { at(8) };
        assert!(rt; told(rt.alloc(), &TWO[..cut]) == want, "at {cut}");
    }
    assert!(rt; told(rt.alloc(), TWO) == Ok(Some(2)));
    Ok(())
}

#[test]
fn what_follows_a_closed_gate_is_not_looked_at(rt: HostRuntime) -> Result<(), Fail> {
    let alloc = rt.alloc();
    assert!(rt; told(alloc, b"\x02\x02") == at(0));
    assert!(rt; told(alloc, b"\x01\0\0\0\x03abc\0\xff") == Ok(Some(1)));
    assert!(rt; told(alloc, b"\x01\0\0\0\x03abc\x02\0\0\0\x01x\x01") == Ok(Some(1)));
    Ok(())
}

#[test]
fn a_mark_without_a_catalogue_is_damage(rt: HostRuntime) -> Result<(), Fail> {
    let mut disk = MemDisk::new(rt.alloc());
    assert!(rt; disk.write(4_294_967_296, 0, b"?") == Ok(()));
    assert!(rt; count_in(rt.alloc(), &mut disk) == at(0));
    Ok(())
}
