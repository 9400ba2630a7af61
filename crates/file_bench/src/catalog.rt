//! A catalogue that is opened.

use crate::fault::Fault;
use catalog_journal::{Log, LogFault};
use depot_cell::Memory;
use depot_disk::{Disk, MemDisk};
use std::alloc::Global;

const CATALOG_FILE: u64 = 0;

const MARK_FILE: u64 = 4_294_967_296;

/// An open gate, the length of the body of an install, and the body: 32 bytes.
static RECORD: &[u8] = b"\
\x01\x00\x00\x00\x1b\x02\x00\x01\x00\x00\x00\x00\x00\x00\x00\x00\
\x00\x00\x00\x00\x00\x00\x00\x01\x00\x00\x00\x00\x00\x00\x00\x1a";

/// Makes a catalogue of so many records, and opens it so many times.
pub fn open_catalog(alloc: Global, records: u32, openings: u32) -> Result<(), Fault> {
    let mut disk = MemDisk::new(alloc);
    make(alloc, &mut disk, records)?;
    for _ in 0..openings {
        open_once(alloc, &mut disk, records)?;
    }
    Ok(())
}

/// Opens the catalogue, which has to have so many records.
fn open_once(alloc: Global, disk: &mut MemDisk, records: u32) -> Result<(), Fault> {
    match Log::open(alloc, disk) {
        Ok((_, bodies)) if bodies.len() == records as usize => Ok(()),
        Err(LogFault::Memory) => Err(Fault::Memory),
        _ => Err(Fault::Broken),
    }
}

/// Writes a catalogue of so many records, and the mark file.
fn make(alloc: Global, disk: &mut MemDisk, records: u32) -> Result<(), Fault> {
    let bytes = catalog_bytes(alloc, records)?;
    write_file(disk, CATALOG_FILE, bytes.as_slice())?;
    write_file(disk, MARK_FILE, &[1])
}

/// Writes a file of these bytes. Want of memory is the only fault of this disk.
fn write_file(disk: &mut MemDisk, file: u64, bytes: &[u8]) -> Result<(), Fault> {
    match disk.write(file, 0, bytes) {
        Ok(()) => Ok(()),
        Err(_) => Err(Fault::Memory),
    }
}

/// The bytes of a catalogue of so many records, each with an open gate.
fn catalog_bytes(alloc: Global, records: u32) -> Result<Vec<u8>, Memory> {
    let mut bytes = Vec::new(alloc);
    for _ in 0..records {
        bytes.extend_from_slice(RECORD)?;
    }
    bytes.push(0)?;
    Ok(bytes)
}
