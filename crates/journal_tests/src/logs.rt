//! Catalogues of the bodies `abc`, `x`, none at all and `yz`.

ghost use Rattle.std.specs.Prelude.{IfSome, OnOk};
ghost use Rattle.catalog_journal.specs.Catalog.{IsBody};
ghost use Rattle.catalog_journal.specs.Moments.{HoldsLog};

use catalog_journal::{Bodies, Log, LogFault};
use depot_disk::{Disk, MemDisk};
use std::alloc::Global;

/// The bodies, in order.
static BODIES: [&[u8]; 4] = [b"abc", b"x", b"", b"yz"];

/// Adds a record.
fn add<D: Disk>(alloc: Global, log: &mut Log, disk: &mut D, body: &[u8]) -> Result<(), LogFault>
    requires short { IsBody body.now }
    requires held { IfSome (D.state disk.old).holds (HoldsLog log.old) }
    ensures held { OnOk result (IfSome (D.state disk.new).holds (HoldsLog log.new)) }
{
    let framed = Log::frame(alloc, body)?;
    if !log.has_room(&framed) {
        return Err(LogFault::Memory);
    }
    log.append(disk, framed)?;
    Ok(())
}

/// Makes a catalogue of the first two bodies.
pub(crate) fn make_two<D: Disk>(alloc: Global, disk: &mut D) -> Result<(), LogFault> {
    let mut log = Log::fresh(alloc, disk, b"abc")?;
    add(alloc, &mut log, disk, b"x")
}

/// Makes a catalogue of all four.
pub(crate) fn make_four<D: Disk>(alloc: Global, disk: &mut D) -> Result<(), LogFault> {
    let mut log = Log::fresh(alloc, disk, b"abc")?;
    add(alloc, &mut log, disk, b"x")?;
    add(alloc, &mut log, disk, b"")?;
    add(alloc, &mut log, disk, b"yz")
}

/// Makes a catalogue of an empty body and that of a load.
pub(crate) fn make_load<D: Disk>(alloc: Global, disk: &mut D) -> Result<(), LogFault> {
    let mut log = Log::fresh(alloc, disk, b"")?;
    add(alloc, &mut log, disk, b"\x01\0\0\0\0\0\0\0\x42")
}

/// How many bodies a catalogue has, if they are the first ones of the four.
pub(crate) fn count_in(alloc: Global, disk: &mut MemDisk) -> Result<Option<usize>, LogFault> {
    let (_, bodies) = Log::open(alloc, disk)?;
    Ok(are_first(&bodies).then_some(bodies.len()))
}

/// Whether these are the first ones of the four.
fn are_first(bodies: &Bodies) -> bool {
    bodies.len() <= 4
        && (0..bodies.len()).all(|number| bodies.get(number) == BODIES.get(number).copied())
}
