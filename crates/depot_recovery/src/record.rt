//! What the records of a catalogue say: record 0 a description, each other one an entry.

ghost use Rattle.std.specs.Prelude.{◌≡◌, IfOk, IfSome, length, option_map, slice_get, suc};
ghost use Rattle.catalog_journal.specs.Answers.{IsLogReading};
ghost use Rattle.row_codec.specs.Deliveries.{IsDelivery, read_delivery};
ghost use Rattle.version_store.specs.Reading.{front_of, read_as};
ghost use Rattle.view_meaning.specs.Versions.{is_raw};
ghost use Rattle.depot_recovery.specs.Found.{entry_in, in_file, is_view_part};
ghost use Rattle.depot_recovery.specs.Recovered.{Answers};
ghost use Rattle.depot_recovery.specs.Replaying.{StatesEntry, TellsDesc, TellsText};

use crate::OpenFault;
use crate::fault::{damaged, file_fault};
use claim_core::Core;
use depot_cell::Memory;
use depot_disk::Disk;
use desc_types::{AcceptedDesc, Delivery, Key, Kind};
use row_codec::{Body, CodecFault, decode_delivery};
use std::alloc::Global;
use table_desc::{DescFault, read_desc, write_desc};
use version_store::read_content;
use view_meaning::Entry;

/// What the body of record 0 begins with. The canonical text of the description follows.
const HEAD: &[u8] = b"depot 1\n";

/// The description in the body of record 0, if it is that of a depot.
pub(crate) fn read_first(alloc: Global, bytes: &[u8]) -> Result<Option<AcceptedDesc>, Memory>
    ensures exact { IfOk result (λ read.
        TellsDesc bytes.now (option_map (λ served. served.desc) read)) }
{
    match bytes.strip_prefix(HEAD) {
        Some(text) => read_canonical(alloc, text),
        None => Ok(None),
    }
}

/// The description whose canonical text this is, if there is one.
fn read_canonical(alloc: Global, text: &[u8]) -> Result<Option<AcceptedDesc>, Memory>
    ensures exact { IfOk result (λ read.
        TellsText text.now (option_map (λ served. served.desc) read)) }
{
    let served = match read_desc(alloc, text) {
        Ok(served) => served,
        Err(DescFault::At(_)) => return Ok(None),
        Err(DescFault::Memory) => return Err(Memory),
    };
    let canonical = write_desc(alloc, &served)?;
    Ok(if canonical.as_slice() == text {
        Some(served)
    } else {
        None
    })
}

/// The entry that a body states, with the delivery in the file of a load. The gate is that of the
/// record.
pub(crate) fn read_entry<D: Disk>(
    alloc: Global,
    disk: &mut D,
    core: &Core,
    gate: u64,
    body: Body,
) -> Result<Entry, OpenFault>
    ensures exact { IfSome (D.state disk.old).holds (λ image. Answers (λ next. next)
        (entry_in core.now.desc image (suc (length core.now.state.journal)) gate body) result) }
    ensures stated { IfOk result (StatesEntry core.now.desc body) }
    ensures reading { IsLogReading (D.state disk.old) (D.state disk.new) result }
    ensures loan { D.loan disk.new ≡ D.loan disk.old }
{
    match body {
        Body::Load { len } => {
            let delivery = read_load(alloc, disk, core.served(), core.len() + 1, len)?;
            Ok(Entry::Load(delivery))
        }
        Body::Install { key, at, .. } if is_view_part(core, key) => Ok(Entry::Install { key, at }),
        Body::Install { .. } => Err(damaged(gate)),
    }
}

/// The delivery in the file of a load.
fn read_load<D: Disk>(
    alloc: Global,
    disk: &mut D,
    served: &AcceptedDesc,
    file: u64,
    len: u64,
) -> Result<Delivery, OpenFault>
    ensures exact { IfSome (D.state disk.old).holds (λ image. Answers (λ delivery. delivery)
        (in_file file (read_as (read_delivery served.now.desc) (front_of image file len))) result) }
    ensures fits { IfOk result (IsDelivery served.now.desc) }
    ensures reading { IsLogReading (D.state disk.old) (D.state disk.new) result }
    ensures loan { D.loan disk.new ≡ D.loan disk.old }
{
    let bytes = match read_content(alloc, disk, file, len) {
        Ok(bytes) => bytes,
        Err(fault) => return Err(file_fault(fault)),
    };
    match decode_delivery(alloc, served, &bytes) {
        Ok(delivery) => Ok(delivery),
        Err(CodecFault::At { place }) => Err(OpenFault::Damaged { file, place }),
        Err(CodecFault::Memory) => Err(OpenFault::Memory),
    }
}

/// Whether a key names a partition of a view.
fn is_view_part(core: &Core, key: Key) -> bool
    ensures exact { result ≡ is_view_part core.now.desc key }
{
    core.is_part(key) && !is_raw(core.served(), key.table)
}

/// Whether a table is a raw one.
fn is_raw(served: &AcceptedDesc, table: u16) -> bool
    ensures exact { result ≡ is_raw (slice_get served.now.desc.tables table) }
{
    match served.desc.tables.get(usize::from(table)) {
        Some(table) => matches!(table.kind, Kind::Raw { .. }),
        None => false,
    }
}
