//! Tests of partitions, which the calls of the book ask for.

ghost use Rattle.std.specs.Prelude.{◌≡◌, false, slice_get, true};
ghost use Rattle.partition_map.specs.Partitions.{is_met};
ghost use Rattle.partition_map.specs.Time.{END};
ghost use Rattle.view_meaning.specs.Partitions.{is_part};
ghost use Rattle.view_meaning.specs.Versions.{is_raw};

use desc_types::{Desc, END, Key, Kind, Width};

/// Whether a key is a partition of a table.
pub fn is_part(desc: &Desc, key: Key) -> bool
    ensures part { result ≡ true → is_part desc.now key ≡ true }
{
    match desc.tables.get(usize::from(key.table)) {
        Some(table) => begins_in_time(table.width, key.part),
        None => false,
    }
}

/// Whether a partition begins in time.
fn begins_in_time(width: Width, part: u64) -> bool
    ensures met { result ≡ true → is_met width 0 END part ≡ true }
{
    match part.checked_mul(width.ticks()) {
        Some(start) => start < END,
        None => false,
    }
}

/// Whether a table is there and is a view.
pub fn is_view(desc: &Desc, table: u16) -> bool
    ensures view { result ≡ true → is_raw (slice_get desc.now.tables table) ≡ false }
{
    match desc.tables.get(usize::from(table)) {
        Some(table) => !matches!(table.kind, Kind::Raw { .. }),
        None => false,
    }
}
