//! In which partition a row lies, and how many of the rows that follow lie there too. Rows mostly
//! come in order of time, so that most lie in the partition of the row before. Such a row costs a
//! compare of its tick: neither is its partition computed, nor its key looked up.

ghost use Rattle.std.specs.Prelude.{true, Some, ◌≡◌, ◌<◌, ◌≤◌, ◌&&◌, ◌==◌};
ghost use Rattle.std.specs.Prelude.{IfSome, OnOk, All, length, slice_get, take};
ghost use Rattle.partition_map.specs.Time.{END};
ghost use Rattle.partition_map.specs.Partitions.{start_of};
ghost use Rattle.view_meaning.specs.Journal.{row_tick};
ghost use Rattle.view_meaning.specs.TableRows.{lies_in_table};
ghost use Rattle.raw_load.specs.Stretches.{AddsStretch, IsInTime, IsKeyOf, is_between};

use crate::piece::Stretch;
use depot_cell::Memory;
use desc_types::{DRow, Desc, Key, Table};
use partition_map::part_end;
use std::alloc::Global;
use std::collections::BTreeMap;
use view_meaning::{part_of_row, row_tick};

/// The partition that a row lies in, if there is one.
pub(crate) fn key_of(desc: &Desc, row: &DRow) -> Option<Key>
    ensures exact { IsKeyOf desc.now row.now result }
    ensures within { IfSome result (λ key. key.table < length desc.now.tables) }
    ensures in_time { IfSome result (IsInTime desc.now) }
{
    match part_of_row(desc, row) {
        Some(part) => Some(Key {
            table: row.table,
            part,
        }),
        None => None,
    }
}

/// The table of a partition.
pub(crate) fn table_of(desc: &Desc, key: Key) -> &Table
    requires within { key.table < length desc.now.tables }
    ensures exact { slice_get desc.now.tables key.table ≡ Some result.now }
{
    &desc.tables[usize::from(key.table)]
}

/// How many of the first rows lie in a partition of this table.
pub(crate) fn run_len(table: &Table, key: Key, rows: &[DRow]) -> usize
    requires in_time { start_of table.now.width key.part < END }
    ensures within { result ≤ length rows.now }
    ensures each { All (λ row. lies_in_table table.now key row ≡ true) (take result rows.now) }
{
    let from = key.part * table.width.ticks();
    let end = part_end(table.width, key.part);
    let mut count = 0;
    for row in rows {
        if !lies_between(table, key.table, from, end, row) {
            return count;
        }
        count += 1;
    }
    count
}

/// Whether a row is one of the table with this number, at a tick from one up to, but not including,
/// another.
fn lies_between(table: &Table, number: u16, from: u64, end: u64, row: &DRow) -> bool
    ensures exact { result ≡ ((row.now.table == number)
        && is_between from end (row_tick table.now.kind row.now.cells)) }
{
    row.table == number
        && match row_tick(&table.kind, &row.cells) {
            Some(tick) => from <= tick && tick < end,
            None => false,
        }
}

/// Puts a stretch at the end of those of a partition.
pub(crate) fn push_stretch(
    alloc: Global,
    key: Key,
    stretch: Stretch,
    found: &mut BTreeMap<Key, Vec<Stretch>>,
) -> Result<(), Memory>
    ensures ok { OnOk result (AddsStretch key stretch found.old.entries found.new.entries) }
{
    if let Some(stretches) = found.get_mut(&key) {
        stretches.push(stretch)?;
        return Ok(());
    }
    let mut stretches = Vec::with_capacity(alloc, 1)?;
    stretches.push(stretch)?;
    match found.insert(key, stretches) {
        Ok(_) => Ok(()),
        Err(_) => Err(Memory),
    }
}
