//! The definitions as programs: each answer is made anew from all accepted deliveries.

ghost use Rattle.std.specs.Prelude.{◌≡◌, ◌+◌, ◌≤◌, ◌++◌, slice_get, IfOk, OnErr, OnOk};
ghost use Rattle.std.specs.List.{list_any, range_with_len};
ghost use Rattle.std.specs.Option.{option_copied};
ghost use Rattle.desc_types.specs.Kinds.{kind_of};
ghost use Rattle.desc_types.specs.Sources.{table_width};
ghost use Rattle.partition_map.specs.Time.{END};
ghost use Rattle.partition_map.specs.Partitions.{end_of, is_covered, source_parts};
ghost use Rattle.view_meaning.specs.Closing.{closes};
ghost use Rattle.view_meaning.specs.Journal.{tick_of, row_tick};
ghost use Rattle.view_meaning.specs.Growth.{BeginsWith};
ghost use Rattle.view_meaning.specs.RawMarks.{until_closed};
ghost use Rattle.view_meaning.specs.RawValues.{raw_value};
ghost use Rattle.view_meaning.specs.TableRows.{lies_in_table, cells_where};
ghost use Rattle.view_meaning.specs.Values.{joined, value, value_within};
ghost use Rattle.view_meaning.specs.Versions.{raw_version};

use crate::filtering::push_filtered;
use crate::grouping::push_groups;
use crate::joining::push_joined;
use crate::parts::parts_read;
use depot_cell::{Cell, Memory, Row, Rows, copy_row};
use desc_types::{DRow, Delivery, Desc, END, Key, Kind, Src, Table, Width};
use partition_map::Parts;
use std::alloc::Global;

/// The rows of a partition. Of a raw table they are its rows, in order of acceptance, then of
/// record; of a view what it makes of the rows of its sources. A key of no table has no rows. It
/// goes over all accepted deliveries for each raw partition below, and again if a partition is read
/// twice. A group looks through the rows of its source for each of its keys, and a join through the
/// right rows for each left one.
pub fn plain_value(
    alloc: Global,
    desc: &Desc,
    accepted: &[Delivery],
    key: Key,
) -> Result<Rows, Memory>
    ensures exact { IfOk result (λ rows. rows ≡ value desc.now accepted.now key) }
{
    let mut rows = Rows::new(alloc);
    let depth = usize::from(key.table) + 1;
    push_value(alloc, desc, accepted, depth, key, &mut rows)?;
    Ok(rows)
}

/// The version of a raw table's partition: how many accepted deliveries brought a row of it, up to
/// the first one that closes it. Of a key of no table or of a view it is 0.
pub fn plain_version(desc: &Desc, accepted: &[Delivery], key: Key) -> u64
    ensures exact { result ≡ raw_version desc.now accepted.now key }
{
    let mut version = 0;
    let Some(table) = table_at(desc, key.table) else {
        return version;
    };
    let deliveries = until_closed(desc, key, accepted);
    for delivery in deliveries {
        if touches(table, key, delivery) {
            version += 1;
        }
    }
    version
}

/// Puts the rows of a partition at the end, down through at most so many tables. After an `Err`
/// there may be some of them.
#[cycle(push_value)]
fn push_value(
    alloc: Global,
    desc: &Desc,
    accepted: &[Delivery],
    depth: usize,
    key: Key,
    rows: &mut Rows,
) -> Result<(), Memory>
    ensures ok { OnOk result (rows.new
        ≡ rows.old ++ value_within depth desc.now accepted.now key) }
    ensures err { OnErr result (BeginsWith rows.old rows.new) }
{
    if depth == 0 {
        return Ok(());
    }
    let Some(table) = table_at(desc, key.table) else {
        return Ok(());
    };
    let below = depth - 1;
    match &table.kind {
        Kind::Raw { .. } => push_raw(alloc, desc, accepted, key, rows),
        Kind::Filter { src, conds, keep } => {
            let source = source_rows(alloc, desc, accepted, below, table.width, key.part, *src)?;
            push_filtered(alloc, conds, keep, &source, rows)
        }
        Kind::Group { src, keys, aggs } => {
            let source = source_rows(alloc, desc, accepted, below, table.width, key.part, *src)?;
            push_groups(alloc, keys, aggs, &source, rows)
        }
        Kind::Join { left, right, on } => {
            let left = source_rows(alloc, desc, accepted, below, table.width, key.part, *left)?;
            let right = source_rows(alloc, desc, accepted, below, table.width, key.part, *right)?;
            push_joined(alloc, on, &left, &right, rows)
        }
    }
}

/// The rows of the partitions of a source that a view's partition reads, in order of partition,
/// down through at most so many tables.
#[cycle(push_value)]
fn source_rows(
    alloc: Global,
    desc: &Desc,
    accepted: &[Delivery],
    depth: usize,
    width: Width,
    part: u64,
    src: Src,
) -> Result<Rows, Memory>
    ensures exact { IfOk result (λ rows. rows
        ≡ joined desc.now (value_within depth desc.now accepted.now) width part src) }
{
    let mut rows = Rows::new(alloc);
    let read = source_parts(desc, width, part, src);
    for part in read.first..read.first + read.count {
        let source = Key {
            table: src.table,
            part,
        };
        push_value(alloc, desc, accepted, depth, source, &mut rows)?;
    }
    Ok(rows)
}

/// Puts the rows of a raw table's partition at the end, in order of acceptance, then of record.
/// After an `Err` there may be some of them.
fn push_raw(
    alloc: Global,
    desc: &Desc,
    accepted: &[Delivery],
    key: Key,
    rows: &mut Rows,
) -> Result<(), Memory>
    ensures ok { OnOk result (rows.new ≡ rows.old ++ raw_value desc.now accepted.now key) }
    ensures err { OnErr result (BeginsWith rows.old rows.new) }
{
    let Some(table) = table_at(desc, key.table) else {
        return Ok(());
    };
    let deliveries = until_closed(desc, key, accepted);
    for delivery in deliveries {
        push_rows(alloc, table, key, delivery, rows)?;
    }
    Ok(())
}

/// The deliveries up to the first one that closes the partition, with it, and all if none does.
/// Those after it keep no row in the partition.
fn until_closed<'a>(desc: &Desc, key: Key, accepted: &'a [Delivery]) -> &'a [Delivery]
    ensures exact { result.now ≡ until_closed desc.now key accepted.now }
{
    for (index, delivery) in accepted.iter().enumerate() {
        if closes(desc, key, delivery) {
            return &accepted[..index + 1];
        }
    }
    accepted
}

/// Whether a delivery closes the partition: it is of the feed of its table, and tells that no rows
/// below the partition's end are expected after it.
fn closes(desc: &Desc, key: Key, delivery: &Delivery) -> bool
    ensures exact { result ≡ closes desc.now key delivery.now }
{
    let Some(table) = table_at(desc, key.table) else {
        return false;
    };
    match &table.kind {
        Kind::Raw { feed, .. } => {
            *feed == delivery.feed && end_of(table.width, key.part) <= delivery.closes
        }
        Kind::Filter { .. } | Kind::Group { .. } | Kind::Join { .. } => false,
    }
}

/// The tick after the last one of a partition, of any number.
fn end_of(width: Width, part: u64) -> u64
    ensures exact { result ≡ end_of width part }
{
    let start = part.saturating_mul(width.ticks());
    start.saturating_add(width.ticks()).min(END)
}

/// The partitions of a source that a view's partition reads. A source that is no table has none.
pub fn source_parts(desc: &Desc, width: Width, part: u64, src: Src) -> Parts
    ensures exact { source_parts width (table_width desc.now src.table) src.span part
        ≡ range_with_len result.first result.count }
    ensures within { result.first + result.count ≤ END }
{
    match table_at(desc, src.table) {
        Some(source) => parts_read(width, source.width, src.span, part),
        None => Parts { first: 0, count: 0 },
    }
}

/// The table with this number.
fn table_at(desc: &Desc, table: u16) -> Option<&Table>
    ensures exact { option_copied result ≡ slice_get desc.now.tables table }
{
    desc.tables.get(usize::from(table))
}

/// Puts copies of a delivery's rows that lie in the partition at the end. After an `Err` there
/// may be some of them.
fn push_rows(
    alloc: Global,
    table: &Table,
    key: Key,
    delivery: &Delivery,
    rows: &mut Rows,
) -> Result<(), Memory>
    ensures ok { OnOk result (rows.new ≡ rows.old
        ++ cells_where (lies_in_table table.now key) delivery.now.rows) }
    ensures err { OnErr result (BeginsWith rows.old rows.new) }
{
    for row in &delivery.rows {
        if lies_in_table(table, key, row) {
            rows.push(copy_row(alloc, &row.cells)?)?;
        }
    }
    Ok(())
}

/// Whether a delivery has a row in the partition.
fn touches(table: &Table, key: Key, delivery: &Delivery) -> bool
    ensures exact { result ≡ list_any (lies_in_table table.now key) delivery.now.rows }
{
    delivery
        .rows
        .iter()
        .any(|row| lies_in_table(table, key, row))
}

/// Whether a row lies in the partition of the key, which is one of this table.
fn lies_in_table(table: &Table, key: Key, row: &DRow) -> bool
    ensures exact { result ≡ lies_in_table table.now key row.now }
{
    row.table == key.table
        && match row_tick(&table.kind, &row.cells) {
            Some(tick) => covers(table.width, key.part, tick),
            None => false,
        }
}

/// The tick of a row of a raw table. A row of a view has none.
pub fn row_tick(kind: &Kind, row: &Row) -> Option<u64>
    ensures exact { result ≡ row_tick (kind_of kind.now) row.now }
{
    match kind {
        Kind::Raw { time, .. } => tick_at(row.cells(), usize::from(*time)),
        Kind::Filter { .. } | Kind::Group { .. } | Kind::Join { .. } => None,
    }
}

/// The tick that the cell of the time column holds: an int that is not below 0.
fn tick_at(cells: &[Cell], time: usize) -> Option<u64>
    ensures exact { result ≡ tick_of (slice_get cells.now time) }
{
    match cells.get(time) {
        Some(Cell::Int(tick)) => u64::try_from(*tick).ok(),
        Some(Cell::Text(_)) => None,
        None => None,
    }
}

/// Whether a partition covers a tick.
fn covers(width: Width, part: u64, tick: u64) -> bool
    ensures exact { result ≡ is_covered width part tick }
{
    tick < END && tick / width.ticks() == part
}
