//! The delivery of a body.
//!
//! A body is CSV text. If its feed is declared with a header, the first record is skipped, whatever
//! it holds. The first field of each other record names a raw table of the delivery's feed, the
//! others are the row's cells. These records are numbered from 1.

ghost use Rattle.std.specs.Prelude.{◌≡◌, ◌<◌, ◌≤◌, ◌&&◌, IfOk, IfSome, Some, drop, length};
ghost use Rattle.std.specs.Prelude.{position, slice_get};
ghost use Rattle.std.specs.Str.{bytes_eq};
ghost use Rattle.csv.specs.Reading.{reader_source};
ghost use Rattle.csv.specs.Records.{fields_of};
ghost use Rattle.depot_cell.specs.Reading.{cell_of};
ghost use Rattle.depot_cell.specs.declared.cell.Cell.TheVariants.{Int};
ghost use Rattle.desc_types.specs.Kinds.{kind_of};
ghost use Rattle.view_meaning.specs.Journal.{tick_of};
ghost use Rattle.feed_csv.specs.Rows.{RowsFit};
ghost use Rattle.feed_csv.specs.Bodies.{BeginsBody, Brings, BringsRows, cell_read, cells_of};
ghost use Rattle.feed_csv.specs.Bodies.{delivery_of, find_raw_table, has_header, is_in_time};
ghost use Rattle.feed_csv.specs.Bodies.{is_raw_named, is_raw_of, row_of, rows_of, table_cells};
ghost use Rattle.feed_csv.specs.Bodies.{time_of, timed};

use crate::fault::{BadRecord, DeliveryFault, RowCause};
use csv::{ByteRecord, Reader, ReaderBuilder};
use depot_cell::{Cell, CellFault, Memory, Row, Ty, read_cell};
use desc_lines::is_word;
use desc_types::{AcceptedDesc, Column, DRow, Delivery, END, Kind, Table};
use std::alloc::Global;

/// The delivery of this feed that a body of up to 16,777,216 bytes brings, or the first record that
/// is no row, and why. A header may hold anything. The vector of the rows keeps no spare room.
pub fn read_delivery(
    alloc: Global,
    served: &AcceptedDesc,
    feed: u16,
    number: u32,
    closes: u64,
    bytes: &[u8],
) -> Result<Delivery, DeliveryFault>
    requires few { length bytes.now ≤ 16_777_216 }
    ensures exact { Brings result (delivery_of served.now.desc feed number closes bytes.now) }
{
    // The reader is moved into the function with the loop. Made beside the loop, its 16 KiB would
    // be cleared for each body before they are filled.
    let reader = ReaderBuilder::new()
        .has_headers(false)
        .flexible(true)
        .from_reader(alloc, bytes);
    match read_records(alloc, served, feed, reader) {
        Ok(rows) => Ok(Delivery {
            feed,
            number,
            closes,
            rows,
        }),
        Err(fault) => Err(fault),
    }
}

/// A law: each row of a body is a row of a raw table of the feed, and the record numbers rise from
/// 1 on.
pub fn rows_fit()
    ensures law { RowsFit }
{}

/// The rows of the records of a body, of which the reader has read nothing yet.
fn read_records(
    alloc: Global,
    served: &AcceptedDesc,
    feed: u16,
    mut reader: Reader<&[u8]>,
) -> Result<Vec<DRow>, DeliveryFault>
    requires start { BeginsBody (λ text. Some text.now) (reader_source reader).now reader }
    requires few { length (reader_source reader).now ≤ 16_777_216 }
    ensures exact { BringsRows result (rows_of served.now.desc feed (reader_source reader.entry).now) }
{
    let mut fields = ByteRecord::new(alloc);
    let mut rows = Vec::new(alloc);
    // Most rows are of the table of the row before, so that one is tried first.
    let mut last = 0;
    // A header is record 0. It is read by the call that reads the rows: that is the only one, so
    // the compiler writes it into the loop.
    let first = if has_header(served, feed) { 0 } else { 1 };
    for number in first..u32::MAX {
        match reader.read_byte_record(&mut fields) {
            Ok(true) => {}
            Ok(false) => {
                rows.shrink_to_fit();
                return Ok(rows);
            }
            Err(_) => return Err(DeliveryFault::Memory),
        }
        if number == 0 {
            continue;
        }
        match read_row(alloc, served, feed, last, number, &fields)? {
            Ok(row) => {
                last = row.table;
                rows.push(row)?;
            }
            Err(cause) => return Err(DeliveryFault::At(BadRecord { number, cause })),
        }
    }
    unreachable!()
}

/// Whether the first record of this feed's bodies is a header. A number that names no feed has
/// none.
fn has_header(served: &AcceptedDesc, feed: u16) -> bool
    ensures exact { result ≡ has_header served.now.desc feed }
{
    match served.desc.feeds.get(usize::from(feed)) {
        Some(feed) => feed.header,
        None => false,
    }
}

/// The row that the record with this number is, or why it is none. The table with the number `last`
/// is tried first.
fn read_row(
    alloc: Global,
    served: &AcceptedDesc,
    feed: u16,
    last: u16,
    number: u32,
    fields: &ByteRecord,
) -> Result<Result<DRow, RowCause>, Memory>
    ensures exact { IfOk result (λ row.
        row ≡ row_of served.now.desc feed number (fields_of fields.now)) }
{
    let Some(name) = fields.get(0) else {
        return Ok(Err(RowCause::NoTable));
    };
    let Some(table) = find_raw_table_again(served, feed, last, name) else {
        return Ok(Err(RowCause::NoTable));
    };
    match table_cells(alloc, served.table(table), fields)? {
        Ok(cells) => Ok(Ok(DRow {
            number,
            table,
            cells,
        })),
        Err(cause) => Ok(Err(cause)),
    }
}

/// The number of the feed's raw table with this name. The table with the number `last` is tried
/// first: where it is the one, no other name is looked at.
fn find_raw_table_again(served: &AcceptedDesc, feed: u16, last: u16, name: &[u8]) -> Option<u16>
    ensures exact { result ≡ find_raw_table served.now.desc feed name.now }
    ensures within { IfSome result (λ table. table < length served.now.desc.tables) }
{
    if is_raw_named(served, feed, last, name) {
        Some(last)
    } else {
        find_raw_table(served, feed, name)
    }
}

/// Whether the table with this number is a raw one of the feed and has this name.
fn is_raw_named(served: &AcceptedDesc, feed: u16, table: u16, name: &[u8]) -> bool
    ensures exact { result ≡ is_raw_named feed name.now (slice_get served.now.desc.tables table) }
{
    match served.desc.tables.get(usize::from(table)) {
        Some(table) => is_word(table.name.as_bytes(), name) && is_raw_of(feed, &table.kind),
        None => false,
    }
}

/// The number of the feed's raw table with this name.
fn find_raw_table(served: &AcceptedDesc, feed: u16, name: &[u8]) -> Option<u16>
    ensures exact { result ≡ find_raw_table served.now.desc feed name.now }
    ensures within { IfSome result (λ table. table < length served.now.desc.tables) }
{
    match place_of_raw_table(&served.desc.tables, feed, name) {
        Some(table) => Some(table as u16),
        None => None,
    }
}

fn place_of_raw_table(tables: &[Table], feed: u16, name: &[u8]) -> Option<usize>
    ensures exact { result ≡
        position (λ table. bytes_eq table.name name.now && is_raw_of feed table.kind) tables.now }
    ensures within { IfSome result (λ table. table < length tables.now) }
{
    tables.iter().position(|table| is_word(table.name.as_bytes(), name)
        && is_raw_of(feed, &table.kind))
}

fn is_raw_of(feed: u16, kind: &Kind) -> bool
    ensures exact { result ≡ is_raw_of feed (kind_of kind.now) }
{
    match kind {
        Kind::Raw { feed: its_feed, .. } => *its_feed == feed,
        _ => false,
    }
}

/// The cells that the fields after the first are as a row of a table, or the first cause why they
/// are none.
fn table_cells(
    alloc: Global,
    table: &Table,
    fields: &ByteRecord,
) -> Result<Result<Row, RowCause>, Memory>
    requires named { 1 ≤ length (fields_of fields.now) }
    ensures exact { IfOk result (λ cells.
        cells ≡ table_cells (Some table.now) (drop 1 (fields_of fields.now))) }
{
    read_cells(
        alloc,
        time_of(&table.kind),
        table.columns.as_slice(),
        fields,
    )
}

/// The number of a raw table's time column.
fn time_of(kind: &Kind) -> usize
    ensures exact { result ≡ time_of (kind_of kind.now) }
{
    match kind {
        Kind::Raw { time, .. } => usize::from(*time),
        _ => 0,
    }
}

/// The cells that the fields after the first are by their columns, or the first cause why they are
/// none. The column with the number `time` holds the time.
fn read_cells(
    alloc: Global,
    time: usize,
    columns: &[Column],
    fields: &ByteRecord,
) -> Result<Result<Row, RowCause>, Memory>
    requires named { 1 ≤ length (fields_of fields.now) }
    ensures exact { IfOk result (λ cells.
        cells ≡ cells_of time columns.now (drop 1 (fields_of fields.now))) }
{
    if fields.len() != columns.len() + 1 {
        return Ok(Err(RowCause::BadCount));
    }
    let mut cells = Row::with_capacity(alloc, columns.len())?;
    for (place, column) in columns.iter().enumerate() {
        let Some(field) = fields.get(place + 1) else {
            unreachable!()
        };
        match field_cell(alloc, place == time, column.ty, field)? {
            Ok(cell) => cells.push(cell)?,
            Err(cause) => return Ok(Err(cause)),
        }
    }
    Ok(Ok(cells))
}

/// The cell of a type that a field is, or why it is none. A time has to lie in time.
#[inline(always)]
fn field_cell(
    alloc: Global,
    is_time: bool,
    ty: Ty,
    field: &[u8],
) -> Result<Result<Cell, RowCause>, Memory>
    ensures exact { IfOk result (λ cell. cell ≡ cell_read is_time (cell_of ty field.now)) }
{
    match read_cell(alloc, ty, field) {
        Ok(cell) => Ok(timed(is_time, cell)),
        Err(CellFault::BadInt) => Ok(Err(RowCause::BadInt)),
        Err(CellFault::LongText) => Ok(Err(RowCause::LongText)),
        Err(CellFault::NotUtf8) => Ok(Err(RowCause::NotUtf8)),
        Err(CellFault::Memory) => Err(Memory),
    }
}

/// The cell, if it is no time or lies in time.
#[inline(always)]
fn timed(is_time: bool, cell: Cell) -> Result<Cell, RowCause>
    ensures exact { result ≡ timed is_time cell }
{
    if is_time && !is_in_time(&cell) {
        Err(RowCause::BadTime)
    } else {
        Ok(cell)
    }
}

/// Whether a cell is a tick in time.
fn is_in_time(cell: &Cell) -> bool
    ensures exact { result ≡ is_in_time (tick_of (Some cell.now)) }
{
    match cell {
        Cell::Int(number) => is_tick(*number),
        Cell::Text(_) => false,
    }
}

fn is_tick(number: i64) -> bool
    ensures exact { result ≡ is_in_time (tick_of (Some (Int number))) }
{
    0 <= number && number < END as i64
}
