//! Deliveries.

ghost use Rattle.std.specs.Prelude.{◌≡◌, ◌<◌, ◌≤◌, ◌++◌, All, IfOk, OnOk, length, nat_le};
ghost use Rattle.std.specs.Prelude.{if◌then◌else◌, nat_lt, slice_get, Some};
ghost use Rattle.std.specs.List.{AllAdjacentBelow};
ghost use Rattle.desc_types.specs.Kinds.{kind_of};
ghost use Rattle.row_codec.specs.declared.field.Wanted.TheVariants.{Tick};
ghost use Rattle.row_codec.specs.Answers.{Finds, Gives, Takes};
ghost use Rattle.row_codec.specs.Deliveries.{IsDelivery, delivery_at, is_raw_of, is_raw_table};
ghost use Rattle.row_codec.specs.Deliveries.{read_delivery, record_at, records_at, table_wants};
ghost use Rattle.row_codec.specs.Deliveries.{time_of, timed_wants};
ghost use Rattle.row_codec.specs.Reading.{checked, number_at, row_at, wanted_of};
ghost use Rattle.row_codec.specs.Spelling.{delivery_bytes, record_bytes};

use crate::fault::{CodecFault, Cut, Short, fault_at};
use crate::field::{
    Wanted, put_row, put_u16, put_u32, put_u64, take_cell, take_u16, take_u32, take_u64, wanted_of,
};
use depot_cell::{Memory, Row, Ty};
use desc_types::{AcceptedDesc, Column, DRow, Delivery, END, Kind, Table};
use std::alloc::Global;

/// The bytes of a delivery.
pub fn encode_delivery(alloc: Global, delivery: &Delivery) -> Result<Vec<u8>, Memory>
    requires from_one { All (λ row. 1 ≤ row.number) delivery.now.rows }
    requires rising { AllAdjacentBelow (λ row next. row.number < next.number)
        delivery.now.rows (length delivery.now.rows) }
    ensures exact { IfOk result (λ bytes. bytes.items ≡ delivery_bytes delivery.now) }
{
    let mut out = Vec::new(alloc);
    put_u16(&mut out, delivery.feed)?;
    put_u32(&mut out, delivery.number)?;
    put_u64(&mut out, delivery.closes)?;
    put_u32(&mut out, count_of(&delivery.rows))?;
    for row in &delivery.rows {
        put_record(&mut out, row)?;
    }
    Ok(out)
}

/// How many rows there are: as their numbers rise from 1 on, at most as many as the last one says.
fn count_of(rows: &[DRow]) -> u32
    requires from_one { All (λ row. 1 ≤ row.number) rows.now }
    requires rising { AllAdjacentBelow (λ row next. row.number < next.number)
        rows.now (length rows.now) }
    ensures exact { result ≡ length rows.now }
{
    match rows {
        [] => 0,
        [.., last] => {
            let most = last.number as usize;
            prove!(rows.len() <= most);
            rows.len() as u32
        }
    }
}

fn put_record(out: &mut Vec<u8>, row: &DRow) -> Result<(), Memory>
    ensures ok { OnOk result (out.new.items ≡ out.old.items ++ record_bytes row.now) }
{
    put_u32(out, row.number)?;
    put_u16(out, row.table)?;
    put_row(out, &row.cells)
}

/// The delivery that the bytes are. Each of its rows is of a raw table of its feed and lies in time,
/// and the record numbers rise from 1 on; a number that breaks this cannot be read.
pub fn decode_delivery(
    alloc: Global,
    accepted: &AcceptedDesc,
    bytes: &[u8],
) -> Result<Delivery, CodecFault>
    ensures exact { Gives (λ delivery. delivery) result (read_delivery accepted.now.desc bytes.now) }
    ensures ok { IfOk result (λ delivery.
        IsDelivery accepted.now.desc delivery × (bytes.now ≡ delivery_bytes delivery)) }
{
    match take_delivery(alloc, accepted, bytes) {
        Ok((delivery, [])) => Ok(delivery),
        Ok((_, rest)) => Err(fault_at(bytes, rest.len())),
        Err(Cut::Left(left)) => Err(fault_at(bytes, left)),
        Err(Cut::Memory) => Err(CodecFault::Memory),
    }
}

#[tactic(auto, unfolding(crate::specs::Deliveries::delivery_at))]
fn take_delivery<'a>(
    alloc: Global,
    accepted: &AcceptedDesc,
    bytes: &'a [u8],
) -> Result<(Delivery, &'a [u8]), Cut>
    ensures exact { Takes (λ taken. (taken.0, taken.1.now)) result
        (delivery_at accepted.now.desc bytes.now) }
{
    let (feed, rest) = take_feed(accepted, bytes)?;
    let (number, rest) = take_u32(rest)?;
    let (closes, rest) = take_closes(rest)?;
    let (count, rest) = take_u32(rest)?;
    let (rows, rest) = take_records(alloc, accepted, feed, count, rest)?;
    Ok((
        Delivery {
            feed,
            number,
            closes,
            rows,
        },
        rest,
    ))
}

fn take_feed<'a>(accepted: &AcceptedDesc, bytes: &'a [u8]) -> Result<(u16, &'a [u8]), Short>
    ensures exact { Finds (λ taken. (taken.0, taken.1.now)) result
        (checked (λ feed. nat_lt feed (length accepted.now.desc.feeds)) (number_at 2) bytes.now) }
{
    let (feed, rest) = take_u16(bytes)?;
    if usize::from(feed) >= accepted.desc.feeds.len() {
        return Err(Short(bytes.len()));
    }
    Ok((feed, rest))
}

fn take_closes(bytes: &[u8]) -> Result<(u64, &[u8]), Short>
    ensures exact { Finds (λ taken. (taken.0, taken.1.now)) result
        (checked (λ closes. nat_le closes END) (number_at 8) bytes.now) }
{
    let (closes, rest) = take_u64(bytes)?;
    if closes > END {
        return Err(Short(bytes.len()));
    }
    Ok((closes, rest))
}

fn take_records<'a>(
    alloc: Global,
    accepted: &AcceptedDesc,
    feed: u16,
    count: u32,
    bytes: &'a [u8],
) -> Result<(Vec<DRow>, &'a [u8]), Cut>
    ensures exact { Takes (λ taken. (taken.0.items, taken.1.now)) result
        (records_at accepted.now.desc feed count 0 bytes.now) }
{
    let mut rows = Vec::new(alloc);
    let mut before = 0;
    let mut rest = bytes;
    for _ in 0..count {
        let (row, after) = take_record(alloc, accepted, feed, before, rest)?;
        before = row.number;
        match rows.push(row) {
            Ok(()) => rest = after,
            Err(_) => return Err(Cut::Memory),
        }
    }
    rows.shrink_to_fit();
    Ok((rows, rest))
}

#[tactic(auto, unfolding(crate::specs::Deliveries::record_at))]
fn take_record<'a>(
    alloc: Global,
    accepted: &AcceptedDesc,
    feed: u16,
    before: u32,
    bytes: &'a [u8],
) -> Result<(DRow, &'a [u8]), Cut>
    ensures exact { Takes (λ taken. (taken.0, taken.1.now)) result
        (record_at accepted.now.desc feed before bytes.now) }
{
    let (number, rest) = take_above(before, bytes)?;
    let (table, rest) = take_table(accepted, feed, rest)?;
    let (cells, rest) = take_raw_row(alloc, accepted.table(table), rest)?;
    Ok((
        DRow {
            number,
            table,
            cells,
        },
        rest,
    ))
}

/// A number above another.
fn take_above(before: u32, bytes: &[u8]) -> Result<(u32, &[u8]), Short>
    ensures exact { Finds (λ taken. (taken.0, taken.1.now)) result
        (checked (nat_lt before) (number_at 4) bytes.now) }
{
    let (number, rest) = take_u32(bytes)?;
    if number <= before {
        return Err(Short(bytes.len()));
    }
    Ok((number, rest))
}

/// The number of a raw table of the feed.
fn take_table<'a>(
    accepted: &AcceptedDesc,
    feed: u16,
    bytes: &'a [u8],
) -> Result<(u16, &'a [u8]), Short>
    ensures exact { Finds (λ taken. (taken.0, taken.1.now)) result
        (checked (λ table. is_raw_table feed (slice_get accepted.now.desc.tables table))
        (number_at 2) bytes.now) }
    ensures within { IfOk result (λ taken. taken.0 < length accepted.now.desc.tables) }
{
    let (table, rest) = take_u16(bytes)?;
    if !is_raw_table(accepted, feed, table) {
        return Err(Short(bytes.len()));
    }
    Ok((table, rest))
}

/// Whether the table with this number is a raw one of the feed.
fn is_raw_table(accepted: &AcceptedDesc, feed: u16, table: u16) -> bool
    ensures exact { result ≡ is_raw_table feed (slice_get accepted.now.desc.tables table) }
{
    match accepted.desc.tables.get(usize::from(table)) {
        Some(table) => is_raw_of(feed, &table.kind),
        None => false,
    }
}

fn is_raw_of(feed: u16, kind: &Kind) -> bool
    ensures exact { result ≡ is_raw_of feed (kind_of kind.now) }
{
    match kind {
        Kind::Raw { feed: its_feed, .. } => *its_feed == feed,
        _ => false,
    }
}

/// The number of a raw table's time column.
fn time_of(kind: &Kind) -> usize
    ensures exact { result ≡ time_of (kind_of kind.now) }
{
    match kind {
        Kind::Raw { time, .. } => usize::from(*time),
        _ => 0,
    }
}

/// The cells of a row of a raw table.
fn take_raw_row<'a>(alloc: Global, table: &Table, bytes: &'a [u8]) -> Result<(Row, &'a [u8]), Cut>
    ensures exact { Takes (λ taken. (taken.0, taken.1.now)) result
        (row_at (table_wants (Some table.now)) bytes.now) }
{
    take_timed_row(alloc, time_of(&table.kind), table.columns.as_slice(), bytes)
}

/// A row with a cell for each column, of which one holds the time.
fn take_timed_row<'a>(
    alloc: Global,
    time: usize,
    columns: &[Column],
    bytes: &'a [u8],
) -> Result<(Row, &'a [u8]), Cut>
    ensures exact { Takes (λ taken. (taken.0, taken.1.now)) result
        (row_at (timed_wants time columns.now) bytes.now) }
{
    let mut row = Row::with_capacity(alloc, columns.len())?;
    let mut rest = bytes;
    for (number, column) in columns.iter().enumerate() {
        let wanted = column_wanted(number == time, column.ty);
        let (cell, after) = take_cell(alloc, wanted, rest)?;
        match row.push(cell) {
            Ok(()) => rest = after,
            Err(_) => return Err(Cut::Memory),
        }
    }
    Ok((row, rest))
}

/// What a column of this type wants, if it is the time column and if it is not.
fn column_wanted(is_time: bool, ty: Ty) -> Wanted
    ensures exact { result ≡ (if is_time then Tick else wanted_of ty) }
{
    if is_time { Wanted::Tick } else { wanted_of(ty) }
}
