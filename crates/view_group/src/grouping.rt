//! What a group makes of the rows of its source.

ghost use Rattle.std.specs.Prelude.{◌≡◌, ◌++◌, IfOk, OnErr, OnOk, map};
ghost use Rattle.view_meaning.specs.Growth.{BeginsWith};
ghost use Rattle.view_meaning.specs.Operations.{group_row, grouped};
ghost use Rattle.view_meaning.specs.Parts.{rows_in};

use crate::aggregates::push_aggregate;
use depot_cell::{Cell, Memory, Row, Rows};
use desc_types::Agg;
use row_index::{KeyCells, RowIndex, index_rows};
use std::alloc::Global;
use view_meaning::{Part, push_copy};

/// A row for each different key of the rows of a source, in order of first appearance: the cells of
/// the key, then the aggregates over the rows that have it. No rows make no row.
pub fn group<P: Part>(
    alloc: Global,
    source: &[P],
    keys: &[u16],
    aggs: &[Agg],
) -> Result<Rows, Memory>
    ensures exact { IfOk result (λ rows.
        rows ≡ grouped keys.now aggs.now (rows_in P.rows source.now)) }
{
    let index = index_rows(alloc, keys, source)?;
    group_rows(alloc, aggs, &index)
}

/// A row for each key of an index.
fn group_rows(alloc: Global, aggs: &[Agg], index: &RowIndex) -> Result<Rows, Memory>
    ensures exact { IfOk result (λ rows. rows
        ≡ map (λ entry. group_row aggs.now entry.0 entry.1) index.now.entries) }
{
    let mut rows = Rows::new(alloc);
    for (key, members) in index {
        rows.push(group_row(alloc, aggs, key, members.rows())?)?;
    }
    Ok(rows)
}

/// The row of a group: its key, then each aggregate over its rows.
fn group_row(alloc: Global, aggs: &[Agg], key: &KeyCells, members: &[&Row]) -> Result<Row, Memory>
    ensures exact { IfOk result (λ row. row
        ≡ group_row aggs.now key.now (map (λ member. member.now) members.now)) }
{
    let cells = key.cells();
    let mut row = Row::with_capacity(alloc, cells.len() + aggs.len())?;
    push_key(alloc, cells, &mut row)?;
    for agg in aggs {
        push_aggregate(alloc, *agg, members, &mut row)?;
    }
    Ok(row)
}

/// Puts copies of the cells of a key at the end. After an `Err` there may be some of them.
fn push_key(alloc: Global, cells: &[&Cell], row: &mut Row) -> Result<(), Memory>
    ensures ok { OnOk result (row.new ≡ row.old ++ map (λ cell. cell.now) cells.now) }
    ensures err { OnErr result (BeginsWith row.old row.new) }
{
    for cell in cells {
        push_copy(alloc, cell, row)?;
    }
    Ok(())
}
