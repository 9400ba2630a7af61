//! What a group makes of the rows of its source.
//!
//! Sums are computed in 128 bits. They cannot overflow, since a `Rows` has fewer than 2^44 rows.

ghost use Rattle.std.specs.Prelude.{◌≡◌, ◌++◌, ◌∷◌, [], IfOk, OnErr, OnOk, slice_get};
ghost use Rattle.std.specs.List.{list_any};
ghost use Rattle.std.specs.Option.{option_copied, option_to_list};
ghost use Rattle.depot_cell.specs.Cells.{same_cells};
ghost use Rattle.view_meaning.specs.Growth.{BeginsWith};
ghost use Rattle.view_meaning.specs.Operations.{aggregated, best_by, clamped, column_of, grouped};
ghost use Rattle.view_meaning.specs.Operations.{group_row, keys_in, number_in, total, with_key};

use crate::columns::{cell_at, cut_row, push_copies, push_copy, rows_with, same_cells};
use depot_cell::{Cell, Memory, Op, Row, Rows, holds};
use desc_types::{Agg, Fun};
use std::alloc::Global;

/// Puts a row for each different key at the end, in order of first appearance. After an `Err`
/// there may be some of them.
pub(crate) fn push_groups(
    alloc: Global,
    columns: &[u16],
    aggs: &[Agg],
    source: &Rows,
    rows: &mut Rows,
) -> Result<(), Memory>
    ensures ok { OnOk result (rows.new ≡ rows.old ++ grouped columns.now aggs.now source.now) }
    ensures err { OnErr result (BeginsWith rows.old rows.new) }
{
    let keys = keys_in(alloc, columns, source)?;
    for key in &keys {
        let group = rows_with(alloc, columns, key, source)?;
        rows.push(group_row(alloc, aggs, key, &group)?)?;
    }
    Ok(())
}

/// The keys of some rows, each once, in order of first appearance.
fn keys_in(alloc: Global, columns: &[u16], source: &Rows) -> Result<Vec<Row>, Memory>
    ensures exact { IfOk result (λ keys. keys.items ≡ keys_in columns.now source.now) }
{
    let mut keys = Vec::new(alloc);
    for row in source.rows() {
        push_key(cut_row(alloc, columns, row)?, &mut keys)?;
    }
    Ok(keys)
}

/// Puts a key at the end, if it is not there yet.
fn push_key(key: Row, keys: &mut Vec<Row>) -> Result<(), Memory>
    ensures ok { OnOk result (keys.new.items ≡ with_key keys.old.items key) }
    ensures err { OnErr result (keys.new.items ≡ keys.old.items) }
{
    if !is_among(&key, keys) {
        keys.push(key)?;
    }
    Ok(())
}

/// Whether a key is among some others.
fn is_among(key: &Row, keys: &[Row]) -> bool
    ensures exact { result ≡ list_any (same_cells key.now) keys.now }
{
    keys.iter().any(|other| same_cells(key, other))
}

/// The row of a group: its key, then each aggregate over its rows.
fn group_row(alloc: Global, aggs: &[Agg], key: &Row, group: &Rows) -> Result<Row, Memory>
    ensures exact { IfOk result (λ row. row ≡ group_row aggs.now key.now group.now) }
{
    let mut row = Row::with_capacity(alloc, key.cells().len() + aggs.len())?;
    push_copies(alloc, key.cells(), &mut row)?;
    for agg in aggs {
        push_aggregate(alloc, *agg, group, &mut row)?;
    }
    Ok(row)
}

/// Puts what an aggregate makes of the rows of a group at the end. A column that no row has gives
/// no least and no greatest cell.
fn push_aggregate(alloc: Global, agg: Agg, group: &Rows, row: &mut Row) -> Result<(), Memory>
    ensures ok { OnOk result (row.new
        ≡ row.old ++ option_to_list (aggregated agg.fun agg.column group.now)) }
    ensures err { OnErr result (row.new ≡ row.old) }
{
    match agg.fun {
        Fun::Sum => push_clamped(total(agg.column, group), row),
        Fun::Count => push_clamped(group.rows().len() as i128, row),
        Fun::Least => push_best(alloc, best_by(Op::Lt, agg.column, group), row),
        Fun::Greatest => push_best(alloc, best_by(Op::Gt, agg.column, group), row),
    }
}

/// Puts the int of 64 bits that is nearest to a number at the end.
pub fn push_clamped(number: i128, row: &mut Row) -> Result<(), Memory>
    ensures ok { OnOk result (row.new ≡ row.old ++ clamped number ∷ []) }
    ensures err { OnErr result (row.new ≡ row.old) }
{
    let nearest = number.clamp(i128::from(i64::MIN), i128::from(i64::MAX));
    row.push(Cell::Int(nearest as i64))?;
    Ok(())
}

/// Puts a copy of a cell at the end, if there is one.
pub fn push_best(alloc: Global, best: Option<&Cell>, row: &mut Row) -> Result<(), Memory>
    ensures ok { OnOk result (row.new ≡ row.old ++ option_to_list (option_copied best.entry)) }
    ensures err { OnErr result (row.new ≡ row.old) }
{
    match best {
        Some(cell) => push_copy(alloc, cell, row),
        None => Ok(()),
    }
}

/// The sum of the numbers of a column.
fn total(column: u16, rows: &Rows) -> i128
    ensures exact { result ≡ total column rows.now }
{
    let mut sum = 0;
    for row in rows.rows() {
        sum += i128::from(number_at(row, column));
    }
    sum
}

/// The number of a row in a column. A text counts 0, and so does a cell that is not there.
pub fn number_at(row: &Row, column: u16) -> i64
    ensures exact { result ≡ number_in (slice_get row.now column) }
{
    match cell_at(row, column) {
        Some(Cell::Int(number)) => *number,
        Some(Cell::Text(_)) => 0,
        None => 0,
    }
}

/// Of the cells of a column the first that is not beaten.
fn best_by(op: Op, column: u16, rows: &Rows) -> Option<&Cell>
    ensures exact { option_copied result ≡ best_by op (column_of column rows.now) }
{
    let mut best = None;
    for row in rows.rows() {
        best = better(op, best, cell_at(row, column));
    }
    best
}

/// Of the best cell so far and one more that which is not beaten.
pub fn better<'a>(op: Op, best: Option<&'a Cell>, cell: Option<&'a Cell>) -> Option<&'a Cell>
    ensures exact { option_copied result ≡ best_by op
        (option_to_list (option_copied best.entry) ++ option_to_list (option_copied cell.entry)) }
{
    match (best, cell) {
        (Some(best), Some(cell)) if holds(op, cell, best) => Some(cell),
        (Some(best), _) => Some(best),
        (None, cell) => cell,
    }
}
