//! What a filter makes of the rows of its source.

ghost use Rattle.std.specs.Prelude.{◌≡◌, ◌∷◌, ◌++◌, [], OnErr, OnOk};
ghost use Rattle.std.specs.List.{list_all};
ghost use Rattle.view_meaning.specs.Growth.{BeginsWith};
ghost use Rattle.view_meaning.specs.Operations.{filtered, meets};

use crate::columns::{cell_at, cut_row};
use depot_cell::{Memory, Row, Rows, holds};
use desc_types::Cond;
use std::alloc::Global;

/// Puts the rows of a source that meet all conditions at the end, cut to the kept columns. After
/// an `Err` there may be some of them.
pub(crate) fn push_filtered(
    alloc: Global,
    conds: &[Cond],
    keep: &[u16],
    source: &Rows,
    rows: &mut Rows,
) -> Result<(), Memory>
    ensures ok { OnOk result (rows.new ≡ rows.old ++ filtered conds.now keep.now source.now) }
    ensures err { OnErr result (BeginsWith rows.old rows.new) }
{
    for row in source.rows() {
        push_if_met(alloc, conds, keep, row, rows)?;
    }
    Ok(())
}

/// Puts a row that meets all conditions at the end, cut to the kept columns, and no other. After
/// an `Err` the rows are as before.
pub fn push_if_met(
    alloc: Global,
    conds: &[Cond],
    keep: &[u16],
    row: &Row,
    rows: &mut Rows,
) -> Result<(), Memory>
    ensures ok { OnOk result (rows.new
        ≡ rows.old ++ filtered conds.now keep.now (row.now ∷ [])) }
    ensures err { OnErr result (rows.new ≡ rows.old) }
{
    if meets_all(conds, row) {
        rows.push(cut_row(alloc, keep, row)?)?;
    }
    Ok(())
}

/// Whether a row meets each condition.
fn meets_all(conds: &[Cond], row: &Row) -> bool
    ensures exact { result ≡ list_all (meets row.now) conds.now }
{
    conds.iter().all(|cond| meets(row, cond))
}

/// Whether a row meets a condition. One on a column that the row does not have is not met.
fn meets(row: &Row, cond: &Cond) -> bool
    ensures exact { result ≡ meets row.now cond.now }
{
    match cell_at(row, cond.column) {
        Some(cell) => holds(cond.op, cell, &cond.value),
        None => false,
    }
}
