//! What a join makes of the rows of its two sources.

ghost use Rattle.std.specs.Prelude.{◌≡◌, ◌++◌, IfOk, OnErr, OnOk};
ghost use Rattle.view_meaning.specs.Growth.{BeginsWith};
ghost use Rattle.view_meaning.specs.Operations.{beside, joined_rows, left_columns, partners};
ghost use Rattle.view_meaning.specs.Operations.{right_columns};

use crate::columns::{cut_row, push_copies, rows_with};
use depot_cell::{Memory, Row, Rows};
use desc_types::Pair;
use std::alloc::Global;

/// Puts each left row beside each right row that agrees with it on all pairs at the end. After an
/// `Err` there may be some of them.
pub(crate) fn push_joined(
    alloc: Global,
    on: &[Pair],
    left: &Rows,
    right: &Rows,
    rows: &mut Rows,
) -> Result<(), Memory>
    ensures ok { OnOk result (rows.new ≡ rows.old ++ joined_rows on.now left.now right.now) }
    ensures err { OnErr result (BeginsWith rows.old rows.new) }
{
    for row in left.rows() {
        push_beside(alloc, row, &partners(alloc, on, row, right)?, rows)?;
    }
    Ok(())
}

/// Copies of the right rows that agree with a left row on all pairs, in their order.
fn partners(alloc: Global, on: &[Pair], row: &Row, right: &Rows) -> Result<Rows, Memory>
    ensures exact { IfOk result (λ others. others ≡ partners on.now row.now right.now) }
{
    let key = cut_row(alloc, &left_columns(alloc, on)?, row)?;
    rows_with(alloc, &right_columns(alloc, on)?, &key, right)
}

/// The columns of the left side.
pub fn left_columns(alloc: Global, on: &[Pair]) -> Result<Vec<u16>, Memory>
    ensures exact { IfOk result (λ columns. columns.items ≡ left_columns on.now) }
{
    Ok(on.iter().map(|pair| pair.left).collect(alloc)?)
}

/// The columns of the right side.
pub fn right_columns(alloc: Global, on: &[Pair]) -> Result<Vec<u16>, Memory>
    ensures exact { IfOk result (λ columns. columns.items ≡ right_columns on.now) }
{
    Ok(on.iter().map(|pair| pair.right).collect(alloc)?)
}

/// Puts a row beside each of some others at the end. After an `Err` there may be some of them.
fn push_beside(alloc: Global, row: &Row, others: &Rows, rows: &mut Rows) -> Result<(), Memory>
    ensures ok { OnOk result (rows.new ≡ rows.old ++ beside row.now others.now) }
    ensures err { OnErr result (BeginsWith rows.old rows.new) }
{
    for other in others.rows() {
        rows.push(both(alloc, row, other)?)?;
    }
    Ok(())
}

/// The cells of a row, then those of another.
pub fn both(alloc: Global, row: &Row, other: &Row) -> Result<Row, Memory>
    ensures exact { IfOk result (λ both. both ≡ row.now ++ other.now) }
{
    let mut both = Row::with_capacity(alloc, row.cells().len() + other.cells().len())?;
    push_copies(alloc, row.cells(), &mut both)?;
    push_copies(alloc, other.cells(), &mut both)?;
    Ok(both)
}
