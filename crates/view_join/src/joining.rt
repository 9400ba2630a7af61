//! What a join makes of the rows of its two sources.

ghost use Rattle.std.specs.Prelude.{◌≡◌, ◌++◌, IfOk, OnOk, map};
ghost use Rattle.view_meaning.specs.Operations.{beside, joined_rows};
ghost use Rattle.view_meaning.specs.Parts.{rows_in};
ghost use Rattle.view_join.specs.Pairs.{paired, row_paired};

use depot_cell::{Memory, Row, Rows};
use desc_types::Pair;
use row_index::{KeyCells, RowIndex, index_rows};
use std::alloc::Global;
use view_meaning::{Part, both, left_columns, right_columns};

/// Each left row beside each right row that agrees with it on all pairs, in left order, then in
/// right order. It takes memory for an index of the right rows, and for the rows of the result.
pub fn join<L: Part, R: Part>(
    alloc: Global,
    left: &[L],
    right: &[R],
    on: &[Pair],
) -> Result<Rows, Memory>
    ensures exact { IfOk result (λ rows. rows
        ≡ joined_rows on.now (rows_in L.rows left.now) (rows_in R.rows right.now)) }
{
    let index = index_rows(alloc, &right_columns(alloc, on)?, right)?;
    paired(alloc, &left_columns(alloc, on)?, left, &index)
}

/// Each left row beside each row of the index that has its key.
fn paired<'a, L: Part>(
    alloc: Global,
    columns: &[u16],
    left: &'a [L],
    index: &RowIndex<'a>,
) -> Result<Rows, Memory>
    ensures exact { IfOk result (λ rows. rows
        ≡ paired columns.now index.now.entries (rows_in L.rows left.now)) }
{
    let mut key = KeyCells::new(alloc);
    let mut rows = Rows::new(alloc);
    for part in left {
        push_paired(alloc, columns, part, index, &mut key, &mut rows)?;
    }
    Ok(rows)
}

/// Puts each row of a left part beside each row of the index that has its key at the end. `key` is
/// filled for each of them.
fn push_paired<'a, L: Part>(
    alloc: Global,
    columns: &[u16],
    part: &'a L,
    index: &RowIndex<'a>,
    key: &mut KeyCells<'a>,
    rows: &mut Rows,
) -> Result<(), Memory>
    ensures ok { OnOk result (rows.new
        ≡ rows.old ++ paired columns.now index.now.entries (L.rows part.now)) }
{
    for place in 0..part.len() {
        push_row(alloc, columns, part.row(place), index, key, rows)?;
    }
    Ok(())
}

/// Puts a left row beside each row of the index that has its key at the end. `key` is filled with
/// it.
fn push_row<'a>(
    alloc: Global,
    columns: &[u16],
    row: &'a Row,
    index: &RowIndex<'a>,
    key: &mut KeyCells<'a>,
    rows: &mut Rows,
) -> Result<(), Memory>
    ensures ok { OnOk result (rows.new
        ≡ rows.old ++ row_paired columns.now index.now.entries row.now) }
{
    key.fill(columns, row)?;
    match index.get(&*key) {
        Some(partners) => push_beside(alloc, row, partners.rows(), rows),
        None => Ok(()),
    }
}

/// Puts a row beside each of some others at the end.
fn push_beside(alloc: Global, row: &Row, others: &[&Row], rows: &mut Rows) -> Result<(), Memory>
    ensures ok { OnOk result (rows.new
        ≡ rows.old ++ beside row.now (map (λ other. other.now) others.now)) }
{
    for other in others {
        rows.push(both(alloc, row, other)?)?;
    }
    Ok(())
}
