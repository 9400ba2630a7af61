//! Columns of rows: the cell of a column, a row cut to some columns, and the rows that have certain
//! cells there.

ghost use Rattle.std.specs.Prelude.{◌≡◌, ◌++◌, ◌∷◌, [], IfOk, OnErr, OnOk, slice_get};
ghost use Rattle.std.specs.Option.{option_copied};
ghost use Rattle.depot_cell.specs.Cells.{same_cells};
ghost use Rattle.view_meaning.specs.Growth.{BeginsWith};
ghost use Rattle.view_meaning.specs.Operations.{cut_to, rows_with};

use depot_cell::{Cell, Memory, Row, Rows, copy_cell, copy_row};
use std::alloc::Global;

/// The cell of a column, if the row has one.
pub fn cell_at(row: &Row, column: u16) -> Option<&Cell>
    ensures exact { option_copied result ≡ slice_get row.now column }
{
    row.cells().get(usize::from(column))
}

/// A row cut to these columns, in their order. A column that the row does not have is left out.
pub(crate) fn cut_row(alloc: Global, columns: &[u16], row: &Row) -> Result<Row, Memory>
    ensures exact { IfOk result (λ cut. cut ≡ cut_to columns.now row.now) }
{
    let mut cut = Row::with_capacity(alloc, columns.len())?;
    for column in columns {
        push_cell(alloc, row, *column, &mut cut)?;
    }
    Ok(cut)
}

/// Copies of the rows that have this key in these columns, in their order.
pub(crate) fn rows_with(
    alloc: Global,
    columns: &[u16],
    key: &Row,
    source: &Rows,
) -> Result<Rows, Memory>
    ensures exact { IfOk result (λ rows. rows ≡ rows_with columns.now key.now source.now) }
{
    let mut rows = Rows::new(alloc);
    for row in source.rows() {
        if same_cells(key, &cut_row(alloc, columns, row)?) {
            rows.push(copy_row(alloc, row)?)?;
        }
    }
    Ok(rows)
}

/// Whether two rows have the same cells.
pub(crate) fn same_cells(left: &Row, right: &Row) -> bool
    ensures exact { result ≡ same_cells left.now right.now }
{
    left.cells() == right.cells()
}

/// Puts copies of cells at the end. After an `Err` there may be some of them.
pub(crate) fn push_copies(alloc: Global, cells: &[Cell], row: &mut Row) -> Result<(), Memory>
    ensures ok { OnOk result (row.new ≡ row.old ++ cells.now) }
    ensures err { OnErr result (BeginsWith row.old row.new) }
{
    for cell in cells {
        push_copy(alloc, cell, row)?;
    }
    Ok(())
}

/// Puts a copy of the row's cell of a column at the end, if the row has one.
fn push_cell(alloc: Global, row: &Row, column: u16, cut: &mut Row) -> Result<(), Memory>
    ensures ok { OnOk result (cut.new ≡ cut.old ++ cut_to (column ∷ []) row.now) }
    ensures err { OnErr result (cut.new ≡ cut.old) }
{
    match cell_at(row, column) {
        Some(cell) => push_copy(alloc, cell, cut),
        None => Ok(()),
    }
}

/// Puts a copy of a cell at the end.
pub fn push_copy(alloc: Global, cell: &Cell, row: &mut Row) -> Result<(), Memory>
    ensures ok { OnOk result (row.new ≡ row.old ++ cell.now ∷ []) }
    ensures err { OnErr result (row.new ≡ row.old) }
{
    row.push(copy_cell(alloc, cell)?)?;
    Ok(())
}
