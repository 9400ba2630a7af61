//! Rows, and lists of rows.
//!
//! A `Rows` has fewer than 2^44 rows, so that a sum over all of them fits 128 bits. No memory holds
//! so many: a push past that answers `Memory`.

ghost use Rattle.std.specs.Prelude.{List, ◌≡◌, ◌++◌, ◌∷◌, [], ◌<◌, ◌^◌, length, OnOk, OnErr};
ghost use Rattle.std.specs.Prelude.{IfErr, IfOk};
ghost use Rattle.depot_cell.specs.declared.cell.Cell.{Cell as CellOf};

use crate::cell::{Cell, copy_cell};
use crate::memory::Memory;
use std::alloc::Global;
use std::marker::Model;

/// The cells of one row, in the order of its columns.
#[derive(Debug, Drop)]
pub struct Row {
    cells: Vec<Cell>,
}

impl Model for Row {
    ghost Value = { List CellOf };

    ghost view = { λ row. row.cells.items };
}

impl Row {
    /// A row without cells.
    pub fn new(alloc: Global) -> Row
        ensures exact { result ≡ [] }
    {
        Row {
            cells: Vec::new(alloc),
        }
    }

    /// A row without cells that has room for some: so many pushes take no memory.
    pub fn with_capacity(alloc: Global, cells: usize) -> Result<Row, Memory>
        ensures ok { IfOk result (λ row. row ≡ []) }
    {
        Ok(Row {
            cells: Vec::with_capacity(alloc, cells)?,
        })
    }

    /// The cells.
    pub fn cells(&self) -> &[Cell]
        ensures exact { result.now ≡ self.now }
    {
        self.cells.as_slice()
    }

    /// Puts a cell at the end. If there is no memory the cell comes back and the row is as
    /// before.
    pub fn push(&mut self, cell: Cell) -> Result<(), (Cell, Memory)>
        ensures ok { OnOk result (self.new ≡ self.old ++ cell ∷ []) }
        ensures err { OnErr result (self.new ≡ self.old) }
        ensures back { IfErr result (λ refused. refused.0 ≡ cell) }
    {
        match self.cells.push(cell) {
            Ok(()) => Ok(()),
            Err(refused) => Err((refused.value, Memory)),
        }
    }
}

/// The same row again. It takes one piece of memory for the cells, and one for each text.
pub fn copy_row(alloc: Global, row: &Row) -> Result<Row, Memory>
    ensures exact { IfOk result (λ copy. copy ≡ row.now) }
{
    let mut copy = Row::with_capacity(alloc, row.cells().len())?;
    for cell in row.cells() {
        copy.push(copy_cell(alloc, cell)?)?;
    }
    Ok(copy)
}

/// A list of rows, fewer than 2^44.
#[derive(Debug, Drop)]
pub struct Rows {
    rows: Vec<Row>,
}

impl Model for Rows {
    ghost Value = { List (List CellOf) };

    ghost view = { λ rows. rows.rows.items };

    ghost invariant = { λ rows. length rows.rows.items < 2 ^ 44 };
}

impl Rows {
    /// No row.
    pub fn new(alloc: Global) -> Rows
        ensures { result ≡ [] }
    {
        Rows {
            rows: Vec::new(alloc),
        }
    }

    /// The rows.
    pub fn rows(&self) -> &[Row]
        ensures exact { result.now ≡ self.now }
        ensures within { length self.now < 2 ^ 44 }
    {
        self.rows.as_slice()
    }

    /// Puts a row at the end. If there is no memory the row comes back and the list is as
    /// before.
    pub fn push(&mut self, row: Row) -> Result<(), (Row, Memory)>
        ensures ok { OnOk result (self.new ≡ self.old ++ row ∷ []) }
        ensures err { OnErr result (self.new ≡ self.old) }
        ensures back { IfErr result (λ refused. refused.0 ≡ row) }
    {
        if self.rows.len() >= (1 << 44) - 1 {
            return Err((row, Memory));
        }
        match self.rows.push(row) {
            Ok(()) => Ok(()),
            Err(refused) => Err((refused.value, Memory)),
        }
    }
}
