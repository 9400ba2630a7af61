//! The key of a row: its cells in some columns.

ghost use Rattle.std.specs.Prelude.{List, ◌≡◌, ◌++◌, ◌∷◌, [], OnOk, map};
ghost use Rattle.std.specs.Cmp.{partial_equiv_from_equiv};
ghost use Rattle.std.specs.Hash as fed;
ghost use Rattle.std.specs.Hash.{same_Alike};
ghost use Rattle.depot_cell.specs.declared.cell.Cell.{Cell as CellOf};
ghost use Rattle.depot_cell.specs.Cells.{same_cells};
ghost use Rattle.view_meaning.specs.Operations.{cut_to};
ghost use Rattle.row_index.specs.Keys.{same_cells-decides, same_cells-laws};

use crate::few::Few;
use depot_cell::{Cell, Memory, Row};
use std::alloc::Global;
use std::hash::{Hash, Hasher};
use std::marker::Model;
use view_meaning::cell_at;

/// The cells of a key. They stand in rows elsewhere.
#[derive(Drop)]
pub struct KeyCells<'a> {
    cells: Few<&'a Cell>,
}

impl<'a> Model for KeyCells<'a> {
    ghost Value = { List CellOf };

    ghost view = { λ key. map (λ cell. cell.now) key.cells };
}

impl<'a> KeyCells<'a> {
    /// A key without cells.
    pub fn new(alloc: Global) -> KeyCells<'a>
        ensures exact { result ≡ [] }
    {
        KeyCells {
            cells: Few::new(alloc),
        }
    }

    /// Replaces the cells by those of a row in these columns, in their order. A column that the row
    /// does not have is left out. A key that is filled again takes memory only for more cells than
    /// it ever had. After an `Err` it may have some of them.
    pub fn fill(&mut self, columns: &[u16], row: &'a Row) -> Result<(), Memory>
        ensures ok { OnOk result (self.new ≡ cut_to columns.now row.now) }
    {
        self.clear();
        for column in columns {
            self.push_at(*column, row)?;
        }
        Ok(())
    }

    /// The cells, in their order.
    pub fn cells(&self) -> &[&'a Cell]
        ensures exact { map (λ cell. cell.now) result.now ≡ self.now }
    {
        self.cells.as_slice()
    }

    /// Leaves no cell.
    fn clear(&mut self)
        ensures exact { self.new ≡ [] }
    {
        self.cells.clear();
    }

    /// Puts the row's cell of a column at the end, if the row has one.
    fn push_at(&mut self, column: u16, row: &'a Row) -> Result<(), Memory>
        ensures ok { OnOk result (self.new ≡ self.old ++ cut_to (column ∷ []) row.now) }
    {
        match cell_at(row, column) {
            Some(cell) => self.push(cell),
            None => Ok(()),
        }
    }

    /// Puts a cell at the end.
    fn push(&mut self, cell: &'a Cell) -> Result<(), Memory>
        ensures ok { OnOk result (self.new ≡ self.old ++ cell.now ∷ []) }
    {
        self.cells.push(cell)
    }
}

impl<'a> PartialEq for KeyCells<'a> {
    ghost eq = { same_cells };

    ghost laws = { partial_equiv_from_equiv same_cells-laws };

    fn eq(&self, other: &KeyCells<'a>) -> bool {
        self.cells() == other.cells()
    }
}

impl<'a> Eq for KeyCells<'a> {
    ghost laws = { same_cells-laws };
}

impl<'a> Hash for KeyCells<'a> {
    ghost hash_input = { fed.slice ⟦<Cell as Hash>⟧.hash_input };

    ghost respects_eq = { (same_Alike _ same_cells-decides).fed };

    fn hash<H: Hasher>(&self, state: &mut H) {
        self.cells().hash(state);
    }
}
