//! One cell and its type.

ghost use Rattle.std.specs.Prelude.{◌≡◌, IfOk};

use crate::memory::Memory;
use crate::short_text::Str;
use std::alloc::Global;

/// The type of a column.
#[derive(Clone, Copy, Debug, PartialEq, Eq)]
pub enum Ty {
    Int,
    Text,
}

/// How a condition compares a cell with a value.
#[derive(Clone, Copy, Debug, PartialEq, Eq)]
pub enum Op {
    Eq,
    Ne,
    Lt,
    Le,
    Gt,
    Ge,
}

/// The value of one column in one row. An int stands before every text.
#[derive(Debug, PartialEq, Eq, Hash, Drop)]
pub enum Cell {
    Int(i64),
    Text(Str),
}

/// The same cell again. An int takes no memory, a text that of its bytes.
pub fn copy_cell(alloc: Global, cell: &Cell) -> Result<Cell, Memory>
    ensures exact { IfOk result (λ copy. copy ≡ cell.now) }
{
    match cell {
        Cell::Int(number) => Ok(Cell::Int(*number)),
        Cell::Text(text) => Ok(Cell::Text(Str::from_bytes(alloc, text.as_bytes())?)),
    }
}

/// Why some bytes are no cell of a type.
#[derive(Clone, Copy, Debug, PartialEq, Eq, Drop)]
pub enum CellFault {
    /// The bytes are not the text of an int.
    BadInt,
    /// The text has more than 255 bytes.
    LongText,
    /// The bytes are no UTF-8.
    NotUtf8,
    Memory,
}

impl From<Memory> for CellFault {
    ghost use Rattle.std.specs.Prelude.{◌≡◌};
    ghost use Rattle.depot_cell.specs.declared.cell.CellFault.TheVariants.{Memory as NoMemory};

    ghost from_gives = { λ _ fault. fault ≡ NoMemory };

    fn from(_refused: Memory) -> CellFault {
        CellFault::Memory
    }
}
