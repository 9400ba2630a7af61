//! Cells from bytes.

ghost use Rattle.std.specs.Prelude.{◌≡◌};
ghost use Rattle.std.specs.Str.{is_utf8};
ghost use Rattle.depot_cell.specs.Reading.{Gives, GivesCells, cell_of, text_cell};

use crate::cell::{Cell, CellFault, Ty};
use crate::number::read_int;
use crate::short_text::Str;
use std::alloc::Global;

/// The cell of a type that bytes are. An int takes no memory, a text that of its bytes.
// It is called for each field of each row that is loaded: a call of its own costs a tenth of that.
#[inline(always)]
pub fn read_cell(alloc: Global, ty: Ty, bytes: &[u8]) -> Result<Cell, CellFault>
    ensures exact { Gives result (cell_of ty bytes.now) }
{
    match ty {
        Ty::Int => match read_int(bytes) {
            Some(number) => Ok(Cell::Int(number)),
            None => Err(CellFault::BadInt),
        },
        Ty::Text => read_text(alloc, bytes),
    }
}

fn read_text(alloc: Global, bytes: &[u8]) -> Result<Cell, CellFault>
    ensures exact { Gives result (text_cell bytes.now) }
{
    if bytes.len() > 255 {
        return Err(CellFault::LongText);
    }
    if !is_text(bytes) {
        return Err(CellFault::NotUtf8);
    }
    Ok(Cell::Text(Str::from_bytes(alloc, bytes)?))
}

fn is_text(bytes: &[u8]) -> bool
    ensures exact { result ≡ is_utf8 bytes.now }
{
    // Most texts are ASCII, and that is seen in fewer steps.
    if bytes.is_ascii() {
        return true;
    }
    match str::from_utf8(bytes) {
        Ok(_) => true,
        Err(_) => false,
    }
}

/// A law: what bytes are read as is a cell of the type.
pub fn read_cells_are_cells()
    ensures law { GivesCells }
{}
