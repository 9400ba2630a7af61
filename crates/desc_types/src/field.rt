//! A field or a literal as a cell of its column's type.

ghost use Rattle.std.specs.Prelude.{◌≡◌, IfOk};
ghost use Rattle.std.specs.Result.{result_ok};
ghost use Rattle.depot_cell.specs.Reading.{cell_of};

use depot_cell::{Cell, CellFault, Memory, Ty, read_cell};
use std::alloc::Global;

/// The cell of a type that a field is, if it is one.
#[inline(always)]
pub fn field_cell(alloc: Global, ty: Ty, field: &[u8]) -> Result<Option<Cell>, Memory>
    ensures exact { IfOk result (λ cell. cell ≡ result_ok (cell_of ty field.now)) }
{
    match read_cell(alloc, ty, field) {
        Ok(cell) => Ok(Some(cell)),
        Err(CellFault::Memory) => Err(Memory),
        Err(CellFault::BadInt | CellFault::LongText | CellFault::NotUtf8) => Ok(None),
    }
}
