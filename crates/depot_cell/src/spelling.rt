//! The text of a cell.

ghost use Rattle.std.specs.Prelude.{◌≡◌, IfOk};
ghost use Rattle.std.specs.Fmt.{signed_decimal};
ghost use Rattle.depot_cell.specs.Spelling.{HasExactTexts, text_of};

use crate::cell::Cell;
use crate::memory::Memory;
use std::alloc::Global;

/// The text of a cell: of an int the shortest decimal form, of a text its bytes.
pub fn cell_text(alloc: Global, cell: &Cell) -> Result<Vec<u8>, Memory>
    ensures exact { IfOk result (λ text. text.items ≡ text_of cell.now) }
{
    match cell {
        Cell::Int(number) => int_text(alloc, *number),
        Cell::Text(text) => Ok(Vec::from_slice(alloc, text.as_bytes())?),
    }
}

fn int_text(alloc: Global, number: i64) -> Result<Vec<u8>, Memory>
    ensures exact { IfOk result (λ text. text.items ≡ signed_decimal number) }
{
    Ok(number.to_string(alloc)?.into_bytes())
}

/// A law: the text of a cell is read as that cell again.
pub fn texts_are_read_again()
    ensures law { HasExactTexts }
{}
