//! Copies of rows that are lent.

ghost use Rattle.std.specs.Prelude.{◌≡◌, ◌++◌, IfOk, OnOk};
ghost use Rattle.raw_load.specs.Books.{rows_of};

use depot_cell::{Memory, Rows, copy_row};
use std::alloc::Global;
use view_meaning::{Lent, Part};

/// Copies of the rows of some parts, in their order.
pub(crate) fn copy_parts(alloc: Global, parts: &[Lent]) -> Result<Rows, Memory>
    ensures exact { IfOk result (λ rows. rows ≡ rows_of parts.now) }
{
    let mut rows = Rows::new(alloc);
    for part in parts {
        push_copies(alloc, part, &mut rows)?;
    }
    Ok(rows)
}

/// Puts copies of the rows of a part at the end.
fn push_copies(alloc: Global, part: &Lent, rows: &mut Rows) -> Result<(), Memory>
    ensures ok { OnOk result (rows.new ≡ rows.old ++ part.now) }
{
    for index in 0..part.len() {
        rows.push(copy_row(alloc, part.row(index))?)?;
    }
    Ok(())
}
