//! The trait of rows that lie in parts. An operator reads rows where they lie: in a list that
//! several owners share, or among those of a delivery.

ghost use Rattle.std.specs.Prelude.{List, ◌≡◌, ◌<◌, get_or, length};
ghost use Rattle.std.specs.Arc.{arc_value};
ghost use Rattle.depot_cell.specs.declared.cell.Cell.{Cell as CellOf};

use depot_cell::{Row, Rows};
use std::sync::Arc;

/// Some rows, in order.
pub trait Part {
    /// The rows.
    ghost rows: { Self → List (List CellOf) };

    /// How many rows there are.
    fn len(&self) -> usize
        ensures exact { result ≡ length (rows self.now) };

    /// The row at an index.
    fn row(&self, index: usize) -> &Row
        requires within { index < length (rows self.now) }
        ensures exact { result.now ≡ get_or (rows self.now) index result.now };
}

impl Part for Arc<Rows> {
    ghost rows = { λ part. arc_value part };

    fn len(&self) -> usize {
        self.rows().len()
    }

    fn row(&self, index: usize) -> &Row {
        &self.rows()[index]
    }
}
