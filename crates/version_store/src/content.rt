//! The rows of a version.

ghost use Rattle.std.specs.Prelude.{◌≡◌, IfOk};
ghost use Rattle.std.specs.Arc.{arc_value};

use depot_cell::{Memory, Rows};
use std::marker::Model;
use std::sync::Arc;

/// The rows of a version of a view's partition. Those that compute from them share them.
#[derive(Debug, Drop)]
pub struct Content {
    rows: Arc<Rows>,
}

impl Model for Content {
    ghost use Rattle.std.specs.Prelude.{List};
    ghost use Rattle.std.specs.Arc.{arc_value};
    ghost use Rattle.depot_cell.specs.declared.cell.Cell.{Cell};

    ghost Value = { List (List Cell) };

    ghost view = { λ content. arc_value content.rows };
}

impl Content {
    /// These rows.
    pub fn new(rows: Arc<Rows>) -> Content
        ensures exact { result ≡ arc_value rows }
    {
        Content { rows }
    }

    /// The rows.
    pub fn rows(&self) -> &Arc<Rows>
        ensures exact { arc_value result.now ≡ self.now }
    {
        &self.rows
    }

    /// The rows, for one user more.
    pub fn share(&self) -> Result<Arc<Rows>, Memory>
        ensures exact { IfOk result (λ rows. arc_value rows ≡ self.now) }
    {
        Ok(Arc::clone(&self.rows)?)
    }
}
