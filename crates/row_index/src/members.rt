//! The rows that have one key.

ghost use Rattle.std.specs.Prelude.{List, ◌≡◌, ◌++◌, ◌∷◌, [], IfOk, OnErr, OnOk, map};
ghost use Rattle.depot_cell.specs.declared.cell.Cell.{Cell as CellOf};

use crate::few::Few;
use depot_cell::{Memory, Row};
use std::alloc::Global;
use std::marker::Model;

/// The rows of one key, in their order. They stand elsewhere.
#[derive(Drop)]
pub struct Members<'a> {
    rows: Few<&'a Row>,
}

impl<'a> Model for Members<'a> {
    ghost Value = { List (List CellOf) };

    ghost view = { λ members. map (λ row. row.now) members.rows };
}

impl<'a> Members<'a> {
    /// One row.
    pub fn of_one(alloc: Global, row: &'a Row) -> Result<Members<'a>, Memory>
        ensures exact { IfOk result (λ members. members ≡ row.now ∷ []) }
    {
        Ok(Members {
            rows: Few::of_one(alloc, row),
        })
    }

    /// The rows.
    pub fn rows(&self) -> &[&'a Row]
        ensures exact { map (λ row. row.now) result.now ≡ self.now }
    {
        self.rows.as_slice()
    }

    /// Puts a row at the end.
    pub fn push(&mut self, row: &'a Row) -> Result<(), Memory>
        ensures ok { OnOk result (self.new ≡ self.old ++ row.now ∷ []) }
        ensures err { OnErr result (self.new ≡ self.old) }
    {
        self.rows.push(row)
    }
}
