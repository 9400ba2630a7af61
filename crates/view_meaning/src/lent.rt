//! Rows that are lent where they lie, so that an operator reads them with no copy.

ghost use Rattle.std.specs.Prelude.{◌≡◌, ◌<◌, get_or, length, map};
ghost use Rattle.desc_types.specs.declared.delivery.DRow.{DRow as DRowOf};

use crate::part::Part;
use depot_cell::{Row, Rows};
use desc_types::DRow;
use std::marker::Model;

/// Some rows that are lent: those of a list, or some that follow one another in a delivery.
#[derive(Drop)]
pub struct Lent<'a> {
    rows: LentRows<'a>,
}

/// Where they lie.
#[derive(Drop)]
enum LentRows<'a> {
    List(&'a Rows),
    Delivery(&'a [DRow]),
}

impl<'a> Model for Lent<'a> {
    ghost use Rattle.std.specs.Prelude.{List};
    ghost use Rattle.depot_cell.specs.declared.cell.Cell.{Cell as CellOf};
    ghost use Rattle.view_meaning.specs.LentRows.{rows_lent};

    ghost Value = { List (List CellOf) };

    ghost view = { λ lent. rows_lent lent.rows };
}

impl<'a> Lent<'a> {
    /// The rows of a list.
    pub fn of_list(rows: &'a Rows) -> Lent<'a>
        ensures exact { result ≡ rows.now }
    {
        Lent {
            rows: LentRows::List(rows),
        }
    }

    /// Rows of a delivery.
    pub fn of_delivery(rows: &'a [DRow]) -> Lent<'a>
        ensures exact { result ≡ map (λ (row : DRowOf). row.cells) rows.now }
    {
        Lent {
            rows: LentRows::Delivery(rows),
        }
    }
}

impl<'a> Part for Lent<'a> {
    ghost rows = { λ lent. lent };

    fn len(&self) -> usize {
        match self.rows {
            LentRows::List(rows) => rows.rows().len(),
            LentRows::Delivery(rows) => rows.len(),
        }
    }

    fn row(&self, index: usize) -> &Row {
        match self.rows {
            LentRows::List(rows) => &rows.rows()[index],
            LentRows::Delivery(rows) => cells_at(rows, index),
        }
    }
}

/// The cells of the row of a delivery at an index.
fn cells_at(rows: &[DRow], index: usize) -> &Row
    requires within { index < length rows.now }
    ensures exact { result.now
        ≡ get_or (map (λ (row : DRowOf). row.cells) rows.now) index result.now }
{
    &rows[index].cells
}
