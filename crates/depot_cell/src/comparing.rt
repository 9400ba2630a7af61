//! Conditions on cells.

ghost use Rattle.std.specs.Prelude.{◌≡◌};
ghost use Rattle.depot_cell.specs.Cells.{cell_cmp, passes};

use crate::cell::{Cell, Op};

/// Whether a condition holds of two cells: ints by their value, texts by their bytes, and an int
/// stands before each text. Takes no memory.
pub fn holds(op: Op, left: &Cell, right: &Cell) -> bool
    ensures exact { result ≡ passes op (cell_cmp left.now right.now) }
{
    // The table of operators and types. Of an int beside a text the test is that of 0 beside 1.
    macro_rules! table {
        ($($case:ident $test:tt),+) => {
            match (op, left, right) {
                $(
                    (Op::$case, Cell::Int(left), Cell::Int(right)) => left $test right,
                    (Op::$case, Cell::Text(left), Cell::Text(right)) => left $test right,
                    (Op::$case, Cell::Int(_), Cell::Text(_)) => 0 $test 1,
                    (Op::$case, Cell::Text(_), Cell::Int(_)) => 1 $test 0,
                )+
            }
        };
    }
    table!(Eq ==, Ne !=, Lt <, Le <=, Gt >, Ge >=)
}
