//! Aggregates over the rows of a group.
//!
//! A sum is made in 128 bits and brought within an int at its end. It cannot overflow: there are
//! fewer than 2^63 rows, and each adds at most 2^63 in size.

ghost use Rattle.std.specs.Prelude.{◌≡◌, ◌++◌, OnErr, OnOk, map};
ghost use Rattle.std.specs.Option.{option_copied, option_to_list};
ghost use Rattle.view_meaning.specs.Operations.{aggregated, best_by, column_of, total};

use depot_cell::{Cell, Memory, Op, Row};
use desc_types::{Agg, Fun};
use std::alloc::Global;
use view_meaning::{better, cell_at, number_at, push_best, push_clamped};

/// Puts what an aggregate makes of the rows of a group at the end. A column that no row has gives
/// no least and no greatest cell.
pub fn push_aggregate(
    alloc: Global,
    agg: Agg,
    members: &[&Row],
    row: &mut Row,
) -> Result<(), Memory>
    ensures ok { OnOk result (row.new ≡ row.old ++ option_to_list
        (aggregated agg.fun agg.column (map (λ member. member.now) members.now))) }
    ensures err { OnErr result (row.new ≡ row.old) }
{
    match agg.fun {
        Fun::Sum => push_clamped(total(agg.column, members), row),
        Fun::Count => push_clamped(members.len() as i128, row),
        Fun::Least => push_best(alloc, best_by(Op::Lt, agg.column, members), row),
        Fun::Greatest => push_best(alloc, best_by(Op::Gt, agg.column, members), row),
    }
}

/// The sum of the numbers of a column.
fn total(column: u16, members: &[&Row]) -> i128
    ensures exact { result ≡ total column (map (λ member. member.now) members.now) }
{
    let mut sum = 0;
    for member in members {
        sum += i128::from(number_at(member, column));
    }
    sum
}

/// Of the cells of a column the first that is not beaten.
fn best_by<'a>(op: Op, column: u16, members: &[&'a Row]) -> Option<&'a Cell>
    ensures exact { option_copied result
        ≡ best_by op (column_of column (map (λ member. member.now) members.now)) }
{
    let mut best = None;
    for member in members {
        best = better(op, best, cell_at(member, column));
    }
    best
}
