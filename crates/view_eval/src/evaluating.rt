//! What a table makes of the rows of its sources. Only here is its kind looked at; each operator
//! stands in a crate of its own.

ghost use Rattle.std.specs.Prelude.{◌≡◌, slice_get, IfOk};
ghost use Rattle.desc_types.specs.Kinds.{kind_of};
ghost use Rattle.view_eval.specs.Eval.{made_by};
ghost use Rattle.view_meaning.specs.Operations.{operation};
ghost use Rattle.view_meaning.specs.Parts.{rows_in};

use depot_cell::{Memory, Rows};
use desc_types::{Desc, Kind};
use std::alloc::Global;
use view_filter::filter;
use view_group::group;
use view_join::join;
use view_meaning::Part;

/// What a table makes of the rows of its left and right source. A filter and a group read only the
/// left one. A raw table makes nothing, since its rows are those that deliveries brought, and so
/// does a number that no table has.
pub fn eval<P: Part>(
    alloc: Global,
    desc: &Desc,
    table: u16,
    left: &[P],
    right: &[P],
) -> Result<Rows, Memory>
    ensures exact { IfOk result (λ rows. rows
        ≡ made_by (slice_get desc.now.tables table) (rows_in P.rows left.now) (rows_in P.rows right.now)) }
{
    match desc.tables.get(usize::from(table)) {
        Some(table) => eval_kind(alloc, &table.kind, left, right),
        None => Ok(Rows::new(alloc)),
    }
}

/// What a table of this kind makes of the rows of its sources.
fn eval_kind<P: Part>(alloc: Global, kind: &Kind, left: &[P], right: &[P]) -> Result<Rows, Memory>
    ensures exact { IfOk result (λ rows. rows
        ≡ operation (kind_of kind.now) (rows_in P.rows left.now) (rows_in P.rows right.now)) }
{
    match kind {
        Kind::Raw { .. } => Ok(Rows::new(alloc)),
        Kind::Filter { conds, keep, .. } => filter(alloc, left, conds, keep),
        Kind::Group { keys, aggs, .. } => group(alloc, left, keys, aggs),
        Kind::Join { on, .. } => join(alloc, left, right, on),
    }
}
