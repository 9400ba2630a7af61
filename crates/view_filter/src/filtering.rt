//! What a filter makes of the rows of its source. They are only read where they lie: the result holds
//! copies.

ghost use Rattle.std.specs.Prelude.{◌≡◌, ◌++◌, IfOk, OnOk};
ghost use Rattle.view_meaning.specs.Operations.{filtered};
ghost use Rattle.view_meaning.specs.Parts.{rows_in};

use depot_cell::{Memory, Rows};
use desc_types::Cond;
use std::alloc::Global;
use view_meaning::{Part, push_if_met};

/// The rows of a source that meet all conditions, in their order, cut to the kept columns.
pub fn filter<P: Part>(
    alloc: Global,
    source: &[P],
    conds: &[Cond],
    keep: &[u16],
) -> Result<Rows, Memory>
    ensures exact { IfOk result (λ rows.
        rows ≡ filtered conds.now keep.now (rows_in P.rows source.now)) }
{
    let mut rows = Rows::new(alloc);
    for part in source {
        push_filtered(alloc, conds, keep, part, &mut rows)?;
    }
    Ok(rows)
}

/// Puts the rows of a part that meet all conditions at the end, cut to the kept columns. After an
/// `Err` there may be some of them.
fn push_filtered<P: Part>(
    alloc: Global,
    conds: &[Cond],
    keep: &[u16],
    part: &P,
    rows: &mut Rows,
) -> Result<(), Memory>
    ensures ok { OnOk result (rows.new
        ≡ rows.old ++ filtered conds.now keep.now (P.rows part.now)) }
{
    for index in 0..part.len() {
        push_if_met(alloc, conds, keep, part.row(index), rows)?;
    }
    Ok(())
}
