//! What a table's line names and nothing has: the tests of `NoFeed`, `NoSource` and `NoColumn`.

ghost use Rattle.std.specs.Prelude.{◌≡◌, is_none};
ghost use Rattle.std.specs.List.{list_any};
ghost use Rattle.desc_lines.specs.Written.{WrittenAggOf, WrittenCondOf};
ghost use Rattle.desc_lines.specs.WrittenKinds.{written_kind};
ghost use Rattle.desc_causes.specs.Causes.{is_absent, lacks, lacks_column, lacks_feed, lacks_side};
ghost use Rattle.desc_causes.specs.Causes.{lacks_some, lacks_source};
ghost use Rattle.desc_types.specs.Lookups.{find_feed};

use crate::written::written_place;
use desc_lines::{
    WrittenAgg, WrittenColumn, WrittenCond, WrittenKind, WrittenPair, WrittenSource, is_word,
};
use desc_types::{Column, Desc, place_of_column, place_of_feed, place_of_table, source_columns};

/// Whether a raw table is of a feed that was not declared.
pub fn lacks_feed(desc: &Desc, kind: &WrittenKind) -> bool
    ensures exact { result ≡ lacks_feed desc.now (written_kind kind.now) }
{
    match kind {
        WrittenKind::Raw { feed, .. } => is_no_feed(desc, feed),
        _ => false,
    }
}

fn is_no_feed(desc: &Desc, name: &[u8]) -> bool
    ensures exact { result ≡ is_none (find_feed desc.now name.now) }
{
    place_of_feed(&desc.feeds, name).is_none()
}

/// Whether a source is no earlier table.
pub fn lacks_source(desc: &Desc, kind: &WrittenKind) -> bool
    ensures exact { result ≡ lacks_source desc.now (written_kind kind.now) }
{
    match kind {
        WrittenKind::Raw { .. } => false,
        WrittenKind::Filter { source, .. } => is_absent(desc, source),
        WrittenKind::Group { source, .. } => is_absent(desc, source),
        WrittenKind::Join { left, right, .. } => is_absent(desc, left) || is_absent(desc, right),
    }
}

fn is_absent(desc: &Desc, source: &WrittenSource) -> bool
    ensures exact { result ≡ is_absent desc.now source.now }
{
    place_of_table(&desc.tables, source.table).is_none()
}

/// Whether a column that is named is not in its table.
pub fn lacks_column(desc: &Desc, kind: &WrittenKind) -> bool
    ensures exact { result ≡ lacks_column desc.now (written_kind kind.now) }
{
    match kind {
        WrittenKind::Raw { time, columns, .. } => written_place(columns, time).is_none(),
        WrittenKind::Filter {
            source,
            conds,
            keep,
        } => {
            let columns = source_columns(desc, source);
            lack_cond(columns, conds) || lack_name(columns, keep)
        }
        WrittenKind::Group { source, keys, aggs } => {
            let columns = source_columns(desc, source);
            lack_name(columns, keys) || lack_agg(columns, aggs)
        }
        WrittenKind::Join { left, right, on } => {
            let left = source_columns(desc, left);
            lack_side(left, source_columns(desc, right), on)
        }
    }
}

fn lack(columns: &[Column], name: &[u8]) -> bool
    ensures exact { result ≡ lacks columns.now name.now }
{
    place_of_column(columns, name).is_none()
}

fn lack_name(columns: &[Column], names: &[&[u8]]) -> bool
    ensures exact { result ≡ list_any (λ name. lacks columns.now name.now) names.now }
{
    names.iter().any(|name| lack(columns, name))
}

fn lack_cond(columns: &[Column], conds: &[WrittenCond]) -> bool
    ensures exact { result
        ≡ list_any (λ (cond : WrittenCondOf). lacks columns.now cond.column) conds.now }
{
    conds.iter().any(|cond| lack(columns, cond.column))
}

fn lack_agg(columns: &[Column], aggs: &[WrittenAgg]) -> bool
    ensures exact { result
        ≡ list_any (λ (agg : WrittenAggOf). lacks_some columns.now agg.column) aggs.now }
{
    aggs.iter().any(|agg| is_over_none(columns, agg))
}

fn is_over_none(columns: &[Column], agg: &WrittenAgg) -> bool
    ensures exact { result ≡ lacks_some columns.now agg.now.column }
{
    match agg.column {
        Some(name) => lack(columns, name),
        None => false,
    }
}

fn lack_side(left: &[Column], right: &[Column], on: &[WrittenPair]) -> bool
    ensures exact { result ≡ list_any (lacks_side left.now right.now) on.now }
{
    on.iter()
        .any(|pair| lack(left, pair.left) || lack(right, pair.right))
}
