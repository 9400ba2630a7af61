//! Widths, spans and counts that do not fit: the tests of `BadWidth`, `BadSpan` and `TooMany` on a
//! table's line.

ghost use Rattle.std.specs.Prelude.{◌≡◌, nat_lt};
ghost use Rattle.std.specs.List.{list_any};
ghost use Rattle.desc_lines.specs.WrittenKinds.{written_kind};
ghost use Rattle.desc_causes.specs.Causes.{count_columns, has_bad_span, has_bad_width};
ghost use Rattle.desc_causes.specs.Causes.{has_many_parts, is_odd_width, makes_too_many, misfits};
ghost use Rattle.desc_causes.specs.Causes.{sources};
ghost use Rattle.desc_causes.specs.Ticks.{read_width};

use crate::ticks::{read_span, read_width};
use desc_lines::{WrittenKind, WrittenSource};
use desc_types::{Desc, Width, source_columns, source_width};
use partition_map::span_fits;

/// The most tables of a description, columns of a table, conditions, keys and pairs.
const MOST_TABLES: usize = 64;

const MOST_COLUMNS: usize = 16;

const MOST_CONDS: usize = 8;

const MOST_KEYS: usize = 4;

const MOST_PAIRS: usize = 4;

/// Whether a width is none, or no multiple of the width of each source.
pub fn has_bad_width(desc: &Desc, width: &[u8], kind: &WrittenKind) -> bool
    ensures exact { result
        ≡ has_bad_width desc.now (read_width width.now) (sources (written_kind kind.now)) }
{
    match read_width(width) {
        Some(width) => has_odd_width(desc, width, kind),
        None => true,
    }
}

fn has_odd_width(desc: &Desc, width: Width, kind: &WrittenKind) -> bool
    ensures exact { result
        ≡ list_any (is_odd_width desc.now width) (sources (written_kind kind.now)) }
{
    match kind {
        WrittenKind::Raw { .. } => false,
        WrittenKind::Filter { source, .. } => is_odd_width(desc, width, source),
        WrittenKind::Group { source, .. } => is_odd_width(desc, width, source),
        WrittenKind::Join { left, right, .. } => {
            is_odd_width(desc, width, left) || is_odd_width(desc, width, right)
        }
    }
}

fn is_odd_width(desc: &Desc, width: Width, source: &WrittenSource) -> bool
    ensures exact { result ≡ is_odd_width desc.now width source.now }
{
    width.ticks() % source_width(desc, source).ticks() != 0
}

/// Whether an offset of a source is none, or its span does not fit.
pub fn has_bad_span(desc: &Desc, width: &[u8], kind: &WrittenKind) -> bool
    ensures exact { result
        ≡ has_bad_span desc.now (read_width width.now) (sources (written_kind kind.now)) }
{
    match read_width(width) {
        Some(width) => has_odd_span(desc, width, kind),
        None => false,
    }
}

fn has_odd_span(desc: &Desc, width: Width, kind: &WrittenKind) -> bool
    ensures exact { result ≡ list_any (misfits desc.now width) (sources (written_kind kind.now)) }
{
    match kind {
        WrittenKind::Raw { .. } => false,
        WrittenKind::Filter { source, .. } => misfits(desc, width, source),
        WrittenKind::Group { source, .. } => misfits(desc, width, source),
        WrittenKind::Join { left, right, .. } => {
            misfits(desc, width, left) || misfits(desc, width, right)
        }
    }
}

fn misfits(desc: &Desc, width: Width, source: &WrittenSource) -> bool
    ensures exact { result ≡ misfits desc.now width source.now }
{
    match read_span(source) {
        Some(span) => !span_fits(width, source_width(desc, source), span),
        None => true,
    }
}

/// Whether a table's line makes more than a description may have.
pub fn makes_too_many(desc: &Desc, kind: &WrittenKind) -> bool
    ensures exact { result ≡ makes_too_many desc.now (written_kind kind.now) }
{
    desc.tables.len() >= MOST_TABLES || has_many_columns(desc, kind) || has_many_parts(kind)
}

fn has_many_columns(desc: &Desc, kind: &WrittenKind) -> bool
    ensures exact { result ≡ nat_lt 16 (count_columns desc.now (written_kind kind.now)) }
{
    match kind {
        WrittenKind::Raw { columns, .. } => columns.len() > MOST_COLUMNS,
        WrittenKind::Filter { keep, .. } => keep.len() > MOST_COLUMNS,
        WrittenKind::Group { keys, aggs, .. } => keys.len() + aggs.len() > MOST_COLUMNS,
        WrittenKind::Join { left, right, .. } => {
            let left = source_columns(desc, left).len();
            left + source_columns(desc, right).len() > MOST_COLUMNS
        }
    }
}

fn has_many_parts(kind: &WrittenKind) -> bool
    ensures exact { result ≡ has_many_parts (written_kind kind.now) }
{
    match kind {
        WrittenKind::Raw { .. } => false,
        WrittenKind::Filter { conds, .. } => conds.len() > MOST_CONDS,
        WrittenKind::Group { keys, .. } => keys.len() > MOST_KEYS,
        WrittenKind::Join { on, .. } => on.len() > MOST_PAIRS,
    }
}
