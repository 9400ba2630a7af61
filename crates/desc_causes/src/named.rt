//! Bad names and double names: the tests of `BadName` and `DoubleName` on a table's line.

ghost use Rattle.std.specs.Prelude.{◌≡◌, ◌++◌, ◌||◌, map, not, is_some, IfOk};
ghost use Rattle.std.specs.List.{list_any};
ghost use Rattle.std.specs.Str.{bytes_eq};
ghost use Rattle.desc_lines.specs.Names.{is_name};
ghost use Rattle.desc_lines.specs.Written.{WrittenAggOf, WrittenColumnOf};
ghost use Rattle.desc_lines.specs.WrittenKinds.{written_kind};
ghost use Rattle.desc_types.specs.Columns.{are_different};
ghost use Rattle.desc_causes.specs.Causes.{gives_bad_name, has_bad_name};
ghost use Rattle.desc_causes.specs.Causes.{written_names};
ghost use Rattle.desc_types.specs.Lookups.{find_table};

use depot_cell::Memory;
use desc_lines::{WrittenAgg, WrittenColumn, WrittenKind, WrittenTable, is_name, is_word};
use desc_types::{Desc, place_of_table};
use std::alloc::Global;

/// Whether a name that a table's line declares is none.
pub fn has_bad_name(table: &WrittenTable) -> bool
    ensures exact { result ≡ has_bad_name table.now }
{
    !is_name(table.name) || gives_bad_name(&table.kind)
}

fn gives_bad_name(kind: &WrittenKind) -> bool
    ensures exact { result ≡ gives_bad_name (written_kind kind.now) }
{
    match kind {
        WrittenKind::Raw { columns, .. } => has_bad_column(columns),
        WrittenKind::Group { aggs, .. } => has_bad_agg(aggs),
        WrittenKind::Filter { .. } | WrittenKind::Join { .. } => false,
    }
}

fn has_bad_column(columns: &[WrittenColumn]) -> bool
    ensures exact { result
        ≡ list_any (λ (column : WrittenColumnOf). not (is_name column.name)) columns.now }
{
    columns.iter().any(|column| !is_name(column.name))
}

fn has_bad_agg(aggs: &[WrittenAgg]) -> bool
    ensures exact { result ≡ list_any (λ (agg : WrittenAggOf). not (is_name agg.name)) aggs.now }
{
    aggs.iter().any(|agg| !is_name(agg.name))
}

/// Whether an earlier table has this name, or two of the columns that are written for the table
/// have one name.
pub fn has_double_name(desc: &Desc, name: &[u8], columns: &[&[u8]]) -> bool
    ensures exact { result ≡ (is_some (find_table desc.now name.now)
        || not (are_different (map (λ column. column.now) columns.now))) }
{
    place_of_table(&desc.tables, name).is_some() || !are_different(columns)
}

/// Whether no two words are alike.
fn are_different(words: &[&[u8]]) -> bool
    ensures exact { result ≡ are_different (map (λ word. word.now) words.now) }
{
    let mut rest = words;
    while let [word, others @ ..] = rest {
        if is_among(others, word) {
            return false;
        }
        rest = others;
    }
    true
}

fn is_among(words: &[&[u8]], word: &[u8]) -> bool
    ensures exact { result ≡ list_any (λ other. bytes_eq word.now other.now) words.now }
{
    words.iter().any(|other| is_word(word, other))
}

/// The names of the columns that are written for a table: a join writes none.
pub fn written_names<'a>(alloc: Global, kind: &WrittenKind<'a>) -> Result<Vec<&'a [u8]>, Memory>
    ensures exact { IfOk result (λ names.
        map (λ name. name.now) names.items ≡ written_names (written_kind kind.now)) }
{
    match kind {
        WrittenKind::Raw { columns, .. } => column_names(alloc, columns),
        WrittenKind::Filter { keep, .. } => Ok(Vec::from_slice(alloc, keep)?),
        WrittenKind::Group { keys, aggs, .. } => group_names(alloc, keys, aggs),
        WrittenKind::Join { .. } => Ok(Vec::new(alloc)),
    }
}

fn column_names<'a>(alloc: Global, columns: &[WrittenColumn<'a>]) -> Result<Vec<&'a [u8]>, Memory>
    ensures exact { IfOk result (λ names. map (λ name. name.now) names.items
        ≡ map (λ (column : WrittenColumnOf). column.name) columns.now) }
{
    let mut names = Vec::new(alloc);
    for column in columns {
        names.push(column.name)?;
    }
    Ok(names)
}

fn group_names<'a>(
    alloc: Global,
    keys: &[&'a [u8]],
    aggs: &[WrittenAgg<'a>],
) -> Result<Vec<&'a [u8]>, Memory>
    ensures exact { IfOk result (λ names. map (λ name. name.now) names.items
        ≡ map (λ key. key.now) keys.now ++ map (λ (agg : WrittenAggOf). agg.name) aggs.now) }
{
    let mut names = Vec::from_slice(alloc, keys)?;
    for agg in aggs {
        names.push(agg.name)?;
    }
    Ok(names)
}
