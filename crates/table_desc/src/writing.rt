//! The canonical text of a description: which line declares what it has.
//!
//! Nothing is refused here: a name that is not there is written as no bytes.

mod spelling;

ghost use Rattle.std.specs.Prelude.{◌≡◌, ◌++◌, Ok, decimal, flat_map, map, IfOk, OnErr, OnOk};
ghost use Rattle.desc_lines.specs.LineTexts.{line_text};
ghost use Rattle.desc_lines.specs.Written.{TableLine};
ghost use Rattle.desc_lines.specs.WrittenKinds.{written_kind};
ghost use Rattle.desc_types.specs.KindValues.{Filter, Group, Join, Raw};
ghost use Rattle.table_desc.specs.Canonical.{DeclaresAgain, canonical, feed_line, kind_spelled};
ghost use Rattle.table_desc.specs.Canonical.{table_line};
ghost use Rattle.table_desc.specs.Described.{described};

use depot_cell::Memory;
use desc_lines::{WrittenKind, WrittenLine, WrittenTable, push_line};
use desc_types::{AcceptedDesc, Agg, Cond, Desc, Feed, Kind, Pair, Src, Table};
use spelling::{
    aggs_spelled, column_name, column_names, columns_from, columns_spelled, conds_spelled,
    feed_name, filter_words, group_words, join_words, number_text, pairs_spelled, source_spelled,
    table_columns,
};
use std::alloc::Global;

/// The canonical text of a description: its feeds, then its tables, a line each, in order of
/// declaration. Read again, it declares the description again.
pub fn write_desc(alloc: Global, accepted: &AcceptedDesc) -> Result<Vec<u8>, Memory>
    ensures exact { IfOk result (λ text. text.items ≡ canonical accepted.now.desc) }
    ensures again { IfOk result (λ text. described text.items ≡ Ok accepted.now.desc) }
{
    canonical_text(alloc, &accepted.desc)
}

/// The same text of any description, accepted or not.
fn canonical_text(alloc: Global, desc: &Desc) -> Result<Vec<u8>, Memory>
    ensures exact { IfOk result (λ text. text.items ≡ canonical desc.now) }
{
    let feeds = feeds_text(alloc, &desc.feeds)?;
    with_tables(alloc, feeds, desc)
}

/// A law: the canonical text of an accepted description declares it.
pub fn accepted_is_declared_again()
    ensures law { DeclaresAgain }
{}

fn feeds_text(alloc: Global, feeds: &[Feed]) -> Result<Vec<u8>, Memory>
    ensures exact { IfOk result (λ text.
        text.items ≡ flat_map line_text (map feed_line feeds.now)) }
{
    let mut text = Vec::new(alloc);
    for feed in feeds {
        push_feed(alloc, &mut text, feed)?;
    }
    Ok(text)
}

fn push_feed(alloc: Global, text: &mut Vec<u8>, feed: &Feed) -> Result<(), Memory>
    ensures ok { OnOk result (text.new.items
        ≡ text.old.items ++ line_text (feed_line feed.now)) }
    ensures err { OnErr result (text.new.items ≡ text.old.items) }
{
    let line = WrittenLine::Feed {
        name: feed.name.as_bytes(),
        header: feed.header,
    };
    push_line(alloc, text, &line)
}

/// A text with the lines of all tables after it.
fn with_tables(alloc: Global, text: Vec<u8>, desc: &Desc) -> Result<Vec<u8>, Memory>
    ensures exact { IfOk result (λ made. made.items ≡ text.items
        ++ flat_map line_text (map (table_line desc.now) desc.now.tables)) }
{
    let mut text = text;
    for table in &desc.tables {
        push_table(alloc, &mut text, desc, table)?;
    }
    Ok(text)
}

fn push_table<'a>(
    alloc: Global,
    text: &mut Vec<u8>,
    desc: &'a Desc,
    table: &'a Table,
) -> Result<(), Memory>
    ensures ok { OnOk result (text.new.items
        ≡ text.old.items ++ line_text (table_line desc.now table.now)) }
    ensures err { OnErr result (text.new.items ≡ text.old.items) }
{
    match &table.kind {
        Kind::Raw { feed, time } => push_raw(alloc, text, desc, table, *feed, *time),
        Kind::Filter { src, conds, keep } => {
            push_filter(alloc, text, desc, table, *src, conds, keep)
        }
        Kind::Group { src, keys, aggs } => {
            push_group(alloc, text, desc, table, *src, keys, aggs)
        }
        Kind::Join { left, right, on } => { push_join(alloc, text, desc, table, *left, *right, on) }
    }
}

/// Writes the line of a table that is filled in this way.
fn push_filled(
    alloc: Global,
    text: &mut Vec<u8>,
    table: &Table,
    kind: WrittenKind,
) -> Result<(), Memory>
    ensures ok { OnOk result (text.new.items ≡ text.old.items ++ line_text (TableLine (record {
      name = table.now.name;
      width = decimal table.now.width;
      kind = written_kind kind.entry;
    }))) }
    ensures err { OnErr result (text.new.items ≡ text.old.items) }
{
    let width = number_text(alloc, table.width.ticks())?;
    let line = WrittenLine::Table(WrittenTable {
        name: table.name.as_bytes(),
        width: &width,
        kind,
    });
    push_line(alloc, text, &line)
}

fn push_raw(
    alloc: Global,
    text: &mut Vec<u8>,
    desc: &Desc,
    table: &Table,
    feed: u16,
    time: u16,
) -> Result<(), Memory>
    ensures ok { OnOk result (text.new.items ≡ text.old.items ++ line_text (TableLine (record {
      name = table.now.name;
      width = decimal table.now.width;
      kind = kind_spelled desc.now table.now.columns (Raw feed time);
    }))) }
    ensures err { OnErr result (text.new.items ≡ text.old.items) }
{
    let kind = WrittenKind::Raw {
        feed: feed_name(desc, feed),
        time: column_name(&table.columns, time),
        columns: columns_spelled(alloc, &table.columns)?,
    };
    push_filled(alloc, text, table, kind)
}

fn push_filter(
    alloc: Global,
    text: &mut Vec<u8>,
    desc: &Desc,
    table: &Table,
    source: Src,
    conds: &[Cond],
    keep: &[u16],
) -> Result<(), Memory>
    ensures ok { OnOk result (text.new.items ≡ text.old.items ++ line_text (TableLine (record {
      name = table.now.name;
      width = decimal table.now.width;
      kind = kind_spelled desc.now table.now.columns (Filter source conds.now keep.now);
    }))) }
    ensures err { OnErr result (text.new.items ≡ text.old.items) }
{
    let columns = table_columns(desc, source.table);
    let source = source_spelled(alloc, desc, source)?;
    let conds = conds_spelled(alloc, columns, conds)?;
    let keep = column_names(alloc, columns, keep)?;
    let kind = filter_words(alloc, &source, &conds, keep)?;
    push_filled(alloc, text, table, kind)
}

fn push_group<'a>(
    alloc: Global,
    text: &mut Vec<u8>,
    desc: &'a Desc,
    table: &'a Table,
    source: Src,
    keys: &[u16],
    aggs: &[Agg],
) -> Result<(), Memory>
    ensures ok { OnOk result (text.new.items ≡ text.old.items ++ line_text (TableLine (record {
      name = table.now.name;
      width = decimal table.now.width;
      kind = kind_spelled desc.now table.now.columns (Group source keys.now aggs.now);
    }))) }
    ensures err { OnErr result (text.new.items ≡ text.old.items) }
{
    let columns = table_columns(desc, source.table);
    let source = source_spelled(alloc, desc, source)?;
    let own = columns_from(&table.columns, keys.len());
    let keys = column_names(alloc, columns, keys)?;
    let aggs = aggs_spelled(alloc, columns, own, aggs)?;
    let kind = group_words(&source, keys, aggs);
    push_filled(alloc, text, table, kind)
}

fn push_join(
    alloc: Global,
    text: &mut Vec<u8>,
    desc: &Desc,
    table: &Table,
    left: Src,
    right: Src,
    on: &[Pair],
) -> Result<(), Memory>
    ensures ok { OnOk result (text.new.items ≡ text.old.items ++ line_text (TableLine (record {
      name = table.now.name;
      width = decimal table.now.width;
      kind = kind_spelled desc.now table.now.columns (Join left right on.now);
    }))) }
    ensures err { OnErr result (text.new.items ≡ text.old.items) }
{
    let left_columns = table_columns(desc, left.table);
    let right_columns = table_columns(desc, right.table);
    let left = source_spelled(alloc, desc, left)?;
    let right = source_spelled(alloc, desc, right)?;
    let on = pairs_spelled(alloc, left_columns, right_columns, on)?;
    let kind = join_words(&left, &right, on);
    push_filled(alloc, text, table, kind)
}
