//! What a line declares: a feed or a table, at the end of a description.
//!
//! Nothing is refused here: the causes were tested before.

ghost use Rattle.std.specs.Prelude.{◌≡◌, ◌≤◌, None, length, map, true, unwrap_or, All, IfOk};
ghost use Rattle.desc_lines.specs.Names.{is_name};
ghost use Rattle.desc_lines.specs.Written.{TableLine, WrittenAggOf, Join, Raw};
ghost use Rattle.desc_lines.specs.WrittenKinds.{written_kind};
ghost use Rattle.desc_lines.specs.WrittenLines.{written_line};
ghost use Rattle.desc_causes.specs.Causes.{cause_of};
ghost use Rattle.table_desc.specs.Declarations.{column_number, declared_filling, declared_filter};
ghost use Rattle.table_desc.specs.Declarations.{declared_group, declared_table};
ghost use Rattle.table_desc.specs.Declarations.{found, with_declared, with_feed};
ghost use Rattle.table_desc.specs.Declarations.{with_table, IsReady};
ghost use Rattle.desc_types.specs.Lookups.{find_feed};
ghost use Rattle.desc_causes.specs.Ticks.{read_width};

use crate::columns::{group_columns, joined_columns, kept_columns};
use crate::parts::{
    column_numbers, declared_aggs, declared_columns, declared_conds, declared_pairs,
    declared_source, name_text, time_number,
};
use depot_cell::Memory;
use desc_causes::read_width;
use desc_lines::{
    WrittenAgg, WrittenColumn, WrittenCond, WrittenKind, WrittenLine, WrittenPair, WrittenSource,
    WrittenTable,
};
use desc_types::{
    AcceptedDesc, Column, Desc, Feed, Kind, Src, Table, Width, place_of_feed, source_columns,
};
use std::alloc::Global;
use std::marker::Model;

/// What fills a table, and the columns that it has.
#[derive(Debug, Drop)]
struct Filling {
    columns: Vec<Column>,
    kind: Kind,
}

impl Model for Filling {
    ghost use Rattle.table_desc.specs.Declarations.{FillingOf};
    ghost use Rattle.desc_types.specs.Kinds.{kind_of};

    ghost Value = { FillingOf };

    ghost view = { λ filling. record {
      columns = filling.columns.items;
      kind = kind_of filling.kind;
    } };
}

/// A description with what a line declares.
pub fn with_declared(
    alloc: Global,
    accepted: AcceptedDesc,
    line: &WrittenLine,
) -> Result<Desc, Memory>
    requires fine { cause_of accepted.desc (written_line line.now) ≡ None }
    ensures exact { IfOk result (λ declared.
        declared ≡ with_declared accepted.desc (written_line line.now)) }
{
    match line {
        WrittenLine::Feed { name, header } => with_feed(alloc, accepted.desc, name, *header),
        WrittenLine::Table(table) => with_table(alloc, accepted, table),
    }
}

fn with_feed(alloc: Global, desc: Desc, name: &[u8], header: bool) -> Result<Desc, Memory>
    requires named { is_name name.now ≡ true }
    ensures exact { IfOk result (λ declared.
        declared ≡ with_feed desc (record { name = name.now; header = header })) }
{
    let mut desc = desc;
    let name = name_text(alloc, name)?;
    desc.feeds.push(Feed { name, header })?;
    Ok(desc)
}

fn with_table(alloc: Global, accepted: AcceptedDesc, table: &WrittenTable) -> Result<Desc, Memory>
    requires fine { cause_of accepted.desc (TableLine table.now) ≡ None }
    ensures exact { IfOk result (λ declared.
        declared ≡ with_table accepted.desc (declared_table accepted.desc table.now)) }
{
    let table = declared_table(alloc, &accepted, table)?;
    let mut desc = accepted.desc;
    desc.tables.push(table)?;
    Ok(desc)
}

fn declared_table(
    alloc: Global,
    accepted: &AcceptedDesc,
    table: &WrittenTable,
) -> Result<Table, Memory>
    requires fine { cause_of accepted.now.desc (TableLine table.now) ≡ None }
    ensures exact { IfOk result (λ declared.
        declared ≡ declared_table accepted.now.desc table.now) }
{
    let filling = declared_filling(alloc, &accepted.desc, &table.kind)?;
    let name = name_text(alloc, table.name)?;
    Ok(Table {
        name,
        columns: filling.columns,
        width: width_or_one(table.width),
        kind: filling.kind,
    })
}

fn width_or_one(word: &[u8]) -> Width
    ensures exact { result ≡ unwrap_or (read_width word.now) 1 }
{
    match read_width(word) {
        Some(width) => width,
        None => Width::new(1),
    }
}

fn declared_filling(alloc: Global, desc: &Desc, kind: &WrittenKind) -> Result<Filling, Memory>
    requires ready { IsReady desc.now (written_kind kind.now) }
    ensures exact { IfOk result (λ filling.
        filling ≡ declared_filling desc.now (written_kind kind.now)) }
{
    match kind {
        WrittenKind::Raw {
            feed,
            time,
            columns,
        } => raw_filling(alloc, desc, feed, time, columns),
        WrittenKind::Filter {
            source,
            conds,
            keep,
        } => {
            let columns = source_columns(desc, source);
            filter_filling(alloc, columns, declared_source(desc, source), conds, keep)
        }
        WrittenKind::Group { source, keys, aggs } => {
            let columns = source_columns(desc, source);
            group_filling(alloc, columns, declared_source(desc, source), keys, aggs)
        }
        WrittenKind::Join { left, right, on } => join_filling(alloc, desc, left, right, on),
    }
}

fn raw_filling(
    alloc: Global,
    desc: &Desc,
    feed: &[u8],
    time: &[u8],
    columns: &[WrittenColumn],
) -> Result<Filling, Memory>
    requires ready { IsReady desc.now (Raw feed.now time.now columns.now) }
    ensures exact { IfOk result (λ filling.
        filling ≡ declared_filling desc.now (Raw feed.now time.now columns.now)) }
{
    Ok(Filling {
        columns: declared_columns(alloc, columns)?,
        kind: Kind::Raw {
            feed: feed_number(desc, feed),
            time: time_number(columns, time),
        },
    })
}

fn feed_number(desc: &Desc, name: &[u8]) -> u16
    requires few { length desc.now.feeds ≤ 16 }
    ensures exact { result ≡ found (find_feed desc.now name.now) }
{
    match place_of_feed(&desc.feeds, name) {
        Some(feed) => feed as u16,
        None => 0,
    }
}

fn filter_filling(
    alloc: Global,
    columns: &[Column],
    source: Src,
    conds: &[WrittenCond],
    keep: &[&[u8]],
) -> Result<Filling, Memory>
    requires few { length columns.now ≤ 16 }
    ensures exact { IfOk result (λ filling.
        filling ≡ declared_filter columns.now source conds.now
        (map (column_number columns.now) (map (λ name. name.now) keep.now))) }
{
    let conds = declared_conds(alloc, columns, conds)?;
    let keep = column_numbers(alloc, columns, keep)?;
    Ok(Filling {
        columns: kept_columns(alloc, columns, &keep)?,
        kind: Kind::Filter {
            src: source,
            conds,
            keep,
        },
    })
}

fn group_filling(
    alloc: Global,
    columns: &[Column],
    source: Src,
    keys: &[&[u8]],
    aggs: &[WrittenAgg],
) -> Result<Filling, Memory>
    requires few { length columns.now ≤ 16 }
    requires named { All (λ (agg : WrittenAggOf). is_name agg.name ≡ true) aggs.now }
    ensures exact { IfOk result (λ filling.
        filling ≡ declared_group columns.now source
        (map (column_number columns.now) (map (λ name. name.now) keys.now)) aggs.now) }
{
    let keys = column_numbers(alloc, columns, keys)?;
    Ok(Filling {
        columns: group_columns(alloc, columns, &keys, aggs)?,
        kind: Kind::Group {
            src: source,
            keys,
            aggs: declared_aggs(alloc, columns, aggs)?,
        },
    })
}

fn join_filling(
    alloc: Global,
    desc: &Desc,
    left: &WrittenSource,
    right: &WrittenSource,
    on: &[WrittenPair],
) -> Result<Filling, Memory>
    requires ready { IsReady desc.now (Join left.now right.now on.now) }
    ensures exact { IfOk result (λ filling.
        filling ≡ declared_filling desc.now (Join left.now right.now on.now)) }
{
    let left_columns = source_columns(desc, left);
    let right_columns = source_columns(desc, right);
    Ok(Filling {
        columns: joined_columns(alloc, left_columns, right_columns)?,
        kind: Kind::Join {
            left: declared_source(desc, left),
            right: declared_source(desc, right),
            on: declared_pairs(alloc, left_columns, right_columns, on)?,
        },
    })
}
