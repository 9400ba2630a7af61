//! Why a line that has a shape is bad: the tests of the causes, in their order.

ghost use Rattle.std.specs.Prelude.{◌≡◌, map, IfOk};
ghost use Rattle.desc_lines.specs.Written.{TableLine};
ghost use Rattle.desc_lines.specs.WrittenLines.{written_line};
ghost use Rattle.desc_causes.specs.Causes.{cause_of, feed_tests, first_cause, written_names};

use crate::absent::{lacks_column, lacks_feed, lacks_source};
use crate::cause::DescCause;
use crate::fitting::{has_bad_span, has_bad_width, makes_too_many};
use crate::named::{has_bad_name, has_double_name, written_names};
use crate::typed::has_bad_type;
use depot_cell::Memory;
use desc_lines::{WrittenLine, WrittenTable, is_name};
use desc_types::{Desc, place_of_feed};
use std::alloc::Global;

/// The most feeds of a description.
const MOST_FEEDS: usize = 16;

/// Why a line is bad after what was declared before it, if it is.
pub fn cause_of(alloc: Global, desc: &Desc, line: &WrittenLine) -> Result<Option<DescCause>, Memory>
    ensures exact { IfOk result (λ cause. cause ≡ cause_of desc.now (written_line line.now)) }
{
    match line {
        WrittenLine::Feed { name, .. } => Ok(feed_cause(desc, name)),
        WrittenLine::Table(table) => table_cause(alloc, desc, table),
    }
}

fn feed_cause(desc: &Desc, name: &[u8]) -> Option<DescCause>
    ensures exact { result ≡ first_cause (feed_tests desc.now name.now) }
{
    if !is_name(name) {
        Some(DescCause::BadName)
    } else if place_of_feed(&desc.feeds, name).is_some() {
        Some(DescCause::DoubleName)
    } else if desc.feeds.len() >= MOST_FEEDS {
        Some(DescCause::TooMany)
    } else {
        None
    }
}

fn table_cause(
    alloc: Global,
    desc: &Desc,
    table: &WrittenTable,
) -> Result<Option<DescCause>, Memory>
    ensures exact { IfOk result (λ cause. cause ≡ cause_of desc.now (TableLine table.now)) }
{
    let names = written_names(alloc, &table.kind)?;
    Ok(first_cause(alloc, desc, table, &names))
}

/// The first cause that speaks against a table, whose written columns have these names.
fn first_cause(
    alloc: Global,
    desc: &Desc,
    table: &WrittenTable,
    names: &[&[u8]],
) -> Option<DescCause>
    requires named { map (λ name. name.now) names.now ≡ written_names table.now.kind }
    ensures exact { result ≡ cause_of desc.now (TableLine table.now) }
{
    if has_bad_name(table) {
        Some(DescCause::BadName)
    } else if has_double_name(desc, table.name, names) {
        Some(DescCause::DoubleName)
    } else if lacks_feed(desc, &table.kind) {
        Some(DescCause::NoFeed)
    } else if lacks_source(desc, &table.kind) {
        Some(DescCause::NoSource)
    } else if lacks_column(desc, &table.kind) {
        Some(DescCause::NoColumn)
    } else if has_bad_type(alloc, desc, &table.kind) {
        Some(DescCause::BadType)
    } else if has_bad_width(desc, table.width, &table.kind) {
        Some(DescCause::BadWidth)
    } else if has_bad_span(desc, table.width, &table.kind) {
        Some(DescCause::BadSpan)
    } else if makes_too_many(desc, &table.kind) {
        Some(DescCause::TooMany)
    } else {
        None
    }
}
