//! Whole answers of many lines: a first line that counts the others, and then the others. Their
//! forms stand in `docs/FORMATS.md`.
//!
//! A feed or a table that is not there has no bytes as its name. Only want of memory is answered in
//! place of a text.

ghost use Rattle.std.specs.Prelude.{◌≡◌, ◌++◌, IfOk};
ghost use Rattle.depot_script.specs.Texts.{aside_line_text, asides_head_text, asides_text};
ghost use Rattle.depot_script.specs.Texts.{mark_line_text, marks_head_text, marks_text};

use crate::line::Line;
use crate::names::{feed_name, table_name};
use depot_cell::Memory;
use desc_types::AcceptedDesc;
use std::alloc::Global;
use view_meaning::{Aside, MarkItem};

/// The marks of partitions, in their order. `place` is the place in the journal at which they are
/// told.
pub fn marks_text(
    alloc: Global,
    served: &AcceptedDesc,
    place: u64,
    items: &[MarkItem],
) -> Result<Vec<u8>, Memory>
    ensures exact { IfOk result (λ text. text.items ≡ marks_text served.now.desc place items.now) }
{
    let mut line = marks_head(alloc, place, items.len() as u64)?;
    for item in items {
        line = with_mark(served, line, item)?;
    }
    Ok(line.into_text())
}

/// Writes the first line of marks, and begins the next.
fn marks_head(alloc: Global, place: u64, parts: u64) -> Result<Line, Memory>
    ensures exact { IfOk result (λ line. line ≡ marks_head_text place parts) }
{
    Line::new(alloc)
        .number(b"marks at ", place)?
        .number(b" parts ", parts)?
        .next_line()
}

/// Writes the line of a partition and its mark, and begins the next.
fn with_mark(served: &AcceptedDesc, line: Line, item: &MarkItem) -> Result<Line, Memory>
    ensures exact { IfOk result (λ next. next ≡ line ++ mark_line_text served.now.desc item.now) }
{
    line.name(b"part ", table_name(served, item.key.table))?
        .number(b" ", item.key.part)?
        .mark(item.mark)?
        .next_line()
}

/// The rows of a feed that were set aside, in their order. `place` is the place in the journal at
/// which they are told.
pub fn asides_text(
    alloc: Global,
    served: &AcceptedDesc,
    feed: u16,
    place: u64,
    asides: &[Aside],
) -> Result<Vec<u8>, Memory>
    ensures exact { IfOk result (λ text.
        text.items ≡ asides_text served.now.desc feed place asides.now) }
{
    let mut line = asides_head(alloc, served, feed, place, asides.len() as u64)?;
    for aside in asides {
        line = with_aside(served, feed, line, aside)?;
    }
    Ok(line.into_text())
}

/// Writes the first line of the rows of a feed, and begins the next.
fn asides_head(
    alloc: Global,
    served: &AcceptedDesc,
    feed: u16,
    place: u64,
    rows: u64,
) -> Result<Line, Memory>
    ensures exact { IfOk result (λ line. line ≡ asides_head_text served.now.desc feed place rows) }
{
    Line::new(alloc)
        .name(b"asides ", feed_name(served, feed))?
        .number(b" at ", place)?
        .number(b" rows ", rows)?
        .next_line()
}

/// Writes the line of a row of a feed, and begins the next.
fn with_aside(served: &AcceptedDesc, feed: u16, line: Line, aside: &Aside) -> Result<Line, Memory>
    ensures exact { IfOk result (λ next.
        next ≡ line ++ aside_line_text served.now.desc feed aside.now) }
{
    line.name(b"aside ", feed_name(served, feed))?
        .number(b" ", u64::from(aside.number))?
        .number(b" record ", u64::from(aside.row))?
        .name(b" table ", table_name(served, aside.table))?
        .number(b" part ", aside.part)?
        .next_line()
}
