//! Writing: the text of a line.

mod line_words;

ghost use Rattle.std.specs.Prelude.{◌≡◌, ◌++◌, ◌∷◌, [], codes, map, IfOk, OnErr, OnOk};
ghost use Rattle.desc_lines.specs.Written.{FeedLine, Filter, Group, Join, Raw, TableLine};
ghost use Rattle.desc_lines.specs.WrittenLines.{written_line};
ghost use Rattle.desc_lines.specs.Words.{spaced};
ghost use Rattle.desc_lines.specs.LineTexts.{line_text, table_words, view_front};

use crate::kind::WrittenKind;
use crate::line::{WrittenLine, WrittenTable};
use crate::parts::{WrittenAgg, WrittenColumn, WrittenCond, WrittenPair, WrittenSource};
use depot_cell::Memory;
use line_words::LineWords;
use std::alloc::Global;

/// Writes a line at the end of a text. If there is no memory the text is as before.
pub fn push_line(alloc: Global, text: &mut Vec<u8>, line: &WrittenLine) -> Result<(), Memory>
    ensures ok { OnOk result (text.new.items
        ≡ text.old.items ++ line_text (written_line line.now)) }
    ensures err { OnErr result (text.new.items ≡ text.old.items) }
{
    let line = line_text(alloc, line)?;
    text.extend_from_slice(&line)?;
    Ok(())
}

fn line_text(alloc: Global, line: &WrittenLine) -> Result<Vec<u8>, Memory>
    ensures exact { IfOk result (λ text. text.items ≡ line_text (written_line line.now)) }
{
    match line {
        WrittenLine::Feed { name, header } => feed_text(alloc, name, *header),
        WrittenLine::Table(table) => table_text(alloc, table),
    }
}

fn feed_text(alloc: Global, name: &[u8], header: bool) -> Result<Vec<u8>, Memory>
    ensures exact { IfOk result (λ text. text.items ≡ line_text (FeedLine name.now header)) }
{
    let line = LineWords::new(alloc, b"feed")?.word(name)?;
    if header {
        line.word(b"header")?.end()
    } else {
        line.end()
    }
}

fn table_text(alloc: Global, table: &WrittenTable) -> Result<Vec<u8>, Memory>
    ensures exact { IfOk result (λ text. text.items ≡ line_text (TableLine table.now)) }
{
    match &table.kind {
        WrittenKind::Raw {
            feed,
            time,
            columns,
        } => { raw_text(alloc, table.name, table.width, feed, time, columns) }
        WrittenKind::Filter {
            source,
            conds,
            keep,
        } => { filter_text(alloc, table.name, table.width, source, conds, keep) }
        WrittenKind::Group { source, keys, aggs } => {
            group_text(alloc, table.name, table.width, source, keys, aggs)
        }
        WrittenKind::Join { left, right, on } => {
            join_text(alloc, table.name, table.width, left, right, on)
        }
    }
}

fn raw_text(
    alloc: Global,
    name: &[u8],
    width: &[u8],
    feed: &[u8],
    time: &[u8],
    columns: &[WrittenColumn],
) -> Result<Vec<u8>, Memory>
    ensures exact { IfOk result (λ text. text.items
        ≡ spaced (table_words name.now width.now (Raw feed.now time.now columns.now)) ++ 10 ∷ []) }
{
    LineWords::new(alloc, b"raw")?
        .words(&[name, b"feed", feed, b"width", width, b"time", time, b"cols"])?
        .columns(columns)?
        .end()
}

fn filter_text(
    alloc: Global,
    name: &[u8],
    width: &[u8],
    source: &WrittenSource,
    conds: &[WrittenCond],
    keep: &[&[u8]],
) -> Result<Vec<u8>, Memory>
    ensures exact { IfOk result (λ text. text.items ≡ spaced (table_words name.now width.now
        (Filter source.now conds.now (map (λ word. word.now) keep.now))) ++ 10 ∷ []) }
{
    view(alloc, name, width, b"filter", source)?
        .word(b"where")?
        .conds(conds)?
        .word(b"keep")?
        .words(keep)?
        .end()
}

fn group_text(
    alloc: Global,
    name: &[u8],
    width: &[u8],
    source: &WrittenSource,
    keys: &[&[u8]],
    aggs: &[WrittenAgg],
) -> Result<Vec<u8>, Memory>
    ensures exact { IfOk result (λ text. text.items ≡ spaced (table_words name.now width.now
        (Group source.now (map (λ word. word.now) keys.now) aggs.now)) ++ 10 ∷ []) }
{
    view(alloc, name, width, b"group", source)?
        .word(b"by")?
        .words(keys)?
        .word(b"agg")?
        .aggs(aggs)?
        .end()
}

fn join_text(
    alloc: Global,
    name: &[u8],
    width: &[u8],
    left: &WrittenSource,
    right: &WrittenSource,
    on: &[WrittenPair],
) -> Result<Vec<u8>, Memory>
    ensures exact { IfOk result (λ text. text.items ≡ spaced (table_words name.now width.now
        (Join left.now right.now on.now)) ++ 10 ∷ []) }
{
    view(alloc, name, width, b"join", left)?
        .source(right)?
        .word(b"on")?
        .pairs(on)?
        .end()
}

/// The front of the line of a view: `view V width W KIND S LO HI`.
fn view(
    alloc: Global,
    name: &[u8],
    width: &[u8],
    kind: &[u8],
    source: &WrittenSource,
) -> Result<LineWords, Memory>
    ensures exact { IfOk result (λ line. line
        ≡ spaced (codes "view" ∷ view_front name.now width.now kind.now source.now)) }
{
    LineWords::new(alloc, b"view")?
        .words(&[name, b"width", width, kind])?
        .source(source)
}
