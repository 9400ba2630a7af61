//! The line of a raw table.

ghost use Rattle.std.specs.Prelude.{◌≡◌, map, option_map, IfOk};
ghost use Rattle.desc_lines.specs.WrittenKinds.{written_kind};
ghost use Rattle.desc_lines.specs.WrittenLines.{written_line};
ghost use Rattle.desc_lines.specs.Written.{Raw};
ghost use Rattle.desc_lines.specs.Cuts.{each_of};
ghost use Rattle.desc_lines.specs.Lines.{are_raw_keywords, column_of, columns_of, raw_of};

use crate::kind::WrittenKind;
use crate::line::WrittenLine;
use crate::parts::WrittenColumn;
use crate::reading::cut::cut_word;
use crate::reading::table_line;
use crate::words::is_word;
use depot_cell::Memory;
use std::alloc::Global;

/// The raw table that words say: `T feed F width W time C cols C:TYPE ..`.
pub fn read_raw_table<'a>(
    alloc: Global,
    words: &[&'a [u8]],
) -> Result<Option<WrittenLine<'a>>, Memory>
    ensures exact { IfOk result (λ line.
        option_map written_line line ≡ raw_of (map (λ word. word.now) words.now)) }
{
    match words {
        [
            name,
            feed,
            of_feed,
            width,
            ticks,
            time,
            of_time,
            cols,
            words @ ..,
        ] => {
            if are_raw_keywords(feed, width, time, cols) {
                Ok(table_line(
                    name,
                    ticks,
                    raw_kind(of_feed, of_time, read_columns(alloc, words)?),
                ))
            } else {
                Ok(None)
            }
        }
        _ => Ok(None),
    }
}

fn are_raw_keywords(feed: &[u8], width: &[u8], time: &[u8], cols: &[u8]) -> bool
    ensures exact { result ≡ are_raw_keywords feed.now width.now time.now cols.now }
{
    is_word(feed, b"feed")
        && is_word(width, b"width")
        && is_word(time, b"time")
        && is_word(cols, b"cols")
}

fn raw_kind<'a>(
    feed: &'a [u8],
    time: &'a [u8],
    columns: Option<Vec<WrittenColumn<'a>>>,
) -> Option<WrittenKind<'a>>
    ensures exact { option_map written_kind result
        ≡ option_map (λ columns. Raw feed.now time.now columns.items) columns.entry }
{
    match columns {
        Some(columns) => Some(WrittenKind::Raw {
            feed,
            time,
            columns,
        }),
        None => None,
    }
}

#[tactic(auto, using(crate::proofs::FrontLemmas::some_words_say))]
fn read_columns<'a>(
    alloc: Global,
    words: &[&'a [u8]],
) -> Result<Option<Vec<WrittenColumn<'a>>>, Memory>
    ensures exact { IfOk result (λ found. option_map (λ columns. columns.items) found
        ≡ columns_of (map (λ word. word.now) words.now)) }
{
    if words.is_empty() {
        Ok(None)
    } else {
        each_column(alloc, words)
    }
}

fn each_column<'a>(
    alloc: Global,
    words: &[&'a [u8]],
) -> Result<Option<Vec<WrittenColumn<'a>>>, Memory>
    ensures exact { IfOk result (λ found. option_map (λ columns. columns.items) found
        ≡ each_of column_of (map (λ word. word.now) words.now)) }
{
    let mut columns = Vec::new(alloc);
    for word in words {
        match read_column(word) {
            Some(column) => columns.push(column)?,
            None => return Ok(None),
        }
    }
    Ok(Some(columns))
}

fn read_column<'a>(word: &'a [u8]) -> Option<WrittenColumn<'a>>
    ensures exact { result ≡ column_of word.now }
{
    match cut_word(word, b':') {
        Some((name, ty)) => Some(WrittenColumn { name, ty }),
        None => None,
    }
}
