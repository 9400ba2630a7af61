//! Reading: what the words of a line say, if they have one of the five shapes.

mod cut;
mod filter;
mod group;
mod join;
mod raw_table;

ghost use Rattle.std.specs.Prelude.{◌≡◌, map, option_map, IfOk};
ghost use Rattle.desc_lines.specs.WrittenKinds.{written_kind};
ghost use Rattle.desc_lines.specs.WrittenLines.{written_line};
ghost use Rattle.desc_lines.specs.Lines.{feed_of, line_of, shape_of, source_of, table_of};
ghost use Rattle.desc_lines.specs.Lines.{view_kind_of, view_of};

use crate::kind::WrittenKind;
use crate::line::{WrittenLine, WrittenTable};
use crate::parts::WrittenSource;
use crate::words::is_word;
use depot_cell::Memory;
use filter::read_filter;
use group::read_group;
use join::read_join;
use raw_table::read_raw_table;
use std::alloc::Global;

/// What the words of a line say; `None` if they have none of the five shapes.
pub fn read_line<'a>(alloc: Global, words: &[&'a [u8]]) -> Result<Option<WrittenLine<'a>>, Memory>
    ensures exact { IfOk result (λ line.
        option_map written_line line ≡ line_of (map (λ word. word.now) words.now)) }
{
    match words {
        [keyword, words @ ..] => read_shape(alloc, keyword, words),
        [] => Ok(None),
    }
}

fn read_shape<'a>(
    alloc: Global,
    keyword: &[u8],
    words: &[&'a [u8]],
) -> Result<Option<WrittenLine<'a>>, Memory>
    ensures exact { IfOk result (λ line.
        option_map written_line line ≡ shape_of keyword.now (map (λ word. word.now) words.now)) }
{
    if is_word(keyword, b"feed") {
        Ok(read_feed(words))
    } else if is_word(keyword, b"raw") {
        read_raw_table(alloc, words)
    } else if is_word(keyword, b"view") {
        read_view(alloc, words)
    } else {
        Ok(None)
    }
}

fn read_feed<'a>(words: &[&'a [u8]]) -> Option<WrittenLine<'a>>
    ensures exact { option_map written_line result ≡ feed_of (map (λ word. word.now) words.now) }
{
    match words {
        [name] => Some(WrittenLine::Feed {
            name,
            header: false,
        }),
        [name, header] if is_word(header, b"header") => Some(WrittenLine::Feed {
            name,
            header: true,
        }),
        _ => None,
    }
}

fn read_view<'a>(alloc: Global, words: &[&'a [u8]]) -> Result<Option<WrittenLine<'a>>, Memory>
    ensures exact { IfOk result (λ line.
        option_map written_line line ≡ view_of (map (λ word. word.now) words.now)) }
{
    match words {
        [name, width, ticks, keyword, words @ ..] => {
            if is_word(width, b"width") {
                Ok(table_line(name, ticks, read_view_kind(alloc, keyword, words)?))
            } else {
                Ok(None)
            }
        }
        _ => Ok(None),
    }
}

fn read_view_kind<'a>(
    alloc: Global,
    keyword: &[u8],
    words: &[&'a [u8]],
) -> Result<Option<WrittenKind<'a>>, Memory>
    ensures exact { IfOk result (λ kind. option_map written_kind kind
        ≡ view_kind_of keyword.now (map (λ word. word.now) words.now)) }
{
    if is_word(keyword, b"filter") {
        read_filter(alloc, words)
    } else if is_word(keyword, b"group") {
        read_group(alloc, words)
    } else if is_word(keyword, b"join") {
        read_join(alloc, words)
    } else {
        Ok(None)
    }
}

fn table_line<'a>(
    name: &'a [u8],
    width: &'a [u8],
    kind: Option<WrittenKind<'a>>,
) -> Option<WrittenLine<'a>>
    ensures exact { option_map written_line result
        ≡ table_of name.now width.now (option_map written_kind kind.entry) }
{
    match kind {
        Some(kind) => Some(WrittenLine::Table(WrittenTable { name, width, kind })),
        None => None,
    }
}

/// The source that three words are: `S LO HI`.
pub fn source_of<'a>(table: &'a [u8], lo: &'a [u8], hi: &'a [u8]) -> WrittenSource<'a>
    ensures exact { result ≡ source_of table.now lo.now hi.now }
{
    WrittenSource { table, lo, hi }
}

/// The same words in a list of their own.
pub fn copy_words<'a>(alloc: Global, words: &[&'a [u8]]) -> Result<Vec<&'a [u8]>, Memory>
    ensures exact { IfOk result (λ copy.
        map (λ word. word.now) copy.items ≡ map (λ word. word.now) words.now) }
{
    Ok(Vec::from_slice(alloc, words)?)
}
