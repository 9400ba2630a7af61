//! Reading: what the words of a command say, if there are as many as it has.

ghost use Rattle.std.specs.Prelude.{◌≡◌, map, option_map, IfOk};
ghost use Rattle.std.specs.List.{slice_split};
ghost use Rattle.depot_script.specs.Values.{written_command};
ghost use Rattle.depot_script.specs.Written.{alone, aside_of, command_of, deliver_of, each_item_of};
ghost use Rattle.depot_script.specs.Written.{is_command, is_semicolon, item_of, items_of, marks_of};
ghost use Rattle.depot_script.specs.Written.{Query, span_of};

use crate::written::{WrittenCommand, WrittenItem};
use depot_cell::Memory;
use desc_lines::is_word;
use std::alloc::Global;

/// Whether a word is one that commands begin with.
pub fn is_command(word: &[u8]) -> bool
    ensures exact { result ≡ is_command word.now }
{
    is_word(word, b"deliver")
        || is_word(word, b"drain")
        || is_word(word, b"query")
        || is_word(word, b"marks")
        || is_word(word, b"aside")
        || is_word(word, b"reclaim")
        || is_word(word, b"end")
}

/// What the words of a command say; `None` if there are not as many as it has.
pub fn read_written<'a>(
    alloc: Global,
    first: &[u8],
    others: &[&'a [u8]],
) -> Result<Option<WrittenCommand<'a>>, Memory>
    ensures exact { IfOk result (λ command. option_map written_command command
        ≡ command_of first.now (map (λ word. word.now) others.now)) }
{
    if is_word(first, b"deliver") {
        Ok(read_deliver(others))
    } else if is_word(first, b"drain") {
        Ok(alone(WrittenCommand::Drain, others))
    } else if is_word(first, b"query") {
        read_query(alloc, others)
    } else if is_word(first, b"marks") {
        Ok(read_marks(others))
    } else if is_word(first, b"aside") {
        Ok(read_aside(others))
    } else if is_word(first, b"reclaim") {
        Ok(alone(WrittenCommand::Reclaim, others))
    } else if is_word(first, b"end") {
        Ok(alone(WrittenCommand::End, others))
    } else {
        Ok(None)
    }
}

fn alone<'a>(command: WrittenCommand<'a>, others: &[&[u8]]) -> Option<WrittenCommand<'a>>
    ensures exact { option_map written_command result
        ≡ alone (written_command command.entry) (map (λ word. word.now) others.now) }
{
    match others {
        [] => Some(command),
        _ => None,
    }
}

fn read_deliver<'a>(words: &[&'a [u8]]) -> Option<WrittenCommand<'a>>
    ensures exact { option_map written_command result
        ≡ deliver_of (map (λ word. word.now) words.now) }
{
    match words {
        [feed, number, closes, size] => Some(WrittenCommand::Deliver {
            feed,
            number,
            closes,
            size,
        }),
        _ => None,
    }
}

fn read_marks<'a>(words: &[&'a [u8]]) -> Option<WrittenCommand<'a>>
    ensures exact { option_map written_command result
        ≡ marks_of (map (λ word. word.now) words.now) }
{
    match words {
        [table, from, to] => Some(WrittenCommand::Marks(span_of(table, from, to, None))),
        _ => None,
    }
}

fn read_aside<'a>(words: &[&'a [u8]]) -> Option<WrittenCommand<'a>>
    ensures exact { option_map written_command result
        ≡ aside_of (map (λ word. word.now) words.now) }
{
    match words {
        [feed] => Some(WrittenCommand::Aside { feed }),
        _ => None,
    }
}

fn read_query<'a>(alloc: Global, words: &[&'a [u8]]) -> Result<Option<WrittenCommand<'a>>, Memory>
    ensures exact { IfOk result (λ command. option_map written_command command
        ≡ option_map Query (items_of (map (λ word. word.now) words.now))) }
{
    let parts = cut_items(alloc, words)?;
    match each_item(alloc, &parts)? {
        Some(items) => Ok(Some(WrittenCommand::Query(items))),
        None => Ok(None),
    }
}

/// The words of each item.
fn cut_items<'s, 'a>(alloc: Global, words: &'s [&'a [u8]]) -> Result<Vec<&'s [&'a [u8]]>, Memory>
    ensures exact { IfOk result (λ parts. map (λ part. map (λ word. word.now) part.now) parts.items
        ≡ slice_split is_semicolon (map (λ word. word.now) words.now)) }
{
    Ok(words.split(|word| is_semicolon(word)).collect(alloc)?)
}

fn is_semicolon(word: &[u8]) -> bool
    ensures exact { result ≡ is_semicolon word.now }
{
    is_word(word, b";")
}

fn each_item<'a>(
    alloc: Global,
    parts: &[&[&'a [u8]]],
) -> Result<Option<Vec<WrittenItem<'a>>>, Memory>
    ensures exact { IfOk result (λ found. option_map (λ items. items.items) found
        ≡ each_item_of (map (λ part. map (λ word. word.now) part.now) parts.now)) }
{
    let mut items = Vec::new(alloc);
    for part in parts {
        match read_item(part) {
            Some(item) => items.push(item)?,
            None => return Ok(None),
        }
    }
    Ok(Some(items))
}

fn read_item<'a>(words: &[&'a [u8]]) -> Option<WrittenItem<'a>>
    ensures exact { result ≡ item_of (map (λ word. word.now) words.now) }
{
    match words {
        [table, from, to] => Some(span_of(table, from, to, None)),
        [table, from, to, level] => Some(span_of(table, from, to, Some(level))),
        _ => None,
    }
}

fn span_of<'a>(
    table: &'a [u8],
    from: &'a [u8],
    to: &'a [u8],
    level: Option<&'a [u8]>,
) -> WrittenItem<'a>
    ensures exact { result
        ≡ span_of table.now from.now to.now (option_map (λ level. level.now) level.entry) }
{
    WrittenItem {
        table,
        from,
        to,
        level,
    }
}
