//! The line of a group.

ghost use Rattle.std.specs.Prelude.{◌≡◌, ◌<◌, length, map, option_and_then, option_map, position};
ghost use Rattle.std.specs.Prelude.{IfOk, IfSome};
ghost use Rattle.desc_lines.specs.WrittenKinds.{written_kind};
ghost use Rattle.desc_lines.specs.Cuts.{cut_at};
ghost use Rattle.desc_lines.specs.Lines.{agg_named, agg_of, agg_over, aggs_of, each_agg_of, fun_of};
ghost use Rattle.desc_lines.specs.Lines.{group_of, grouped, is_agg};

use crate::fun::Fun;
use crate::kind::WrittenKind;
use crate::parts::{WrittenAgg, WrittenSource};
use crate::reading::cut::cut_word;
use crate::reading::{copy_words, source_of};
use crate::words::is_word;
use depot_cell::Memory;
use std::alloc::Global;

/// The group that words say: `S LO HI by C .. agg AGG as NAME [AGG as NAME ..]`.
pub fn read_group<'a>(alloc: Global, words: &[&'a [u8]]) -> Result<Option<WrittenKind<'a>>, Memory>
    ensures exact { IfOk result (λ kind.
        option_map written_kind kind ≡ group_of (map (λ word. word.now) words.now)) }
{
    match words {
        [table, lo, hi, by, words @ ..] => {
            if is_word(by, b"by") {
                read_grouped(alloc, source_of(table, lo, hi), words)
            } else {
                Ok(None)
            }
        }
        _ => Ok(None),
    }
}

fn read_grouped<'a>(
    alloc: Global,
    source: WrittenSource<'a>,
    words: &[&'a [u8]],
) -> Result<Option<WrittenKind<'a>>, Memory>
    ensures exact { IfOk result (λ kind. option_map written_kind kind
        ≡ option_and_then (λ parts. grouped source.entry parts.0 (aggs_of parts.1))
        (cut_at is_agg (map (λ word. word.now) words.now))) }
{
    match cut_keys(words) {
        Some((keys, words)) => grouped(alloc, source, keys, read_aggs(alloc, words)?),
        None => Ok(None),
    }
}

/// The keys, and the words after `agg`.
fn cut_keys<'s, 'a>(words: &'s [&'a [u8]]) -> Option<(&'s [&'a [u8]], &'s [&'a [u8]])>
    ensures exact { option_map (λ parts. (
      map (λ word. word.now) parts.0.now,
      map (λ word. word.now) parts.1.now,
    )) result
        ≡ cut_at is_agg (map (λ word. word.now) words.now) }
{
    match place_of_agg(words) {
        Some(place) => Some((&words[..place], &words[place + 1..])),
        None => None,
    }
}

fn place_of_agg(words: &[&[u8]]) -> Option<usize>
    ensures exact { result ≡ position (λ word. is_agg word.now) words.now }
    ensures within { IfSome result (λ place. place < length words.now) }
{
    words.iter().position(|word| is_word(word, b"agg"))
}

fn grouped<'a>(
    alloc: Global,
    source: WrittenSource<'a>,
    keys: &[&'a [u8]],
    aggs: Option<Vec<WrittenAgg<'a>>>,
) -> Result<Option<WrittenKind<'a>>, Memory>
    ensures exact { IfOk result (λ kind. option_map written_kind kind
        ≡ grouped source.entry (map (λ word. word.now) keys.now)
        (option_map (λ aggs. aggs.items) aggs.entry)) }
{
    match aggs {
        Some(aggs) => {
            if keys.is_empty() {
                return Ok(None);
            }
            let keys = copy_words(alloc, keys)?;
            Ok(Some(WrittenKind::Group { source, keys, aggs }))
        }
        None => Ok(None),
    }
}

#[tactic(auto, using(crate::proofs::FrontLemmas::some_words_say))]
fn read_aggs<'a>(alloc: Global, words: &[&'a [u8]]) -> Result<Option<Vec<WrittenAgg<'a>>>, Memory>
    ensures exact { IfOk result (λ found. option_map (λ aggs. aggs.items) found
        ≡ aggs_of (map (λ word. word.now) words.now)) }
{
    if words.is_empty() {
        Ok(None)
    } else {
        each_agg(alloc, words)
    }
}

fn each_agg<'a>(alloc: Global, words: &[&'a [u8]]) -> Result<Option<Vec<WrittenAgg<'a>>>, Memory>
    ensures exact { IfOk result (λ found. option_map (λ aggs. aggs.items) found
        ≡ each_agg_of (map (λ word. word.now) words.now)) }
{
    let mut aggs = Vec::new(alloc);
    let mut words = words;
    while let [agg, before_name, name, others @ ..] = words {
        match read_agg(agg, before_name, name) {
            Some(agg) => aggs.push(agg)?,
            None => return Ok(None),
        }
        words = others;
    }
    if words.is_empty() {
        Ok(Some(aggs))
    } else {
        Ok(None)
    }
}

fn read_agg<'a>(agg: &'a [u8], before_name: &[u8], name: &'a [u8]) -> Option<WrittenAgg<'a>>
    ensures exact { result ≡ agg_of agg.now before_name.now name.now }
{
    if is_word(before_name, b"as") {
        read_named_agg(agg, name)
    } else {
        None
    }
}

fn read_named_agg<'a>(agg: &'a [u8], name: &'a [u8]) -> Option<WrittenAgg<'a>>
    ensures exact { result ≡ agg_named agg.now name.now }
{
    if is_word(agg, b"count") {
        return Some(WrittenAgg {
            fun: Fun::Count,
            column: None,
            name,
        });
    }
    match cut_word(agg, b':') {
        Some((fun, column)) => agg_over(read_fun(fun), column, name),
        None => None,
    }
}

fn agg_over<'a>(fun: Option<Fun>, column: &'a [u8], name: &'a [u8]) -> Option<WrittenAgg<'a>>
    ensures exact { result ≡ agg_over fun column.now name.now }
{
    match fun {
        Some(fun) => Some(WrittenAgg {
            fun,
            column: Some(column),
            name,
        }),
        None => None,
    }
}

fn read_fun(word: &[u8]) -> Option<Fun>
    ensures exact { result ≡ fun_of word.now }
{
    if is_word(word, b"sum") {
        Some(Fun::Sum)
    } else if is_word(word, b"least") {
        Some(Fun::Least)
    } else if is_word(word, b"greatest") {
        Some(Fun::Greatest)
    } else {
        None
    }
}
