//! The line of a join.

ghost use Rattle.std.specs.Prelude.{◌≡◌, map, option_map, IfOk};
ghost use Rattle.desc_lines.specs.WrittenKinds.{written_kind};
ghost use Rattle.desc_lines.specs.Written.{Join};
ghost use Rattle.desc_lines.specs.Cuts.{each_of};
ghost use Rattle.desc_lines.specs.Lines.{join_of, pair_of, pairs_of};

use crate::kind::WrittenKind;
use crate::parts::{WrittenPair, WrittenSource};
use crate::reading::cut::cut_word;
use crate::reading::source_of;
use crate::words::is_word;
use depot_cell::Memory;
use std::alloc::Global;

/// The join that words say: `S LO HI S LO HI on C=C [C=C ..]`.
pub fn read_join<'a>(alloc: Global, words: &[&'a [u8]]) -> Result<Option<WrittenKind<'a>>, Memory>
    ensures exact { IfOk result (λ kind.
        option_map written_kind kind ≡ join_of (map (λ word. word.now) words.now)) }
{
    match words {
        [
            left,
            left_lo,
            left_hi,
            right,
            right_lo,
            right_hi,
            on,
            words @ ..,
        ] => {
            if is_word(on, b"on") {
                let left = source_of(left, left_lo, left_hi);
                let right = source_of(right, right_lo, right_hi);
                Ok(join_kind(left, right, read_pairs(alloc, words)?))
            } else {
                Ok(None)
            }
        }
        _ => Ok(None),
    }
}

fn join_kind<'a>(
    left: WrittenSource<'a>,
    right: WrittenSource<'a>,
    on: Option<Vec<WrittenPair<'a>>>,
) -> Option<WrittenKind<'a>>
    ensures exact { option_map written_kind result
        ≡ option_map (λ on. Join left.entry right.entry on.items) on.entry }
{
    match on {
        Some(on) => Some(WrittenKind::Join { left, right, on }),
        None => None,
    }
}

#[tactic(auto, using(crate::proofs::FrontLemmas::some_words_say))]
fn read_pairs<'a>(alloc: Global, words: &[&'a [u8]]) -> Result<Option<Vec<WrittenPair<'a>>>, Memory>
    ensures exact { IfOk result (λ found. option_map (λ pairs. pairs.items) found
        ≡ pairs_of (map (λ word. word.now) words.now)) }
{
    if words.is_empty() {
        Ok(None)
    } else {
        each_pair(alloc, words)
    }
}

fn each_pair<'a>(alloc: Global, words: &[&'a [u8]]) -> Result<Option<Vec<WrittenPair<'a>>>, Memory>
    ensures exact { IfOk result (λ found. option_map (λ pairs. pairs.items) found
        ≡ each_of pair_of (map (λ word. word.now) words.now)) }
{
    let mut pairs = Vec::new(alloc);
    for word in words {
        match read_pair(word) {
            Some(pair) => pairs.push(pair)?,
            None => return Ok(None),
        }
    }
    Ok(Some(pairs))
}

fn read_pair<'a>(word: &'a [u8]) -> Option<WrittenPair<'a>>
    ensures exact { result ≡ pair_of word.now }
{
    match cut_word(word, b'=') {
        Some((left, right)) => Some(WrittenPair { left, right }),
        None => None,
    }
}
