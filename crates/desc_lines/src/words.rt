//! The words of a line: what stands between its spaces and tabs.
//!
//! Other bytes, a CR too, belong to words.

ghost use Rattle.std.specs.Prelude.{◌≡◌, map, IfOk};
ghost use Rattle.std.specs.Str.{bytes_eq};
ghost use Rattle.desc_lines.specs.Words.{begins_comment, is_blank, is_go, is_skipped, words};

use depot_cell::Memory;
use std::alloc::Global;

/// The words of a line, which is given without its LF.
pub fn words_of<'a>(alloc: Global, line: &'a [u8]) -> Result<Vec<&'a [u8]>, Memory>
    ensures exact { IfOk result (λ found. map (λ word. word.now) found.items ≡ words line.now) }
{
    let words = line
        .split(|byte| is_blank(*byte))
        .filter(|word| !word.is_empty());
    Ok(words.collect(alloc)?)
}

fn is_blank(byte: u8) -> bool
    ensures exact { result ≡ is_blank byte }
{
    byte == b' ' || byte == b'\t'
}

/// Whether a word is this text.
pub fn is_word(word: &[u8], text: &[u8]) -> bool
    ensures exact { result ≡ bytes_eq word.now text.now }
{
    word == text
}

/// Whether a word begins with `#`.
pub fn begins_comment(word: &[u8]) -> bool
    ensures exact { result ≡ begins_comment word.now }
{
    match word {
        [first, ..] => *first == b'#',
        [] => false,
    }
}

/// Whether a line of these words is skipped: it has none, or its first begins with `#`.
pub fn is_skipped(words: &[&[u8]]) -> bool
    ensures exact { result ≡ is_skipped (map (λ word. word.now) words.now) }
{
    match words {
        [first, ..] => begins_comment(first),
        [] => true,
    }
}

/// Whether these are the words of the line that ends a description: only `go`.
pub fn is_go(words: &[&[u8]]) -> bool
    ensures exact { result ≡ is_go (map (λ word. word.now) words.now) }
{
    match words {
        [word] => is_word(word, b"go"),
        _ => false,
    }
}
