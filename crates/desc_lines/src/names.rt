//! Names: which words may name a feed, a table or a column.

ghost use Rattle.std.specs.Prelude.{◌≡◌};
ghost use Rattle.std.specs.Str.{bytes_eq};
ghost use Rattle.std.specs.List.{list_all, list_any};
ghost use Rattle.desc_lines.specs.Names.{begins_name, is_letter, is_name, is_name_byte, reserved};

use crate::words::is_word;

/// The most bytes of a name.
const MOST_BYTES: usize = 32;

/// Whether a word is a name: 1 to 32 letters, digits and `_`, a letter first. The words `and`,
/// `agg`, `as`, `by`, `keep`, `on` and `where` are no names.
pub fn is_name(word: &[u8]) -> bool
    ensures exact { result ≡ is_name word.now }
{
    begins_name(word) && word.len() <= MOST_BYTES && are_name_bytes(word) && !is_reserved(word)
}

fn begins_name(word: &[u8]) -> bool
    ensures exact { result ≡ begins_name word.now }
{
    match word {
        [first, ..] => is_letter(*first),
        [] => false,
    }
}

fn are_name_bytes(word: &[u8]) -> bool
    ensures exact { result ≡ list_all is_name_byte word.now }
{
    word.iter().all(|byte| is_name_byte(*byte))
}

fn is_name_byte(byte: u8) -> bool
    ensures exact { result ≡ is_name_byte byte }
{
    is_letter(byte) || byte.is_ascii_digit() || byte == b'_'
}

fn is_letter(byte: u8) -> bool
    ensures exact { result ≡ is_letter byte }
{
    byte.is_ascii_alphabetic()
}

fn is_reserved(word: &[u8]) -> bool
    ensures exact { result ≡ list_any (bytes_eq word.now) reserved }
{
    is_word(word, b"and")
        || is_word(word, b"agg")
        || is_word(word, b"as")
        || is_word(word, b"by")
        || is_word(word, b"keep")
        || is_word(word, b"on")
        || is_word(word, b"where")
}
