//! Numbers and levels, as words say them.

ghost use Rattle.std.specs.Prelude.{◌≡◌, ◌≤◌, Some, is_none, option_map, IfSome};
ghost use Rattle.depot_script.specs.Commands.{number_said};
ghost use Rattle.depot_script.specs.Faults.{is_bad_number, number_to, read_level};

use depot_cell::read_number;
use desc_lines::is_word;
use view_meaning::Mark;

/// The most bytes of a body.
pub const BODY_LIMIT: u64 = 16_777_216;

/// The greatest number of a delivery.
pub const NUMBER_LIMIT: u64 = 4_294_967_295;

/// The number up to a limit that a word says.
fn number_to(limit: u64, word: &[u8]) -> Option<u64>
    ensures exact { result ≡ number_to limit word.now }
    ensures within { IfSome result (λ number. number ≤ limit) }
{
    match read_number(word) {
        Some(number) if number <= limit => Some(number),
        _ => None,
    }
}

/// Whether a word is no number up to a limit.
pub fn is_bad_number(limit: u64, word: &[u8]) -> bool
    ensures exact { result ≡ is_bad_number limit word.now }
{
    number_to(limit, word).is_none()
}

/// The number that a word says: 0 if it says none.
pub fn number_said(limit: u64, word: &[u8]) -> u64
    ensures exact { result ≡ number_said limit word.now }
    ensures within { result ≤ limit }
{
    match number_to(limit, word) {
        Some(number) => number,
        None => 0,
    }
}

/// The level that an item asks for: open if it names none.
pub fn read_level(word: Option<&[u8]>) -> Option<Mark>
    ensures exact { result ≡ read_level (option_map (λ word. word.now) word.entry) }
{
    match word {
        None => Some(Mark::Open),
        Some(word) => read_named_level(word),
    }
}

fn read_named_level(word: &[u8]) -> Option<Mark>
    ensures exact { result ≡ read_level (Some word.now) }
{
    if is_word(word, b"closed") {
        Some(Mark::Closed)
    } else if is_word(word, b"complete") {
        Some(Mark::Complete)
    } else {
        None
    }
}
