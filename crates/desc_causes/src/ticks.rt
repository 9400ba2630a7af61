//! Widths and spans, as words say them.

ghost use Rattle.std.specs.Prelude.{◌≡◌};
ghost use Rattle.desc_causes.specs.Ticks.{read_offset, read_span, read_ticks, read_width};

use depot_cell::read_number;
use desc_lines::WrittenSource;
use desc_types::{END, Span, Width};

/// The width that a word says.
pub fn read_width(word: &[u8]) -> Option<Width>
    ensures exact { result ≡ read_width word.now }
{
    match read_number(word) {
        Some(ticks) if 1 <= ticks && ticks <= END => Some(Width::new(ticks)),
        _ => None,
    }
}

/// The span that is read of a source: from how far before the view's own ticks, to how far after.
pub fn read_span(source: &WrittenSource) -> Option<Span>
    ensures exact { result ≡ read_span source.now.lo source.now.hi }
{
    match (read_offset(source.lo), read_offset(source.hi)) {
        (Some(lo), Some(hi)) => Some(Span { lo, hi }),
        _ => None,
    }
}

fn read_offset(word: &[u8]) -> Option<i64>
    ensures exact { result ≡ read_offset word.now }
{
    match word {
        [b'-', digits @ ..] => match read_ticks(digits) {
            Some(ticks) => Some(-(ticks as i64)),
            None => None,
        },
        _ => match read_ticks(word) {
            Some(ticks) => Some(ticks as i64),
            None => None,
        },
    }
}

fn read_ticks(digits: &[u8]) -> Option<u64>
    ensures exact { result ≡ read_ticks digits.now }
{
    match read_number(digits) {
        Some(ticks) if ticks <= END => Some(ticks),
        _ => None,
    }
}
