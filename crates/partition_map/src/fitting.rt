//! Which spans a view may read of a source.

ghost use Rattle.std.specs.Prelude.{pos, true, ◌≡◌, ◌*◌, ◌+ℤ◌, ◌↔◌, int_le, int_lt};
ghost use Rattle.partition_map.specs.Partitions.{is_fitting, is_whole, SpanFits};

use crate::time::{Span, Width};

/// Whether a view of a width may read a source of another width over a span: the view's width and
/// both offsets are multiples of the source's width, and the span begins before it ends and has at
/// most 1,024 partitions of the source.
pub fn span_fits(width: Width, source_width: Width, span: Span) -> bool
    ensures exact { result ≡ is_fitting width source_width span }
    ensures fits { (result ≡ true) ↔ SpanFits width source_width span }
{
    is_whole(width, source_width, span)
        && is_ordered(width, span)
        && is_short(width, source_width, span)
}

/// Whether a view's width and both offsets are multiples of the source's width.
fn is_whole(width: Width, source_width: Width, span: Span) -> bool
    ensures exact { result ≡ is_whole width source_width span }
{
    let ticks = source_width.ticks();
    width.ticks() % ticks == 0
        && span.lo.unsigned_abs() % ticks == 0
        && span.hi.unsigned_abs() % ticks == 0
}

/// Whether a span begins before it ends.
fn is_ordered(width: Width, span: Span) -> bool
    ensures exact { result ≡ int_lt span.lo (span.hi +ℤ pos width) }
{
    i128::from(span.lo) < moved(span.hi, width.ticks())
}

/// Whether a span has at most 1,024 partitions of the source.
fn is_short(width: Width, source_width: Width, span: Span) -> bool
    ensures exact { result ≡ int_le (span.hi +ℤ pos width)
        (span.lo +ℤ pos (1024 * source_width)) }
{
    moved(span.hi, width.ticks()) <= moved(span.lo, 1024 * source_width.ticks())
}

/// An offset and so many ticks more.
fn moved(offset: i64, ticks: u64) -> i128
    ensures exact { result ≡ offset +ℤ pos ticks }
{
    i128::from(offset) + i128::from(ticks)
}
