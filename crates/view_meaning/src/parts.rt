//! The partitions of a source that a view's partition reads, for any span and any number.

ghost use Rattle.std.specs.Prelude.{pos, ◌≡◌, ◌+◌, ◌*◌, ◌^◌, ◌≤◌, ◌+ℤ◌};
ghost use Rattle.std.specs.List.{range_with_len};
ghost use Rattle.partition_map.specs.Time.{END};
ghost use Rattle.partition_map.specs.Partitions.{source_parts, tick_at_least};

use partition_map::{END, Parts, Span, Width, parts_of_span};

/// The partitions of a source that a view's partition reads. If the span ends before it begins,
/// or lies after the end of time, there are none.
pub(crate) fn parts_read(width: Width, source_width: Width, span: Span, part: u64) -> Parts
    ensures exact { source_parts width source_width span part
        ≡ range_with_len result.first result.count }
    ensures within { result.first + result.count ≤ END }
{
    let from = tick_after(width, u128::from(part), span.lo);
    let to = tick_after(width, u128::from(part) + 1, span.hi).min(u128::from(END));
    if to <= from {
        return Parts { first: 0, count: 0 };
    }
    parts_of_span(source_width, from as u64, to as u64)
}

/// The tick so far after the start of a partition, or the first tick if it lies before time.
fn tick_after(width: Width, part: u128, offset: i64) -> u128
    requires { part ≤ 2 ^ 64 }
    ensures exact { result ≡ tick_at_least (pos (part * width) +ℤ offset) }
{
    let start = part * u128::from(width.ticks());
    start.saturating_add_signed(i128::from(offset))
}
