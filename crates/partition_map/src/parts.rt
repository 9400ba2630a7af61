//! Partitions by division.

ghost use Rattle.std.specs.Prelude.{ℕ, pos, nat_eq, ◌≡◌, ◌+◌, ◌*◌, ◌^◌, ◌<◌, ◌≤◌, ◌+ℤ◌, ◌-ℤ◌};
ghost use Rattle.std.specs.List.{range_with_len};
ghost use Rattle.partition_map.specs.Time.{END};
ghost use Rattle.partition_map.specs.Partitions.{start_of, end_of, is_covered, parts_met};
ghost use Rattle.partition_map.specs.Partitions.{tick_at_least, source_parts, dependent_parts};
ghost use Rattle.partition_map.specs.Partitions.{SpanFits};

use crate::time::{END, Span, Width};

/// A run of partitions: the number of the first, or 0 if there are none, and how many there are.
#[derive(Clone, Copy, Debug, PartialEq, Eq)]
pub struct Parts {
    pub first: u64,
    pub count: u64,
}

/// The partition that covers a tick.
pub fn part_of(width: Width, tick: u64) -> u64
    requires in_time { tick < END }
    ensures exact { (part : ℕ) → is_covered width part tick ≡ nat_eq part result }
{
    tick / width.ticks()
}

/// The tick after the last one of a partition.
pub fn part_end(width: Width, part: u64) -> u64
    requires in_time { start_of width part < END }
    ensures exact { result ≡ end_of width part }
{
    (part * width.ticks() + width.ticks()).min(END)
}

/// The partitions that share a tick with `from` up to, but not including, `to`.
pub fn parts_of_span(width: Width, from: u64, to: u64) -> Parts
    requires in_order { from ≤ to }
    requires in_time { to ≤ END }
    ensures exact { parts_met width from to ≡ range_with_len result.first result.count }
    ensures first { result.count ≡ 0 → result.first ≡ 0 }
    ensures within { result.first + result.count ≤ to }
{
    if from == to {
        return Parts { first: 0, count: 0 };
    }
    let first = from / width.ticks();
    let last = (to - 1) / width.ticks();
    Parts {
        first,
        count: last - first + 1,
    }
}

/// The partitions of a source that a view's partition reads.
pub fn sources_of(width: Width, source_width: Width, span: Span, part: u64) -> Parts
    requires fits { SpanFits width source_width span }
    requires in_time { start_of width part < END }
    ensures exact { source_parts width source_width span part
        ≡ range_with_len result.first result.count }
    ensures first { result.count ≡ 0 → result.first ≡ 0 }
    ensures few { result.count ≤ 1024 }
    ensures within { result.first + result.count ≤ END }
{
    let begin = part * width.ticks();
    let from = tick_after(begin, span.lo);
    let to = tick_after(begin + width.ticks(), span.hi).min(END);
    if to <= from {
        return Parts { first: 0, count: 0 };
    }
    parts_of_span(source_width, from, to)
}

/// The partitions of a view that read a partition of its source.
pub fn dependents_of(width: Width, source_width: Width, span: Span, part: u64) -> Parts
    requires fits { SpanFits width source_width span }
    requires in_time { start_of source_width part < END }
    ensures exact { dependent_parts width source_width span part
        ≡ range_with_len result.first result.count }
    ensures first { result.count ≡ 0 → result.first ≡ 0 }
    ensures few { result.count ≤ 1024 }
    ensures within { result.first + result.count ≤ END }
{
    let begin = part * source_width.ticks();
    if i128::from(begin) < i128::from(span.lo) {
        return Parts { first: 0, count: 0 };
    }
    let latest = tick_before(begin, span.lo).min(END - 1);
    let earliest = tick_before(begin, span.hi);
    let first = earliest / width.ticks();
    let last = latest / width.ticks();
    if last < first {
        return Parts { first: 0, count: 0 };
    }
    Parts {
        first,
        count: last - first + 1,
    }
}

/// The tick so far after another, or the first tick if it lies before time.
fn tick_after(tick: u64, offset: i64) -> u64
    requires { tick ≤ 2 ^ 42 }
    ensures exact { result ≡ tick_at_least (pos tick +ℤ offset) }
{
    tick.saturating_add_signed(offset)
}

/// The tick so far before another, or the first tick if it lies before time.
fn tick_before(tick: u64, offset: i64) -> u64
    requires { tick ≤ 2 ^ 42 }
    ensures exact { result ≡ tick_at_least (pos tick -ℤ offset) }
{
    (i128::from(tick) - i128::from(offset)).max(0) as u64
}
