//! What a run of a view's partitions reads of a source. Each partition reads a window of time round
//! itself. If the windows of neighbours overlap or touch, the run reads one run of the source,
//! however long it is.

ghost use Rattle.std.specs.Prelude.{ℕ, pos, ◌≡◌, ◌+◌, ◌^◌, ◌≤◌, ◌+ℤ◌, ◌≤ℤ◌};
ghost use Rattle.std.specs.List.{list_any, range_with_len};
ghost use Rattle.partition_map.specs.Time.{END};
ghost use Rattle.partition_map.specs.Partitions.{has, source_parts, tick_at_least};
ghost use Rattle.depot_marks.specs.Windows.{BeginsInTime};

use desc_types::{END, Span, Width};
use partition_map::{Parts, parts_of_span};

/// The partitions of a source that a run of a view's partitions reads, if the windows of neighbours
/// leave no ticks between them.
pub(crate) fn sources_of_run(width: Width, source_width: Width, span: Span, parts: Parts) -> Parts
    requires in_time { BeginsInTime width parts }
    requires no_gaps { span.lo ≤ℤ span.hi }
    ensures exact { (source : ℕ) → has (range_with_len result.first result.count) source
        ≡ list_any (λ part. has (source_parts width source_width span part) source)
        (range_with_len parts.first parts.count) }
    ensures within { result.first + result.count ≤ END }
{
    let from = tick_after(parts.first * width.ticks(), span.lo);
    let to = tick_after((parts.first + parts.count) * width.ticks(), span.hi).min(END);

    // What begins after the end of time has no ticks.
    parts_of_span(source_width, from.min(to), to)
}

/// The tick so far after another, or the first tick if it lies before time.
fn tick_after(tick: u64, offset: i64) -> u64
    requires near { tick ≤ 2 ^ 42 }
    ensures exact { result ≡ tick_at_least (pos tick +ℤ offset) }
{
    tick.saturating_add_signed(offset)
}
