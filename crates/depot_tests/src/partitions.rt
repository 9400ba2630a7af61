//! Partitions by number: the edges of time, of spans, and of what fits.

use partition_map::{END, Span, Width, dependents_of, part_end, part_of, sources_of, span_fits};

/// The last partition of width 10, which ends four ticks early.
const LAST: u64 = (END - 1) / 10;

const FAR: i64 = 1_099_511_627_770;

/// A width, or the least one if there is none of so many ticks.
fn width(ticks: u64) -> Width {
    if ticks > 0 && ticks <= END {
        Width::new(ticks)
    } else {
        Width::new(1)
    }
}

/// First and count of the sources of a partition, or `None` if the span does not fit.
fn sources(wide: u64, source: u64, span: Span, part: u64) -> Option<(u64, u64)> {
    let (wide, source) = (width(wide), width(source));
    if !span_fits(wide, source, span) || part > (END - 1) / wide.ticks() {
        return None;
    }
    let parts = sources_of(wide, source, span, part);
    Some((parts.first, parts.count))
}

/// First and count of the dependents of a partition of the source, or `None` if the span does not
/// fit.
fn dependents(wide: u64, source: u64, span: Span, part: u64) -> Option<(u64, u64)> {
    let (wide, source) = (width(wide), width(source));
    if !span_fits(wide, source, span) || part > (END - 1) / source.ticks() {
        return None;
    }
    let parts = dependents_of(wide, source, span, part);
    Some((parts.first, parts.count))
}

#[test]
fn sources_and_dependents_at_the_edges(rt: HostRuntime) {
    for &(wide, source, lo, hi, part, reads, read_by) in &[
        (20, 10, 0, 0, 3, (6, 2), (1, 1)),
        // LO below 0, and a source whose dependents begin below 0
        (20, 10, -20, 0, 0, (0, 2), (0, 2)),
        (20, 10, -20, 0, 2, (2, 4), (1, 2)),
        (10, 10, -10, 20, 1, (0, 4), (0, 3)),
        // LO greater than HI
        (20, 10, 10, 0, 3, (7, 1), (1, 1)),
        (20, 10, 10, 0, 2, (5, 1), (0, 0)),
        // HI past the end, and the last partition, which is cut
        (10, 10, 0, 20, LAST, (LAST, 1), (LAST - 2, 3)),
        (10, 10, -10, 0, LAST, (LAST - 1, 2), (LAST, 1)),
        // wholly before 0, and wholly after the end
        (10, 10, -30, -20, 0, (0, 0), (2, 2)),
        (10, 10, 20, 30, LAST, (0, 0), (LAST - 3, 2)),
        (10, 10, FAR, FAR, 0, (LAST, 1), (0, 0)),
        (10, 10, -FAR, -FAR, LAST, (0, 1), (0, 0)),
        // all of time, and time without its last tick
        (END, END, 0, 0, 0, (0, 1), (0, 1)),
        (END - 1, END - 1, 0, 0, 1, (1, 1), (1, 1)),
        // the most that fits
        (10_240, 10, 0, 0, 1, (1024, 1024), (0, 1)),
        (10, 10, -10_230, 0, 0, (0, 1), (0, 1024)),
        // no limit on offsets but the span's length
        (10, 10, i64::MIN + 8, i64::MIN + 8, 0, (0, 0), (0, 0)),
    ] {
        let span = Span { lo, hi };
        assert!(rt;
            sources(wide, source, span, part) == Some(reads),
            "of {part} over {span:?}"
        );
        assert!(rt;
            dependents(wide, source, span, part) == Some(read_by),
            "of {part} over {span:?}"
        );
    }
}

#[test]
fn spans_that_do_not_fit(rt: HostRuntime) {
    for &(wide, source, lo, hi) in &[
        // one more than the most that fits
        (10_250, 10, 0, 0),
        (10, 10, -10_240, 0),
        // an empty span, and what is no multiple of the source's width
        (10, 10, 10, 0),
        (10, 10, 5, 10),
        (10, 10, 0, -5),
        (15, 10, 0, 0),
        (10, 20, 0, 20),
    ] {
        let span = Span { lo, hi };
        assert!(rt;
            !span_fits(width(wide), width(source), span),
            "{wide} over {span:?}"
        );
    }
}

/// The partition that covers a tick, and its end.
fn covering(wide: u64, tick: u64) -> Option<(u64, u64)> {
    let wide = width(wide);
    let part = part_of(wide, tick.min(END - 1));
    if part > (END - 1) / wide.ticks() {
        return None;
    }
    Some((part, part_end(wide, part)))
}

#[test]
fn a_partition_covers_its_ticks(rt: HostRuntime) {
    for &(wide, tick, want) in &[
        (10, 0, (0, 10)),
        (10, 9, (0, 10)),
        (10, 10, (1, 20)),
        (10, END - 1, (LAST, END)),
        (1, END - 1, (END - 1, END)),
        (END, END - 1, (0, END)),
        (END - 1, END - 1, (1, END)),
    ] {
        assert!(rt;
            covering(wide, tick) == Some(want),
            "tick {tick} at width {wide}"
        );
    }
}
