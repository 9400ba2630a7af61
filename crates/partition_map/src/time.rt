//! Widths of partitions, and the spans of time that a view reads of a source.

ghost use Rattle.std.specs.Prelude.{ℕ, ◌≡◌};
ghost use Rattle.partition_map.specs.Time.{END as the_end, IsWidth};

use std::marker::Model;

/// The tick after the last one, 2^40.
pub const END: u64 = 1_099_511_627_776;

/// A law: time ends at the tick that the definitions name.
pub fn time_ends_as_defined()
    ensures law { END ≡ the_end }
{}

/// How many ticks a partition covers, from 1 to [`END`].
#[derive(Clone, Copy, Debug, PartialEq, Eq)]
pub struct Width {
    ticks: u64,
}

impl Model for Width {
    ghost Value = { ℕ };

    ghost view = { λ width. width.ticks };

    ghost invariant = { λ width. IsWidth width.ticks };

    ghost inverse = { λ ticks. record { ticks = ticks } };
}

impl Width {
    /// A width of this many ticks.
    pub fn new(ticks: u64) -> Width
        requires in_range { IsWidth ticks }
        ensures exact { result ≡ ticks }
    {
        Width { ticks }
    }

    /// How many ticks it is.
    pub fn ticks(&self) -> u64
        ensures value { result ≡ self.now }
        ensures in_range { IsWidth self.now }
    {
        self.ticks
    }
}

/// What a view reads of a source, around its own partition: from `lo` ticks after its start up to,
/// but not including, `hi` ticks after the start of the next.
#[derive(Clone, Copy, Debug, PartialEq, Eq)]
pub struct Span {
    pub lo: i64,
    pub hi: i64,
}
