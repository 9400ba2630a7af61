//! What tells the marks of the raw partitions of one feed.

ghost use Rattle.std.specs.Prelude.{◌≡◌, ◌<◌, ◌+◌, ◌&&◌, OnOk, All, map, not, if◌then◌else◌};
ghost use Rattle.std.specs.List.{list_all, list_any, range_with_len};
ghost use Rattle.view_meaning.specs.declared.request.Mark.TheVariants as mark;
ghost use Rattle.view_meaning.specs.Marks.{least};
ghost use Rattle.depot_marks.specs.FeedMarks.{HasFeedRoom, HasNothing, TakesIn, TellsSame};
ghost use Rattle.depot_marks.specs.FeedMarks.{part_mark};
ghost use Rattle.depot_marks.specs.Missed.{is_missed_when};
ghost use Rattle.depot_marks.specs.Numbers.{is_accepted};
ghost use Rattle.depot_marks.specs.Runs.{IsPartOf, keys_of_run};

use crate::closings::Closings;
use crate::missed::Missed;
use crate::numbers::Numbers;
use crate::run::Run;
use depot_cell::Memory;
use desc_types::Width;
use partition_map::part_end;
use std::alloc::Global;
use view_meaning::{Aside, Mark};

/// Of the deliveries of a feed how far they closed, their numbers, and of which rows were set
/// aside.
#[derive(Debug, Drop)]
pub(crate) struct FeedMarks {
    closings: Closings,
    numbers: Numbers,
    missed: Missed,
}

impl FeedMarks {
    /// A feed without deliveries.
    pub(crate) fn new(alloc: Global) -> FeedMarks
        ensures exact { HasNothing result }
    {
        FeedMarks {
            closings: Closings::new(alloc),
            numbers: Numbers::new(alloc),
            missed: Missed::new(alloc),
        }
    }

    /// Takes the room to note a delivery of the feed, of which these rows are set aside. It tells
    /// what it told before.
    pub(crate) fn reserve(&mut self, number: u32, asides: &[Aside]) -> Result<(), Memory>
        ensures ok { OnOk result (HasFeedRoom number asides.now self.new) }
        ensures kept { TellsSame self.old self.new }
    {
        self.closings.reserve()?;
        self.numbers.reserve(number)?;
        self.missed.reserve(asides)
    }

    /// Notes a delivery of the feed, of which these rows were set aside. It takes no memory.
    pub(crate) fn note(&mut self, number: u32, closes: u64, asides: &[Aside])
        requires room { HasFeedRoom number asides.now self.old }
        ensures exact { TakesIn number closes asides.now self.old self.new }
    {
        self.closings.note(number, closes);
        self.numbers.note(number);
        self.missed.note(asides);
    }

    /// The least mark of the partitions of a run, of a table of the feed. It takes no memory.
    pub(crate) fn run_mark(&self, width: Width, run: Run) -> Mark
        requires some { 0 < run.parts.count }
        requires parts { All (IsPartOf width) (keys_of_run run) }
        ensures exact { result ≡ least (map (part_mark self.now width) (keys_of_run run)) }
    {
        let last = run.parts.first + (run.parts.count - 1);
        match self.closings.greatest_at(part_end(width, last)) {
            Some(greatest) => self.closed_mark(width, run, greatest),
            None => Mark::Open,
        }
    }

    /// The least mark of the partitions of a run of which the last one is closed, if deliveries up
    /// to a number were expected of that one. Then all are closed, and of none more deliveries were
    /// expected.
    fn closed_mark(&self, width: Width, run: Run, greatest: u32) -> Mark
        requires parts { All (IsPartOf width) (keys_of_run run) }
        ensures exact { result ≡ (if list_all (is_accepted self.now.numbers)
            (range_with_len 0 (greatest + 1))
            && not (list_any (is_missed_when self.now.missed self.now.closings.items width)
            (keys_of_run run))
            then mark.Complete else mark.Closed) }
    {
        if self.numbers.has_all_to(greatest) && !self.missed.misses_in(width, run, &self.closings) {
            Mark::Complete
        } else {
            Mark::Closed
        }
    }
}
