//! The book of marks.

ghost use Rattle.std.specs.Prelude.{List, ◌≡◌, ◌<◌, ◌∷◌, ◌++◌, [], IfOk, IfSome, OnOk, All};
ghost use Rattle.std.specs.Prelude.{Some, false, true};
ghost use Rattle.std.specs.Prelude.{length, map, slice_get, vec_len};
ghost use Rattle.std.specs.List.{list_any};
ghost use Rattle.desc_types.specs.Deliveries.{DeliveryOf};
ghost use Rattle.desc_types.specs.Descriptions.{DescOf};
ghost use Rattle.view_meaning.specs.Journal.{is_same};
ghost use Rattle.view_meaning.specs.Marks.{least, lower};
ghost use Rattle.view_meaning.specs.Partitions.{is_part};
ghost use Rattle.view_meaning.specs.RawBelow.{raw_below};
ghost use Rattle.view_meaning.specs.RawMarks.{raw_mark};
ghost use Rattle.view_meaning.specs.SetAside.{asides_of};
ghost use Rattle.depot_marks.specs.declared.feed.FeedMarks.{FeedMarks as FeedMarksOf};
ghost use Rattle.depot_marks.specs.FeedMarks.{HasFeedRoom, HasNothing, TakesIn, TellsSame};
ghost use Rattle.depot_marks.specs.FeedMarks.{part_mark};
ghost use Rattle.depot_marks.specs.MarkBooks.{ChangesAt, HasRoom, IsRawPart, TellsMarks};
ghost use Rattle.depot_marks.specs.Runs.{IsPartOf, keys_in, keys_of_run};

use crate::below::raw_runs_below;
use crate::feed::FeedMarks;
use crate::run::Run;
use depot_cell::Memory;
use desc_types::{AcceptedDesc, Delivery, Key, Kind, Width};
use partition_map::Parts;
use std::alloc::Global;
use std::marker::Model;
use view_meaning::{Aside, Mark};

/// What tells the marks of raw partitions.
#[derive(Debug, Drop)]
pub struct MarkBook {
    feeds: Vec<FeedMarks>,
}

impl Model for MarkBook {
    ghost use Rattle.depot_marks.specs.MarkBooks.{MarkBookOf};

    ghost Value = { MarkBookOf };

    ghost view = { λ book. record { feeds = book.feeds.items } };
}

impl MarkBook {
    /// The book of no deliveries.
    pub fn new(alloc: Global, served: &AcceptedDesc) -> Result<MarkBook, Memory>
        ensures exact { IfOk result (λ book. TellsMarks served.now.desc [] book) }
    {
        Ok(MarkBook {
            feeds: empty_feeds(alloc, served.desc.feeds.len())?,
        })
    }

    /// Takes the room to note a delivery, of which these rows are set aside. The book tells what it
    /// told before.
    pub fn reserve(&mut self, delivery: &Delivery, asides: &[Aside]) -> Result<(), Memory>
        ensures ok { OnOk result (HasRoom delivery.now asides.now self.new) }
        ensures kept { (desc : DescOf) (accepted : List DeliveryOf)
            → TellsMarks desc accepted self.old → TellsMarks desc accepted self.new }
    {
        let feed = usize::from(delivery.feed);
        reserve_in(&mut self.feeds, feed, delivery.number, asides)
    }

    /// Notes a delivery that was accepted, of which these rows were set aside. It takes no memory.
    pub fn note(&mut self, delivery: &Delivery, asides: &[Aside])
        requires room { HasRoom delivery.now asides.now self.old }
        ensures exact { (desc : DescOf) (accepted : List DeliveryOf)
            → TellsMarks desc accepted self.old
            → delivery.now.feed < length desc.feeds
            → list_any (is_same delivery.now) accepted ≡ false
            → asides.now ≡ asides_of desc accepted delivery.now
            → TellsMarks desc (accepted ++ delivery.now ∷ []) self.new }
    {
        let feed = usize::from(delivery.feed);
        note_in(
            &mut self.feeds,
            feed,
            delivery.number,
            delivery.closes,
            asides,
        );
    }

    /// The mark of a raw partition. It takes no memory.
    pub fn raw_mark(&self, served: &AcceptedDesc, key: Key) -> Mark
        requires raw { IsRawPart served.now.desc key }
        ensures exact { (accepted : List DeliveryOf) → TellsMarks served.now.desc accepted self.now
            → result ≡ raw_mark served.now.desc accepted key }
    {
        let parts = Parts {
            first: key.part,
            count: 1,
        };
        self.run_mark(
            served,
            Run {
                table: key.table,
                parts,
            },
        )
    }

    /// The least mark of the raw partitions of a run, and complete if there are none.
    fn run_mark(&self, served: &AcceptedDesc, run: Run) -> Mark
        requires raw { All (IsRawPart served.now.desc) (keys_of_run run) }
        ensures exact { (accepted : List DeliveryOf) → TellsMarks served.now.desc accepted self.now
            → result ≡ least (map (raw_mark served.now.desc accepted) (keys_of_run run)) }
    {
        if run.parts.count == 0 {
            return Mark::Complete;
        }
        let table = served.table(run.table);
        match &table.kind {
            Kind::Raw { feed, .. } => {
                run_mark_in(&self.feeds, usize::from(*feed), table.width, run)
            }
            Kind::Filter { .. } | Kind::Group { .. } | Kind::Join { .. } => unreachable!(),
        }
    }

    /// The least mark of the raw partitions of some runs, and complete if there are none. It takes no
    /// memory. A run costs a few searches, and a look at each of its partitions for which rows were
    /// set aside.
    pub fn least_mark(&self, served: &AcceptedDesc, runs: &[Run]) -> Mark
        requires raw { All (IsRawPart served.now.desc) (keys_in runs.now) }
        ensures exact { (accepted : List DeliveryOf) → TellsMarks served.now.desc accepted self.now
            → result ≡ least (map (raw_mark served.now.desc accepted) (keys_in runs.now)) }
    {
        let mut least = Mark::Complete;
        for run in runs {
            least = lower(least, self.run_mark(served, *run));
        }
        least
    }

    /// The least mark of all raw partitions below a partition, and complete if there are none.
    pub fn below_mark(&self, alloc: Global, served: &AcceptedDesc, key: Key) -> Result<Mark, Memory>
        requires part { is_part served.now.desc key ≡ true }
        ensures exact { IfOk result (λ mark. (accepted : List DeliveryOf)
            → TellsMarks served.now.desc accepted self.now
            → mark ≡ least (map (raw_mark served.now.desc accepted)
            (raw_below served.now.desc key))) }
    {
        let runs = raw_runs_below(alloc, served, key)?;
        Ok(self.least_mark(served, &runs))
    }
}

/// So many feeds without deliveries.
fn empty_feeds(alloc: Global, count: usize) -> Result<Vec<FeedMarks>, Memory>
    ensures count { IfOk result (λ feeds. vec_len feeds ≡ count) }
    ensures empty { IfOk result (λ feeds. All HasNothing feeds.items) }
{
    let mut feeds = Vec::new(alloc);
    for _ in 0..count {
        if feeds.push(FeedMarks::new(alloc)).is_err() {
            return Err(Memory);
        }
    }
    Ok(feeds)
}

/// Takes the room to note a delivery of a feed, if it is one of these.
fn reserve_in(
    feeds: &mut Vec<FeedMarks>,
    feed: usize,
    number: u32,
    asides: &[Aside],
) -> Result<(), Memory>
    ensures ok { OnOk result
        (IfSome (slice_get feeds.new.items feed) (HasFeedRoom number asides.now)) }
    ensures kept { ChangesAt feed TellsSame feeds.old.items feeds.new.items }
{
    if feed < feeds.len() {
        feeds[feed].reserve(number, asides)
    } else {
        Ok(())
    }
}

/// Notes a delivery of a feed, if it is one of these. It takes no memory.
fn note_in(feeds: &mut Vec<FeedMarks>, feed: usize, number: u32, closes: u64, asides: &[Aside])
    requires room { IfSome (slice_get feeds.old.items feed) (HasFeedRoom number asides.now) }
    ensures exact { ChangesAt feed (TakesIn number closes asides.now)
        feeds.old.items feeds.new.items }
{
    if feed < feeds.len() {
        feeds[feed].note(number, closes, asides);
    }
}

/// The least mark of the partitions of a run, by what its feed tells if it is one of these.
fn run_mark_in(feeds: &[FeedMarks], feed: usize, width: Width, run: Run) -> Mark
    requires some { 0 < run.parts.count }
    requires parts { All (IsPartOf width) (keys_of_run run) }
    ensures told { (marks : FeedMarksOf) → slice_get feeds.now feed ≡ Some marks
        → result ≡ least (map (part_mark marks width) (keys_of_run run)) }
{
    match feeds.get(feed) {
        Some(marks) => marks.run_mark(width, run),
        None => Mark::Open,
    }
}

/// The lower one of two marks.
fn lower(first: Mark, second: Mark) -> Mark
    ensures exact { result ≡ lower first second }
{
    match first {
        Mark::Open => Mark::Open,
        Mark::Closed => match second {
            Mark::Open => Mark::Open,
            Mark::Closed | Mark::Complete => Mark::Closed,
        },
        Mark::Complete => second,
    }
}
