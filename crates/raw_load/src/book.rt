//! The book of raw rows: what was accepted, and where the rows of each raw partition are.

ghost use Rattle.std.specs.Prelude.{◌≡◌, ◌<◌, ◌∷◌, ◌++◌, ◌==◌, ◌&&◌, [], IfOk, OnErr, OnOk};
ghost use Rattle.std.specs.Prelude.{length, slice_get, take};
ghost use Rattle.desc_types.specs.Descriptions.{DescOf};
ghost use Rattle.view_meaning.specs.Growth.{BeginsWith};
ghost use Rattle.raw_load.specs.Books.{TellsRaw, asides_in, deliveries_of, kept_in, place_in};
ghost use Rattle.raw_load.specs.Books.{rows_of};
ghost use Rattle.raw_load.specs.Loads.{loads_of, place_if};
ghost use Rattle.raw_load.specs.Preparing.{IsLoadCause};
ghost use Rattle.raw_load.specs.Ready.{HasRoom, IsPrepared};

use crate::copying::copy_parts;
use crate::feed::{FeedBook, empty_feeds, make_aside_room};
use crate::lending::lend_pieces;
use crate::loads::Loads;
use crate::parts::pieces_at;
use crate::piece::{Number, number_of};
use crate::prepared::{Counts, LoadFault, Prepared, prepared_of};
use crate::sorting::{sort_rows, touched_keys};
use depot_cell::{Memory, Rows};
use desc_types::{AcceptedDesc, Delivery, Key};
use std::alloc::Global;
use std::marker::Model;
use view_meaning::{Aside, Lent};

/// The accepted deliveries, in order, with the places of their entries in the journal, and the rows
/// of each raw partition.
#[derive(Debug, Drop)]
pub struct RawBook {
    loads: Loads,
    feeds: Vec<FeedBook>,
}

impl Model for RawBook {
    ghost use Rattle.raw_load.specs.Ready.{RawStateOf};

    ghost Value = { RawStateOf };

    ghost use Rattle.raw_load.specs.Ready.{state_of};
    ghost use Rattle.raw_load.specs.Loads.{AreLoads};

    ghost view = { λ book. state_of book.loads book.feeds.items };

    ghost invariant = { λ book. AreLoads book.loads };
}

impl RawBook {
    /// Nothing accepted.
    pub fn new(alloc: Global, served: &AcceptedDesc) -> Result<RawBook, Memory>
        ensures loads { IfOk result (λ book. book.told.loads ≡ []) }
        ensures tells { IfOk result (λ book. TellsRaw served.now.desc book.told) }
    {
        Ok(RawBook {
            loads: Loads::new(alloc),
            feeds: empty_feeds(alloc, &served.desc)?,
        })
    }

    /// The accepted deliveries, in order. They are lent as they lie.
    pub fn deliveries(&self) -> &[Delivery]
        ensures exact { result.now ≡ deliveries_of self.now.told }
    {
        self.loads.deliveries.as_slice()
    }

    /// The place of the accepted delivery of a feed with a number, if there is one.
    pub fn place_of(&self, feed: u16, number: u32) -> Option<u64>
        ensures exact { result ≡ place_in self.now.told.loads feed number }
    {
        let number = Number { feed, number };
        match self.loads.numbers.get(&number) {
            Some(index) => place_at(&self.loads.places, &self.loads.deliveries, *index, number),
            None => None,
        }
    }

    /// The version of a raw partition: how many deliveries kept a row in it.
    pub fn version(&self, key: Key) -> u64
        ensures exact { result ≡ length (kept_in self.now.told key) }
    {
        pieces_at(&self.loads.parts, key).len() as u64
    }

    /// Puts the rows of a version of a raw partition at the end of some parts, where they lie, in
    /// order of acceptance, then of record. A version that there is not has the rows of the latest
    /// one. After an `Err` there may be some of them.
    pub fn push_parts<'a>(
        &'a self,
        key: Key,
        version: u64,
        parts: &mut Vec<Lent<'a>>,
    ) -> Result<(), Memory>
        ensures ok { OnOk result (rows_of parts.new.items
            ≡ rows_of parts.old.items ++ rows_of (take version (kept_in self.now.told key))) }
        ensures err { OnErr result
            (BeginsWith (rows_of parts.old.items) (rows_of parts.new.items)) }
    {
        let pieces = pieces_at(&self.loads.parts, key);
        let count = pieces.len().min(version as usize);
        lend_pieces(&self.loads.deliveries, &pieces[..count], parts)
    }

    /// Copies of the rows of a version of a raw partition, in the same order.
    pub fn raw_rows(&self, alloc: Global, key: Key, version: u64) -> Result<Rows, Memory>
        ensures exact { IfOk result (λ rows.
            rows ≡ rows_of (take version (kept_in self.now.told key))) }
    {
        let mut parts = Vec::new(alloc);
        self.push_parts(key, version, &mut parts)?;
        copy_parts(alloc, &parts)
    }

    /// Takes all room that loading a delivery needs, and tells what loading it will do. After a
    /// refusal the book tells what it told before, and the delivery is dropped.
    pub fn prepare(
        &mut self,
        served: &AcceptedDesc,
        delivery: Delivery,
    ) -> Result<Prepared, LoadFault>
        requires tells { TellsRaw served.now.desc self.old.told }
        requires of_feed { delivery.feed < length served.now.desc.feeds }
        ensures ok { IfOk result (λ prepared. IsPrepared served.now.desc self.new prepared) }
        ensures exact { IfOk result (λ prepared. prepared.delivery ≡ delivery) }
        ensures cause { IsLoadCause self.old.told.loads delivery result }
        ensures kept { self.new.told ≡ self.old.told }
    {
        match self.place_of(delivery.feed, delivery.number) {
            Some(place) => Err(LoadFault::Repeat { place }),
            None => match self.prepare_new(served, delivery) {
                Ok(prepared) => Ok(prepared),
                Err(Memory) => Err(LoadFault::Memory),
            },
        }
    }

    /// The same of a delivery whose number is new.
    fn prepare_new(&mut self, served: &AcceptedDesc, delivery: Delivery) -> Result<Prepared, Memory>
        requires tells { TellsRaw served.now.desc self.old.told }
        requires of_feed { delivery.feed < length served.now.desc.feeds }
        requires new { place_in self.old.told.loads delivery.feed delivery.number ≡ None }
        ensures ok { IfOk result (λ prepared. IsPrepared served.now.desc self.new prepared) }
        ensures exact { IfOk result (λ prepared. prepared.delivery ≡ delivery) }
        ensures kept { self.new.told ≡ self.old.told }
    {
        let alloc = self.loads.allocator();
        let sorted = sort_rows(alloc, &served.desc, &self.feeds, &delivery)?;
        let touched = touched_keys(alloc, &sorted.found)?;
        make_aside_room(&mut self.feeds, delivery.feed, sorted.asides.len())?;
        self.loads.make_room(number_of(&delivery), &sorted.found)?;
        Ok(prepared_of(delivery, sorted, touched))
    }

    /// Loads a delivery that was prepared for the book as it is now, with the place of its entry,
    /// and tells how many of its rows were kept and set aside. It takes no memory.
    pub fn commit(&mut self, prepared: Prepared, place: u64) -> Counts
        requires room { HasRoom self.old prepared }
        ensures exact { result ≡ prepared.counts }
        ensures loads { self.new.told.loads ≡ self.old.told.loads
            ++ record { place = place; delivery = prepared.delivery } ∷ [] }
        ensures tells { (desc : DescOf) → TellsRaw desc self.old.told
            → IsPrepared desc self.old prepared → TellsRaw desc self.new.told }
    {
        prepared.commit(&mut self.loads, &mut self.feeds, place)
    }

    /// The rows of a feed that were set aside, in order of acceptance, then of record. Of a number
    /// of no feed there are none.
    pub fn aside(&self, feed: u16) -> &[Aside]
        ensures exact { result.now ≡ asides_in self.now.told feed }
    {
        match self.feeds.get(usize::from(feed)) {
            Some(book) => &book.asides,
            None => &[],
        }
    }
}

/// The place of the delivery at an index, if it is there and has this number.
fn place_at(places: &[u64], deliveries: &[Delivery], index: usize, number: Number) -> Option<u64>
    requires paired { length places.now ≡ length deliveries.now }
    ensures exact { result
        ≡ place_if number (slice_get (loads_of places.now deliveries.now) index) }
{
    let delivery = deliveries.get(index)?;
    if is_numbered(delivery, number) {
        Some(places[index])
    } else {
        None
    }
}

/// Whether a delivery has this number.
fn is_numbered(delivery: &Delivery, number: Number) -> bool
    ensures exact { result ≡ ((delivery.now.feed == number.feed)
        && (delivery.now.number == number.number)) }
{
    delivery.feed == number.feed && delivery.number == number.number
}
