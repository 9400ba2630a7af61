//! A delivery that was prepared, before it is loaded.

ghost use Rattle.std.specs.Prelude.{◌≡◌, ◌≤◌, length, map};
ghost use Rattle.raw_load.specs.Feeds.{GainsFeed, HasAsideRoomAt, feed_of};
ghost use Rattle.raw_load.specs.Loads.{Accepts, HasRoomToCommit};
ghost use Rattle.raw_load.specs.Preparing.{prepared_of};

use crate::feed::{FeedBook, gain};
use crate::loads::Loads;
use crate::piece::Stretch;
use crate::sorting::Sorted;
use desc_types::{Delivery, Key};
use std::collections::BTreeMap;
use std::marker::Model;
use view_meaning::Aside;

/// How many rows of a delivery are kept, and how many are set aside.
#[derive(Clone, Copy, Debug, PartialEq, Eq)]
pub struct Counts {
    pub kept: u64,
    pub aside: u64,
}

/// Why a delivery is not loaded. Nothing has changed then.
#[derive(Clone, Copy, Debug, PartialEq, Eq, Drop)]
pub enum LoadFault {
    /// The feed has accepted its number before, with the entry at this place.
    Repeat { place: u64 },
    /// There is no memory.
    Memory,
}

/// A delivery with what loading it will do, and where the rows that it keeps lie in it.
#[derive(Debug, Drop)]
pub struct Prepared {
    delivery: Delivery,
    counts: Counts,
    asides: Vec<Aside>,
    touched: Vec<Key>,
    found: BTreeMap<Key, Vec<Stretch>>,
}

impl Model for Prepared {
    ghost use Rattle.raw_load.specs.Preparing.{PreparedOf};

    ghost Value = { PreparedOf };

    ghost view = { λ prepared. record {
      delivery = prepared.delivery;
      counts = prepared.counts;
      asides = prepared.asides.items;
      touched = prepared.touched.items;
      found = prepared.found.entries;
    } };
}

impl Prepared {
    /// The delivery.
    pub fn delivery(&self) -> &Delivery
        ensures exact { result.now ≡ self.now.delivery }
    {
        &self.delivery
    }

    /// How many of its rows will be kept, and how many set aside.
    pub fn counts(&self) -> Counts
        ensures exact { result ≡ self.now.counts }
    {
        self.counts
    }

    /// The rows that will be set aside, by name, in order of record.
    pub fn aside(&self) -> &[Aside]
        ensures exact { result.now ≡ self.now.asides }
    {
        &self.asides
    }

    /// The raw partitions in which it will keep a row, each once, in order of key.
    pub fn touched(&self) -> &[Key]
        ensures exact { result.now ≡ self.now.touched }
    {
        &self.touched
    }

    /// Loads it, with the place of its entry, and tells how many rows were kept and set aside. It
    /// takes no memory.
    pub(crate) fn commit(self, loads: &mut Loads, feeds: &mut Vec<FeedBook>, place: u64) -> Counts
        requires room { HasRoomToCommit loads.old self.found }
        requires aside_room { HasAsideRoomAt feeds.old.items self.delivery.feed
            (length self.asides) }
        ensures exact { result ≡ self.counts }
        ensures ok { Accepts self.delivery place self.found loads.old loads.new }
        ensures gained { GainsFeed self.delivery.feed self.delivery.closes self.asides
            (map feed_of feeds.old.items) (map feed_of feeds.new.items) }
    {
        let Prepared {
            delivery,
            counts,
            asides,
            touched: _,
            found,
        } = self;
        gain(feeds, delivery.feed, delivery.closes, asides);
        loads.commit(delivery, place, found);
        counts
    }
}

/// A delivery whose rows were sorted, with the partitions in which rows were found.
pub(crate) fn prepared_of(delivery: Delivery, sorted: Sorted, touched: Vec<Key>) -> Prepared
    requires few { length sorted.asides.items ≤ length delivery.rows }
    ensures exact { result ≡ prepared_of delivery sorted touched.items }
{
    let aside = sorted.asides.len();
    let counts = Counts {
        kept: (delivery.rows.len() - aside) as u64,
        aside: aside as u64,
    };
    Prepared {
        delivery,
        counts,
        asides: sorted.asides,
        touched,
        found: sorted.found,
    }
}
