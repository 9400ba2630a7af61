//! What is kept of the feeds beside their deliveries: up to which tick each is closed, and which of
//! its rows were set aside. Whether a partition is closed is one compare.

ghost use Rattle.std.specs.Prelude.{Some, ◌≡◌, ◌<◌, IfOk, OnOk, length, map, slice_get};
ghost use Rattle.partition_map.specs.Partitions.{start_of};
ghost use Rattle.partition_map.specs.Time.{END};
ghost use Rattle.raw_load.specs.Books.{closes_if};
ghost use Rattle.raw_load.specs.Sorting.{is_closed_part};
ghost use Rattle.raw_load.specs.Feeds.{GainsFeed, HasAsideRoom, HasAsideRoomAt};
ghost use Rattle.raw_load.specs.Feeds.{empty_feeds, feed_of, gained_feed};

use depot_cell::Memory;
use desc_types::{Desc, Kind, Table};
use partition_map::part_end;
use std::alloc::Global;
use view_meaning::Aside;

/// The tick below which no rows of a feed are expected any more, and the rows of it that were set
/// aside, in order.
#[derive(Debug, Drop)]
pub(crate) struct FeedBook {
    pub(crate) closes: u64,
    pub(crate) asides: Vec<Aside>,
}

/// What is kept of the feeds of a description before the first delivery.
pub(crate) fn empty_feeds(alloc: Global, desc: &Desc) -> Result<Vec<FeedBook>, Memory>
    ensures exact { IfOk result (λ feeds. map feed_of feeds.items ≡ empty_feeds desc.now.feeds) }
{
    let mut feeds = Vec::new(alloc);
    for _feed in &desc.feeds {
        feeds.push(FeedBook {
            closes: 0,
            asides: Vec::new(alloc),
        })?;
    }
    Ok(feeds)
}

/// The tick up to which a feed is closed. A number of no feed is open.
fn closes_at(feeds: &[FeedBook], feed: u16) -> u64
    ensures exact { result ≡ closes_if (slice_get (map feed_of feeds.now) feed) }
{
    match feeds.get(usize::from(feed)) {
        Some(book) => book.closes,
        None => 0,
    }
}

/// Whether a partition of a table is closed.
pub(crate) fn is_closed_part(feeds: &[FeedBook], table: &Table, part: u64) -> bool
    requires in_time { start_of table.now.width part < END }
    ensures exact { result ≡ is_closed_part (map feed_of feeds.now) part (Some table.now) }
{
    match &table.kind {
        Kind::Raw { feed, .. } => part_end(table.width, part) <= closes_at(feeds, *feed),
        Kind::Filter { .. } | Kind::Group { .. } | Kind::Join { .. } => false,
    }
}

/// Makes room for so many rows more that are set aside of a feed. Each feed keeps its own, also if
/// there is no memory.
pub(crate) fn make_aside_room(
    feeds: &mut Vec<FeedBook>,
    feed: u16,
    count: usize,
) -> Result<(), Memory>
    requires there { feed < length feeds.old.items }
    ensures ok { OnOk result (HasAsideRoomAt feeds.new.items feed count) }
    ensures kept { map feed_of feeds.new.items ≡ map feed_of feeds.old.items }
{
    let book = &mut feeds[usize::from(feed)];
    book.asides.reserve(count)?;
    Ok(())
}

/// Closes a feed up to a tick, if it was not before, and puts rows that are set aside at the end of
/// its own. It takes no memory.
pub(crate) fn gain(feeds: &mut Vec<FeedBook>, feed: u16, closes: u64, asides: Vec<Aside>)
    requires room { HasAsideRoomAt feeds.old.items feed (length asides.items) }
    ensures gained { GainsFeed feed closes asides.items
        (map feed_of feeds.old.items) (map feed_of feeds.new.items) }
{
    gain_one(&mut feeds[usize::from(feed)], closes, asides);
}

/// The same of one feed.
fn gain_one(book: &mut FeedBook, closes: u64, mut asides: Vec<Aside>)
    requires room { HasAsideRoom book.old (length asides.items) }
    ensures gained { feed_of book.new ≡ gained_feed closes asides.items (feed_of book.old) }
{
    book.closes = book.closes.max(closes);
    match book.asides.append(&mut asides) {
        Ok(()) => {}
        Err(_) => unreachable!(),
    }
}
