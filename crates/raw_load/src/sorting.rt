//! Which rows of a delivery are kept, and where these lie; and which are set aside, by name. A row
//! is late if the deliveries before closed its partition. That is looked up once for all rows that
//! follow one another in a partition. If there is no memory, what was sorted so far is dropped.

ghost use Rattle.std.specs.Prelude.{◌≡◌, ◌<◌, ◌++◌, IfOk, OnOk, length, map};
ghost use Rattle.std.specs.List.Sorted.{IsStrictlySortedBy};
ghost use Rattle.std.specs.Map.{keys_of};
ghost use Rattle.desc_types.specs.Keys.{key_cmp};
ghost use Rattle.view_meaning.specs.SetAside.{aside_at};
ghost use Rattle.raw_load.specs.Feeds.{feed_of};
ghost use Rattle.raw_load.specs.Stretches.{IsStretchOf};
ghost use Rattle.raw_load.specs.Sorting.{PutsStretch, SortsRows, SortsRun};

use crate::feed::{FeedBook, is_closed_part};
use crate::piece::Stretch;
use crate::stretches::{key_of, push_stretch, run_len, table_of};
use depot_cell::Memory;
use desc_types::{DRow, Delivery, Desc, Key};
use std::alloc::Global;
use std::collections::BTreeMap;
use view_meaning::Aside;

/// The rows of a delivery that were sorted: in which stretches those lie that each partition keeps,
/// and the names of those that are set aside, in order of record.
#[derive(Debug, Drop)]
pub(crate) struct Sorted {
    pub(crate) found: BTreeMap<Key, Vec<Stretch>>,
    pub(crate) asides: Vec<Aside>,
}

/// Sorts the rows of a delivery, by what is kept of the feeds.
pub(crate) fn sort_rows(
    alloc: Global,
    desc: &Desc,
    feeds: &[FeedBook],
    delivery: &Delivery,
) -> Result<Sorted, Memory>
    ensures exact { IfOk result (SortsRows desc.now (map feed_of feeds.now) delivery.now
        (length delivery.now.rows)) }
{
    let mut sorted = Sorted {
        found: BTreeMap::new(alloc),
        asides: Vec::new(alloc),
    };
    let mut first = 0;
    while first < delivery.rows.len() {
        first += sort_run(alloc, desc, feeds, delivery, first, &mut sorted)?;
    }
    Ok(sorted)
}

/// The partitions that keep rows, in order of key.
pub(crate) fn touched_keys(
    alloc: Global,
    found: &BTreeMap<Key, Vec<Stretch>>,
) -> Result<Vec<Key>, Memory>
    ensures exact { IfOk result (λ keys. keys.items ≡ keys_of found.now.entries) }
    ensures in_order { IfOk result (λ keys. IsStrictlySortedBy key_cmp keys.items) }
{
    Ok(found.keys().copied().collect(alloc)?)
}

/// Sorts the row at an index, with those that follow it in the same partition, and answers how many
/// they are. A row that lies in no partition is kept, and leaves nothing.
fn sort_run(
    alloc: Global,
    desc: &Desc,
    feeds: &[FeedBook],
    delivery: &Delivery,
    first: usize,
    sorted: &mut Sorted,
) -> Result<usize, Memory>
    requires within { first < length delivery.now.rows }
    ensures ok { IfOk result (λ count.
        SortsRun desc.now (map feed_of feeds.now) delivery.now first count sorted.old sorted.new) }
{
    let Some(key) = key_of(desc, &delivery.rows[first]) else {
        return Ok(1);
    };
    let table = table_of(desc, key);
    let count = 1 + run_len(table, key, &delivery.rows[first + 1..]);
    let closed = is_closed_part(feeds, table, key.part);
    put_stretch(
        alloc,
        closed,
        key,
        Stretch { first, count },
        delivery,
        sorted,
    )?;
    Ok(count)
}

/// Keeps a stretch of rows of a delivery that lie in a partition, or names them if it is closed.
fn put_stretch(
    alloc: Global,
    closed: bool,
    key: Key,
    stretch: Stretch,
    delivery: &Delivery,
    sorted: &mut Sorted,
) -> Result<(), Memory>
    requires within { IsStretchOf delivery.now.rows stretch }
    ensures ok { OnOk result (PutsStretch closed key stretch delivery.now sorted.old sorted.new) }
{
    if closed {
        let rows = &delivery.rows[stretch.first..stretch.first + stretch.count];
        push_names(delivery.number, key.part, rows, &mut sorted.asides)
    } else {
        push_stretch(alloc, key, stretch, &mut sorted.found)
    }
}

/// Puts the names of rows of a delivery that are for a partition at the end. After an `Err` there
/// may be some of them.
fn push_names(number: u32, part: u64, rows: &[DRow], asides: &mut Vec<Aside>) -> Result<(), Memory>
    ensures ok { OnOk result (asides.new.items
        ≡ asides.old.items ++ map (λ row. aside_at number row part) rows.now) }
{
    for row in rows {
        asides.push(Aside {
            number,
            row: row.number,
            table: row.table,
            part,
        })?;
    }
    Ok(())
}
