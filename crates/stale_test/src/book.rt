//! The book of stale partitions: it tells which partitions of views are stale and which are not
//! settled, with no pass over a journal.
//!
//! It is told of each entry, in two calls. `reserve_load` or `reserve_install` walks upwards from
//! what the entry changes, and takes all memory that noting it needs. `note_load` or `note_install`
//! then notes it, and takes none, so that it can't fail once the entry stands in the journal.

ghost use Rattle.std.specs.Prelude.{◌≡◌, ◌≤◌, ◌<◌, ◌+◌, ◌^◌, ◌++◌, ◌∷◌, [], All, OnOk, true, false};
ghost use Rattle.std.specs.Prelude.{List, find, length, nat_eq, not, slice_get};
ghost use Rattle.std.specs.Ordering.{is_gt};
ghost use Rattle.desc_types.specs.declared.table.Key.{Key as KeyOf};
ghost use Rattle.desc_types.specs.Deliveries.{DeliveryOf};
ghost use Rattle.desc_types.specs.Descriptions.{DescOf};
ghost use Rattle.desc_types.specs.Keys.{key_cmp};
ghost use Rattle.view_meaning.specs.declared.journal.Entry.{Entry as EntryOf};
ghost use Rattle.view_meaning.specs.declared.journal.Entry.TheVariants as entry;
ghost use Rattle.view_meaning.specs.Journal.{accepted};
ghost use Rattle.view_meaning.specs.Partitions.{is_among, is_part};
ghost use Rattle.view_meaning.specs.Versions.{is_raw, touches, version};
ghost use Rattle.view_meaning.specs.Staleness.{is_settled, is_stale};
ghost use Rattle.view_meaning.specs.Drains.{unsettled};
ghost use Rattle.view_meaning.specs.Shown.{upto};
ghost use Rattle.stale_test.specs.Books.{HasInstallPlaces, HasPlaces, IsReadyFor, TellsStale};
ghost use Rattle.stale_test.specs.Histories.{history_in};
ghost use Rattle.stale_test.specs.Standings.{standing_in};

use crate::history::History;
use crate::kept::Kept;
use crate::places::value_of;
use crate::ready::Ready;
use crate::standing::{Standing, first_unsettled};
use depot_cell::Memory;
use desc_types::{AcceptedDesc, Desc, Key, Kind};
use std::alloc::Global;
use std::marker::Model;
use std::slice;

/// What is stale and what is unsettled after the entries that were noted, and the version of each
/// partition.
#[derive(Debug, Drop)]
pub struct StaleBook {
    entries: u64,
    kept: Kept,
    ready: Ready,
}

impl Model for StaleBook {
    ghost use Rattle.stale_test.specs.Books.{StaleBookOf};

    ghost Value = { StaleBookOf };

    ghost use Rattle.stale_test.specs.Histories.{AreWithin};
    ghost use Rattle.stale_test.specs.Keeping.{ready_of};

    ghost view = { λ book. record {
      entries = book.entries;
      parts = book.kept.parts.entries;
      unsettled = book.kept.unsettled.entries;
      ready = ready_of book.ready;
    } };

    ghost invariant = { λ book. AreWithin book.entries book.kept.parts.entries };
}

impl StaleBook {
    /// Of an empty journal.
    pub fn new(alloc: Global) -> StaleBook
        ensures exact { (desc : DescOf) → TellsStale desc [] result }
        ensures entries { result.entries ≡ 0 }
    {
        StaleBook {
            entries: 0,
            kept: Kept::new(alloc),
            ready: Ready::new(alloc),
        }
    }

    /// How many entries were noted: the place of the last one.
    pub fn entries(&self) -> u64
        ensures exact { result ≡ self.now.entries }
    {
        self.entries
    }

    /// Makes room to note a load that keeps rows in these raw partitions. It costs what rests on
    /// them. Without memory there may be room for some of it, and the book tells what it told.
    pub fn reserve_load(&mut self, served: &AcceptedDesc, touched: &[Key]) -> Result<(), Memory>
        requires parts { All (λ key. is_part served.now.desc key ≡ true) touched.now }
        ensures ok { OnOk result (HasPlaces touched.now self.new) }
        ensures ready { OnOk result (IsReadyFor served.now.desc touched.now self.new) }
        ensures kept { (desc : DescOf) (journal : List EntryOf)
            → TellsStale desc journal self.old → TellsStale desc journal self.new }
        ensures entries { self.new.entries ≡ self.old.entries }
    {
        let ready = Ready::walk(self.ready.allocator(), served, touched)?;
        self.kept.make_room(touched, &ready)?;
        self.ready = ready;
        Ok(())
    }

    /// Notes a load for which room was made. It takes no memory, and costs what rests on the
    /// partitions that it touched. One that is named twice was touched once.
    pub fn note_load(&mut self, touched: &[Key])
        requires room { HasPlaces touched.now self.old }
        requires few { self.old.entries < 2 ^ 63 }
        ensures exact { (desc : DescOf) (journal : List EntryOf) (delivery : DeliveryOf)
            → IsReadyFor desc touched.now self.old → TellsStale desc journal self.old
            → ((key : KeyOf)
            → is_among touched.now key ≡ touches desc key (accepted journal) delivery)
            → TellsStale desc (journal ++ entry.Load delivery ∷ []) self.new }
        ensures entries { self.new.entries ≡ self.old.entries + 1 }
    {
        self.entries += 1;
        self.kept.load(touched, self.entries, &self.ready);
    }

    /// Makes room to note an install of a partition of a view. It costs what rests on it. Without
    /// memory there may be room for some of it, and the book tells what it told.
    pub fn reserve_install(&mut self, served: &AcceptedDesc, key: Key) -> Result<(), Memory>
        requires part { is_part served.now.desc key ≡ true }
        requires view { is_raw (slice_get served.now.desc.tables key.table) ≡ false }
        ensures ok { OnOk result (HasInstallPlaces key self.new) }
        ensures ready { OnOk result (IsReadyFor served.now.desc (key ∷ []) self.new) }
        ensures kept { (desc : DescOf) (journal : List EntryOf)
            → TellsStale desc journal self.old → TellsStale desc journal self.new }
        ensures entries { self.new.entries ≡ self.old.entries }
    {
        self.reserve_load(served, slice::from_ref(&key))
    }

    /// Notes an install of a partition of a view for which room was made, with the place up to
    /// which it counts entries. It takes no memory. It costs its sources, and what rests on it.
    pub fn note_install(&mut self, served: &AcceptedDesc, key: Key, at: u64)
        requires part { is_part served.now.desc key ≡ true }
        requires view { is_raw (slice_get served.now.desc.tables key.table) ≡ false }
        requires past { at ≤ self.old.entries }
        requires room { HasInstallPlaces key self.old }
        requires few { self.old.entries < 2 ^ 63 }
        ensures exact { (journal : List EntryOf)
            → IsReadyFor served.now.desc (key ∷ []) self.old
            → TellsStale served.now.desc journal self.old
            → TellsStale served.now.desc (journal ++ entry.Install key at ∷ []) self.new }
        ensures entries { self.new.entries ≡ self.old.entries + 1 }
    {
        self.entries += 1;
        self.kept
            .install(&served.desc, key, at, self.entries, &self.ready);
    }

    /// Whether a partition is stale. It costs the logarithm of what is kept.
    pub fn is_stale(&self, key: Key) -> bool
        ensures exact { (desc : DescOf) (journal : List EntryOf)
            → TellsStale desc journal self.now → is_part desc key ≡ true
            → result ≡ is_stale desc journal key }
    {
        self.standing(key).is_stale()
    }

    /// Whether a partition is settled. It costs the logarithm of what is kept.
    pub fn is_settled(&self, key: Key) -> bool
        ensures exact { (desc : DescOf) (journal : List EntryOf)
            → TellsStale desc journal self.now → is_part desc key ≡ true
            → result ≡ is_settled desc journal key }
    {
        !self.standing(key).is_unsettled()
    }

    /// Where a partition stands.
    fn standing(&self, key: Key) -> Standing
        ensures exact { result ≡ standing_in self.now.unsettled key }
    {
        value_of(&self.kept.unsettled, key, Standing::Place)
    }

    /// Whether each partition is settled. It costs as `next_unsettled` does.
    pub fn all_settled(&self) -> bool
        ensures exact { (desc : DescOf) (journal : List EntryOf)
            → TellsStale desc journal self.now
            → result ≡ nat_eq (length (unsettled desc journal)) 0 }
    {
        self.next_unsettled(Key { table: 0, part: 0 }).is_none()
    }

    /// How often the rows of a partition have changed: of a raw one how many loads touched it, of
    /// one of a view how often it was installed. It costs the logarithm of what is kept.
    pub fn version(&self, key: Key) -> u64
        ensures exact { (desc : DescOf) (journal : List EntryOf)
            → TellsStale desc journal self.now → result ≡ version desc journal key }
    {
        self.history(key).version
    }

    /// The place up to which the rows of a partition count entries: of a raw one the end of the
    /// journal, of one of a view the place of its last install. It costs the logarithm of what is
    /// kept.
    pub fn upto(&self, served: &AcceptedDesc, key: Key) -> u64
        ensures exact { (journal : List EntryOf)
            → TellsStale served.now.desc journal self.now
            → result ≡ upto served.now.desc journal key }
    {
        if is_raw_table(&served.desc, key.table) {
            self.entries
        } else {
            self.history(key).upto
        }
    }

    /// What is kept of a partition.
    fn history(&self, key: Key) -> History
        ensures exact { result ≡ history_in self.now.parts key }
    {
        value_of(&self.kept.parts, key, History::none())
    }

    /// The first unsettled partition, in order of key, that does not stand before one. It costs the
    /// logarithm of what is kept, and passes over room that was made and not used.
    pub fn next_unsettled(&self, from: Key) -> Option<Key>
        ensures exact { (desc : DescOf) (journal : List EntryOf)
            → TellsStale desc journal self.now
            → result ≡ find (λ key. not (is_gt (key_cmp from key))) (unsettled desc journal) }
    {
        first_unsettled(&self.kept.unsettled, from)
    }
}

/// Whether there is a table with this number and it is raw.
fn is_raw_table(desc: &Desc, table: u16) -> bool
    ensures exact { result ≡ is_raw (slice_get desc.now.tables table) }
{
    match desc.tables.get(usize::from(table)) {
        Some(table) => matches!(table.kind, Kind::Raw { .. }),
        None => false,
    }
}
