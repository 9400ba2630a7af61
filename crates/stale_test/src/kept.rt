//! What a book keeps of partitions: the history of each that changed, and where each unsettled one
//! stands. Each change comes in two steps: the first makes room, the second takes no memory.

ghost use Rattle.std.specs.Prelude.{◌≡◌, ◌∷◌, [], All, OnOk, flat_map};
ghost use Rattle.desc_types.specs.Sources.{kind_sources};
ghost use Rattle.view_meaning.specs.Partitions.{keys_read, sources_of};
ghost use Rattle.stale_test.specs.Histories.{AreBefore};
ghost use Rattle.stale_test.specs.Keeping.{HasPlacesFor, Installs, KeepsAll, Raises, Wakes};
ghost use Rattle.stale_test.specs.Keeping.{ready_of};
ghost use Rattle.stale_test.specs.Places.{HasPlace};
ghost use Rattle.stale_test.specs.Standings.{IsWorst};

use crate::history::{History, install, raise};
use crate::places::{make_places, value_of};
use crate::ready::Ready;
use crate::standing::{Standing, settle, wake};
use depot_cell::Memory;
use desc_types::{Desc, Key, Kind, Src, Table, Width};
use std::alloc::Global;
use std::collections::BTreeMap;
use view_meaning::source_parts;

/// The histories of partitions that changed, and the standings of partitions of views that are not
/// settled, in order of key.
#[derive(Debug, Drop)]
pub(crate) struct Kept {
    pub(crate) parts: BTreeMap<Key, History>,
    pub(crate) unsettled: BTreeMap<Key, Standing>,
}

impl Kept {
    /// Of no entry.
    pub(crate) fn new(alloc: Global) -> Kept
        ensures parts { result.parts.entries ≡ [] }
        ensures unsettled { result.unsettled.entries ≡ [] }
    {
        Kept {
            parts: BTreeMap::new(alloc),
            unsettled: BTreeMap::new(alloc),
        }
    }

    /// Makes room to note that some partitions change, of which a walk found these above. It tells
    /// what it told before, also if there is no memory.
    pub(crate) fn make_room(&mut self, keys: &[Key], ready: &Ready) -> Result<(), Memory>
        ensures ok { OnOk result (HasPlacesFor keys.now (ready_of ready.now)
            self.new.parts.entries self.new.unsettled.entries) }
        ensures kept { KeepsAll self.old self.new }
    {
        make_places(&mut self.parts, keys, History::none())?;
        make_places(&mut self.unsettled, &ready.readers, Standing::Place)?;
        make_places(&mut self.unsettled, &ready.above, Standing::Place)
    }

    /// Notes that the entry with this number changed some partitions. It takes no memory.
    pub(crate) fn load(&mut self, keys: &[Key], entry: u64, ready: &Ready)
        requires places { HasPlacesFor keys.now (ready_of ready.now)
            self.old.parts.entries self.old.unsettled.entries }
        requires before { AreBefore entry self.old.parts.entries }
        ensures exact { Raises keys.now entry (ready_of ready.now) self.old self.new }
    {
        raise(&mut self.parts, keys, entry);
        wake_above(&mut self.unsettled, ready);
    }

    /// Notes that the entry with this number installed a partition of a view, with this place. It
    /// takes no memory.
    pub(crate) fn install(&mut self, desc: &Desc, key: Key, at: u64, entry: u64, ready: &Ready)
        requires places { HasPlacesFor (key ∷ []) (ready_of ready.now)
            self.old.parts.entries self.old.unsettled.entries }
        requires own { HasPlace self.old.unsettled.entries key }
        requires before { AreBefore entry self.old.parts.entries }
        ensures exact { Installs desc.now key at entry (ready_of ready.now)
            self.old self.new }
    {
        let standing = self.worst_source(desc, key, at);
        install(&mut self.parts, key, entry, at);
        wake_above(&mut self.unsettled, ready);
        settle(&mut self.unsettled, key, standing);
    }

    /// How a partition stands by its sources, if it is installed with this place.
    fn worst_source(&self, desc: &Desc, key: Key, at: u64) -> Standing
        ensures exact { IsWorst self.now.parts.entries self.now.unsettled.entries at
            (sources_of desc.now key) result }
    {
        let Some(table) = desc.tables.get(usize::from(key.table)) else {
            return Standing::Place;
        };
        self.worst_below(desc, table, key.part, at)
    }

    /// The same by the partitions that a table's partition reads.
    fn worst_below(&self, desc: &Desc, table: &Table, part: u64, at: u64) -> Standing
        ensures exact { IsWorst self.now.parts.entries self.now.unsettled.entries at
            (flat_map (keys_read desc.now table.now.width part) (kind_sources table.now.kind))
            result }
    {
        match &table.kind {
            Kind::Raw { .. } => Standing::Place,
            Kind::Filter { src, .. } => self.worst_read(desc, table.width, part, src, at),
            Kind::Group { src, .. } => self.worst_read(desc, table.width, part, src, at),
            Kind::Join { left, right, .. } => {
                let standing = self.worst_read(desc, table.width, part, left, at);
                standing.worse(self.worst_read(desc, table.width, part, right, at))
            }
        }
    }

    /// The same by the partitions that it reads of one source.
    fn worst_read(&self, desc: &Desc, width: Width, part: u64, src: &Src, at: u64) -> Standing
        ensures exact { IsWorst self.now.parts.entries self.now.unsettled.entries at
            (flat_map (keys_read desc.now width part) (src.now ∷ [])) result }
    {
        let read = source_parts(desc, width, part, *src);
        let mut worst = Standing::Place;
        for part in read.first..read.first + read.count {
            let source = Key {
                table: src.table,
                part,
            };
            worst = worst.worse(self.by_source(source, at));
        }
        worst
    }

    /// How badly a source lets a partition stand that is installed with this place.
    fn by_source(&self, source: Key, at: u64) -> Standing
        ensures exact { IsWorst self.now.parts.entries self.now.unsettled.entries at
            (source ∷ []) result }
    {
        if value_of(&self.parts, source, History::none()).changed > at {
            Standing::Stale
        } else if value_of(&self.unsettled, source, Standing::Place).is_unsettled() {
            Standing::Waits
        } else {
            Standing::Place
        }
    }
}

/// Lets what a walk found stand as it does after what the walk began at has changed: all above it
/// waits, and the readers are stale. It takes no memory.
fn wake_above(unsettled: &mut BTreeMap<Key, Standing>, ready: &Ready)
    requires readers { All (HasPlace unsettled.old.entries) ready.now.readers.items }
    requires above { All (HasPlace unsettled.old.entries) ready.now.above.items }
    ensures exact { Wakes (ready_of ready.now) unsettled.old.entries unsettled.new.entries }
{
    wake(unsettled, &ready.above, Standing::Waits);
    wake(unsettled, &ready.readers, Standing::Stale);
}
