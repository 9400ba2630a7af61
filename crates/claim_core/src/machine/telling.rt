//! What the core tells. None of it changes anything.

ghost use Rattle.std.specs.Prelude.{◌≡◌, ◌<◌, IfOk, Some, length, nat_eq, option_and_then, slice_get};
ghost use Rattle.std.specs.Prelude.{true};
ghost use Rattle.view_meaning.specs.Drains.{unsettled};
ghost use Rattle.view_meaning.specs.Journal.{accepted};
ghost use Rattle.view_meaning.specs.Marks.{mark_of};
ghost use Rattle.view_meaning.specs.Partitions.{is_part};
ghost use Rattle.view_meaning.specs.SetAside.{asides};
ghost use Rattle.view_meaning.specs.Shown.{upto};
ghost use Rattle.view_meaning.specs.Staleness.{is_settled};
ghost use Rattle.view_meaning.specs.Versions.{version};
ghost use Rattle.raw_load.specs.Books.{TellsRaw, deliveries_of};
ghost use Rattle.query_pin.specs.Kept.{entry_in};
ghost use Rattle.query_pin.specs.Pins.{versions_at};
ghost use Rattle.machine_meaning.specs.Events.{claim_at};
ghost use Rattle.claim_core.specs.Cores.{IsNextDead};
ghost use Rattle.claim_core.specs.JournalView.{installed_after, key_stepped};

use crate::claims::find_claim;
use crate::machine::Core;
use crate::step::Step;
use depot_cell::Memory;
use depot_reclaim::next_dead;
use desc_types::{AcceptedDesc, Key};
use machine_meaning::Claim;
use query_pin::{Dead, Input};
use raw_load::RawBook;
use std::alloc::Global;
use view_meaning::{Aside, Mark};

impl Core {
    /// The description.
    pub fn served(&self) -> &AcceptedDesc
        ensures exact { result.now.desc ≡ self.now.desc }
    {
        &self.served
    }

    /// The book of the accepted deliveries and the rows that they kept.
    pub fn raw(&self) -> &RawBook
        ensures exact { TellsRaw self.now.desc result.now.told }
        ensures deliveries { deliveries_of result.now.told ≡ accepted self.now.state.journal }
    {
        &self.raw
    }

    /// The rows of a feed that were set aside, in order of acceptance, then of record.
    pub fn aside(&self, feed: u16) -> &[Aside]
        requires within { feed < length self.now.desc.feeds }
        ensures exact { result.now ≡ asides self.now.desc (accepted self.now.state.journal) feed }
    {
        self.raw.aside(feed)
    }

    /// The mark of a partition. It costs the runs of raw partitions below it.
    pub fn mark(&self, alloc: Global, key: Key) -> Result<Mark, Memory>
        requires part { is_part self.now.desc key ≡ true }
        ensures exact { IfOk result (λ mark. mark ≡ mark_of self.now.desc self.now.state.journal key) }
    {
        if self.stale.is_settled(key) {
            self.marks.below_mark(alloc, &self.served, key)
        } else {
            Ok(Mark::Open)
        }
    }

    /// How often the rows of a partition have changed.
    pub fn version(&self, key: Key) -> u64
        ensures exact { result ≡ version self.now.desc self.now.state.journal key }
    {
        self.stale.version(key)
    }

    /// The place up to which the rows of a partition count deliveries.
    pub fn upto(&self, key: Key) -> u64
        ensures exact { result ≡ upto self.now.desc self.now.state.journal key }
    {
        self.stale.upto(&self.served, key)
    }

    /// Whether a partition and all below it are up to date.
    pub fn is_settled(&self, key: Key) -> bool
        requires part { is_part self.now.desc key ≡ true }
        ensures exact { result ≡ is_settled self.now.desc self.now.state.journal key }
    {
        self.stale.is_settled(key)
    }

    /// Whether each partition is settled.
    pub fn all_settled(&self) -> bool
        ensures exact { result ≡ nat_eq (length (unsettled self.now.desc self.now.state.journal)) 0 }
    {
        self.stale.all_settled()
    }

    /// The entry that made a version, if it is held.
    pub fn entry_of(&self, key: Key, version: u64) -> Option<u64>
        ensures exact { result
            ≡ entry_in self.now.state.held (record { key = key; version = version }) }
    {
        self.kept.entry_of(key, version)
    }

    /// The partition that the entry after so many others computed, if it is an install.
    pub fn installed_after(&self, count: u64) -> Option<Key>
        ensures exact { result ≡ installed_after self.now.state.journal count }
    {
        installed_at(&self.order, count)
    }

    /// The first dead version from a partition on: one that is held, is not the latest, and that
    /// nobody reads. It takes no memory.
    pub fn next_dead(&self, from: Key) -> Option<Dead>
        ensures exact { IsNextDead self.now.desc self.now.state from result }
    {
        next_dead(&self.kept, &self.pins, from)
    }

    /// The claim of an id, if there is one.
    pub fn claimed(&self, id: u64) -> Option<Claim>
        ensures exact { result ≡ claim_at id self.now.state.claims }
    {
        find_claim(&self.claims, id)
    }

    /// One of the versions that a claim reads or a pin keeps.
    pub fn item(&self, id: u64, index: u64) -> Input
        requires within { index < length (versions_at self.now.state.pins id) }
        ensures exact { slice_get (versions_at self.now.state.pins id) index ≡ Some result }
    {
        self.pins.item(id, index)
    }
}

/// The partition that the step at a place, from 0, computed, if it is an install.
fn installed_at(order: &[Step], place: u64) -> Option<Key>
    ensures exact { result ≡ option_and_then key_stepped (slice_get order.now place) }
{
    match order.get(place as usize) {
        Some(Step::Install { key, .. }) => Some(*key),
        Some(Step::Load) => None,
        None => None,
    }
}
