//! Pins: what a request is shown stays held while it is read. And versions that nobody reads are
//! dropped.

ghost use Rattle.std.specs.Prelude.{◌≡◌, ◌≢◌, ◌≤◌, ◌+◌, ◌++◌, ◌∷◌, [], All, IfOk, IsSome, None};
ghost use Rattle.std.specs.Prelude.{OnErr, OnOk, Some, false, filter, map, true};
ghost use Rattle.std.specs.List.{range_with_len};
ghost use Rattle.partition_map.specs.Partitions.{parts_met};
ghost use Rattle.partition_map.specs.Time.{END as the_end};
ghost use Rattle.desc_types.specs.Sources.{table_width};
ghost use Rattle.view_meaning.specs.Partitions.{is_part};
ghost use Rattle.view_meaning.specs.Shown.{has_level, keys_shown};
ghost use Rattle.query_pin.specs.Held.{version_of};
ghost use Rattle.query_pin.specs.Kept.{entry_in};
ghost use Rattle.query_pin.specs.Pins.{PinOf, pin_at};
ghost use Rattle.query_pin.specs.Requests.{is_bad_range, lacks_table, request_fault};
ghost use Rattle.machine_meaning.specs.declared.claim.Claim.{Claim as ClaimOf};
ghost use Rattle.machine_meaning.specs.Events.{IsDead, IsPinOf, Pins, Reclaims, Unpins};
ghost use Rattle.claim_core.specs.Cores.{IsPinnedOf, SameCore, Steps, items_of, shown_item};

use crate::machine::Core;
use crate::reads::versions_shown;
use depot_cell::Memory;
use desc_types::Key;
use partition_map::{Parts, parts_of_span};
use query_pin::{Dead, Pinned, Request};
use std::alloc::Global;
use std::cmp::Ordering;
use view_meaning::{Item, Mark, PinItem, compare_marks};

impl Core {
    /// Pins the version of each partition that a request is shown, under the least free id, and tells
    /// what is told of each. Partitions whose mark is below their item's level are left out. Without
    /// memory all is as before.
    pub fn step_pin(&mut self, alloc: Global, who: u64, request: &Request) -> Result<Pinned, Memory>
        requires accepted { request_fault self.old.desc request.now ≡ None }
        ensures ok { IfOk result (λ pinned. Steps self.old (Pins who request.now) self.new) }
        ensures exact { IfOk result (IsPinnedOf self.old.desc self.old.state request.now) }
        ensures own { IfOk result (λ pinned. IsPinOf self.new.state who pinned.id) }
        ensures err { OnErr result (SameCore self.old self.new) }
    {
        let items = self.items_of(alloc, request)?;
        let versions = versions_shown(alloc, &items)?;
        let place = self.len();
        let id = self.pins.free_id();
        self.pins.pin(who, id, versions)?;
        Ok(Pinned { id, place, items })
    }

    /// What is told of each partition that a request is shown, item by item.
    fn items_of(&self, alloc: Global, request: &Request) -> Result<Vec<PinItem>, Memory>
        requires accepted { request_fault self.now.desc request.now ≡ None }
        ensures exact { IfOk result (λ items. items.items
            ≡ items_of self.now.desc self.now.state.journal request.now) }
    {
        let mut items = Vec::new(alloc);
        for &item in &request.items {
            self.push_shown(alloc, item, &mut items)?;
        }
        Ok(items)
    }

    /// Puts what is told of each partition that an item is shown at the end.
    fn push_shown(&self, alloc: Global, item: Item, items: &mut Vec<PinItem>) -> Result<(), Memory>
        requires there { lacks_table self.now.desc item ≡ false }
        requires range { is_bad_range item ≡ false }
        ensures ok { OnOk result (items.new.items ≡ items.old.items
            ++ map (shown_item self.now.desc self.now.state.journal)
            (keys_shown self.now.desc self.now.state.journal item)) }
    {
        let asked = self.parts_of(item);
        for part in asked.first..asked.first + asked.count {
            let key = Key {
                table: item.table,
                part,
            };
            self.push_at_level(alloc, key, item.level, items)?;
        }
        Ok(())
    }

    /// The partitions that an item asks for.
    pub(super) fn parts_of(&self, item: Item) -> Parts
        requires there { lacks_table self.now.desc item ≡ false }
        requires range { is_bad_range item ≡ false }
        ensures exact { parts_met (table_width self.now.desc item.table) item.from item.to
            ≡ range_with_len result.first result.count }
        ensures within { result.first + result.count ≤ the_end }
    {
        parts_of_span(self.served.table(item.table).width, item.from, item.to)
    }

    /// Puts what is told of a partition at the end, unless its mark is below a level.
    fn push_at_level(
        &self,
        alloc: Global,
        key: Key,
        level: Mark,
        items: &mut Vec<PinItem>,
    ) -> Result<(), Memory>
        requires part { is_part self.now.desc key ≡ true }
        ensures ok { OnOk result (items.new.items ≡ items.old.items
            ++ map (shown_item self.now.desc self.now.state.journal)
            (filter (has_level self.now.desc self.now.state.journal level) (key ∷ []))) }
    {
        let mark = self.mark(alloc, key)?;
        if compare_marks(mark, level) != Ordering::Less {
            items.push(PinItem {
                key,
                version: self.version(key),
                upto: self.upto(key),
                mark,
            })?;
        }
        Ok(())
    }

    /// Ends a pin that is no claim's. It takes no memory.
    pub fn step_unpin(&mut self, id: u64)
        requires pin { IsSome (pin_at self.old.state.pins id) }
        requires unclaimed { All (λ (claim : ClaimOf). claim.id ≢ id) self.old.state.claims }
        ensures step { (pin : PinOf) → pin_at self.old.state.pins id ≡ Some pin
            → Steps self.old (Unpins pin.who id) self.new }
    {
        self.pins.unpin(id);
    }

    /// Drops a dead version: it is held no more. It takes no memory.
    pub fn step_reclaim(&mut self, dead: Dead)
        requires dead { IsDead self.old.desc self.old.state (version_of dead) }
        requires entry { entry_in self.old.state.held (version_of dead) ≡ Some dead.entry }
        ensures step { Steps self.old (Reclaims (version_of dead)) self.new }
    {
        self.kept.remove(dead);
    }
}
