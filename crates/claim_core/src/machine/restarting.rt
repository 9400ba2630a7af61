//! The core of a journal that was found: entry by entry.

ghost use Rattle.std.specs.Prelude.{◌≡◌, ◌+◌, IfOk, OnOk};
ghost use Rattle.view_meaning.specs.declared.journal.Entry.TheVariants as entry;
ghost use Rattle.view_meaning.specs.Journal.{FitsEntry, FitsJournal};
ghost use Rattle.view_meaning.specs.LegalJournals.{IsLegal, MayFollow};
ghost use Rattle.machine_meaning.specs.Events.{with_entry};
ghost use Rattle.query_pin.specs.Kept.{HasRoomFor, newest_in};
ghost use Rattle.claim_core.specs.Cores.{HoldsInstead, IsFound};

use crate::machine::Core;
use crate::step::Step;
use depot_cell::Memory;
use desc_types::{AcceptedDesc, Delivery, Key};
use query_pin::{Dead, KeptList};
use std::alloc::Global;
use view_meaning::Entry;

impl Core {
    /// The core of a journal that was found. Nothing is claimed or pinned, and just the latest
    /// versions are held.
    pub fn restart(alloc: Global, served: AcceptedDesc, entries: Vec<Entry>) -> Result<Core, Memory>
        requires legal { IsLegal served.desc entries.items }
        requires fits { FitsJournal served.desc entries.items }
        ensures ok { IfOk result (IsFound served.desc entries.items) }
    {
        let mut core = match Core::new(alloc, served) {
            Ok(core) => core,
            Err(_) => return Err(Memory),
        };
        for entry in entries {
            core.restore(entry)?;
        }
        Ok(core)
    }

    /// Adds the next entry of a journal that was found, to a core that was made by [`Core::new`] and
    /// this call alone. After an `Err` the journal cannot be read on.
    pub fn restore(&mut self, entry: Entry) -> Result<(), Memory>
        requires found { IsFound self.old.desc self.old.state.journal self.old }
        requires fits { FitsEntry self.old.desc entry }
        requires follows { MayFollow self.old.desc self.old.state.journal entry }
        ensures ok { OnOk result (IsFound self.old.desc
            (with_entry self.old.state.journal entry) self.new) }
    {
        match entry {
            Entry::Load(delivery) => self.restore_load(delivery),
            Entry::Install { key, at } => self.restore_install(key, at),
        }
    }

    /// Adds a load.
    fn restore_load(&mut self, delivery: Delivery) -> Result<(), Memory>
        requires found { IsFound self.old.desc self.old.state.journal self.old }
        requires fits { FitsEntry self.old.desc (entry.Load delivery) }
        requires follows { MayFollow self.old.desc self.old.state.journal (entry.Load delivery) }
        ensures ok { OnOk result (IsFound self.old.desc
            (with_entry self.old.state.journal (entry.Load delivery)) self.new) }
    {
        match self.ready_load(delivery) {
            Ok(prepared) => {
                self.step_load(prepared);
                Ok(())
            }
            Err(_) => Err(Memory),
        }
    }

    /// Adds an install. The version before it is no longer held.
    fn restore_install(&mut self, key: Key, at: u64) -> Result<(), Memory>
        requires found { IsFound self.old.desc self.old.state.journal self.old }
        requires fits { FitsEntry self.old.desc (entry.Install key at) }
        requires follows { MayFollow self.old.desc self.old.state.journal (entry.Install key at) }
        ensures ok { OnOk result (IsFound self.old.desc
            (with_entry self.old.state.journal (entry.Install key at)) self.new) }
    {
        let entry = self.len() + 1;
        self.order.reserve(1)?;
        self.stale.reserve_install(&self.served, key)?;
        self.kept.reserve(key)?;
        self.stale.note_install(&self.served, key, at);
        let version = self.stale.version(key);
        hold_instead(
            &mut self.kept,
            Dead {
                key,
                version,
                entry,
            },
        );
        match self.order.push(Step::Install { key, at }) {
            Ok(()) => Ok(()),
            Err(_) => unreachable!(),
        }
    }
}

/// Holds a version as the newest of its partition, and no longer the one before it, if there is one.
fn hold_instead(kept: &mut KeptList, next: Dead)
    requires room { HasRoomFor next.key kept.old }
    requires next { next.version ≡ newest_in kept.old next.key + 1 }
    ensures exact { HoldsInstead kept.old kept.new next }
{
    let Dead { key, version, .. } = next;
    kept.add(next);
    let version = version - 1;
    if let Some(entry) = kept.entry_of(key, version) {
        kept.remove(Dead {
            key,
            version,
            entry,
        });
    }
}
