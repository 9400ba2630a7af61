//! Which versions of partitions are held. The newest of each partition is held always, and an older
//! one until reclaim drops it. The two stand apart: reclaim looks for replaced versions, and there
//! are far fewer of them than partitions.

ghost use Rattle.std.specs.Prelude.{None, Some, ◌≡◌, ◌+◌, ◌^◌, ◌<◌, IfOk, IfSome, MatchOption, OnOk, if◌then◌else◌};
ghost use Rattle.desc_types.specs.declared.table.Key.{Key as KeyOf};
ghost use Rattle.view_meaning.specs.Partitions.{is_key};
ghost use Rattle.query_pin.specs.declared.input.Input.{Input as InputOf};
ghost use Rattle.query_pin.specs.Inputs.{is_version};
ghost use Rattle.query_pin.specs.Kept.{HasNumbers, HasRoomFor, IsFrom, IsReplaced, SameKept};
ghost use Rattle.query_pin.specs.Kept.{entry_in, newest_in, replaced_at};
ghost use Rattle.query_pin.specs.Held.{IsListOf, IsNextReplaced, version_of};

use crate::dead::Dead;
use crate::input::Input;
use crate::listing::{list_in_order, list_newest, list_replaced};
use crate::newest::{Newest, newest_of, put_newest, take_newest_place};
use crate::replaced::{
    drop_replaced, first_replaced, keep_newest, replaced_entry, take_replaced_place,
};
use depot_cell::Memory;
use desc_types::Key;
use std::alloc::Global;
use std::collections::BTreeMap;
use std::marker::Model;

/// The held versions. First [`KeptList::reserve`] makes room for the next version of a partition;
/// then [`KeptList::add`] puts it in and takes no memory.
#[derive(Debug, Drop)]
pub struct KeptList {
    newest: BTreeMap<Key, Option<Newest>>,
    replaced: BTreeMap<Input, Option<u64>>,
}

impl Model for KeptList {
    ghost use Rattle.query_pin.specs.Kept.{IsKeptList, KeptListOf};

    ghost Value = { KeptListOf };

    ghost view = { λ kept. record {
      newest = kept.newest.entries;
      replaced = kept.replaced.entries;
    } };

    ghost invariant = { λ kept. IsKeptList kept.newest.entries kept.replaced.entries };
}

impl KeptList {
    /// No version is held.
    pub fn new(alloc: Global) -> KeptList
        ensures empty { (read : InputOf) → entry_in result read ≡ None }
        ensures newest { (key : KeyOf) → newest_in result key ≡ 0 }
    {
        KeptList {
            newest: BTreeMap::new(alloc),
            replaced: BTreeMap::new(alloc),
        }
    }

    /// Makes room for the next version of a partition, and for its newest one among the replaced.
    /// With memory or without, the list tells what it told. Room that is not used stays, and tells
    /// nothing.
    pub fn reserve(&mut self, key: Key) -> Result<(), Memory>
        ensures ok { OnOk result (HasRoomFor key self.new) }
        ensures kept { SameKept self.old self.new }
    {
        match newest_of(&self.newest, key) {
            Some(newest) => {
                let version = newest.version;
                take_replaced_place(&mut self.replaced, Input { key, version })
            }
            None => take_newest_place(&mut self.newest, key),
        }
    }

    /// Adds a version as the newest of its partition. The one that was newest stays held, as a
    /// replaced one. It takes no memory.
    pub fn add(&mut self, added: Dead)
        requires room { HasRoomFor added.key self.old }
        requires newer { newest_in self.old added.key < added.version }
        ensures entry { (read : InputOf) → entry_in self.new read
            ≡ (if is_version (version_of added) read then Some added.entry
            else entry_in self.old read) }
        ensures newest { (key : KeyOf) → newest_in self.new key
            ≡ (if is_key added.key key then added.version else newest_in self.old key) }
    {
        let Dead {
            key,
            version,
            entry,
        } = added;
        let newest = newest_of(&self.newest, key);
        keep_newest(&mut self.replaced, key, newest);
        put_newest(&mut self.newest, key, Newest { version, entry });
    }

    /// Drops a version that was replaced. It takes no memory.
    pub fn remove(&mut self, dead: Dead)
        requires held { entry_in self.old (version_of dead) ≡ Some dead.entry }
        requires replaced { dead.version < newest_in self.old dead.key }
        ensures entry { (read : InputOf) → entry_in self.new read
            ≡ (if is_version (version_of dead) read then None else entry_in self.old read) }
        ensures newest { (key : KeyOf) → newest_in self.new key ≡ newest_in self.old key }
    {
        let Dead { key, version, .. } = dead;
        drop_replaced(&mut self.replaced, Input { key, version });
    }

    /// The journal entry of a version, if it is held.
    pub fn entry_of(&self, key: Key, version: u64) -> Option<u64>
        ensures exact { result ≡ entry_in self.now (record { key = key; version = version }) }
        ensures within { HasNumbers self.now }
    {
        match newest_of(&self.newest, key) {
            Some(newest) if newest.version == version => Some(newest.entry),
            _ => replaced_entry(&self.replaced, Input { key, version }),
        }
    }

    /// The number of the newest held version of a partition, 0 if none is held.
    pub fn newest(&self, key: Key) -> u64
        ensures exact { result ≡ newest_in self.now key }
        ensures within { HasNumbers self.now }
    {
        match newest_of(&self.newest, key) {
            Some(newest) => newest.version,
            None => 0,
        }
    }

    /// The first held version, from one on, that is not the newest of its partition. Versions that
    /// are newest are not looked at; places without an entry are gone over.
    pub fn next_replaced(&self, from: Input) -> Option<Dead>
        ensures exact { MatchOption result
            ((read : InputOf) → IsFrom from read → IsReplaced self.now read → ⊥)
            (IsNextReplaced self.now from) }
        ensures within { IfSome result (λ dead. dead.version + 1 < 2 ^ 64) }
    {
        first_replaced(&self.replaced, from)
    }

    /// All held versions, in order of partition, then of number. The list is made anew: it takes as
    /// much memory as there are versions, and twice that while it is made.
    pub fn list(&self, alloc: Global) -> Result<Vec<Dead>, Memory>
        ensures exact { IfOk result (λ list. IsListOf (entry_in self.now) list.items) }
    {
        let mut held = BTreeMap::new(alloc);
        list_replaced(&self.replaced, &mut held)?;
        list_newest(&self.newest, &mut held)?;
        list_in_order(alloc, &held)
    }
}
