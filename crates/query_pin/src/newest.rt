//! The newest held version of each partition. A partition has its place before its first version
//! comes, so that a version can be put in where no memory may be taken.

ghost use Rattle.std.specs.Prelude.{None, Some, ◌≡◌, OnOk, if◌then◌else◌};
ghost use Rattle.desc_types.specs.declared.table.Key.{Key as KeyOf};
ghost use Rattle.view_meaning.specs.Partitions.{is_key};
ghost use Rattle.query_pin.specs.Kept.{HasNewestPlace, newest_at};

use depot_cell::Memory;
use desc_types::Key;
use std::alloc::Global;
use std::collections::BTreeMap;

/// The newest held version of a partition, by its number and its journal entry.
#[derive(Clone, Copy, Debug, PartialEq, Eq)]
pub(crate) struct Newest {
    pub(crate) version: u64,
    pub(crate) entry: u64,
}

/// The newest held version of a partition, if there is one.
pub(crate) fn newest_of(newest: &BTreeMap<Key, Option<Newest>>, key: Key) -> Option<Newest>
    ensures exact { result ≡ newest_at newest.now.entries key }
{
    match newest.get(&key) {
        Some(newest) => *newest,
        None => None,
    }
}

/// Takes the place of a partition that has no newest version.
pub(crate) fn take_newest_place(
    newest: &mut BTreeMap<Key, Option<Newest>>,
    key: Key,
) -> Result<(), Memory>
    requires none { newest_at newest.old.entries key ≡ None }
    ensures ok { OnOk result (HasNewestPlace newest.new.entries key) }
    ensures kept { (other : KeyOf)
        → newest_at newest.new.entries other ≡ newest_at newest.old.entries other }
{
    match newest.insert(key, None) {
        Ok(_) => Ok(()),
        Err(_) => Err(Memory),
    }
}

/// Makes a version the newest of its partition. It takes no memory.
pub(crate) fn put_newest(newest: &mut BTreeMap<Key, Option<Newest>>, key: Key, next: Newest)
    requires place { HasNewestPlace newest.old.entries key }
    ensures exact { (other : KeyOf) → newest_at newest.new.entries other
        ≡ (if is_key key other then Some next else newest_at newest.old.entries other) }
{
    match newest.get_mut(&key) {
        Some(place) => *place = Some(next),
        None => unreachable!(),
    }
}
