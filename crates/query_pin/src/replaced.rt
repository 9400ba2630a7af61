//! The held versions that were replaced, in order of partition, then of number. One without an
//! entry is there only to have its place.

ghost use Rattle.std.specs.Prelude.{None, Some, ◌≡◌, IfSome, MatchOption, OnOk, if◌then◌else◌};
ghost use Rattle.view_meaning.specs.Partitions.{is_key};
ghost use Rattle.query_pin.specs.declared.input.Input.{Input as InputOf};
ghost use Rattle.query_pin.specs.Inputs.{is_version};
ghost use Rattle.query_pin.specs.Kept.{HasReplacedPlace, IsFrom, newest_entry_or, replaced_at};
ghost use Rattle.query_pin.specs.Held.{IsFirstFrom};

use crate::dead::Dead;
use crate::input::Input;
use crate::newest::Newest;
use depot_cell::Memory;
use desc_types::Key;
use std::alloc::Global;
use std::collections::BTreeMap;

/// The entry of a replaced version, if it is held.
pub(crate) fn replaced_entry(replaced: &BTreeMap<Input, Option<u64>>, read: Input) -> Option<u64>
    ensures exact { result ≡ replaced_at replaced.now.entries read }
{
    match replaced.get(&read) {
        Some(entry) => *entry,
        None => None,
    }
}

/// Takes the place of a version that is not held as a replaced one.
pub(crate) fn take_replaced_place(
    replaced: &mut BTreeMap<Input, Option<u64>>,
    read: Input,
) -> Result<(), Memory>
    requires none { replaced_at replaced.old.entries read ≡ None }
    ensures ok { OnOk result (HasReplacedPlace replaced.new.entries read) }
    ensures kept { (other : InputOf)
        → replaced_at replaced.new.entries other ≡ replaced_at replaced.old.entries other }
{
    match replaced.insert(read, None) {
        Ok(_) => Ok(()),
        Err(_) => Err(Memory),
    }
}

/// Keeps a version as a replaced one. It takes no memory.
fn put_replaced(replaced: &mut BTreeMap<Input, Option<u64>>, read: Input, entry: u64)
    requires place { HasReplacedPlace replaced.old.entries read }
    ensures exact { (other : InputOf) → replaced_at replaced.new.entries other
        ≡ (if is_version read other then Some entry else replaced_at replaced.old.entries other) }
{
    match replaced.get_mut(&read) {
        Some(place) => *place = Some(entry),
        None => unreachable!(),
    }
}

/// Keeps what was the newest version of a partition, if there was one. It takes no memory.
pub(crate) fn keep_newest(
    replaced: &mut BTreeMap<Input, Option<u64>>,
    key: Key,
    newest: Option<Newest>,
)
    requires place { IfSome newest (λ newest. HasReplacedPlace replaced.old.entries
        (record { key = key; version = newest.version })) }
    ensures exact { (other : InputOf) → replaced_at replaced.new.entries other
        ≡ (if is_key key other.key
        then newest_entry_or newest other.version (replaced_at replaced.old.entries other)
        else replaced_at replaced.old.entries other) }
{
    if let Some(Newest { version, entry }) = newest {
        put_replaced(replaced, Input { key, version }, entry);
    }
}

/// Drops a replaced version with its place. It takes no memory.
pub(crate) fn drop_replaced(replaced: &mut BTreeMap<Input, Option<u64>>, read: Input)
    ensures exact { (other : InputOf) → replaced_at replaced.new.entries other
        ≡ (if is_version read other then None else replaced_at replaced.old.entries other) }
{
    replaced.remove(&read);
}

/// The first replaced version that is held, from a version on.
pub(crate) fn first_replaced(replaced: &BTreeMap<Input, Option<u64>>, from: Input) -> Option<Dead>
    ensures exact { MatchOption result
        ((read : InputOf) → IsFrom from read → replaced_at replaced.now.entries read ≡ None)
        (IsFirstFrom replaced.now.entries from) }
{
    for (read, place) in replaced.range(from..) {
        if let Some(entry) = place {
            return Some(Dead {
                key: read.key,
                version: read.version,
                entry: *entry,
            });
        }
    }
    None
}
