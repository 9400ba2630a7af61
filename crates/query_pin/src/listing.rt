//! All held versions in one list. Versions that are newest and versions that were replaced are
//! put into one map by version, and its order is that of the list.

ghost use Rattle.std.specs.Prelude.{Some, ◌≡◌, IfOk, OnOk, if◌then◌else◌};
ghost use Rattle.std.specs.Option.{option_or};
ghost use Rattle.view_meaning.specs.Partitions.{is_key};
ghost use Rattle.query_pin.specs.declared.input.Input.{Input as InputOf};
ghost use Rattle.query_pin.specs.Inputs.{is_version};
ghost use Rattle.query_pin.specs.Kept.{entry_at, newest_at, newest_entry_or, replaced_at};
ghost use Rattle.query_pin.specs.Held.{IsListOf};

use crate::dead::Dead;
use crate::input::Input;
use crate::newest::Newest;
use depot_cell::Memory;
use desc_types::Key;
use std::alloc::Global;
use std::collections::BTreeMap;

/// Puts the replaced versions into a map.
pub(crate) fn list_replaced(
    replaced: &BTreeMap<Input, Option<u64>>,
    held: &mut BTreeMap<Input, u64>,
) -> Result<(), Memory>
    ensures ok { OnOk result ((read : InputOf) → entry_at held.new.entries read
        ≡ option_or (replaced_at replaced.now.entries read) (entry_at held.old.entries read)) }
{
    for (read, entry) in replaced {
        put_replaced(held, *read, *entry)?;
    }
    Ok(())
}

/// Puts a version into a map, if it has an entry.
fn put_replaced(
    held: &mut BTreeMap<Input, u64>,
    read: Input,
    entry: Option<u64>,
) -> Result<(), Memory>
    ensures ok { OnOk result ((other : InputOf) → entry_at held.new.entries other
        ≡ (if is_version read other then option_or entry (entry_at held.old.entries other)
        else entry_at held.old.entries other)) }
{
    match entry {
        Some(entry) => put(held, read, entry),
        None => Ok(()),
    }
}

/// Puts the newest versions into a map.
pub(crate) fn list_newest(
    newest: &BTreeMap<Key, Option<Newest>>,
    held: &mut BTreeMap<Input, u64>,
) -> Result<(), Memory>
    ensures ok { OnOk result ((read : InputOf) → entry_at held.new.entries read
        ≡ newest_entry_or (newest_at newest.now.entries read.key) read.version
        (entry_at held.old.entries read)) }
{
    for (key, newest) in newest {
        put_newest(held, *key, *newest)?;
    }
    Ok(())
}

/// Puts the newest version of a partition into a map, if there is one.
fn put_newest(
    held: &mut BTreeMap<Input, u64>,
    key: Key,
    newest: Option<Newest>,
) -> Result<(), Memory>
    ensures ok { OnOk result ((read : InputOf) → entry_at held.new.entries read
        ≡ (if is_key key read.key
        then newest_entry_or newest read.version (entry_at held.old.entries read)
        else entry_at held.old.entries read)) }
{
    match newest {
        Some(Newest { version, entry }) => put(held, Input { key, version }, entry),
        None => Ok(()),
    }
}

/// The versions of a map in order.
pub(crate) fn list_in_order(alloc: Global, held: &BTreeMap<Input, u64>) -> Result<Vec<Dead>, Memory>
    ensures exact { IfOk result (λ list. IsListOf (entry_at held.now.entries) list.items) }
{
    let mut list = Vec::new(alloc);
    for (read, entry) in held {
        list.push(Dead {
            key: read.key,
            version: read.version,
            entry: *entry,
        })?;
    }
    Ok(list)
}

/// Puts a version with its entry into a map.
fn put(held: &mut BTreeMap<Input, u64>, read: Input, entry: u64) -> Result<(), Memory>
    ensures ok { OnOk result ((other : InputOf) → entry_at held.new.entries other
        ≡ (if is_version read other then Some entry else entry_at held.old.entries other)) }
{
    match held.insert(read, entry) {
        Ok(_) => Ok(()),
        Err(_) => Err(Memory),
    }
}
