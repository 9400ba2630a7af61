//! Maps by key in which room is made first and used later. A key that has only room stands there
//! with an empty value, which tells nothing.

ghost use Rattle.std.specs.Prelude.{Some, ◌≡◌, All, OnOk};
ghost use Rattle.stale_test.specs.Places.{HasPlace, IsUpdate, KeepsValues, value_in};

use depot_cell::Memory;
use desc_types::Key;
use std::collections::BTreeMap;

/// What a map holds at a key, and the empty value if the key has no place.
pub(crate) fn value_of<V: Copy>(map: &BTreeMap<Key, V>, key: Key, empty: V) -> V
    ensures exact { result ≡ value_in empty map.now.entries key }
{
    match map.get(&key) {
        Some(value) => *value,
        None => empty,
    }
}

/// Makes a place for each of some keys. Each key has the value that it had. Without memory some of
/// them may have got a place.
pub(crate) fn make_places<V: Copy>(
    map: &mut BTreeMap<Key, V>,
    keys: &[Key],
    empty: V,
) -> Result<(), Memory>
    ensures ok { OnOk result (All (HasPlace map.new.entries) keys.now) }
    ensures kept { KeepsValues empty map.old.entries map.new.entries }
{
    for key in keys {
        make_place(map, *key, empty)?;
    }
    Ok(())
}

/// Makes a place for a key, unless it has one. Without memory nothing changes.
fn make_place<V: Copy>(map: &mut BTreeMap<Key, V>, key: Key, empty: V) -> Result<(), Memory>
    ensures ok { OnOk result (HasPlace map.new.entries key) }
    ensures kept { KeepsValues empty map.old.entries map.new.entries }
{
    if map.contains_key(&key) {
        return Ok(());
    }
    match map.insert(key, empty) {
        Ok(_) => Ok(()),
        Err(_) => Err(Memory),
    }
}

/// Puts a value in at a key that has its place. It takes no memory.
pub(crate) fn put<V: Copy>(map: &mut BTreeMap<Key, V>, key: Key, value: V)
    requires place { HasPlace map.old.entries key }
    ensures exact { IsUpdate key (Some value) map.old.entries map.new.entries }
{
    match map.insert(key, value) {
        Ok(_) => {}
        Err(_) => unreachable!(),
    }
}
