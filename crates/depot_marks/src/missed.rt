//! Of which deliveries of a feed rows were set aside, by partition.

ghost use Rattle.std.specs.Prelude.{ℕ, Some, false, ◌≡◌, ◌||◌, All, OnOk, nat_le};
ghost use Rattle.std.specs.List.{list_any};
ghost use Rattle.desc_types.specs.declared.table.Key.{Key as KeyOf};
ghost use Rattle.view_meaning.specs.RawMarks.{is_missed};
ghost use Rattle.depot_marks.specs.Missed.{HasPart, HasPartOf, is_least_to, is_missed_to};
ghost use Rattle.depot_marks.specs.Missed.{is_found_in, is_missed_when, part_of_aside};
ghost use Rattle.depot_marks.specs.Runs.{IsPartOf, keys_of_run};

use crate::closings::Closings;
use crate::run::Run;
use depot_cell::Memory;
use desc_types::{Key, Width};
use partition_map::part_end;
use std::alloc::Global;
use std::collections::BTreeMap;
use std::marker::Model;
use view_meaning::Aside;

/// Of each partition for which rows were set aside the least number of a delivery that brought one
/// of them. One without a number is there only to have its place.
#[derive(Debug, Drop)]
pub(crate) struct Missed {
    parts: BTreeMap<Key, Option<u32>>,
}

impl Model for Missed {
    ghost use Rattle.depot_marks.specs.Missed.{MissedOf};

    ghost Value = { MissedOf };

    ghost view = { λ missed. missed.parts.entries };
}

impl Missed {
    /// No row was set aside.
    pub(crate) fn new(alloc: Global) -> Missed
        ensures exact { (key : KeyOf) (last : ℕ) → is_missed_to result key last ≡ false }
    {
        Missed {
            parts: BTreeMap::new(alloc),
        }
    }

    /// Takes places for the partitions of these rows.
    pub(crate) fn reserve(&mut self, asides: &[Aside]) -> Result<(), Memory>
        ensures ok { OnOk result (All (HasPartOf self.new) asides.now) }
        ensures kept { (key : KeyOf) (last : ℕ)
            → is_missed_to self.new key last ≡ is_missed_to self.old key last }
    {
        take_places(&mut self.parts, asides)
    }

    /// Notes rows that were set aside. It takes no memory.
    pub(crate) fn note(&mut self, asides: &[Aside])
        requires places { All (HasPartOf self.old) asides.now }
        ensures exact { (key : KeyOf) (last : ℕ) → is_missed_to self.new key last
            ≡ (is_missed_to self.old key last || list_any (is_missed key last) asides.now) }
    {
        note_all(&mut self.parts, asides);
    }

    /// Whether a row for one of the partitions of a run was set aside, of a delivery up to the
    /// greatest number that was expected of that partition. Only the partitions that have a place
    /// are looked at.
    pub(crate) fn misses_in(&self, width: Width, run: Run, closings: &Closings) -> bool
        requires parts { All (IsPartOf width) (keys_of_run run) }
        ensures exact { result ≡ list_any (is_missed_when self.now closings.now.items width)
            (keys_of_run run) }
    {
        for (key, least) in run.entries_in(&self.parts) {
            let expected = closings.greatest_at(part_end(width, key.part));
            if is_least_in(*least, expected) {
                return true;
            }
        }
        false
    }
}

/// Whether there are a least number and a greatest one that was expected, and the least is no
/// greater.
fn is_least_in(least: Option<u32>, expected: Option<u32>) -> bool
    ensures exact { result ≡ is_found_in (Some least) expected }
{
    match (least, expected) {
        (Some(number), Some(last)) => number <= last,
        (Some(_), None) => false,
        (None, _) => false,
    }
}

/// The partition that a row is for.
fn part_of_aside(aside: &Aside) -> Key
    ensures exact { result ≡ part_of_aside aside.now }
{
    Key {
        table: aside.table,
        part: aside.part,
    }
}

/// Takes places for the partitions of these rows.
fn take_places(parts: &mut BTreeMap<Key, Option<u32>>, asides: &[Aside]) -> Result<(), Memory>
    ensures ok { OnOk result (All (HasPartOf parts.new.entries) asides.now) }
    ensures kept { (key : KeyOf) (last : ℕ) → is_missed_to parts.new.entries key last
        ≡ is_missed_to parts.old.entries key last }
{
    for aside in asides {
        take_place(parts, part_of_aside(aside))?;
    }
    Ok(())
}

/// Takes a place for a partition, if it has none.
fn take_place(parts: &mut BTreeMap<Key, Option<u32>>, key: Key) -> Result<(), Memory>
    ensures ok { OnOk result (HasPart parts.new.entries key) }
    ensures places { (other : KeyOf) → HasPart parts.old.entries other
        → HasPart parts.new.entries other }
    ensures kept { (other : KeyOf) (last : ℕ) → is_missed_to parts.new.entries other last
        ≡ is_missed_to parts.old.entries other last }
{
    if parts.contains_key(&key) {
        return Ok(());
    }
    match parts.insert(key, None) {
        Ok(_) => Ok(()),
        Err(_) => Err(Memory),
    }
}

/// Notes rows that were set aside. It takes no memory.
fn note_all(parts: &mut BTreeMap<Key, Option<u32>>, asides: &[Aside])
    requires places { All (HasPartOf parts.old.entries) asides.now }
    ensures exact { (key : KeyOf) (last : ℕ) → is_missed_to parts.new.entries key last
        ≡ (is_missed_to parts.old.entries key last || list_any (is_missed key last) asides.now) }
{
    for aside in asides {
        note_one(parts, aside);
    }
}

/// Notes a row that was set aside. It takes no memory.
fn note_one(parts: &mut BTreeMap<Key, Option<u32>>, aside: &Aside)
    requires place { HasPartOf parts.old.entries aside.now }
    ensures places { (other : KeyOf) → HasPart parts.old.entries other
        → HasPart parts.new.entries other }
    ensures exact { (key : KeyOf) (last : ℕ) → is_missed_to parts.new.entries key last
        ≡ (is_missed_to parts.old.entries key last || is_missed key last aside.now) }
{
    match parts.get_mut(&part_of_aside(aside)) {
        Some(least) => *least = Some(lesser(*least, aside.number)),
        None => unreachable!(),
    }
}

/// The lesser one of a number that may be there and another.
fn lesser(least: Option<u32>, number: u32) -> u32
    ensures exact { (last : ℕ) → nat_le result last ≡ (is_least_to least last || nat_le number last) }
{
    match least {
        Some(least) => least.min(number),
        None => number,
    }
}
