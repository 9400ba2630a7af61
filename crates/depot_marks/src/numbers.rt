//! Which numbers of a feed were accepted: all below the first that is missing, and some above it.

ghost use Rattle.std.specs.Prelude.{ℕ, true, false, ◌≡◌, ◌+◌, ◌||◌, ◌==◌, MatchOption, OnOk, nat_lt};
ghost use Rattle.std.specs.List.{list_all, range_with_len};
ghost use Rattle.depot_marks.specs.Numbers.{HasPlace, IsLeastMissing, flag_at, is_accepted};

use depot_cell::Memory;
use std::alloc::Global;
use std::collections::BTreeMap;
use std::marker::Model;

/// The least number that a feed has not accepted, and of numbers from there on whether they were
/// accepted. What is not accepted is there only to have its place.
#[derive(Debug, Drop)]
pub(crate) struct Numbers {
    missing: u64,
    ahead: BTreeMap<u32, bool>,
}

impl Model for Numbers {
    ghost use Rattle.depot_marks.specs.Numbers.{IsLeastMissing, NumbersOf};

    ghost Value = { NumbersOf };

    ghost view = { λ numbers. record {
      missing = numbers.missing;
      ahead = numbers.ahead.entries;
    } };

    ghost invariant = { λ numbers. IsLeastMissing numbers.missing numbers.ahead.entries };
}

impl Numbers {
    /// No number is accepted.
    pub(crate) fn new(alloc: Global) -> Numbers
        ensures exact { (number : ℕ) → is_accepted result number ≡ false }
    {
        Numbers {
            missing: 0,
            ahead: BTreeMap::new(alloc),
        }
    }

    /// Takes the place of a number.
    pub(crate) fn reserve(&mut self, number: u32) -> Result<(), Memory>
        ensures ok { OnOk result (HasPlace self.new.ahead number) }
        ensures kept { (other : ℕ) → is_accepted self.new other ≡ is_accepted self.old other }
    {
        take_place(&mut self.ahead, number)
    }

    /// Notes that a number was accepted. It takes no memory.
    pub(crate) fn note(&mut self, number: u32)
        requires place { HasPlace self.old.ahead number }
        ensures exact { (other : ℕ) → is_accepted self.new other
            ≡ (is_accepted self.old other || (number == other)) }
    {
        set_flag(&mut self.ahead, number);
        self.missing = pass_accepted(&mut self.ahead, self.missing);
    }

    /// Whether all numbers up to this one were accepted.
    pub(crate) fn has_all_to(&self, last: u32) -> bool
        ensures exact { result ≡ list_all (is_accepted self.now) (range_with_len 0 (last + 1)) }
    {
        u64::from(last) < self.missing
    }
}

/// Takes the place of a number, if it is not there. It is not accepted so far.
fn take_place(ahead: &mut BTreeMap<u32, bool>, number: u32) -> Result<(), Memory>
    ensures ok { OnOk result (HasPlace ahead.new.entries number) }
    ensures kept { (other : ℕ) → flag_at ahead.new.entries other ≡ flag_at ahead.old.entries other }
{
    if ahead.contains_key(&number) {
        return Ok(());
    }
    match ahead.insert(number, false) {
        Ok(_) => Ok(()),
        Err(_) => Err(Memory),
    }
}

/// Marks a number as accepted.
fn set_flag(ahead: &mut BTreeMap<u32, bool>, number: u32)
    requires place { HasPlace ahead.old.entries number }
    ensures exact { (other : ℕ) → flag_at ahead.new.entries other
        ≡ (flag_at ahead.old.entries other || (number == other)) }
{
    match ahead.get_mut(&number) {
        Some(flag) => *flag = true,
        None => unreachable!(),
    }
}

/// The least number from one on that is not accepted. Those before it lose their places.
fn pass_accepted(ahead: &mut BTreeMap<u32, bool>, from: u64) -> u64
    ensures exact { (number : ℕ) → (nat_lt number result || flag_at ahead.new.entries number)
        ≡ (nat_lt number from || flag_at ahead.old.entries number) }
    ensures least { IsLeastMissing result ahead.new.entries }
{
    let mut missing = from;
    while let Some(number) = accepted_at(ahead, missing) {
        ahead.remove(&number);
        missing += 1;
    }
    missing
}

/// A number, if it has a place and was accepted.
fn accepted_at(ahead: &BTreeMap<u32, bool>, number: u64) -> Option<u32>
    ensures exact { MatchOption result (IsLeastMissing number ahead.now.entries)
        (λ place. (place ≡ number) × (flag_at ahead.now.entries number ≡ true)) }
{
    let place = u32::try_from(number).ok()?;
    match ahead.get(&place) {
        Some(true) => Some(place),
        Some(false) => None,
        None => None,
    }
}
