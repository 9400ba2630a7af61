//! Up to three values in place, and more in an allocation. Most keys have one or two cells, and in
//! a join most have one row: an index then takes no memory for a key apart from its entry.

ghost use Rattle.std.specs.Prelude.{List, ◌≡◌, ◌++◌, ◌∷◌, [], IfOk, OnErr, OnOk};
ghost use Rattle.row_index.specs.Few.{items_of};

use depot_cell::Memory;
use std::alloc::Global;
use std::marker::Model;

/// Values in their order.
#[derive(Drop)]
pub(crate) struct Few<T> {
    alloc: Global,
    items: Items<T>,
}

/// Where the values stand. As many are in place as take no more than a `Vec` does.
#[derive(Drop)]
pub(crate) enum Items<T> {
    Zero,
    One([T; 1]),
    Two([T; 2]),
    Three([T; 3]),
    Many(Vec<T>),
}

impl<T> Model for Few<T> {
    ghost use Rattle.std.specs.Prelude.{List};
    ghost use Rattle.row_index.specs.Few.{items_of};

    ghost Value = { List T };

    ghost view = { λ few. items_of few.items };
}

impl<T: Copy> Few<T> {
    /// No value.
    pub(crate) fn new(alloc: Global) -> Few<T>
        ensures exact { result ≡ [] }
    {
        Few {
            alloc,
            items: Items::Zero,
        }
    }

    /// One value.
    pub(crate) fn of_one(alloc: Global, item: T) -> Few<T>
        ensures exact { result ≡ item ∷ [] }
    {
        Few {
            alloc,
            items: Items::One([item]),
        }
    }

    /// The values.
    pub(crate) fn as_slice(&self) -> &[T]
        ensures exact { result.now ≡ self.now }
    {
        match &self.items {
            Items::Zero => &[],
            Items::One(items) => items.as_slice(),
            Items::Two(items) => items.as_slice(),
            Items::Three(items) => items.as_slice(),
            Items::Many(items) => items.as_slice(),
        }
    }

    /// Leaves no value. An allocation stays, so that as many values need no memory again.
    pub(crate) fn clear(&mut self)
        ensures exact { self.new ≡ [] }
    {
        match &mut self.items {
            Items::Many(items) => items.clear(),
            _ => self.items = Items::Zero,
        }
    }

    /// Puts a value at the end.
    pub(crate) fn push(&mut self, item: T) -> Result<(), Memory>
        ensures ok { OnOk result (self.new ≡ self.old ++ item ∷ []) }
        ensures err { OnErr result (self.new ≡ self.old) }
    {
        let alloc = self.alloc;
        self.items.push(alloc, item)
    }
}

impl<T: Copy> Items<T> {
    /// Puts a value at the end.
    fn push(&mut self, alloc: Global, item: T) -> Result<(), Memory>
        ensures ok { OnOk result (items_of self.new ≡ items_of self.old ++ item ∷ []) }
        ensures err { OnErr result (items_of self.new ≡ items_of self.old) }
    {
        match self {
            Items::Zero => *self = Items::One([item]),
            Items::One(items) => {
                let [first] = *items;
                *self = Items::Two([first, item]);
            }
            Items::Two(items) => {
                let [first, second] = *items;
                *self = Items::Three([first, second, item]);
            }
            Items::Three(items) => *self = Items::Many(four(alloc, items, item)?),
            Items::Many(items) => items.push(item)?,
        }
        Ok(())
    }
}

/// Three values and one more, in an allocation.
fn four<T: Copy>(alloc: Global, items: &[T; 3], item: T) -> Result<Vec<T>, Memory>
    ensures exact { IfOk result (λ vec. vec.items ≡ items.now ++ item ∷ []) }
{
    let mut vec = Vec::with_capacity(alloc, items.len() + 1)?;
    vec.extend_from_slice(items.as_slice())?;
    vec.push(item)?;
    Ok(vec)
}
