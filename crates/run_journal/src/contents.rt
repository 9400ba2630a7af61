//! The rows of the versions that are held, by the entry that made each.

ghost use Rattle.std.specs.Prelude.{None, Some, ◌≡◌, ℕ, suc, [], IsSome, OnErr, OnOk, length};
ghost use Rattle.std.specs.Prelude.{if◌then◌else◌, option_copied};
ghost use Rattle.std.specs.List.Sorted.{IsStrictlySortedBy};
ghost use Rattle.std.specs.Map.{keys_of};
ghost use Rattle.std.specs.Ordering.{nat_cmp};
ghost use Rattle.run_journal.specs.KeptJournals.{content_in, is_entry};

use crate::content::Content;
use depot_cell::Memory;
use std::alloc::Global;
use std::collections::BTreeMap;
use std::marker::Model;

/// The rows of versions, by entry.
#[derive(Debug, Drop)]
pub struct Contents {
    held: BTreeMap<u64, Content>,
}

impl Model for Contents {
    ghost use Rattle.std.specs.Prelude.{ℕ, List};
    ghost use Rattle.depot_cell.specs.declared.cell.Cell.{Cell};

    ghost Value = { List (ℕ × List (List Cell)) };

    ghost view = { λ contents. contents.held.entries };
}

impl Contents {
    /// Nothing.
    pub fn new(alloc: Global) -> Contents
        ensures exact { result ≡ [] }
    {
        Contents {
            held: BTreeMap::new(alloc),
        }
    }

    /// The rows of what an entry made, if they are kept.
    pub fn get(&self, entry: u64) -> Option<&Content>
        ensures exact { option_copied result ≡ content_in self.now entry }
    {
        self.held.get(&entry)
    }

    /// Of how many entries rows are kept.
    pub fn len(&self) -> u64
        ensures exact { result ≡ length self.now }
        ensures ordered { IsStrictlySortedBy nat_cmp (keys_of self.now) }
    {
        self.held.len() as u64
    }

    /// Keeps the rows of what an entry makes. Without memory nothing changes.
    pub fn put(&mut self, entry: u64, content: Content) -> Result<(), Memory>
        ensures found { OnOk result ((other : ℕ) → content_in self.new other
            ≡ (if is_entry entry other then Some content else content_in self.old other)) }
        ensures more { OnOk result
            (content_in self.old entry ≡ None → length self.new ≡ suc (length self.old)) }
        ensures err { OnErr result (self.new ≡ self.old) }
    {
        match self.held.insert(entry, content) {
            Ok(_) => Ok(()),
            Err(_) => Err(Memory),
        }
    }

    /// Forgets the rows of what an entry made. It takes no memory.
    pub fn remove(&mut self, entry: u64)
        ensures exact { (other : ℕ) → content_in self.new other
            ≡ (if is_entry entry other then None else content_in self.old other) }
        ensures fewer { IsSome (content_in self.old entry)
            → suc (length self.new) ≡ length self.old }
    {
        self.held.remove(&entry);
    }
}
