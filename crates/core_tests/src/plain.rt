//! A plain play of the rules: lists, and loops over them.
//!
//! Versions are counted, and nothing is kept that a list tells. It knows what each partition of the
//! description reads, and is told which partitions each delivery touches, each with one row. No
//! delivery closes anything, so each mark is open.

use crate::step::{Ask, Step, Told};
use depot_cell::Memory;
use desc_types::Key;
use query_pin::{Dead, Input};
use std::alloc::Global;
use view_meaning::{Mark, PinItem};

pub const R0: Key = Key { table: 0, part: 0 };

pub const R1: Key = Key { table: 0, part: 1 };

pub const R2: Key = Key { table: 0, part: 2 };

pub const R3: Key = Key { table: 0, part: 3 };

pub const TOT0: Key = Key { table: 1, part: 0 };

pub const TOT1: Key = Key { table: 1, part: 1 };

pub const ROLL0: Key = Key { table: 2, part: 0 };

pub const ROLL1: Key = Key { table: 2, part: 1 };

pub const ROLL2: Key = Key { table: 2, part: 2 };

/// The partitions of views in their order, each with what it reads, except what stays empty.
static VIEWS: [(Key, &[Key]); 5] = [
    (TOT0, &[R0, R1]),
    (TOT1, &[R2, R3]),
    (ROLL0, &[TOT0]),
    (ROLL1, &[TOT0, TOT1]),
    (ROLL2, &[TOT1]),
];

/// An entry of the journal.
#[derive(Clone, Copy)]
enum Entry {
    /// A load, with the partitions that it touches.
    Load(&'static [Key]),
    Install(Key, u64),
}

/// A claim, with its id, its partition and its place.
#[derive(Clone, Copy)]
struct Claim {
    id: u64,
    key: Key,
    at: u64,
}

/// The versions that are read under an id.
#[derive(Drop)]
struct Pin {
    id: u64,
    reads: Vec<Input>,
}

/// What each delivery touches, by number; the journal, the claims, the pins with those of claims, the
/// held versions, and the id of the last pin.
#[derive(Drop)]
pub struct Plain {
    touched: &'static [&'static [Key]],
    entries: Vec<Entry>,
    claims: Vec<Claim>,
    pins: Vec<Pin>,
    held: Vec<Dead>,
    last: Option<u64>,
}

/// What a partition reads.
fn reads(key: Key) -> &'static [Key] {
    for &(view, reads) in &VIEWS {
        if view == key {
            return reads;
        }
    }
    &[]
}

/// Whether an entry changes a partition.
fn changes(entry: Entry, key: Key) -> bool {
    match entry {
        Entry::Load(touched) => touched.contains(&key),
        Entry::Install(installed, _) => installed == key,
    }
}

/// How many of some entries change a partition.
fn version(entries: &[Entry], key: Key) -> u64 {
    entries.iter().filter(|entry| changes(**entry, key)).count() as u64
}

/// The place of the last install of a partition.
fn last_place(entries: &[Entry], key: Key) -> u64 {
    let mut place = 0;
    for &entry in entries {
        match entry {
            Entry::Install(installed, at) if installed == key => place = at,
            Entry::Install(..) | Entry::Load(_) => {}
        }
    }
    place
}

/// Whether something that a partition reads has changed since the place of its last install.
fn is_stale(entries: &[Entry], key: Key) -> bool {
    let place = last_place(entries, key) as usize;
    let seen = &entries[..place.min(entries.len())];
    for &read in reads(key) {
        if version(seen, read) != version(entries, read) {
            return true;
        }
    }
    false
}

/// Whether nothing that a partition reads is stale. What that reads itself is raw, for tables stand
/// three deep.
fn has_settled_reads(entries: &[Entry], key: Key) -> bool {
    for &read in reads(key) {
        if is_stale(entries, read) {
            return false;
        }
    }
    true
}

/// Whether a partition is settled.
fn is_settled(entries: &[Entry], key: Key) -> bool {
    !is_stale(entries, key) && has_settled_reads(entries, key)
}

/// Whether nothing is stale.
fn all_settled(entries: &[Entry]) -> bool {
    for &(view, _) in &VIEWS {
        if is_stale(entries, view) {
            return false;
        }
    }
    true
}

/// The claim of an id.
fn find_claim(claims: &[Claim], id: u64) -> Option<Claim> {
    claims.iter().find(|claim| claim.id == id).copied()
}

impl Plain {
    /// Nothing played, with what each delivery touches.
    pub fn new(alloc: Global, touched: &'static [&'static [Key]]) -> Plain {
        Plain {
            touched,
            entries: Vec::new(alloc),
            claims: Vec::new(alloc),
            pins: Vec::new(alloc),
            held: Vec::new(alloc),
            last: None,
        }
    }

    /// Takes a step, and tells the answer.
    pub fn take(&mut self, alloc: Global, step: Step) -> Result<Told, Memory> {
        match step {
            Step::Load(number, _, _) => self.load(number),
            Step::Claim(key) => self.claim(alloc, key),
            Step::Install(id) => self.install(id),
            Step::Abandon(id) => {
                self.end(id);
                Ok(Told::Done)
            }
            Step::Pin(_) => self.pin(alloc),
            Step::Unpin => {
                if let Some(id) = self.last {
                    self.end(id);
                }
                self.last = None;
                Ok(Told::Done)
            }
            Step::Reclaim => Ok(self.reclaim()),
            Step::Ask(ask) => Ok(self.told(ask)),
        }
    }

    /// Loads a delivery.
    fn load(&mut self, number: u32) -> Result<Told, Memory> {
        let Some(touched) = self.touched.get(number as usize) else {
            return Ok(Told::Done);
        };
        self.entries.push(Entry::Load(touched))?;
        Ok(Told::Loaded(self.len(), touched.len() as u64, 0))
    }

    /// How many entries there are.
    fn len(&self) -> u64 {
        self.entries.len() as u64
    }

    /// The version of a partition.
    fn version(&self, key: Key) -> u64 {
        version(&self.entries, key)
    }

    /// The place of a version.
    fn upto(&self, key: Key) -> u64 {
        if key.table == 0 {
            self.len()
        } else {
            last_place(&self.entries, key)
        }
    }

    /// The least id that no pin has.
    fn free_id(&self) -> u64 {
        for id in 0..1_000 {
            if self.pins.iter().all(|pin| pin.id != id) {
                return id;
            }
        }
        1_000
    }

    /// Whether a partition is ready.
    fn is_ready(&self, key: Key) -> bool {
        is_stale(&self.entries, key)
            && has_settled_reads(&self.entries, key)
            && self.claims.iter().all(|claim| claim.key != key)
    }

    /// Claims a partition.
    fn claim(&mut self, alloc: Global, key: Key) -> Result<Told, Memory> {
        if !self.is_ready(key) {
            return Ok(Told::NotReady);
        }
        let mut inputs = Vec::new(alloc);
        for &read in reads(key) {
            let version = self.version(read);
            if version > 0 {
                inputs.push(Input { key: read, version })?;
            }
        }
        let (id, at) = (self.free_id(), self.len());
        let (first, second) = (inputs.get(0).copied(), inputs.get(1).copied());
        let told = Told::Claimed(id, at, first, second, inputs.len() as u64);
        self.claims.push(Claim { id, key, at })?;
        self.pins.push(Pin { id, reads: inputs })?;
        Ok(told)
    }

    /// Installs the partition of a claim.
    fn install(&mut self, id: u64) -> Result<Told, Memory> {
        let Some(claim) = find_claim(&self.claims, id) else {
            return Ok(Told::Done);
        };
        let Claim { key, at, .. } = claim;
        self.entries.push(Entry::Install(key, at))?;
        let (version, entry) = (self.version(key), self.len());
        self.held.push(Dead {
            key,
            version,
            entry,
        })?;
        self.end(id);
        Ok(Told::Installed(entry))
    }

    /// Ends what has an id.
    fn end(&mut self, id: u64) {
        self.claims.retain(|claim| claim.id != id);
        self.pins.retain(|pin| pin.id != id);
    }

    /// What is told of a partition.
    fn item(&self, key: Key) -> PinItem {
        PinItem {
            key,
            version: self.version(key),
            upto: self.upto(key),
            mark: Mark::Open,
        }
    }

    /// Pins the first two partitions of the first view.
    fn pin(&mut self, alloc: Global) -> Result<Told, Memory> {
        let (first, second) = (self.item(TOT0), self.item(TOT1));
        let mut reads = Vec::new(alloc);
        for item in [first, second] {
            reads.push(Input {
                key: item.key,
                version: item.version,
            })?;
        }
        let id = self.free_id();
        self.pins.push(Pin { id, reads })?;
        self.last = Some(id);
        Ok(Told::Pinned(id, self.len(), Some(first), Some(second)))
    }

    /// Whether a held version is not the latest, and no pin has it.
    fn is_dead(&self, held: Dead) -> bool {
        let read = Input {
            key: held.key,
            version: held.version,
        };
        held.version < self.version(held.key)
            && self.pins.iter().all(|pin| !pin.reads.contains(&read))
    }

    /// The first dead version.
    fn next_dead(&self) -> Option<Dead> {
        let mut first = None;
        for &held in &self.held {
            if self.is_dead(held) {
                first = Some(first_of(first, held));
            }
        }
        first
    }

    /// Drops the first dead version.
    fn reclaim(&mut self) -> Told {
        let dead = self.next_dead();
        self.held.retain(|held| Some(*held) != dead);
        Told::Dead(dead)
    }

    /// The entry of a version, if it is held.
    fn entry_of(&self, read: Input) -> Option<u64> {
        for held in &self.held {
            if held.key == read.key && held.version == read.version {
                return Some(held.entry);
            }
        }
        None
    }

    /// The first ready partition.
    pub fn next_ready(&self) -> Option<Key> {
        for &(view, _) in &VIEWS {
            if self.is_ready(view) {
                return Some(view);
            }
        }
        None
    }

    /// How many deliveries were accepted.
    fn deliveries(&self) -> u64 {
        self.entries
            .iter()
            .filter(|entry| matches!(**entry, Entry::Load(_)))
            .count() as u64
    }

    /// What the lists tell. Marks and rows that were set aside are not asked for.
    pub fn told(&self, ask: Ask) -> Told {
        match ask {
            Ask::Len => Told::Count(self.len()),
            Ask::Deliveries => Told::Count(self.deliveries()),
            Ask::Next => Told::Next(self.next_ready()),
            Ask::Dead => Told::Dead(self.next_dead()),
            Ask::Entry(read) => Told::Entry(self.entry_of(read)),
            Ask::Version(key) => Told::Version(self.version(key), self.upto(key)),
            Ask::Settled(key) => {
                Told::Settled(is_settled(&self.entries, key), all_settled(&self.entries))
            }
            Ask::Mark(_) | Ask::Marks | Ask::Aside => Told::Done,
        }
    }
}

/// The first of two versions, of which one may be missing.
fn first_of(first: Option<Dead>, other: Dead) -> Dead {
    match first {
        Some(first) if (first.key, first.version) < (other.key, other.version) => first,
        _ => other,
    }
}
