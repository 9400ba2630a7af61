//! Held versions: that after each step of a history the list of held versions, and the search for
//! dead ones, tell what a plain list of versions tells.

use crate::pins::{Books, is_held, pin, unpin};
use depot_cell::Memory;
use depot_reclaim::next_dead;
use desc_types::Key;
use query_pin::{Dead, Input, KeptList, PinBook};
use std::alloc::Global;
use std::test::Fail;

/// A step of a history. Each new version has the number of its step as its entry.
#[derive(Clone, Copy)]
enum Step {
    Add(Input),
    Pin(&'static [Input]),
    Unpin(u64),
    /// Drops the first dead version from a partition on, if there is one.
    Reclaim(Key),
}

const A: Key = Key { table: 1, part: 0 };

const B: Key = Key { table: 1, part: 7 };

const C: Key = Key { table: 2, part: 0 };

const A1: Input = Input { key: A, version: 1 };

const A2: Input = Input { key: A, version: 2 };

const A3: Input = Input { key: A, version: 3 };

const B1: Input = Input { key: B, version: 1 };

const B3: Input = Input { key: B, version: 3 };

const C1: Input = Input { key: C, version: 1 };

const C2: Input = Input { key: C, version: 2 };

/// The three partitions, and others before, between and after them.
static KEYS: [Key; 6] = [
    Key { table: 0, part: 9 },
    A,
    Key { table: 1, part: 3 },
    B,
    C,
    Key { table: 2, part: 1 },
];

/// What is tested, and beside it the held versions in the order in which they came.
#[derive(Drop)]
struct Holding {
    kept: KeptList,
    pins: Books,
    held: Vec<Dead>,
}

/// The version that is held.
fn version_of(held: Dead) -> Input {
    Input {
        key: held.key,
        version: held.version,
    }
}

/// Adds a version, if it is above the newest of its partition.
fn add(holding: &mut Holding, read: Input, entry: u64) -> Result<(), Memory> {
    holding.kept.reserve(read.key)?;
    if holding.kept.newest(read.key) < read.version {
        let added = Dead {
            key: read.key,
            version: read.version,
            entry,
        };
        holding.kept.add(added);
        holding.held.push(added)?;
    }
    Ok(())
}

/// Drops the first dead version from a partition on, if there is one.
fn reclaim(holding: &mut Holding, from: Key) {
    if let Some(dead) = next_dead(&holding.kept, &holding.pins.book, from) {
        holding.kept.remove(dead);
        holding.held.retain(|held| *held != dead);
    }
}

/// The number of the newest version of a partition, 0 if there is none.
fn plain_newest(held: &[Dead], key: Key) -> u64 {
    let mut newest = 0;
    for held in held {
        if held.key == key && held.version > newest {
            newest = held.version;
        }
    }
    newest
}

/// The entry of a version, if it is held.
fn plain_entry(held: &[Dead], read: Input) -> Option<u64> {
    for &held in held {
        if version_of(held) == read {
            return Some(held.entry);
        }
    }
    None
}

/// Whether a held version is not the newest of its partition, and no pin has it.
fn is_dead(holding: &Holding, held: Dead) -> bool {
    held.version < plain_newest(&holding.held, held.key)
        && !is_held(&holding.pins.held, version_of(held))
}

/// The first of two versions, of which one may be missing.
fn first_of(first: Option<Dead>, other: Dead) -> Dead {
    match first {
        Some(first) if version_of(first) < version_of(other) => first,
        _ => other,
    }
}

/// The first dead version from a partition on.
fn plain_dead(holding: &Holding, from: Key) -> Option<Dead> {
    let mut first = None;
    for &held in &holding.held {
        if from <= held.key && is_dead(holding, held) {
            first = Some(first_of(first, held));
        }
    }
    first
}

/// Whether what is told of a partition is what the plain list tells.
fn agrees_at(holding: &Holding, key: Key) -> bool {
    for version in 0..5 {
        if holding.kept.entry_of(key, version)
            != plain_entry(&holding.held, Input { key, version })
        {
            return false;
        }
    }
    holding.kept.newest(key) == plain_newest(&holding.held, key)
        && next_dead(&holding.kept, &holding.pins.book, key) == plain_dead(holding, key)
}

/// Whether a list has the held versions in order.
fn is_list(list: &[Dead], held: &[Dead]) -> bool {
    let mut last = None;
    for &dead in list {
        if last >= Some(version_of(dead)) || !held.contains(&dead) {
            return false;
        }
        last = Some(version_of(dead));
    }
    list.len() == held.len()
}

/// Whether all that is told is what the plain list tells.
fn agrees(alloc: Global, holding: &Holding) -> Result<bool, Memory> {
    for &key in &KEYS {
        if !agrees_at(holding, key) {
            return Ok(false);
        }
    }
    let list = holding.kept.list(alloc)?;
    Ok(is_list(&list, &holding.held))
}

/// Takes a step.
fn take(alloc: Global, holding: &mut Holding, step: Step, entry: u64) -> Result<(), Memory> {
    match step {
        Step::Add(read) => add(holding, read, entry),
        Step::Pin(versions) => pin(alloc, &mut holding.pins, versions),
        Step::Unpin(id) => {
            unpin(&mut holding.pins, id);
            Ok(())
        }
        Step::Reclaim(from) => {
            reclaim(holding, from);
            Ok(())
        }
    }
}

/// The first step after which something else is told than by the plain list, if there is one, and
/// how many versions are held at the end.
fn run(alloc: Global, history: &[Step]) -> Result<(Option<usize>, usize), Memory> {
    let mut holding = Holding {
        kept: KeptList::new(alloc),
        pins: Books {
            book: PinBook::new(alloc),
            held: Vec::new(alloc),
        },
        held: Vec::new(alloc),
    };
    for (index, &step) in history.iter().enumerate() {
        take(alloc, &mut holding, step, index as u64)?;
        if !agrees(alloc, &holding)? {
            return Ok((Some(index), 0));
        }
    }
    Ok((None, holding.held.len()))
}

/// Histories, each with how many versions are held at its end.
static HISTORIES: [(&[Step], usize); 6] = [
    // what was replaced is dead, and the newest is not
    (
        &[
            Step::Add(A1),
            Step::Reclaim(A),
            Step::Add(A2),
            Step::Reclaim(A),
            Step::Reclaim(A),
            Step::Add(A3),
        ],
        2,
    ),
    // a pin over a reclaim
    (
        &[
            Step::Add(A1),
            Step::Pin(&[A1]),
            Step::Add(A2),
            Step::Reclaim(A),
            Step::Unpin(0),
            Step::Reclaim(A),
        ],
        1,
    ),
    // two pins of one version: it goes after both
    (
        &[
            Step::Add(B1),
            Step::Pin(&[B1]),
            Step::Pin(&[A1, B1]),
            Step::Add(B3),
            Step::Unpin(0),
            Step::Reclaim(A),
            Step::Unpin(1),
            Step::Reclaim(A),
        ],
        1,
    ),
    // what a claim reads is pinned until it installs, and its sources may be replaced meanwhile
    (
        &[
            Step::Add(A1),
            Step::Add(B1),
            Step::Pin(&[A1, B1]),
            Step::Add(A2),
            Step::Add(B3),
            Step::Reclaim(A),
            Step::Add(C1),
            Step::Unpin(0),
            Step::Reclaim(B),
            Step::Reclaim(A),
        ],
        3,
    ),
    // a dead version between one that is pinned and the newest, and those of other partitions
    (
        &[
            Step::Add(C1),
            Step::Add(A1),
            Step::Add(A2),
            Step::Pin(&[A1]),
            Step::Add(A3),
            Step::Add(C2),
            Step::Reclaim(A),
            Step::Reclaim(A),
            Step::Unpin(0),
            Step::Reclaim(B),
            Step::Reclaim(A),
        ],
        2,
    ),
    // numbers with gaps, and one that is not above the newest
    (
        &[
            Step::Add(A2),
            Step::Add(A1),
            Step::Add(B1),
            Step::Add(B3),
            Step::Add(A3),
            Step::Pin(&[B1]),
            Step::Reclaim(A),
        ],
        3,
    ),
];

#[test]
fn list_and_search_tell_what_a_plain_list_tells(rt: HostRuntime) -> Result<(), Fail> {
    let alloc = rt.alloc();
    for &(history, left) in &HISTORIES {
        assert!(rt; run(alloc, history)? == (None, left));
    }
    Ok(())
}
