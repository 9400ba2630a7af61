//! The book of stale partitions beside the plain program: after each entry of each history, every
//! test of the book is asked of every partition in a range.

use crate::history::{Step, read_step};
use crate::plain::{is_settled, is_stale, last_place, version};
use crate::served::{TABLES, are_parts, described, is_part, is_view};
use depot_cell::Memory;
use desc_types::{AcceptedDesc, Key};
use stale_test::StaleBook;
use std::alloc::Global;
use std::test::Fail;

/// How many partitions of each table are asked for.
const PARTS: u64 = 5;

static HISTORIES: [&str; 10] = [
    // a load, and installs upwards
    "r0 a0@1 j0@2 g0@3 r0",
    // a load of several partitions, one of them named twice
    "r0+r3+r0+s0 a0@1 a1@1 j0@3 r3+r3 a1@5",
    // installs that count fewer entries than there are
    "r0 a0@0 a0@1 r1 a0@1 a0@3 j0@2 j0@6",
    // a partition that is not stale is installed again
    "r0 a0@1 j0@2 a0@1 j0@4 j0@5 a0@5 a0@7",
    // a load between an install's place and the install
    "r0 s0 a0@1 r0 a0@3 s0 j0@5 s0 j0@6 j0@8 g0@9",
    // a join, of which one source changes and then the other
    "s0 r0 a0@2 j0@3 s0 j0@4 j0@5 r1 a0@8 j0@9 g0@9",
    // installs before any load, and from the top down
    "g0@0 j0@0 a0@0 r0 g0@4 j0@4 a0@4 j0@6 j0@7 g0@9",
    // a partition with two readers
    "r2 a1@1 j1@2 g0@3 r3 g1@3 g1@6 a1@5 j1@8 g1@9 g0@9",
    // an install that leaves its partition stale, and what rests on it
    "r0+r2 a0@1 a1@1 j0@3 j1@3 g0@5 r0 a0@1 j0@8 g0@9 g1@9",
    // partitions that nothing touches
    "r0 s4 j4@1 j4@2 g2@4 g2@0 a4@5",
];

/// Expects that the book tells the same as the plain program after each entry of each history.
#[test]
fn the_book_tells_what_the_entries_tell(rt: HostRuntime) -> Result<(), Fail> {
    let served = described(rt.alloc())?;
    for history in &HISTORIES {
        if !is_told_always(rt.alloc(), &served, history.as_bytes())? {
            return Err(Fail::new(*history));
        }
    }
    Ok(())
}

/// Expects that room that was made and not used tells nothing.
#[test]
fn unused_room_tells_nothing(rt: HostRuntime) -> Result<(), Fail> {
    let alloc = rt.alloc();
    let served = described(alloc)?;
    let mut book = StaleBook::new(alloc);
    let mut steps = Vec::new(alloc);
    for word in &["r0+s0", "j0@0"] {
        reserve(&served, &mut book, &read_step(alloc, word.as_bytes())?)?;
        assert!(rt; is_told(alloc, &served, &book, &steps)?);
    }
    let step = read_step(alloc, b"r2")?;
    note(&served, &mut book, &step)?;
    steps.push(step)?;
    assert!(rt; is_told(alloc, &served, &book, &steps)?);
    Ok(())
}

/// Whether the book tells what the entries tell, after each entry of a history.
fn is_told_always(alloc: Global, served: &AcceptedDesc, history: &[u8]) -> Result<bool, Fail> {
    let mut book = StaleBook::new(alloc);
    let mut steps = Vec::new(alloc);
    for word in history.split(|byte| *byte == b' ') {
        let step = read_step(alloc, word)?;
        note(served, &mut book, &step)?;
        steps.push(step)?;
        if !is_told(alloc, served, &book, &steps)? {
            return Ok(false);
        }
    }
    Ok(true)
}

/// Makes room to note an entry.
fn reserve(served: &AcceptedDesc, book: &mut StaleBook, step: &Step) -> Result<(), Fail> {
    match step {
        Step::Load(touched) if are_parts(&served.desc, touched) => {
            Ok(book.reserve_load(served, touched)?)
        }
        Step::Install { key, .. }
            if is_part(&served.desc, *key) && is_view(&served.desc, key.table) => {
            Ok(book.reserve_install(served, *key)?)
        }
        Step::Load(_) | Step::Install { .. } => Err(Fail::new("no partition")),
    }
}

/// Notes an entry.
fn note(served: &AcceptedDesc, book: &mut StaleBook, step: &Step) -> Result<(), Fail> {
    match step {
        Step::Load(touched) => note_load(served, book, touched),
        Step::Install { key, at } => note_install(served, book, *key, *at),
    }
}

/// Notes a load that touches these partitions.
fn note_load(served: &AcceptedDesc, book: &mut StaleBook, touched: &[Key]) -> Result<(), Fail> {
    if !are_parts(&served.desc, touched) {
        return Err(Fail::new("no partition"));
    }
    book.reserve_load(served, touched)?;
    if book.entries() >= 1_000 {
        return Err(Fail::new("a long history"));
    }
    book.note_load(touched);
    Ok(())
}

/// Notes an install of a partition.
fn note_install(
    served: &AcceptedDesc,
    book: &mut StaleBook,
    key: Key,
    at: u64,
) -> Result<(), Fail> {
    if !is_part(&served.desc, key) || !is_view(&served.desc, key.table) {
        return Err(Fail::new("no partition of a view"));
    }
    book.reserve_install(served, key)?;
    if book.entries() >= 1_000 || book.entries() < at {
        return Err(Fail::new("a place after the end"));
    }
    book.note_install(served, key, at);
    Ok(())
}

/// Whether the book tells what the entries tell of each partition in the range, and of which is the
/// next unsettled one.
fn is_told(
    alloc: Global,
    served: &AcceptedDesc,
    book: &StaleBook,
    steps: &[Step],
) -> Result<bool, Memory> {
    let keys = all_keys(alloc)?;
    for key in &keys {
        if !is_part_told(alloc, served, book, steps, *key)? {
            return Ok(false);
        }
    }
    let unsettled = unsettled_keys(alloc, served, steps, &keys)?;
    Ok(book.all_settled() == unsettled.is_empty() && is_next_told(book, &unsettled, &keys))
}

/// The partitions in the range, in order of key.
fn all_keys(alloc: Global) -> Result<Vec<Key>, Memory> {
    let mut keys = Vec::new(alloc);
    for table in 0..TABLES {
        for part in 0..PARTS {
            keys.push(Key { table, part })?;
        }
    }
    Ok(keys)
}

/// Whether the book tells the version of a partition, its place, whether it is stale and whether it
/// is settled.
fn is_part_told(
    alloc: Global,
    served: &AcceptedDesc,
    book: &StaleBook,
    steps: &[Step],
    key: Key,
) -> Result<bool, Memory> {
    let upto = if is_view(&served.desc, key.table) {
        last_place(steps, key)
    } else {
        steps.len() as u64
    };
    Ok(
        book.version(key) == version(steps, key)
            && book.upto(served, key) == upto
            && book.is_stale(key) == is_stale(alloc, served, steps, key)?
            && book.is_settled(key) == is_settled(alloc, served, steps, key, TABLES)?,
    )
}

/// Those of the partitions that are not settled.
fn unsettled_keys(
    alloc: Global,
    served: &AcceptedDesc,
    steps: &[Step],
    keys: &[Key],
) -> Result<Vec<Key>, Memory> {
    let mut unsettled = Vec::new(alloc);
    for key in keys {
        if !is_settled(alloc, served, steps, *key, TABLES)? {
            unsettled.push(*key)?;
        }
    }
    Ok(unsettled)
}

/// Whether the book tells the next unsettled partition from each one on.
fn is_next_told(book: &StaleBook, unsettled: &[Key], keys: &[Key]) -> bool {
    keys.iter().all(|from| book.next_unsettled(*from) == first_from(unsettled, *from))
}

/// The first of the partitions that does not stand before one.
fn first_from(keys: &[Key], from: Key) -> Option<Key> {
    keys.iter().find(|key| **key >= from).copied()
}
