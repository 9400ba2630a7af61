//! What is stale and what is settled after a list of entries, by the definitions: versions are
//! counted, what an install recorded is read off the entries that it counted, and a partition is
//! settled if neither it nor anything below it is stale.

use crate::history::Step;
use depot_cell::Memory;
use desc_types::{AcceptedDesc, Key, Kind, Src, Width};
use std::alloc::Global;
use view_meaning::source_parts;

/// Whether an entry changes the rows of a partition.
fn changes(step: &Step, key: Key) -> bool {
    match step {
        Step::Load(touched) => touched.contains(&key),
        Step::Install { key: installed, .. } => *installed == key,
    }
}

/// The version of a partition: how many entries changed it.
pub fn version(steps: &[Step], key: Key) -> u64 {
    let mut version: u64 = 0;
    for step in steps {
        if changes(step, key) {
            version = version.saturating_add(1);
        }
    }
    version
}

/// How many entries the last install of a partition counted.
pub fn last_place(steps: &[Step], key: Key) -> u64 {
    let mut place = 0;
    for step in steps {
        match step {
            Step::Install { key: installed, at } if *installed == key => place = *at,
            Step::Install { .. } | Step::Load(_) => {}
        }
    }
    place
}

/// The partitions that a partition reads.
fn sources(alloc: Global, served: &AcceptedDesc, key: Key) -> Result<Vec<Key>, Memory> {
    let mut keys = Vec::new(alloc);
    if let Some(table) = served.desc.tables.get(usize::from(key.table)) {
        match &table.kind {
            Kind::Raw { .. } => {}
            Kind::Filter { src, .. } | Kind::Group { src, .. } => {
                push_read(served, table.width, key.part, *src, &mut keys)?;
            }
            Kind::Join { left, right, .. } => {
                push_read(served, table.width, key.part, *left, &mut keys)?;
                push_read(served, table.width, key.part, *right, &mut keys)?;
            }
        }
    }
    Ok(keys)
}

/// Puts those at the end that it reads of one source.
fn push_read(
    served: &AcceptedDesc,
    width: Width,
    part: u64,
    src: Src,
    keys: &mut Vec<Key>,
) -> Result<(), Memory> {
    let read = source_parts(&served.desc, width, part, src);
    for part in read.first..read.first + read.count {
        keys.push(Key {
            table: src.table,
            part,
        })?;
    }
    Ok(())
}

/// Whether a source of a partition has another version than its last install counted.
pub fn is_stale(
    alloc: Global,
    served: &AcceptedDesc,
    steps: &[Step],
    key: Key,
) -> Result<bool, Memory> {
    let place = last_place(steps, key) as usize;
    let seen = &steps[..place.min(steps.len())];
    for source in &sources(alloc, served, key)? {
        if version(seen, *source) != version(steps, *source) {
            return Ok(true);
        }
    }
    Ok(false)
}

/// Whether neither a partition is stale nor anything below it, down through at most so many tables.
pub fn is_settled(
    alloc: Global,
    served: &AcceptedDesc,
    steps: &[Step],
    key: Key,
    depth: u16,
) -> Result<bool, Memory> {
    if depth == 0 {
        return Ok(true);
    }
    if is_stale(alloc, served, steps, key)? {
        return Ok(false);
    }
    for source in &sources(alloc, served, key)? {
        if !is_settled(alloc, served, steps, *source, depth - 1)? {
            return Ok(false);
        }
    }
    Ok(true)
}
