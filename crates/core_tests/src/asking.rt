//! What a core tells without a change.

ghost use Rattle.std.specs.Prelude.{◌≡◌, IfOk, None};
ghost use Rattle.query_pin.specs.Requests.{request_fault};

use crate::served::is_part;
use crate::step::{Ask, Told};
use claim_core::Core;
use depot_cell::Memory;
use desc_types::{AcceptedDesc, Key};
use query_pin::{Request, check_request};
use std::alloc::Global;
use std::test::Fail;
use view_meaning::{Item, Mark};

/// The first key of all.
pub const FIRST: Key = Key { table: 0, part: 0 };

/// What a core tells.
pub fn told(alloc: Global, core: &Core, ask: Ask) -> Result<Told, Fail> {
    match ask {
        Ask::Len => Ok(Told::Count(core.len())),
        Ask::Deliveries => Ok(Told::Count(core.raw().deliveries().len() as u64)),
        Ask::Next => Ok(Told::Next(core.next_ready(FIRST))),
        Ask::Dead => Ok(Told::Dead(core.next_dead(FIRST))),
        Ask::Entry(held) => Ok(Told::Entry(core.entry_of(held.key, held.version))),
        Ask::Version(key) => Ok(Told::Version(core.version(key), core.upto(key))),
        Ask::Settled(key) => settled(core, key),
        Ask::Mark(key) => mark(alloc, core, key),
        Ask::Marks => marks(alloc, core),
        Ask::Aside => aside(core),
    }
}

/// Whether a partition is settled, and whether all are.
fn settled(core: &Core, key: Key) -> Result<Told, Fail> {
    if !is_part(&core.served().desc, key) {
        return Err(Fail::new("no partition"));
    }
    Ok(Told::Settled(core.is_settled(key), core.all_settled()))
}

/// The mark of a partition.
fn mark(alloc: Global, core: &Core, key: Key) -> Result<Told, Fail> {
    if !is_part(&core.served().desc, key) {
        return Err(Fail::new("no partition"));
    }
    Ok(Told::Mark(core.mark(alloc, key)?))
}

/// The marks of the first two partitions of the first view.
fn marks(alloc: Global, core: &Core) -> Result<Told, Fail> {
    let request = asked(alloc, core.served(), Mark::Open)?;
    let marks = core.marks(alloc, &request)?;
    Ok(Told::Marks(marks.get(0).copied(), marks.get(1).copied()))
}

/// How many rows of the feed were set aside, and the last of them.
fn aside(core: &Core) -> Result<Told, Fail> {
    if core.served().desc.feeds.is_empty() {
        return Err(Fail::new("no feed"));
    }
    let rows = core.aside(0);
    Ok(Told::Aside(rows.len() as u64, rows.last().copied()))
}

/// A query of the first two partitions of the first view.
pub fn asked(alloc: Global, served: &AcceptedDesc, level: Mark) -> Result<Request, Fail>
    ensures accepted { IfOk result (λ request. request_fault served.now.desc request ≡ None) }
{
    let request = query(alloc, level)?;
    match check_request(served, &request) {
        Ok(()) => Ok(request),
        Err(fault) => Err(Fail::new(fault.text())),
    }
}

/// The same, unchecked.
fn query(alloc: Global, level: Mark) -> Result<Request, Memory> {
    let mut items = Vec::new(alloc);
    items.push(Item {
        table: 1,
        from: 0,
        to: 40,
        level,
    })?;
    Ok(Request { items })
}
