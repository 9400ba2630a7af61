//! The rounds: each notes a load of one raw partition, and then an install of each partition above
//! it, until all are settled.
//!
//! The book is asked for the next unsettled partition from the first key on.

ghost use Rattle.std.specs.Prelude.{◌≡◌, ◌≤◌, ◌<◌, ◌+◌, ◌^◌, OnErr, OnOk};

use crate::course::Course;
use crate::fault::Fault;
use crate::parts::{is_part, is_view};
use desc_types::{AcceptedDesc, Key};
use stale_test::StaleBook;
use std::alloc::Global;
use std::slice;
use table_desc::{DescFault, read_desc};

/// A raw table and two views above it, of which the second reads the partition before each of its
/// own too. So three partitions rest on each raw one.
static DESCRIPTION: &[u8] = b"\
feed f
raw r feed f width 10 time at cols at:int k:text n:int
view tot width 20 group r 0 0 by k agg sum:n as s count as c
view roll width 20 group tot -20 0 by k agg sum:s as s";

/// The first key.
const FIRST: Key = Key { table: 0, part: 0 };

/// Entries that each round makes: a load, and an install of each of three partitions.
const ENTRIES: u64 = 4;

/// One turn for each install of a round, and one that finds all settled.
const TURNS: u64 = 4;

/// Goes through the rounds with a new book. Each has to make as many entries as it should.
pub fn run(alloc: Global, course: Course) -> Result<(), Fault> {
    let served = described(alloc)?;
    let mut book = StaleBook::new(alloc);
    for round in 0..course.rounds {
        let key = Key {
            table: 0,
            part: course.loaded.part(round),
        };
        load(&served, &mut book, key)?;
        settle(&served, &mut book)?;
    }
    // The figure is one of so many entries, so a run with others gives none.
    if book.entries() == ENTRIES * u64::from(course.rounds) {
        Ok(())
    } else {
        Err(Fault::Broken)
    }
}

/// The description.
fn described(alloc: Global) -> Result<AcceptedDesc, Fault> {
    match read_desc(alloc, DESCRIPTION) {
        Ok(served) => Ok(served),
        Err(DescFault::At(_)) => Err(Fault::Broken),
        Err(DescFault::Memory) => Err(Fault::Memory),
    }
}

/// Notes a load of a raw partition.
fn load(served: &AcceptedDesc, book: &mut StaleBook, key: Key) -> Result<(), Fault>
    requires few { book.old.entries < 2 ^ 63 }
    ensures ok { OnOk result (book.new.entries ≡ book.old.entries + 1) }
    ensures err { OnErr result (book.new.entries ≡ book.old.entries) }
{
    if !is_part(&served.desc, key) {
        return Err(Fault::Broken);
    }
    let touched = slice::from_ref(&key);
    book.reserve_load(served, touched)?;
    book.note_load(touched);
    Ok(())
}

/// Installs the first unsettled partition, as long as there is one.
fn settle(served: &AcceptedDesc, book: &mut StaleBook) -> Result<(), Fault>
    requires few { book.old.entries + 4 < 2 ^ 63 }
    ensures within { book.new.entries ≤ book.old.entries + 4 }
{
    for _ in 0..TURNS {
        match book.next_unsettled(FIRST) {
            Some(key) => install(served, book, key)?,
            None => return Ok(()),
        }
    }
    Err(Fault::Broken)
}

/// Notes an install of a partition of a view, which counts all entries that there are.
fn install(served: &AcceptedDesc, book: &mut StaleBook, key: Key) -> Result<(), Fault>
    requires few { book.old.entries < 2 ^ 63 }
    ensures ok { OnOk result (book.new.entries ≡ book.old.entries + 1) }
    ensures err { OnErr result (book.new.entries ≡ book.old.entries) }
{
    if !is_part(&served.desc, key) || !is_view(&served.desc, key.table) {
        return Err(Fault::Broken);
    }
    book.reserve_install(served, key)?;
    let at = book.entries();
    book.note_install(served, key, at);
    Ok(())
}
