//! Pins: that the book tells, after each step of a history, what a plain list of pins tells.

use depot_cell::Memory;
use desc_types::Key;
use query_pin::{Input, PinBook};
use std::alloc::Global;
use std::test::Fail;

/// A step of a history. A new pin takes the least free id.
#[derive(Clone, Copy)]
enum Step {
    Pin(&'static [Input]),
    Unpin(u64),
}

/// Two partitions of a table, and one of another table with the number of the first.
const A: Key = Key { table: 1, part: 0 };

const B: Key = Key { table: 1, part: 1 };

const C: Key = Key { table: 2, part: 0 };

/// Their versions, of which the first partition has two.
const A1: Input = Input { key: A, version: 1 };

const A2: Input = Input { key: A, version: 2 };

const B1: Input = Input { key: B, version: 1 };

const C1: Input = Input { key: C, version: 1 };

static ALL: [Input; 4] = [A1, A2, B1, C1];

/// The book, and beside it the versions of each id that has a pin.
#[derive(Drop)]
pub(crate) struct Books {
    pub(crate) book: PinBook,
    pub(crate) held: Vec<Option<&'static [Input]>>,
}

/// The least id without a pin.
fn plain_free(held: &[Option<&'static [Input]>]) -> usize {
    held.iter()
        .position(|pin| pin.is_none())
        .unwrap_or(held.len())
}

/// Whether some pin has a version.
pub(crate) fn is_held(held: &[Option<&'static [Input]>], read: Input) -> bool {
    held.iter().any(|pin| match pin {
        Some(versions) => versions.contains(&read),
        None => false,
    })
}

/// Some versions, as a pin takes them.
fn copied(alloc: Global, versions: &[Input]) -> Result<Vec<Input>, Memory> {
    let mut given = Vec::new(alloc);
    for &read in versions {
        given.push(read)?;
    }
    Ok(given)
}

/// Makes a pin in the book. Who asks for it is its id and 100.
fn pin_in_book(alloc: Global, book: &mut PinBook, versions: &[Input]) -> Result<(), Memory> {
    let id = book.free_id();
    book.pin(id.wrapping_add(100), id, copied(alloc, versions)?)
}

/// Makes a pin in the list.
fn pin_in_list(
    held: &mut Vec<Option<&'static [Input]>>,
    versions: &'static [Input],
) -> Result<(), Memory> {
    let free = plain_free(held);
    match held.get_mut(free) {
        Some(pin) => {
            *pin = Some(versions);
            Ok(())
        }
        None => Ok(held.push(Some(versions))?),
    }
}

/// Makes a pin in both.
pub(crate) fn pin(
    alloc: Global,
    books: &mut Books,
    versions: &'static [Input],
) -> Result<(), Memory> {
    pin_in_book(alloc, &mut books.book, versions)?;
    pin_in_list(&mut books.held, versions)
}

/// Lets a pin go, if it is there.
pub(crate) fn unpin(books: &mut Books, id: u64) {
    if books.book.find_who(id).is_some() {
        books.book.unpin(id);
    }
    if let Some(pin) = books.held.get_mut(id as usize) {
        *pin = None;
    }
}

/// Whether the book has a pin of some versions at an id.
fn has_pin(book: &PinBook, id: u64, versions: &[Input]) -> bool {
    if book.find_who(id) != Some(id.wrapping_add(100)) {
        return false;
    }
    let kept = book.versions(id);
    for index in 0..kept.len() {
        if book.item(id, index as u64) != kept[index] {
            return false;
        }
    }
    kept == versions
}

/// Whether the book has what the list has at an id.
fn agrees_at(books: &Books, id: usize) -> bool {
    match books.held.get(id) {
        Some(Some(versions)) => has_pin(&books.book, id as u64, versions),
        Some(None) | None => books.book.find_who(id as u64).is_none(),
    }
}

/// Whether the book tells what the list tells.
fn agrees(books: &Books) -> bool {
    for &read in &ALL {
        if books.book.is_pinned(read.key, read.version) != is_held(&books.held, read) {
            return false;
        }
    }
    for id in 0..=books.held.len() {
        if !agrees_at(books, id) {
            return false;
        }
    }
    books.book.free_id() == plain_free(&books.held) as u64
}

/// The first step after which the book tells something else than the list, if there is one.
fn first_wrong(alloc: Global, history: &[Step]) -> Result<Option<usize>, Memory> {
    let mut books = Books {
        book: PinBook::new(alloc),
        held: Vec::new(alloc),
    };
    for (index, &step) in history.iter().enumerate() {
        match step {
            Step::Pin(versions) => pin(alloc, &mut books, versions)?,
            Step::Unpin(id) => unpin(&mut books, id),
        }
        if !agrees(&books) {
            return Ok(Some(index));
        }
    }
    Ok(None)
}

static HISTORIES: [&[Step]; 6] = [
    // one pin, of nothing and of each version
    &[
        Step::Pin(&[]),
        Step::Pin(&[A1, A2, B1, C1]),
        Step::Unpin(1),
        Step::Unpin(0),
    ],
    // two pins of one version: it stays until both are gone
    &[
        Step::Pin(&[A1]),
        Step::Pin(&[A1, B1]),
        Step::Unpin(0),
        Step::Unpin(1),
    ],
    &[
        Step::Pin(&[A1]),
        Step::Pin(&[A1, B1]),
        Step::Unpin(1),
        Step::Unpin(0),
    ],
    // a version that stands twice in a pin
    &[
        Step::Pin(&[B1, A2, B1]),
        Step::Pin(&[B1]),
        Step::Unpin(0),
        Step::Unpin(1),
    ],
    // the least id that is free comes first
    &[
        Step::Pin(&[A1]),
        Step::Pin(&[A2]),
        Step::Pin(&[B1]),
        Step::Unpin(1),
        Step::Unpin(0),
        Step::Pin(&[C1]),
        Step::Pin(&[C1]),
        Step::Pin(&[C1]),
        Step::Unpin(2),
        Step::Pin(&[A1, C1]),
    ],
    // versions of one number, and of one partition, are apart
    &[
        Step::Pin(&[A2]),
        Step::Pin(&[C1]),
        Step::Unpin(0),
        Step::Pin(&[A1]),
    ],
];

#[test]
fn book_tells_what_a_list_tells(rt: HostRuntime) -> Result<(), Fail> {
    let alloc = rt.alloc();
    for &history in &HISTORIES {
        assert!(rt; first_wrong(alloc, history)?.is_none());
    }
    Ok(())
}

/// Pins so many times.
fn pin_often(alloc: Global, books: &mut Books, times: usize) -> Result<(), Memory> {
    for number in 0..times {
        pin(alloc, books, &ALL[number % 5..])?;
    }
    Ok(())
}

/// Lets every third of a hundred pins go.
fn unpin_thirds(books: &mut Books) {
    for third in 0..34 {
        unpin(books, third * 3);
    }
}

/// Whether book and list agree as many pins come and go.
fn agrees_on_many(alloc: Global) -> Result<bool, Memory> {
    let mut books = Books {
        book: PinBook::new(alloc),
        held: Vec::new(alloc),
    };
    pin_often(alloc, &mut books, 100)?;
    unpin_thirds(&mut books);
    let between = agrees(&books);
    pin_often(alloc, &mut books, 40)?;
    Ok(between && agrees(&books) && books.book.free_id() == 106)
}

#[test]
fn many_pins_stand_beside_each_other(rt: HostRuntime) -> Result<(), Fail> {
    assert!(rt; agrees_on_many(rt.alloc())?);
    Ok(())
}
