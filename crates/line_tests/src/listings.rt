//! Answers of many lines: the marks of partitions, and the rows of a feed that were set aside.

use depot_cell::Memory;
use depot_script::{asides_text, marks_text};
use desc_types::{AcceptedDesc, Key};
use std::alloc::Global;
use std::test::Fail;
use table_desc::Draft;
use view_meaning::{Aside, Mark, MarkItem};

/// What is listed: the marks of partitions, or rows of the feed with this number.
#[derive(Clone, Copy)]
enum Listed {
    Marks(&'static [MarkItem]),
    Asides(u16, &'static [Aside]),
}

/// Two feeds, f and gauge, and two tables of f, t and hourly.
fn described(alloc: Global) -> Result<AcceptedDesc, Fail> {
    let draft = Draft::new(alloc)
        .with_line(alloc, b"feed f")?
        .with_line(alloc, b"feed gauge")?
        .with_line(alloc, b"raw t feed f width 10 time at cols at:int")?
        .with_line(alloc, b"raw hourly feed f width 3600 time at cols at:int")?;
    match draft.into_read() {
        Ok(accepted) => Ok(accepted),
        Err(bad) => Err(Fail::new(bad.cause.text())),
    }
}

/// The answer at place 9 of a journal.
fn answer(alloc: Global, served: &AcceptedDesc, listed: Listed) -> Result<Vec<u8>, Memory> {
    match listed {
        Listed::Marks(items) => marks_text(alloc, served, 9, items),
        Listed::Asides(feed, asides) => asides_text(alloc, served, feed, 9, asides),
    }
}

static LISTINGS: [(Listed, &str); 7] = [
    (
        Listed::Marks(&[
            MarkItem {
                key: Key { table: 0, part: 7 },
                mark: Mark::Complete,
            },
            MarkItem {
                key: Key {
                    table: 1,
                    part: 305_419_896,
                },
                mark: Mark::Closed,
            },
        ]),
        "marks at 9 parts 2\npart t 7 mark complete\npart hourly 305419896 mark closed\n",
    ),
    (
        Listed::Marks(&[MarkItem {
            key: Key { table: 0, part: 0 },
            mark: Mark::Open,
        }]),
        "marks at 9 parts 1\npart t 0 mark open\n",
    ),
    (Listed::Marks(&[]), "marks at 9 parts 0\n"),
    (
        Listed::Asides(
            0,
            &[
                Aside {
                    number: u32::MAX,
                    row: 1,
                    table: 1,
                    part: 0,
                },
                Aside {
                    number: 3,
                    row: 12,
                    table: 0,
                    part: 7,
                },
            ],
        ),
        "asides f at 9 rows 2\n\
            aside f 4294967295 record 1 table hourly part 0\n\
            aside f 3 record 12 table t part 7\n",
    ),
    (Listed::Asides(1, &[]), "asides gauge at 9 rows 0\n"),
    // what is not declared has no bytes as its name
    (
        Listed::Marks(&[MarkItem {
            key: Key { table: 2, part: 7 },
            mark: Mark::Closed,
        }]),
        "marks at 9 parts 1\npart  7 mark closed\n",
    ),
    (Listed::Asides(2, &[]), "asides  at 9 rows 0\n"),
];

#[test]
fn a_listing_begins_with_the_count_of_its_lines(rt: HostRuntime) -> Result<(), Fail> {
    let served = described(rt.alloc())?;
    for &(listed, want) in &LISTINGS {
        if answer(rt.alloc(), &served, listed)?.as_slice() != want.as_bytes() {
            return Err(Fail::new(want));
        }
    }
    Ok(())
}
