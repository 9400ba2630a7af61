//! Values, versions and partitions, worked by hand.

ghost use Rattle.std.specs.Prelude.{◌≡◌, ◌≤◌, ◌∷◌, ◌++◌, [], IfOk, OnOk, length};
ghost use Rattle.desc_types.specs.Kinds.{kind_of};
ghost use Rattle.partition_map.specs.Time.{IsWidth};
ghost use Rattle.desc_types.specs.Sources.{HasEarlierSources, HasFittingSources, kind_sources};

use crate::texts::rows_text;
use depot_cell::{Cell, Memory, Op, Row, Str};
use desc_types::{Cond, DRow, Delivery, Desc, END, Key, Kind, Span, Src, Table, Width};
use partition_map::{Parts, parts_of_span};
use stale_test::reached_keys;
use std::alloc::Global;
use std::slice;
use std::test::Fail;
use view_meaning::{part_of_row, plain_value, plain_version};

/// The span of just a partition's own ticks.
const OWN_TICKS: Span = Span { lo: 0, hi: 0 };

/// Puts a table at the end, in partitions of so many ticks. It has no name and no columns, since no
/// call here looks at them.
fn push_table(alloc: Global, ticks: u64, kind: Kind, tables: &mut Vec<Table>) -> Result<(), Memory>
    requires { IsWidth ticks }
    ensures ok { OnOk result (tables.new.items ≡ tables.old.items ++ record {
      name = [];
      columns = [];
      width = ticks;
      kind = kind_of kind;
    } ∷ []) }
{
    tables.push(Table {
        name: Str::from_bytes(alloc, b"")?,
        columns: Vec::new(alloc),
        width: Width::new(ticks),
        kind,
    })?;
    Ok(())
}

/// A source that is read over just the ticks of the view's partition.
fn source(table: u16) -> Src
    ensures exact { result ≡ record { table = table; span = OWN_TICKS } }
{
    Src {
        table,
        span: OWN_TICKS,
    }
}

/// The rows of the first table over a span, with an amount from 5 on: the amounts, with their days.
fn large(alloc: Global, span: Span) -> Result<Kind, Memory>
    ensures reads { IfOk result (λ kind.
        kind_sources (kind_of kind) ≡ record { table = 0; span = span } ∷ []) }
{
    let mut conds = Vec::new(alloc);
    conds.push(Cond {
        column: 1,
        op: Op::Ge,
        value: Cell::Int(5),
    })?;
    Ok(Kind::Filter {
        src: Src { table: 0, span },
        conds,
        keep: [1, 0].to_vec(alloc)?,
    })
}

/// Two raw tables in partitions of 10 and 5 ticks, with a day and an amount; a filter of the first
/// in partitions of 20, a group of the filter, and a join of the filter with the second raw table
/// in partitions of 60.
fn views(alloc: Global) -> Result<Desc, Memory>
    ensures few { IfOk result (λ desc. length desc.tables ≤ 65_536) }
    ensures earlier { IfOk result HasEarlierSources }
    ensures fits { IfOk result HasFittingSources }
{
    let mut tables = Vec::new(alloc);
    push_table(alloc, 10, Kind::Raw { feed: 0, time: 0 }, &mut tables)?;
    push_table(alloc, 5, Kind::Raw { feed: 0, time: 0 }, &mut tables)?;
    push_table(alloc, 20, large(alloc, OWN_TICKS)?, &mut tables)?;
    let group = Kind::Group {
        src: source(2),
        keys: Vec::new(alloc),
        aggs: Vec::new(alloc),
    };
    push_table(alloc, 20, group, &mut tables)?;
    let join = Kind::Join {
        left: source(2),
        right: source(1),
        on: Vec::new(alloc),
    };
    push_table(alloc, 60, join, &mut tables)?;
    Ok(Desc {
        feeds: Vec::new(alloc),
        tables,
    })
}

/// A raw table in partitions of 10 ticks, and a filter of it in partitions of 20, that reads from 20
/// ticks before its own partition up to 10 ticks after it.
fn windows(alloc: Global) -> Result<Desc, Memory>
    ensures few { IfOk result (λ desc. length desc.tables ≤ 65_536) }
    ensures earlier { IfOk result HasEarlierSources }
    ensures fits { IfOk result HasFittingSources }
{
    let mut tables = Vec::new(alloc);
    push_table(alloc, 10, Kind::Raw { feed: 0, time: 0 }, &mut tables)?;
    push_table(
        alloc,
        20,
        large(alloc, Span { lo: -20, hi: 10 })?,
        &mut tables,
    )?;
    Ok(Desc {
        feeds: Vec::new(alloc),
        tables,
    })
}

/// A row of a delivery, with a day and an amount.
fn row(alloc: Global, table: u16, day: i64, amount: i64) -> Result<DRow, Memory> {
    let mut cells = Row::new(alloc);
    cells.push(Cell::Int(day))?;
    cells.push(Cell::Int(amount))?;
    Ok(DRow {
        number: 1,
        table,
        cells,
    })
}

/// A delivery of the feed of all raw tables, with its number, the tick that it closes up to, and
/// rows, each of a table, a day and an amount.
fn delivery(
    alloc: Global,
    number: u32,
    closes: u64,
    rows: &[(u16, i64, i64)],
) -> Result<Delivery, Memory> {
    let mut delivered = Vec::new(alloc);
    for &(table, day, amount) in rows {
        delivered.push(row(alloc, table, day, amount)?)?;
    }
    Ok(Delivery {
        feed: 0,
        number,
        closes,
        rows: delivered,
    })
}

/// Three deliveries. The second closes the first table's partition of days 0 to 9 after its own
/// row there, so that of the third the row of day 9 is late.
fn accepted(alloc: Global) -> Result<Vec<Delivery>, Memory> {
    let mut deliveries = Vec::new(alloc);
    let rows = &[(0, 9, 7), (0, 12, 8), (1, 4, 1), (0, 5, 4)];
    deliveries.push(delivery(alloc, 1, 0, rows)?)?;
    let rows = &[(0, 10, 5), (0, -1, 9), (0, 1_099_511_627_776, 9), (0, 3, 6)];
    deliveries.push(delivery(alloc, 2, 10, rows)?)?;
    deliveries.push(delivery(alloc, 3, 0, &[(0, 9, 9), (0, 11, 6)])?)?;
    Ok(deliveries)
}

#[test]
fn values_follow_the_accepted_rows(rt: HostRuntime) -> Result<(), Fail> {
    let alloc = rt.alloc();
    let desc = views(alloc)?;
    let accepted = accepted(alloc)?;
    // The group has no keys and no aggregates, so its one row is empty.
    for &(table, part, want) in &[
        (0, 0, "9|7| 5|4| 3|6| "),
        (0, 1, "12|8| 10|5| 11|6| "),
        (0, 109_951_162_777, ""),
        (1, 0, "4|1| "),
        (2, 0, "7|9| 6|3| 8|12| 5|10| 6|11| "),
        (2, u64::MAX, ""),
        (3, 0, " "),
        (4, 0, "7|9|4|1| 6|3|4|1| 8|12|4|1| 5|10|4|1| 6|11|4|1| "),
        (5, 0, ""),
    ] {
        let value = plain_value(alloc, &desc, &accepted, Key { table, part })?;
        let text = rows_text(alloc, value.rows())?;
        assert!(rt; text.as_slice() == want.as_bytes(), "of {table} {part}");
    }
    Ok(())
}

#[test]
fn versions_follow_the_accepted_rows(rt: HostRuntime) -> Result<(), Fail> {
    let alloc = rt.alloc();
    let desc = views(alloc)?;
    let accepted = accepted(alloc)?;
    for &(table, part, version) in &[
        (0, 0, 2),
        (0, 1, 3),
        (0, 109_951_162_777, 0),
        (1, 0, 1),
        (2, 0, 0),
        (2, u64::MAX, 0),
        (3, 0, 0),
        (4, 0, 0),
        (5, 0, 0),
    ] {
        let key = Key { table, part };
        assert!(rt;
            plain_version(&desc, &accepted, key) == version,
            "of {key:?}"
        );
    }
    Ok(())
}

/// The partitions of views that rest on the one that a row lies in, and none if it lies in none.
fn reached_by(alloc: Global, desc: &Desc, row: &DRow) -> Result<Vec<Key>, Memory>
    requires few { length desc.now.tables ≤ 65_536 }
    requires earlier { HasEarlierSources desc.now }
    requires fits { HasFittingSources desc.now }
{
    match part_of_row(desc, row) {
        Some(part) => {
            let key = Key {
                table: row.table,
                part,
            };
            reached_keys(alloc, desc, slice::from_ref(&key))
        }
        None => Ok(Vec::new(alloc)),
    }
}

/// Whether a row of a table, of a day, reaches just these keys of views.
fn are_reached(
    alloc: Global,
    desc: &Desc,
    table: u16,
    day: i64,
    want: &[(u16, u64)],
) -> Result<bool, Memory>
    requires few { length desc.now.tables ≤ 65_536 }
    requires earlier { HasEarlierSources desc.now }
    requires fits { HasFittingSources desc.now }
{
    let keys = reached_by(alloc, desc, &row(alloc, table, day, 0)?)?;
    let mut same = keys.len() == want.len();
    for (key, &(table, part)) in keys.iter().zip(want) {
        same = same && *key == Key { table, part };
    }
    Ok(same)
}

#[test]
fn rows_reach_what_stands_above_their_partition(rt: HostRuntime) -> Result<(), Fail> {
    let alloc = rt.alloc();
    // END is 54,975,581,388 times 20, and 16, and 18,325,193,796 times 60, and 16.
    let last: u64 = 54_975_581_388;
    let desc = views(alloc)?;
    assert!(rt; are_reached(alloc, &desc, 0, 121, &[(2, 6), (3, 6), (4, 2)])?);
    assert!(rt; are_reached(alloc, &desc, 0, 1_000, &[(2, 50), (3, 50), (4, 16)])?);
    assert!(rt; are_reached(alloc, &desc, 0, 1_009, &[(2, 50), (3, 50), (4, 16)])?);
    assert!(rt; are_reached(alloc, &desc, 0, 39, &[(2, 1), (3, 1), (4, 0)])?);
    assert!(rt; are_reached(alloc, &desc, 0, 20, &[(2, 1), (3, 1), (4, 0)])?);
    assert!(rt; are_reached(alloc, &desc, 1, 60, &[(4, 1)])?);
    assert!(rt;
        are_reached(
            alloc,
            &desc,
            0,
            1_099_511_627_775,
            &[(2, last), (3, last), (4, 18_325_193_796)]
        )?
    );
    Ok(())
}

#[test]
fn rows_of_no_partition_reach_nothing(rt: HostRuntime) -> Result<(), Fail> {
    let alloc = rt.alloc();
    let desc = views(alloc)?;
    // before time, after its end, of a view, and of no table
    for &(table, day) in &[(0, -1), (0, 1_099_511_627_776), (2, 5), (9, 5)] {
        assert!(rt;
            are_reached(alloc, &desc, table, day, &[])?,
            "of {table} {day}"
        );
    }
    Ok(())
}

#[test]
fn views_reach_ticks_around_their_own(rt: HostRuntime) -> Result<(), Fail> {
    let alloc = rt.alloc();
    // END is 54,975,581,388 times 20, and 16. The number after the last partition's would read the
    // last ticks too, but it is that of no partition.
    let last: u64 = 54_975_581_388;
    let desc = windows(alloc)?;
    assert!(rt; are_reached(alloc, &desc, 0, 5, &[(1, 0), (1, 1)])?);
    assert!(rt; are_reached(alloc, &desc, 0, 121, &[(1, 5), (1, 6), (1, 7)])?);
    assert!(rt; are_reached(alloc, &desc, 0, 1_099_511_627_775, &[(1, last)])?);
    Ok(())
}

#[test]
fn views_read_ticks_around_their_own(rt: HostRuntime) -> Result<(), Fail> {
    let alloc = rt.alloc();
    let desc = windows(alloc)?;
    let mut accepted = Vec::new(alloc);
    let rows = &[(0, 100, 5), (0, 149, 6), (0, 99, 7), (0, 150, 8)];
    accepted.push(delivery(alloc, 1, 0, rows)?)?;
    let value = plain_value(alloc, &desc, &accepted, Key { table: 1, part: 6 })?;
    let text = rows_text(alloc, value.rows())?;
    assert!(rt; text.as_slice() == b"5|100| 6|149| ".as_slice());
    Ok(())
}

/// The partitions of a span, if time has it.
fn run_of(ticks: u64, from: u64, to: u64) -> Option<Parts> {
    if 1 <= ticks && ticks <= END && from <= to && to <= END {
        Some(parts_of_span(Width::new(ticks), from, to))
    } else {
        None
    }
}

#[test]
fn partitions_of_a_span_are_a_run(rt: HostRuntime) {
    // END is 157,073,089,682 times 7, and 2.
    for &(width, from, to, first, count) in &[
        (10, 0, 20, 0, 2),
        (10, 5, 5, 0, 0),
        (10, 9, 11, 0, 2),
        (10, 10, 11, 1, 1),
        (END, 0, END, 0, 1),
        (7, 1_099_511_627_773, END, 157_073_089_681, 2),
    ] {
        assert!(rt;
            run_of(width, from, to) == Some(Parts { first, count }),
            "at {from}"
        );
    }
}
