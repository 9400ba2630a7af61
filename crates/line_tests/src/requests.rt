//! Requests: what may be asked for, and which fault comes first.

use depot_cell::Memory;
use desc_types::{AcceptedDesc, END};
use query_pin::{Request, check_request};
use std::alloc::Global;
use std::test::Fail;
use table_desc::Draft;
use view_meaning::{Item, Mark};

/// The items of a request, each with its table, its first tick and the tick after its last one.
type Items<'a> = &'a [(u16, u64, u64)];

/// Two tables: 0 in partitions of 10 ticks, and 1 in partitions of one tick.
fn described(alloc: Global) -> Result<AcceptedDesc, Fail> {
    let draft = Draft::new(alloc)
        .with_line(alloc, b"feed f")?
        .with_line(alloc, b"raw tens feed f width 10 time t cols t:int")?
        .with_line(alloc, b"raw ones feed f width 1 time t cols t:int")?;
    match draft.into_read() {
        Ok(accepted) => Ok(accepted),
        Err(bad) => Err(Fail::new(bad.cause.text())),
    }
}

/// The word of the fault for which a request is refused, or `ok`.
fn answer(alloc: Global, served: &AcceptedDesc, asked: Items) -> Result<&'static str, Memory> {
    let mut items = Vec::new(alloc);
    for &(table, from, to) in asked {
        items.push(Item {
            table,
            from,
            to,
            level: Mark::Open,
        })?;
    }
    match check_request(served, &Request { items }) {
        Ok(()) => Ok("ok"),
        Err(fault) => Ok(fault.text()),
    }
}

#[test]
fn one_item_is_asked_for(rt: HostRuntime) -> Result<(), Fail> {
    let alloc = rt.alloc();
    let served = described(alloc)?;
    for &(table, from, to, want) in &[
        (0, 0, 10, "ok"),
        (1, 3, 4, "ok"),
        // no tick, an end before the begin, and the end of time
        (0, 0, 0, "ok"),
        (0, 5, 5, "ok"),
        (0, END, END, "ok"),
        (0, 6, 5, "bad_range"),
        (0, u64::MAX, 0, "bad_range"),
        (0, END - 1, END, "ok"),
        (0, END - 1, END + 1, "bad_range"),
        (0, END + 1, END + 1, "bad_range"),
        (0, u64::MAX, u64::MAX, "bad_range"),
        // a table after the last one
        (2, 0, 10, "no_table"),
        (u16::MAX, 5, 5, "no_table"),
        // 65,536 partitions, and 65,537: a partition counts if one of its ticks is asked for
        (1, 0, 65_536, "ok"),
        (1, 0, 65_537, "too_wide"),
        (1, END - 65_536, END, "ok"),
        (1, END - 65_537, END, "too_wide"),
        (0, 0, 655_360, "ok"),
        (0, 0, 655_361, "too_wide"),
        (0, 9, 655_360, "ok"),
        (0, 9, 655_361, "too_wide"),
        (0, 0, END, "too_wide"),
        // several reasons
        (2, 6, 5, "no_table"),
        (2, 0, END, "no_table"),
        (1, 0, END + 1, "bad_range"),
    ] {
        let said = answer(alloc, &served, &[(table, from, to)])?;
        assert!(rt; said == want, "of {table} from {from} to {to}");
    }
    Ok(())
}

static REQUESTS: [(Items<'static>, &str); 19] = [
    (&[], "ok"),
    (&[(0, 0, 10), (1, 0, 10), (0, 0, 10)], "ok"),
    // the limit, over two items
    (&[(1, 0, 32_768), (1, 32_768, 65_536)], "ok"),
    (&[(1, 0, 32_768), (1, 32_768, 65_537)], "too_wide"),
    (&[(1, 0, 65_536), (0, 5, 5)], "ok"),
    (&[(1, 0, 65_536), (0, 5, 6)], "too_wide"),
    (&[(0, 5, 6), (1, 0, 65_536)], "too_wide"),
    // a partition counts for each item that asks for it
    (&[(1, 0, 32_769), (1, 0, 32_769)], "too_wide"),
    (&[(0, 0, 1), (1, 0, 65_534), (0, 9, 10)], "ok"),
    (&[(0, 0, 1), (1, 0, 65_535), (0, 9, 10)], "too_wide"),
    // the item that is bad may be any
    (&[(2, 0, 1), (0, 0, 1)], "no_table"),
    (&[(0, 0, 1), (2, 0, 1)], "no_table"),
    (&[(0, 2, 1), (0, 0, 1)], "bad_range"),
    (&[(0, 0, 1), (0, 2, 1)], "bad_range"),
    // tables come before spans, and both before the count
    (&[(0, 2, 1), (2, 0, 1)], "no_table"),
    (&[(1, 0, 65_537), (2, 0, 1)], "no_table"),
    (&[(1, 0, 65_537), (0, 2, 1)], "bad_range"),
    (&[(1, 0, 65_537), (0, 2, 1), (2, 0, 1)], "no_table"),
    (&[(0, 2, 1), (1, 0, 65_537)], "bad_range"),
];

#[test]
fn the_first_fault_of_all_items_is_told(rt: HostRuntime) -> Result<(), Fail> {
    let alloc = rt.alloc();
    let served = described(alloc)?;
    for &(items, want) in &REQUESTS {
        let said = answer(alloc, &served, items)?;
        assert!(rt; said == want, "of {items:?}");
    }
    Ok(())
}

/// The answer to 2,000 items, each from the first tick up to this one of a table whose partitions
/// have one tick.
fn answer_to_many(alloc: Global, to: u64) -> Result<&'static str, Fail> {
    let served = described(alloc)?;
    let items = vec![in alloc; (1, 0, to); 2_000]?;
    Ok(answer(alloc, &served, &items)?)
}

#[test]
fn many_items_are_counted_together(rt: HostRuntime) -> Result<(), Fail> {
    // 2,000 times 32 is 64,000, and 2,000 times 33 is 66,000.
    for &(to, want) in &[(0, "ok"), (32, "ok"), (33, "too_wide"), (END, "too_wide")] {
        let said = answer_to_many(rt.alloc(), to)?;
        assert!(rt; said == want, "up to {to}");
    }
    Ok(())
}
