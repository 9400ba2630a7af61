//! Evaluation: which rows come first, and tables that make nothing.

use crate::cases::Given;
use depot_cell::Memory;
use std::alloc::Global;
use std::test::Fail;

#[test]
fn only_views_make_rows(rt: HostRuntime) -> Result<(), Fail> {
    let alloc = rt.alloc();
    let view = "filter l 0 0 where n = 5 keep a";
    let given = Given::read(alloc, 10, view, b"l,1,a,5,\nr,2,b,5,\n")?;
    for &(table, want) in &[(0, ""), (1, ""), (2, "a\n"), (3, ""), (u16::MAX, "")] {
        let made = given.evaluated(alloc, table)?;
        assert!(rt; made.as_slice() == want.as_bytes(), "of {table}");
    }
    Ok(())
}

#[test]
fn rows_go_by_part_and_then_by_acceptance(rt: HostRuntime) -> Result<(), Fail> {
    let alloc = rt.alloc();
    let view = "filter l 0 0 where n = 5 keep a";
    let body = b"l,31,d,5,\nl,12,b,5,\nl,3,a,5,\nl,18,c,5,\nl,11,e,5,\n";
    for &(cut, want) in &[
        (1, "a\ne\nb\nc\nd\n"),
        (10, "a\nb\nc\ne\nd\n"),
        (40, "d\nb\na\nc\ne\n"),
    ] {
        let given = Given::read(alloc, cut, view, body)?;
        assert!(rt; given.makes(alloc, want.as_bytes())?, "in parts of {cut}");
    }
    Ok(())
}

/// Three rows of each raw table at each tick, with 41 texts among them.
fn many_rows(alloc: Global) -> Result<Vec<u8>, Memory> {
    let mut body = Vec::new(alloc);
    for number in 0..120_u64 {
        let tick = number / 3;
        let left = number * 7 % 41;
        let right = number * 11 % 43;
        let lines = format!(in alloc; "l,{tick},{left},{number},\nr,{tick},{right},{number},\n")?;
        body.extend_from_slice(lines.as_bytes())?;
    }
    Ok(body)
}

#[test]
fn views_of_many_rows_are_those_of_the_plain_program(rt: HostRuntime) -> Result<(), Fail> {
    let alloc = rt.alloc();
    let body = many_rows(alloc)?;
    for view in &[
        "filter l 0 0 where a >= 2 and n < 100 keep n a",
        "group l 0 0 by a agg sum:n as s count as c least:b as m",
        "join l 0 0 r 0 0 on a=a",
    ] {
        let given = Given::read(alloc, 1, view, &body)?;
        assert!(rt; given.makes(alloc, &given.plain(alloc)?)?, "by {view}");
    }
    Ok(())
}
