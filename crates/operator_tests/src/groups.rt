//! Groups: a row for each key, in order of first appearance, and what the aggregates come to.

use crate::cases::{Case, Given, expect_cases};
use depot_script::rows_text;
use desc_types::{Agg, Fun};
use std::test::Fail;
use view_group::group;

static GROUPS: [Case; 14] = [
    (
        "group l 0 0 by a agg sum:n as s count as c least:n as m greatest:n as g",
        "l,1,b,5,\nl,2,a,1,\nr,3,a,9,\nl,13,b,-7,\nl,25,c,4,\nl,34,a,2,\n",
        "b,-2,2,-7,5\na,3,2,1,2\nc,4,1,4,4\n",
    ),
    ("group l 0 0 by a agg count as c", "", ""),
    (
        "group l 0 0 by a agg sum:n as s",
        "r,3,a,9,\nl,40,a,1,\n",
        "",
    ),
    // four keys, of which each alone makes a row differ
    (
        "group l 0 0 by b t n a agg count as c",
        "l,1,a,1,b\nl,1,a,1,b\nl,1,a,1,c\nl,1,b,1,b\nl,2,a,1,b\nl,2,a,2,b\nl,2,a,1,b\n",
        "b,1,1,a,2\nc,1,1,a,1\nb,1,1,b,1\nb,2,1,a,2\nb,2,2,a,1\n",
    ),
    // texts that are alike only if they are put together
    (
        "group l 0 0 by a b agg count as c",
        "l,1,ab,0,c\nl,2,a,0,bc\nl,3,ab,0,c\nl,4,abc,0,\nl,5,,0,abc\nl,6,b,0,a\nl,7,a,0,b\n",
        "ab,c,2\na,bc,1\nabc,,1\n,abc,1\nb,a,1\na,b,1\n",
    ),
    // texts of which one begins with the other, and one that looks like an int
    (
        "group l 0 0 by a agg count as c",
        "l,1,ab,0,\nl,2,a,0,\nl,3,abc,0,\nl,4,ab,0,\nl,5,,0,\nl,6,1,0,\nl,37,01,0,\n",
        "ab,2\na,1\nabc,1\n,1\n1,1\n01,1\n",
    ),
    (
        "group l 0 0 by n a agg count as c",
        "l,1,b,7,\nl,2,b,007,\nl,3,7,7,\nl,4,b,-7,\n",
        "7,b,2\n7,7,1\n-7,b,1\n",
    ),
    // sums at the bounds of an int: only the last one is cut
    (
        "group l 0 0 by a agg sum:n as s",
        "l,1,a,9223372036854775807,\nl,2,a,1,\n",
        "a,9223372036854775807\n",
    ),
    (
        "group l 0 0 by a agg sum:n as s",
        "l,1,a,9223372036854775807,\nl,12,a,1,\nl,23,a,-2,\n",
        "a,9223372036854775806\n",
    ),
    (
        "group l 0 0 by a agg sum:n as s least:n as m",
        "l,1,a,-9223372036854775808,\nl,2,a,-1,\nl,3,b,-1,\n",
        "a,-9223372036854775808,-9223372036854775808\nb,-1,-1\n",
    ),
    (
        "group l 0 0 by a agg sum:n as s",
        "l,1,a,-9223372036854775808,\nl,12,a,-1,\nl,23,a,9223372036854775807,\n",
        "a,-2\n",
    ),
    // the least and the greatest text
    (
        "group l 0 0 by n agg least:a as m greatest:a as g",
        "l,1,b,0,\nl,2,ab,0,\nl,3,\u{e9},0,\nl,14,a,0,\nl,25,z,0,\nl,36,aa,0,\nl,37,c,1,\n",
        "0,a,\u{e9}\n1,c,c\n",
    ),
    // two aggregates over one column, and one over a key
    (
        "group l 0 0 by n agg sum:n as s count as c sum:n as again greatest:t as g",
        "l,1,a,3,\nl,2,a,-3,\nl,31,a,3,\n",
        "3,6,2,6,31\n-3,-3,1,-3,2\n",
    ),
    // a key in every fifth part, if each tick is one
    (
        "group l 0 0 by n agg greatest:t as g",
        "l,0,a,0,\nl,5,a,1,\nl,10,a,2,\nl,15,a,0,\nl,20,a,1,\nl,25,a,2,\nl,30,a,3,\nl,35,a,1,\n",
        "0,15\n1,35\n2,25\n3,30\n",
    ),
];

#[test]
fn groups_have_a_row_for_each_key(rt: HostRuntime) -> Result<(), Fail> {
    expect_cases(rt.alloc(), &GROUPS)
}

/// No description has a sum over texts, but a group of one is defined: it comes to 0.
#[test]
fn texts_count_0_in_a_sum(rt: HostRuntime) -> Result<(), Fail> {
    let alloc = rt.alloc();
    let body = b"l,1,a,5,\nl,12,7,5,\n";
    let given = Given::read(alloc, 10, "group l 0 0 by a agg count as c", body)?;
    let sum = Agg {
        fun: Fun::Sum,
        column: 1,
    };
    let rows = group(alloc, &given.left, &[2], &[sum])?;
    assert!(rt; rows_text(alloc, &rows)?.as_slice() == b"5,0\n".as_slice());
    Ok(())
}
