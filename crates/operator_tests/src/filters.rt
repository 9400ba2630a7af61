//! Filters: which rows they keep, and which columns of them.

use crate::cases::{Case, expect_cases};
use std::test::Fail;

static FILTERS: [Case; 9] = [
    // the columns stand in the order in which they are kept
    (
        "filter l 0 0 where n >= 5 keep b a t",
        "l,1,x,7,p\nl,2,y,4,q\nr,3,x,7,p\nl,13,z,5,\nl,39,x,9,p\n",
        "p,x,1\n,z,13\np,x,39\n",
    ),
    ("filter l 0 0 where n >= 5 keep t a n b", "", ""),
    ("filter l 0 0 where n >= 5 keep t", "r,3,x,7,p\n", ""),
    (
        "filter l 0 0 where n >= 5 keep t",
        "l,3,x,4,p\nl,40,x,7,p\n",
        "",
    ),
    // eight conditions, and a row against each
    (
        "filter l 0 0 where t >= 3 and t < 30 and a > a and a <= b and n != 0 and n > -9 and b = q \
            and b != p keep t",
        "l,2,b,1,q\nl,3,b,1,q\nl,4,a,1,q\nl,5,ba,1,q\nl,6,b,0,q\nl,7,b,-9,q\nl,8,b,1,p\n\
            l,9,aa,-8,q\nl,30,b,1,q\n",
        "3\n9\n",
    ),
    // rows that are alike are all kept
    (
        "filter l 0 0 where a = x keep a n",
        "l,5,x,1,\nl,5,x,1,\nl,5,x,0,\nl,5,y,1,\nl,25,x,1,\n",
        "x,1\nx,1\nx,0\nx,1\n",
    ),
    // texts of which one begins with the other
    (
        "filter l 0 0 where a < ab keep a t",
        "l,1,a,0,\nl,2,ab,0,\nl,3,abc,0,\nl,4,,0,\nl,5,aa,0,\nl,6,Z,0,\nl,7,\u{e9},0,\n",
        "a,1\n,4\naa,5\nZ,6\n",
    ),
    (
        "filter l 0 0 where n >= 9223372036854775807 keep n",
        "l,1,a,9223372036854775807,\nl,2,a,-9223372036854775808,\nl,3,a,9223372036854775806,\n",
        "9223372036854775807\n",
    ),
    // a row in every fifth part, if each tick is one
    (
        "filter l 0 0 where n != 3 keep n",
        "l,0,a,0,\nl,5,a,1,\nl,10,a,2,\nl,15,a,3,\nl,20,a,4,\nl,25,a,5,\nl,30,a,6,\nl,35,a,7,\n",
        "0\n1\n2\n4\n5\n6\n7\n",
    ),
];

#[test]
fn filters_keep_rows_that_meet_all_conditions(rt: HostRuntime) -> Result<(), Fail> {
    expect_cases(rt.alloc(), &FILTERS)
}
