//! Joins: each left row beside each right row that agrees with it.

use crate::cases::{Case, expect_cases};
use std::test::Fail;

static JOINS: [Case; 9] = [
    // several partners on each side: in left order, then in right order
    (
        "join l 0 0 r 0 0 on a=a",
        "l,1,a,0,\nl,2,a,0,\nr,3,a,0,\nr,4,a,0,\nr,5,a,0,\n",
        "1,a,0,,3,a,0,\n1,a,0,,4,a,0,\n1,a,0,,5,a,0,\n\
            2,a,0,,3,a,0,\n2,a,0,,4,a,0,\n2,a,0,,5,a,0,\n",
    ),
    // the right order is another one, and some rows have no partner
    (
        "join l 0 0 r 0 0 on a=a",
        "l,1,a,1,p\nl,12,b,2,p\nl,23,c,3,p\nr,4,b,4,q\nr,15,a,5,q\nr,36,b,6,q\nr,37,d,7,q\n",
        "1,a,1,p,15,a,5,q\n12,b,2,p,4,b,4,q\n12,b,2,p,36,b,6,q\n",
    ),
    // four pairs, of which each alone keeps rows apart
    (
        "join l 0 0 r 0 0 on t=n a=b n=t b=a",
        "l,1,x,2,y\nr,2,y,1,x\nr,2,y,0,x\nr,2,y,1,z\nr,3,y,1,x\nr,2,z,1,x\nr,2,y,1,x\n",
        "1,x,2,y,2,y,1,x\n1,x,2,y,2,y,1,x\n",
    ),
    // texts of which one begins with the other
    (
        "join l 0 0 r 0 0 on a=b",
        "l,1,ab,0,\nl,2,,0,\nr,3,x,0,a\nr,4,x,0,abc\nr,5,x,0,ab\nr,6,x,0,\n",
        "1,ab,0,,5,x,0,ab\n2,,0,,6,x,0,\n",
    ),
    // texts that are alike only if they are put together
    (
        "join l 0 0 r 0 0 on a=a b=b",
        "l,1,ab,0,c\nr,2,a,0,bc\nr,3,ab,0,c\nr,4,abc,0,\n",
        "1,ab,0,c,3,ab,0,c\n",
    ),
    (
        "join l 0 0 r 0 0 on n=n",
        "l,1,a,9223372036854775807,\nl,2,a,-1,\nr,3,a,-9223372036854775808,\n\
            r,4,a,9223372036854775807,\nr,5,a,1,\n",
        "1,a,9223372036854775807,,4,a,9223372036854775807,\n",
    ),
    ("join l 0 0 r 0 0 on a=a", "l,1,a,0,\nl,2,b,0,\n", ""),
    ("join l 0 0 r 0 0 on a=a", "r,1,a,0,\nr,2,b,0,\n", ""),
    ("join l 0 0 r 0 0 on a=a", "", ""),
];

#[test]
fn joins_go_by_left_row_and_then_by_right_row(rt: HostRuntime) -> Result<(), Fail> {
    expect_cases(rt.alloc(), &JOINS)
}
