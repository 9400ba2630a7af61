//! Tests of views: a drain, what is shown of groups and joins after it, and a reclaim.

use super::{NONE, TRIAL, expect_run};
use crate::run::status::Status;
use std::alloc::Global;
use std::test::Fail;

/// A sum that is more than an int holds.
const GREAT: &[u8] = b"feed f\nraw r feed f width 10 time at cols at:int k:text n:int\n\
view big width 10 filter r 0 0 where n >= 5 keep at k n\n\
view tot width 20 group r 0 0 by k agg sum:n as s count as c\n\
view roll width 20 group tot -20 0 by k agg sum:s as s\ngo\n\
deliver f 0 0 34\nr,1,a,9223372036854775807\nr,2,a,1\n\
drain\nquery tot 0 20 ; roll 0 20\n";

const STOPPED: &[u8] = b"loaded f 0 entry 1 kept 2 aside 0\ndrained at 5\nanswer at 5 parts 2\n\
part tot 0 version 1 upto 2 mark open rows 1\na,9223372036854775807,2\n\
part roll 0 version 1 upto 3 mark open rows 1\na,9223372036854775807\n";

#[test]
fn a_sum_stops_at_the_greatest_int(rt: HostRuntime) -> Result<(), Fail> {
    expect_run(rt.alloc(), TRIAL, GREAT, NONE, Status::Done, STOPPED)
}

/// Two left rows, each with three partners.
const PAIRS: &[u8] = b"feed f\nraw x feed f width 10 time at cols at:int k:text\n\
raw y feed f width 10 time at cols at:int k:text\n\
view j width 10 join x 0 0 y 0 0 on k=k\ngo\n\
deliver f 0 0 30\nx,1,a\nx,2,a\ny,3,a\ny,4,a\ny,5,a\n\
drain\nquery j 0 10\n";

const JOINED: &[u8] = b"loaded f 0 entry 1 kept 5 aside 0\ndrained at 2\nanswer at 2 parts 1\n\
part j 0 version 1 upto 1 mark open rows 6\n\
1,a,3,a\n1,a,4,a\n1,a,5,a\n2,a,3,a\n2,a,4,a\n2,a,5,a\n";

#[test]
fn joined_rows_stand_in_left_order_then_in_right_order(rt: HostRuntime) -> Result<(), Fail> {
    expect_run(rt.alloc(), TRIAL, PAIRS, NONE, Status::Done, JOINED)
}

/// A view, and a view over that one. Each delivery but the last changes partition 0 of both.
const OVENS: &[u8] = b"feed plant\n\
raw ovens feed plant width 10 time at cols at:int oven:text degrees:int\n\
view hot width 20 filter ovens 0 0 where degrees >= 200 keep at oven degrees\n\
view alarm width 20 filter hot 0 0 where degrees >= 220 keep at oven\ngo\n";

/// Sessions in which versions are dropped, and the replies.
static RECLAIMS: [(&[u8], &[u8]); 3] = [
    // Nothing is dropped that is the latest version, also if that is stale.
    (
        b"reclaim\ndeliver plant 1 0 29\novens,3,a,180\novens,14,a,210\nreclaim\ndrain\nreclaim\n\
deliver plant 2 0 14\novens,5,b,230\nreclaim\nquery hot 0 20\n",
        b"reclaimed 0 at 0\nloaded plant 1 entry 1 kept 2 aside 0\nreclaimed 0 at 1\n\
drained at 3\nreclaimed 0 at 3\nloaded plant 2 entry 4 kept 1 aside 0\nreclaimed 0 at 4\n\
answer at 4 parts 1\npart hot 0 version 1 upto 1 mark open rows 1\n14,a,210\n",
    ),
    // What was replaced is dropped once, and the answers stay.
    (
        b"deliver plant 1 0 29\novens,3,a,180\novens,14,a,210\ndrain\n\
deliver plant 2 0 14\novens,5,b,230\ndrain\nreclaim\nreclaim\nquery hot 0 20 ; alarm 0 20\n\
deliver plant 3 0 15\novens,16,b,250\ndrain\nreclaim\nquery hot 0 20 ; alarm 0 20\n",
        b"loaded plant 1 entry 1 kept 2 aside 0\ndrained at 3\n\
loaded plant 2 entry 4 kept 1 aside 0\ndrained at 6\nreclaimed 2 at 6\nreclaimed 0 at 6\n\
answer at 6 parts 2\npart hot 0 version 2 upto 4 mark open rows 2\n5,b,230\n14,a,210\n\
part alarm 0 version 2 upto 5 mark open rows 1\n5,b\n\
loaded plant 3 entry 7 kept 1 aside 0\ndrained at 9\nreclaimed 2 at 9\n\
answer at 9 parts 2\npart hot 0 version 3 upto 7 mark open rows 3\n5,b,230\n14,a,210\n16,b,250\n\
part alarm 0 version 3 upto 8 mark open rows 2\n5,b\n16,b\n",
    ),
    // All that was ever replaced goes at once.
    (
        b"deliver plant 1 0 29\novens,3,a,180\novens,14,a,210\ndrain\n\
deliver plant 2 0 14\novens,5,b,230\ndrain\ndeliver plant 3 0 15\novens,16,b,150\ndrain\n\
deliver plant 4 0 15\novens,25,b,200\ndrain\nreclaim\n",
        b"loaded plant 1 entry 1 kept 2 aside 0\ndrained at 3\n\
loaded plant 2 entry 4 kept 1 aside 0\ndrained at 6\n\
loaded plant 3 entry 7 kept 1 aside 0\ndrained at 9\n\
loaded plant 4 entry 10 kept 1 aside 0\ndrained at 12\nreclaimed 4 at 12\n",
    ),
];

/// Expects that a session over the ovens is replied to so.
fn expect_ovens(alloc: Global, session: &[u8], output: &[u8]) -> Result<(), Fail> {
    let mut script = OVENS.to_vec(alloc)?;
    script.extend_from_slice(session)?;
    expect_run(alloc, TRIAL, &script, NONE, Status::Done, output)
}

#[test]
fn what_was_replaced_is_dropped_once(rt: HostRuntime) -> Result<(), Fail> {
    for &(session, output) in &RECLAIMS {
        expect_ovens(rt.alloc(), session, output)?;
    }
    Ok(())
}
