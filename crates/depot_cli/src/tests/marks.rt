//! Tests of closing, of rows that are set aside, and of marks and levels.

use super::{NONE, TRIAL, run_script};
use crate::run::status::Status;
use depot_io::VecSink;
use std::alloc::Global;
use std::test::Fail;

/// A raw table and three views: `roll` reads two partitions of `tot`.
const DESCRIPTION: &[u8] = b"feed f\nraw r feed f width 10 time at cols at:int k:text n:int\n\
view big width 10 filter r 0 0 where n >= 5 keep at k n\n\
view tot width 20 group r 0 0 by k agg sum:n as s count as c\n\
view roll width 20 group tot -20 0 by k agg sum:s as s\ngo\n";

/// What a case shows, its session, and the replies. Partition 0 of `r` ends at tick 10, and
/// partition 1 at 20.
static CASES: [(&str, &[u8], &[u8]); 10] = [
    (
        "nothing_is_closed_before_a_delivery_came",
        b"marks r 0 10\naside f\nquery r 0 10 ; r 0 10 closed\nquery r 0 10 complete\n",
        b"marks at 0 parts 1\npart r 0 mark open\nasides f at 0 rows 0\n\
answer at 0 parts 1\npart r 0 version 0 upto 0 mark open rows 0\nanswer at 0 parts 0\n",
    ),
    (
        "a_view_is_complete_if_all_below_it_is",
        b"deliver f 0 0 17\nr,3,a,5\nr,12,b,2\ndrain\nquery tot 0 40\n\
deliver f 1 20 9\nr,15,a,7\ndrain\nquery tot 0 20 ; roll 20 40\nquery tot 0 40 complete\n",
        b"loaded f 0 entry 1 kept 2 aside 0\ndrained at 6\n\
answer at 6 parts 2\npart tot 0 version 1 upto 3 mark open rows 2\na,5,1\nb,2,1\n\
part tot 1 version 0 upto 0 mark open rows 0\n\
loaded f 1 entry 7 kept 1 aside 0\ndrained at 11\n\
answer at 11 parts 2\npart tot 0 version 2 upto 8 mark complete rows 2\na,12,2\nb,2,1\n\
part roll 1 version 2 upto 10 mark open rows 2\na,12\nb,2\n\
answer at 11 parts 1\npart tot 0 version 2 upto 8 mark complete rows 2\na,12,2\nb,2,1\n",
    ),
    (
        "a_late_row_is_set_aside_and_named",
        b"deliver f 0 0 17\nr,3,a,5\nr,12,b,2\ndeliver f 2 20 9\nr,15,a,7\n\
deliver f 1 0 9\nr,16,c,1\nmarks r 0 20\naside f\n",
        b"loaded f 0 entry 1 kept 2 aside 0\nloaded f 2 entry 2 kept 1 aside 0\n\
loaded f 1 entry 3 kept 0 aside 1\n\
marks at 3 parts 2\npart r 0 mark complete\npart r 1 mark closed\n\
asides f at 3 rows 1\naside f 1 record 1 table r part 1\n",
    ),
    (
        "a_row_that_was_not_expected_leaves_a_partition_complete",
        b"deliver f 0 0 17\nr,3,a,5\nr,12,b,2\ndeliver f 2 20 9\nr,15,a,7\n\
deliver f 1 0 9\nr,16,c,1\ndeliver f 3 0 17\nr,1,x,1\nr,11,y,1\naside f\nmarks r 0 20\n",
        b"loaded f 0 entry 1 kept 2 aside 0\nloaded f 2 entry 2 kept 1 aside 0\n\
loaded f 1 entry 3 kept 0 aside 1\nloaded f 3 entry 4 kept 0 aside 2\n\
asides f at 4 rows 3\naside f 1 record 1 table r part 1\n\
aside f 3 record 1 table r part 0\naside f 3 record 2 table r part 1\n\
marks at 4 parts 2\npart r 0 mark complete\npart r 1 mark closed\n",
    ),
    (
        "a_repeat_closes_nothing",
        b"deliver f 0 0 17\nr,3,a,5\nr,12,b,2\ndeliver f 0 10 8\nr,1,z,9\nmarks r 0 10\n",
        b"loaded f 0 entry 1 kept 2 aside 0\nrepeat f 0\n\
marks at 1 parts 1\npart r 0 mark open\n",
    ),
    (
        "the_end_of_time_closes_both_ends_of_time",
        b"deliver f 0 1099511627776 20\nr,1099511627775,a,1\n\
query r 1099511627770 1099511627776\nmarks r 0 1\n",
        b"loaded f 0 entry 1 kept 1 aside 0\nanswer at 1 parts 1\n\
part r 109951162777 version 1 upto 1 mark complete rows 1\n1099511627775,a,1\n\
marks at 1 parts 1\npart r 0 mark complete\n",
    ),
    (
        "a_gap_in_numbers_leaves_partitions_closed",
        b"deliver f 1 20 9\nr,15,a,7\nmarks r 0 20\ndeliver f 0 0 0\nmarks r 0 20\n",
        b"loaded f 1 entry 1 kept 1 aside 0\n\
marks at 1 parts 2\npart r 0 mark closed\npart r 1 mark closed\n\
loaded f 0 entry 2 kept 0 aside 0\n\
marks at 2 parts 2\npart r 0 mark complete\npart r 1 mark complete\n",
    ),
    (
        "a_level_shows_the_partitions_that_have_it",
        b"deliver f 0 0 17\nr,3,a,5\nr,12,b,2\ndeliver f 2 20 9\nr,15,a,7\n\
deliver f 1 0 9\nr,16,c,1\nquery r 0 40 closed ; r 0 40 complete\n",
        b"loaded f 0 entry 1 kept 2 aside 0\nloaded f 2 entry 2 kept 1 aside 0\n\
loaded f 1 entry 3 kept 0 aside 1\nanswer at 3 parts 3\n\
part r 0 version 1 upto 3 mark complete rows 1\n3,a,5\n\
part r 1 version 2 upto 3 mark closed rows 2\n12,b,2\n15,a,7\n\
part r 0 version 1 upto 3 mark complete rows 1\n3,a,5\n",
    ),
    (
        "a_view_is_open_until_it_is_computed",
        b"deliver f 0 20 9\nr,15,a,7\nmarks tot 0 20\ndrain\nmarks tot 0 20\n",
        b"loaded f 0 entry 1 kept 1 aside 0\nmarks at 1 parts 1\npart tot 0 mark open\n\
drained at 5\nmarks at 5 parts 1\npart tot 0 mark complete\n",
    ),
    (
        "the_delivery_that_closes_keeps_its_own_rows",
        b"deliver f 0 20 17\nr,3,a,5\nr,12,b,2\nquery r 0 20\n",
        b"loaded f 0 entry 1 kept 2 aside 0\n\
answer at 1 parts 2\npart r 0 version 1 upto 1 mark complete rows 1\n3,a,5\n\
part r 1 version 1 upto 1 mark complete rows 1\n12,b,2\n",
    ),
];

/// Expects that a session is replied to so, or tells the case and the replies.
fn expect_replies(alloc: Global, case: &str, session: &[u8], output: &[u8]) -> Result<(), Fail> {
    let mut script = DESCRIPTION.to_vec(alloc)?;
    script.extend_from_slice(session)?;
    let mut sink = VecSink::new(alloc, output.len(), Vec::new(alloc))?;
    let ended = run_script(alloc, TRIAL, &script, NONE, &mut sink)?;
    if ended == Status::Done && sink.bytes() == output {
        Ok(())
    } else {
        let replies = str::from_utf8(sink.bytes());
        Err(Fail::new(format_args!("{case}: {ended:?} {replies:?}")))
    }
}

#[test]
fn marks_tell_what_may_still_come(rt: HostRuntime) -> Result<(), Fail> {
    for &(case, session, output) in &CASES {
        expect_replies(rt.alloc(), case, session, output)?;
    }
    Ok(())
}
