//! A long session over views of filters, through a source that gives one byte a take.

use super::items::expect_slowly;
use crate::run::status::Status;
use std::test::Fail;

const SESSION: &[u8] = b"\
# Two raw tables of one feed, and views over them. The view ab stands above a view.\n\
feed f\n\
raw r feed f width 10 time at cols at:int k:text n:int\n\
raw s feed f width 100 time at cols k:text at:int n:int\n\
view big width 20 filter r 0 0 where n >= 5 keep at k n\n\
view ab width 40 filter big 0 0 where k < b keep k\n\
view eight width 100 filter s 0 0 where at >= 1 and at <= 30 and n > -10 and n < 10 and n != 3 and k >= B and k < x and k != keep keep n k\n\
view bytes width 100 filter s 0 0 where n = 1 and k > Z keep k\n\
go\n\
# A line and records that end with CR LF, a field in quotes, and an empty text.\n\
deliver f 0 0 45\r\n\
r,3,\"a,\"\"b\",5\r\n\
r,12,,7\r\n\
r,25,a,9\r\n\
r,31,aa,4\r\n\
query big 0 40\n\
drain\n\
query ab 0 40\n\
query big 0 40\n\
deliver f 1 0 9\n\
r,26,c,6\n\
query big 20 40\n\
query r 20 30\n\
drain\n\
query ab 0 40\n\
query big 0 40\n\
drain\n\
deliver f 1 0 9\n\
r,99,z,9\n\
drain\n\
deliver f 2 0 16\n\
r,1,a,5\n\
r,2,a,x\n\
deliver f 2 0 0\n\
drain\n\
\n\
deliver g 3 0 6\n\
drain\n\
deliver f 4294967295 0 136\n\
s,b,0,5\n\
s,b,31,5\n\
s,b,1,-10\n\
s,b,1,10\n\
s,b,1,3\n\
s,A,1,5\n\
s,x,1,5\n\
s,keep,1,5\n\
s,B,1,-9\n\
s,w,30,9\n\
s,a,40,1\n\
s,A,40,1\n\
s,Zz,40,1\n\
s,Z,40,1\n\
s,\xc3\xa9,40,1\n\
drain\n\
query eight 0 100\n\
query bytes 99 100\n\
query r 5 5\n\
query r 20 0\n\
query t 0 10\n\
marks r 0 10\n\
end\r\n\
query r 0 10\n";

const REPLIES: &[u8] = b"\
loaded f 0 entry 1 kept 4 aside 0\n\
answer at 1 parts 2\n\
part big 0 version 0 upto 0 mark open rows 0\n\
part big 1 version 0 upto 0 mark open rows 0\n\
drained at 4\n\
answer at 4 parts 1\n\
part ab 0 version 1 upto 3 mark open rows 3\n\
\"a,\"\"b\"\n\
\"\"\n\
a\n\
answer at 4 parts 2\n\
part big 0 version 1 upto 1 mark open rows 2\n\
3,\"a,\"\"b\",5\n\
12,,7\n\
part big 1 version 1 upto 2 mark open rows 1\n\
25,a,9\n\
loaded f 1 entry 5 kept 1 aside 0\n\
answer at 5 parts 1\n\
part big 1 version 1 upto 2 mark open rows 1\n\
25,a,9\n\
answer at 5 parts 1\n\
part r 2 version 2 upto 5 mark open rows 2\n\
25,a,9\n\
26,c,6\n\
drained at 7\n\
answer at 7 parts 1\n\
part ab 0 version 2 upto 6 mark open rows 3\n\
\"a,\"\"b\"\n\
\"\"\n\
a\n\
answer at 7 parts 2\n\
part big 0 version 1 upto 1 mark open rows 2\n\
3,\"a,\"\"b\",5\n\
12,,7\n\
part big 1 version 2 upto 5 mark open rows 2\n\
25,a,9\n\
26,c,6\n\
drained at 7\n\
repeat f 1\n\
drained at 7\n\
refused 16 record 2 bad_int\n\
loaded f 2 entry 8 kept 0 aside 0\n\
drained at 8\n\
refused 20 no_feed\n\
loaded f 4294967295 entry 9 kept 15 aside 0\n\
drained at 11\n\
answer at 11 parts 1\n\
part eight 0 version 1 upto 9 mark open rows 2\n\
-9,B\n\
9,w\n\
answer at 11 parts 1\n\
part bytes 0 version 1 upto 10 mark open rows 3\n\
a\n\
Zz\n\
\xc3\xa9\n\
answer at 11 parts 0\n\
refused 26 bad_range\n\
refused 27 no_table\n\
marks at 11 parts 1\n\
part r 0 mark open\n";

#[test]
fn an_input_may_come_byte_by_byte(rt: HostRuntime) -> Result<(), Fail> {
    expect_slowly(rt.alloc(), SESSION, Status::Refused, REPLIES)
}
