//! Canonical texts: what is written of a description that was read, and that it is read again.

use depot_cell::Memory;
use desc_lines::is_word;
use std::alloc::Global;
use std::test::Fail;
use table_desc::{DescFault, read_desc, write_desc};

/// The canonical text of what a text declares, or `bad` if it has a bad line.
fn canonical(alloc: Global, text: &[u8]) -> Result<Vec<u8>, Memory> {
    match read_desc(alloc, text) {
        Ok(accepted) => write_desc(alloc, &accepted),
        Err(DescFault::At(_)) => Ok(Vec::from_slice(alloc, b"bad")?),
        Err(DescFault::Memory) => Err(Memory),
    }
}

/// Whether this is the canonical text of what a text declares, and its own as well.
fn is_canonical(alloc: Global, text: &[u8], want: &[u8]) -> Result<bool, Memory> {
    let written = canonical(alloc, text)?;
    let again = canonical(alloc, &written)?;
    Ok(is_word(&written, want) && is_word(&again, want))
}

/// A feed and two raw tables of it. The line that a test adds is the fourth.
const START: &str = "feed f\n\
    raw r feed f width 10 time at cols at:int k:text n:int\n\
    raw q feed f width 10 time at cols at:int v:int\n";

/// The start with a line after it.
fn with_line(alloc: Global, line: &str, end: &str) -> Result<Vec<u8>, Memory> {
    let mut text = Vec::from_slice(alloc, START.as_bytes())?;
    text.extend_from_slice(line.as_bytes())?;
    text.extend_from_slice(end.as_bytes())?;
    Ok(text)
}

/// Whether the line that is added is written as this line.
fn is_written(alloc: Global, line: &str, want: &str) -> Result<bool, Memory> {
    let text = with_line(alloc, line, "")?;
    let want = with_line(alloc, want, "\n")?;
    is_canonical(alloc, &text, &want)
}

#[test]
fn a_canonical_line_is_written_as_it_stands(rt: HostRuntime) -> Result<(), Fail> {
    for line in &[
        "raw t feed f width 1099511627776 time n cols a:text n:int",
        "raw t feed f width 1 time feed cols feed:int",
        "view v width 10 filter r 0 0 where n >= -5 and k != and keep k at",
        "view v width 10 filter r -10 0 where n = 1 and n != 2 and n < 3 and n <= 4 and n > 5 \
            keep n",
        "view v width 10 filter r 10 20 where n = -9223372036854775808 keep n k at",
        "view v width 10 filter r -10230 0 where n = 9223372036854775807 keep n",
        "view v width 10 filter r 0 0 where k = 007 and k = -0 and k = keep keep k",
        "view v width 10 group r 0 0 by k n at agg count as c",
        "view v width 20 group r -20 20 by k agg sum:n as s count as c least:k as l greatest:at \
            as g",
        "view v width 10 join r 0 0 q 10 10 on at=at n=v",
        "view v width 20 join q -20 -10 q -10 0 on v=at",
    ] {
        assert!(rt; is_written(rt.alloc(), line, line)?, "at {line}");
    }
    Ok(())
}

#[test]
fn blanks_and_leading_zeros_vanish(rt: HostRuntime) -> Result<(), Fail> {
    for &(line, want) in &[
        (
            "raw t feed f width 0000000000000000010 time a cols a:int",
            "raw t feed f width 10 time a cols a:int",
        ),
        (
            "  raw\tt feed  f width 1 \t time a cols\ta:int  b:text \t",
            "raw t feed f width 1 time a cols a:int b:text",
        ),
        (
            "raw t feed f width 1 time a cols a:int\r\n",
            "raw t feed f width 1 time a cols a:int",
        ),
        (
            "view v width 010 filter r -0 00 where n = 007 and n > -0 and n < -05 keep n",
            "view v width 10 filter r 0 0 where n = 7 and n > 0 and n < -5 keep n",
        ),
        (
            "view v\twidth 10 filter r -010 0 where k = 007 keep k\r\n \t\r\n# none",
            "view v width 10 filter r -10 0 where k = 007 keep k",
        ),
        (
            "view v width 10 group r 0 010 by k \t agg count\tas c",
            "view v width 10 group r 0 10 by k agg count as c",
        ),
        (
            "view v width 0020 join r 00 -0 q 010 0010 on  at=at",
            "view v width 20 join r 0 0 q 10 10 on at=at",
        ),
    ] {
        assert!(rt; is_written(rt.alloc(), line, want)?, "at {line}");
    }
    Ok(())
}

#[test]
fn feeds_are_written_before_tables(rt: HostRuntime) -> Result<(), Fail> {
    for &(text, want) in &[
        ("", ""),
        ("\r\n\t \n# \u{e9}\n  #\n", ""),
        ("feed f", "feed f\n"),
        (" feed f header\r\n\nfeed\tg\n\n", "feed f header\nfeed g\n"),
        (
            "feed e header\nraw r feed e width 60 time at cols at:int k:text\n# the others\n\
                feed f\r\nview v width 60 filter r 0 0 where k = x keep k\n\
                raw q feed f width 60 time t cols x:text t:int\n feed\tg header",
            "feed e header\nfeed f\nfeed g header\n\
                raw r feed e width 60 time at cols at:int k:text\n\
                view v width 60 filter r 0 0 where k = x keep k\n\
                raw q feed f width 60 time t cols x:text t:int\n",
        ),
        (
            "feed f\nraw r feed f width 1 time a cols a:int\nfeed r\n\
                view j width 2 join r -2 -1 r 0 0 on a=a\nfeed j\n\
                view k width 2 filter j 0 0 where l_a < 1 keep r_a l_a\n\
                view g width 4 group k -4 0 by r_a agg least:l_a as r_a_",
            "feed f\nfeed r\nfeed j\nraw r feed f width 1 time a cols a:int\n\
                view j width 2 join r -2 -1 r 0 0 on a=a\n\
                view k width 2 filter j 0 0 where l_a < 1 keep r_a l_a\n\
                view g width 4 group k -4 0 by r_a agg least:l_a as r_a_\n",
        ),
    ] {
        let written = is_canonical(rt.alloc(), text.as_bytes(), want.as_bytes())?;
        assert!(rt; written, "at {text}");
    }
    Ok(())
}
