//! Lines of descriptions: what is accepted, and why the others are bad.

ghost use Rattle.std.specs.Prelude.{◌<◌, length};

use depot_cell::{Cell, Memory, Ty};
use desc_causes::DescCause;
use desc_types::{Kind, Table, field_cell, find_feed, find_table};
use std::alloc::Global;
use std::test::Fail;
use table_desc::{BadLine, DescFault, Draft, described_is_accepted, read_desc, texts_are_drafted};

/// Whether an empty field is an empty text.
fn is_empty_text(alloc: Global) -> Result<bool, Memory> {
    match field_cell(alloc, Ty::Text, b"")? {
        Some(Cell::Text(text)) => Ok(text.as_bytes().is_empty()),
        _ => Ok(false),
    }
}

#[test]
fn an_empty_field_is_an_empty_text(rt: HostRuntime) -> Result<(), Fail> {
    assert!(rt; is_empty_text(rt.alloc())?);
    Ok(())
}

/// A feed and three raw tables of it. The line that a test adds is the fifth.
const START: &str = "feed f\n\
    raw r feed f width 10 time at cols at:int k:text n:int\n\
    raw q feed f width 10 time at cols at:int v:int\n\
    raw w feed f width 10 time at cols \
    at:int c0:int c1:int c2:int c3:int c4:int c5:int c6:int c7:int\n";

/// The bad line of the start with one line more, if there is one.
fn bad_line(alloc: Global, line: &str) -> Result<Option<BadLine>, Memory> {
    let mut text = Vec::from_slice(alloc, START.as_bytes())?;
    text.extend_from_slice(line.as_bytes())?;
    match read_desc(alloc, &text) {
        Ok(_) => Ok(None),
        Err(DescFault::At(bad)) => Ok(Some(bad)),
        Err(DescFault::Memory) => Err(Memory),
    }
}

/// Whether the line that is added is bad, for this cause.
fn is_bad(alloc: Global, line: &str, cause: DescCause) -> Result<bool, Memory> {
    Ok(bad_line(alloc, line)? == Some(BadLine { line: 5, cause }))
}

#[test]
fn descriptions_are_read(rt: HostRuntime) -> Result<(), Fail> {
    for line in &[
        "feed g",
        "feed r",
        "feed g header",
        "  # any bytes",
        "",
        " \t ",
        "raw f feed f width 00010 time at cols at:int",
        "raw t feed f width 1099511627776 time at cols at:int \
            abcdefghijklmnopqrstuvwxyzABCDEF:text",
        "view v width 10 filter r 0 0 where n >= -5 and k != and keep k at",
        "view v width 10 filter r -0 00 where k = keep keep n",
        "view v width 10 filter r -10230 0 where n = 1 keep k",
        "view v width 20 group r -20 20 by k agg sum:n as s count as c least:k as l greatest:at \
            as g",
        "view v width 10 join r 0 0 r 10 10 on at=at k=k",
        "view v width 10240 join r 0 0 q 0 0 on at=v",
    ] {
        assert!(rt; bad_line(rt.alloc(), line)?.is_none(), "at {line}");
    }
    described_is_accepted();
    texts_are_drafted();
    Ok(())
}

#[test]
fn a_line_may_have_no_shape(rt: HostRuntime) -> Result<(), Fail> {
    for line in &[
        "table t",
        "feed",
        "feed g head",
        "feed g header x",
        "raw t feed f width 10 time at cols",
        "raw t feed f width 10 time at cols at",
        "raw t feed f width 10 time at grace 5 cols at:int",
        "view v width 10 filter r 0 0 where n ~ 5 keep k",
        "view v width 10 filter r 0 0 where n >= 5",
        "view v width 10 filter r 0 0 where n >= 5 and keep k",
        "view v width 10 group r 0 0 by agg count as c",
        "view v width 10 group r 0 0 by k agg count:n as c",
        "view v width 10 group r 0 0 by k agg sum as c",
        "view v width 10 join r 0 0 q 0 0 on k",
    ] {
        assert!(rt; is_bad(rt.alloc(), line, DescCause::BadLine)?, "at {line}");
    }
    Ok(())
}

#[test]
fn a_name_may_be_none(rt: HostRuntime) -> Result<(), Fail> {
    for line in &[
        "feed 1f",
        "feed by",
        "feed abcdefghijklmnopqrstuvwxyzABCDEFG",
        "raw r-1 feed f width 10 time at cols at:int",
        "raw t feed f width 10 time at cols at:int :int",
        "view v width 10 group r 0 0 by k agg count as on",
    ] {
        assert!(rt; is_bad(rt.alloc(), line, DescCause::BadName)?, "at {line}");
    }
    Ok(())
}

#[test]
fn a_name_may_be_taken(rt: HostRuntime) -> Result<(), Fail> {
    for line in &[
        "feed f",
        "raw r feed f width 10 time at cols at:int",
        "view q width 10 filter r 0 0 where n = 1 keep k",
        "raw t feed f width 10 time at cols at:int at:text",
        "view v width 10 filter r 0 0 where n = 1 keep k k",
        "view v width 10 group r 0 0 by k agg count as k",
    ] {
        assert!(rt;
            is_bad(rt.alloc(), line, DescCause::DoubleName)?,
            "at {line}"
        );
    }
    Ok(())
}

#[test]
fn a_feed_may_be_absent(rt: HostRuntime) -> Result<(), Fail> {
    for line in &[
        "raw t feed g width 10 time at cols at:int",
        "raw t feed r width 10 time at cols at:int",
    ] {
        assert!(rt; is_bad(rt.alloc(), line, DescCause::NoFeed)?, "at {line}");
    }
    Ok(())
}

#[test]
fn a_source_may_be_absent(rt: HostRuntime) -> Result<(), Fail> {
    for line in &[
        "view v width 10 filter s 0 0 where n = 1 keep k",
        "view v width 10 filter v 0 0 where n = 1 keep k",
        "view v width 10 join r 0 0 f 0 0 on at=at",
    ] {
        assert!(rt; is_bad(rt.alloc(), line, DescCause::NoSource)?, "at {line}");
    }
    Ok(())
}

#[test]
fn a_column_may_be_absent(rt: HostRuntime) -> Result<(), Fail> {
    for line in &[
        "raw t feed f width 10 time x cols at:int",
        "view v width 10 filter r 0 0 where x = 1 keep k",
        "view v width 10 filter r 0 0 where n = 1 keep k x",
        "view v width 10 group r 0 0 by x agg count as c",
        "view v width 10 group r 0 0 by k agg sum: as c",
        "view v width 10 join r 0 0 q 0 0 on v=k",
    ] {
        assert!(rt; is_bad(rt.alloc(), line, DescCause::NoColumn)?, "at {line}");
    }
    Ok(())
}

#[test]
fn a_type_may_not_fit(rt: HostRuntime) -> Result<(), Fail> {
    for line in &[
        "raw t feed f width 10 time at cols at:int x:float",
        "raw t feed f width 10 time at cols at:text",
        "raw t feed f width 10 time at cols at:",
        "view v width 10 filter r 0 0 where n >= abc keep k",
        "view v width 10 filter r 0 0 where k = \
            xxxxxxxxxxxxxxxxxxxxxxxxxxxxxxxxxxxxxxxxxxxxxxxxxxxxxxxxxxxxxxxxxxxxxxxxxxxxxxxxxx\
            xxxxxxxxxxxxxxxxxxxxxxxxxxxxxxxxxxxxxxxxxxxxxxxxxxxxxxxxxxxxxxxxxxxxxxxxxxxxxxxxxx\
            xxxxxxxxxxxxxxxxxxxxxxxxxxxxxxxxxxxxxxxxxxxxxxxxxxxxxxxxxxxxxxxxxxxxxxxxxxxxxxxxxx\
            xxxxxxxxxx keep k",
        "view v width 10 group r 0 0 by k agg sum:k as s",
        "view v width 10 join r 0 0 q 0 0 on k=v",
    ] {
        assert!(rt; is_bad(rt.alloc(), line, DescCause::BadType)?, "at {line}");
    }
    Ok(())
}

#[test]
fn a_width_may_not_fit(rt: HostRuntime) -> Result<(), Fail> {
    for line in &[
        "raw t feed f width 0 time at cols at:int",
        "raw t feed f width 1099511627777 time at cols at:int",
        "raw t feed f width ten time at cols at:int",
        "view v width 15 filter r 0 0 where n = 1 keep k",
        "view v width 5 join r 0 0 q 0 0 on at=at",
    ] {
        assert!(rt; is_bad(rt.alloc(), line, DescCause::BadWidth)?, "at {line}");
    }
    Ok(())
}

#[test]
fn a_span_may_not_fit(rt: HostRuntime) -> Result<(), Fail> {
    for line in &[
        "view v width 10 filter r x 0 where n = 1 keep k",
        "view v width 10 filter r +0 0 where n = 1 keep k",
        "view v width 10 filter r 0 00000000000000000000 where n = 1 keep k",
        "view v width 10 filter r -5 0 where n = 1 keep k",
        "view v width 10 filter r 0 -10 where n = 1 keep k",
        "view v width 10 filter r -10240 0 where n = 1 keep k",
        "view v width 10240 join r 0 0 q 0 10 on at=at",
    ] {
        assert!(rt; is_bad(rt.alloc(), line, DescCause::BadSpan)?, "at {line}");
    }
    Ok(())
}

#[test]
fn a_line_may_declare_too_much(rt: HostRuntime) -> Result<(), Fail> {
    for line in &[
        "raw t feed f width 10 time at cols at:int c0:int c1:int c2:int c3:int c4:int c5:int \
            c6:int c7:int c8:int c9:int c10:int c11:int c12:int c13:int c14:int c15:int",
        "view v width 10 filter r 0 0 where n = 1 and n = 1 and n = 1 and n = 1 and n = 1 and n \
            = 1 and n = 1 and n = 1 and n = 1 keep k",
        "view v width 10 group w 0 0 by c0 c1 c2 c3 c4 agg count as c",
        "view v width 10 join r 0 0 q 0 0 on at=at at=at at=at at=at at=at",
        "view v width 10 join w 0 0 w 0 0 on at=at",
    ] {
        assert!(rt; is_bad(rt.alloc(), line, DescCause::TooMany)?, "at {line}");
    }
    Ok(())
}

/// Lines that are bad for two causes: the first of them is told.
#[test]
fn the_first_cause_is_told(rt: HostRuntime) -> Result<(), Fail> {
    for &(cause, line) in &[
        (DescCause::BadLine, "view r-1 width 10 group r 0 0 by k agg"),
        (
            DescCause::BadName,
            "raw r feed f width 10 time at cols at:int x-y:int",
        ),
        (
            DescCause::BadName,
            "raw t feed g width 10 time at cols on:int",
        ),
        (
            DescCause::DoubleName,
            "raw r feed g width 10 time at cols at:int",
        ),
        (
            DescCause::DoubleName,
            "view v width 10 filter s 0 0 where n = 1 keep k k",
        ),
        (
            DescCause::NoFeed,
            "raw t feed g width 10 time x cols at:int",
        ),
        (
            DescCause::NoSource,
            "view v width 10 join r 0 0 s 0 0 on x=y",
        ),
        (
            DescCause::NoColumn,
            "view v width 10 filter r 0 0 where n = x keep y",
        ),
        (
            DescCause::NoColumn,
            "raw t feed f width 10 time x cols at:float",
        ),
        (
            DescCause::BadType,
            "view v width 15 filter r 0 0 where n = x keep k",
        ),
        (
            DescCause::BadType,
            "raw t feed f width 0 time at cols at:float",
        ),
        (
            DescCause::BadWidth,
            "view v width 15 filter r x 0 where n = 1 keep k",
        ),
        (
            DescCause::BadWidth,
            "raw t feed f width 0 time at cols at:int c0:int c1:int c2:int c3:int c4:int c5:int \
                c6:int c7:int c8:int c9:int c10:int c11:int c12:int c13:int c14:int c15:int",
        ),
        (
            DescCause::BadSpan,
            "view v width 10 filter r x 0 where n = 1 and n = 1 and n = 1 and n = 1 and n = 1 \
                and n = 1 and n = 1 and n = 1 and n = 1 keep k",
        ),
    ] {
        assert!(rt; is_bad(rt.alloc(), line, cause)?, "at {line}");
    }
    Ok(())
}

fn draft_of(alloc: Global, lines: &[&str]) -> Result<Draft, Memory>
    requires { length lines.now < 100 }
{
    let mut draft = Draft::new(alloc);
    for line in lines {
        draft = draft.with_line(alloc, line.as_bytes())?;
    }
    Ok(draft)
}

/// The bad line of lines that are given one by one, if there is one.
fn bad_of(alloc: Global, lines: &[&str]) -> Result<Option<BadLine>, Memory>
    requires { length lines.now < 100 }
{
    match draft_of(alloc, lines)?.into_read() {
        Ok(_) => Ok(None),
        Err(bad) => Ok(Some(bad)),
    }
}

#[test]
fn after_a_bad_line_none_is_looked_at(rt: HostRuntime) -> Result<(), Fail> {
    let bad = Some(BadLine {
        line: 2,
        cause: DescCause::DoubleName,
    });
    assert!(rt; bad_of(rt.alloc(), &["feed f", "feed f", "feed", "feed by"])? == bad);
    assert!(rt; bad_of(rt.alloc(), &["# none", "feed f", "feed g"])?.is_none());
    Ok(())
}

/// Whether a table has this width and so many columns.
fn has_shape(table: &Table, width: u64, columns: usize) -> bool {
    table.width.ticks() == width && table.columns.len() == columns
}

/// Whether a table is a filter that keeps columns 1 and 0.
fn is_filter(table: &Table) -> bool {
    match &table.kind {
        Kind::Filter { keep, .. } => keep.as_slice() == [1, 0].as_slice(),
        _ => false,
    }
}

const VIEWS: &[&str] = &[
    "feed e header",
    "feed f",
    "raw r feed f width 10 time at cols at:int k:text",
    "view v width 20 filter r 0 0 where at >= -5 keep k at",
];

/// Whether a description has what these lines declare.
fn are_views(alloc: Global) -> Result<bool, Memory> {
    let Ok(accepted) = draft_of(alloc, VIEWS)?.into_read() else {
        return Ok(false);
    };
    let feed = find_feed(&accepted, b"f");
    match (find_table(&accepted, b"r"), find_table(&accepted, b"v")) {
        (Some(raw), Some(view)) => Ok(
            feed == Some(1)
                && has_shape(accepted.table(raw), 10, 2)
                && has_shape(accepted.table(view), 20, 2)
                && is_filter(accepted.table(view)),
        ),
        _ => Ok(false),
    }
}

#[test]
fn lines_declare_feeds_and_tables(rt: HostRuntime) -> Result<(), Fail> {
    assert!(rt; are_views(rt.alloc())?);
    Ok(())
}
