//! What groups and joins make of rows, worked by hand.
//!
//! The cases are lines of text, so that a case more costs the prover nothing. A row is its cells with
//! commas between them, of which the first, the third and the fifth are ints of the table and the
//! others texts. Rows have blanks between them, and the parts of a case have a `/`.

use depot_cell::{Row, Str, Ty, cell_text, read_cell};
use desc_types::{Agg, DRow, Delivery, Desc, Fun, Key, Kind, Pair, Span, Src, Table, Width};
use std::alloc::Global;
use std::test::Fail;
use view_meaning::plain_value;

/// Groups: the key columns, the aggregates with their columns (`s` for a sum, `c` for a count, `l`
/// for the least and `g` for the greatest), the source rows, and the rows of the group.
const GROUPS: &str = "\
1 s2c0l2g2/1,b,5 2,a,1 3,b,-7 15,c,4 4,a,2/b,-2,2,-7,5 a,3,2,1,2 c,4,1,4,4
1 c0/15,z 3,y 18,y/y,2 z,1
1 c0/1,ab 2,a 3,abc 4,ab 5, 6,1 7,01/ab,2 a,1 abc,1 ,1 1,1 01,1
1234 c0/1,a,1,b,2 2,a,1,b,3 3,a,1,b,2/a,1,b,2,2 a,1,b,3,1
21 c0/1,b,7 2,b,007 3,a,7/7,b,2 7,a,1
1 /1,b 2,a 3,b/b a
1 c0//
 c0//
 c0/1,a 2,b/2
 s2/1,a,9223372036854775807 2,a,1/9223372036854775807
 s2/1,a,9223372036854775807 2,a,1 3,a,-2/9223372036854775806
 s2/1,a,-9223372036854775808 2,a,-1/-9223372036854775808
 s2/1,a,-9223372036854775808 2,a,-1 3,a,9223372036854775807/-2
 l1g1/1,b 2,ab 3,é 4,a 5,z 6,aa/a,é";

/// Joins: the left columns, the right columns, the rows of the two sources, and the rows of the
/// join.
const JOINS: &str = "\
1 1/1,a 2,a/3,a 4,a 5,a/1,a,3,a 1,a,4,a 1,a,5,a 2,a,3,a 2,a,4,a 2,a,5,a
1 1/1,a 2,b 3,c/4,b 5,a 6,b/1,a,5,a 2,b,4,b 2,b,6,b
1 1/1,ab/2,a 3,abc 4,ab/1,ab,4,ab
1 1/15,a 2,a/3,a/2,a,3,a 15,a,3,a
12 10/1,a,7 2,a,8 3,b,9/8,a 9,a 8,a 7,b/2,a,8,8,a 2,a,8,8,a
1 1//1,a/
1 1/1,a//
 /1,a 2,b/3,c 4,d/1,a,3,c 1,a,4,d 2,b,3,c 2,b,4,d";

/// The cells of a row.
fn read_row(alloc: Global, text: &[u8]) -> Result<Row, Fail> {
    let mut row = Row::new(alloc);
    let mut ty = Ty::Int;
    for field in text.split(|byte| *byte == b',') {
        row.push(read_cell(alloc, ty, field)?)?;
        ty = match ty {
            Ty::Int => Ty::Text,
            Ty::Text => Ty::Int,
        };
    }
    Ok(row)
}

/// A delivery of the rows of a table.
fn delivery(alloc: Global, table: u16, text: &[u8]) -> Result<Delivery, Fail> {
    let mut rows = Vec::new(alloc);
    for row in text.split(|byte| *byte == b' ') {
        if !row.is_empty() {
            rows.push(DRow {
                number: 1,
                table,
                cells: read_row(alloc, row)?,
            })?;
        }
    }
    Ok(Delivery {
        feed: 0,
        number: u32::from(table),
        closes: 0,
        rows,
    })
}

/// Columns of one digit each.
fn columns(alloc: Global, digits: &[u8]) -> Result<Vec<u16>, Fail> {
    let mut columns = Vec::new(alloc);
    for digit in digits {
        columns.push(u16::from(digit.saturating_sub(b'0')))?;
    }
    Ok(columns)
}

/// Aggregates: a letter, then a column.
fn aggregates(alloc: Global, text: &[u8]) -> Result<Vec<Agg>, Fail> {
    let mut aggs = Vec::new(alloc);
    let mut fun = Fun::Count;
    for byte in text {
        match byte {
            b's' => fun = Fun::Sum,
            b'c' => fun = Fun::Count,
            b'l' => fun = Fun::Least,
            b'g' => fun = Fun::Greatest,
            digit => aggs.push(Agg {
                fun,
                column: u16::from(digit.saturating_sub(b'0')),
            })?,
        }
    }
    Ok(aggs)
}

/// Pairs of columns.
fn pairs(alloc: Global, left: &[u8], right: &[u8]) -> Result<Vec<Pair>, Fail> {
    let mut pairs = Vec::new(alloc);
    for (left, right) in left.iter().zip(right) {
        pairs.push(Pair {
            left: u16::from(left.saturating_sub(b'0')),
            right: u16::from(right.saturating_sub(b'0')),
        })?;
    }
    Ok(pairs)
}

/// A source that is read over just the ticks of the view's partition.
fn source(table: u16) -> Src {
    Src {
        table,
        span: Span { lo: 0, hi: 0 },
    }
}

/// A table in partitions of this width.
fn table(alloc: Global, width: Width, kind: Kind) -> Result<Table, Fail> {
    Ok(Table {
        name: Str::from_bytes(alloc, b"t")?,
        columns: Vec::new(alloc),
        width,
        kind,
    })
}

/// Two raw tables in partitions of 10 ticks, and a view in partitions of 40.
fn described(alloc: Global, kind: Kind) -> Result<Desc, Fail> {
    let ten = Width::new(10);
    let mut tables = Vec::new(alloc);
    tables.push(table(alloc, ten, Kind::Raw { feed: 0, time: 0 })?)?;
    tables.push(table(alloc, ten, Kind::Raw { feed: 0, time: 0 })?)?;
    tables.push(table(alloc, Width::new(40), kind)?)?;
    Ok(Desc {
        feeds: Vec::new(alloc),
        tables,
    })
}

/// The rows that a view makes in its first partition of the rows of two raw tables.
fn made(alloc: Global, kind: Kind, left: &[u8], right: &[u8]) -> Result<Vec<u8>, Fail> {
    let desc = described(alloc, kind)?;
    let mut accepted = Vec::new(alloc);
    accepted.push(delivery(alloc, 0, left)?)?;
    accepted.push(delivery(alloc, 1, right)?)?;
    let key = Key { table: 2, part: 0 };
    let mut text = Vec::new(alloc);
    for row in plain_value(alloc, &desc, &accepted, key)?.rows() {
        put_row(alloc, row, &mut text)?;
    }
    Ok(text)
}

/// Puts a row after a text, with a blank between the two.
fn put_row(alloc: Global, row: &Row, text: &mut Vec<u8>) -> Result<(), Fail> {
    if !text.is_empty() {
        text.push(b' ')?;
    }
    for (place, cell) in row.cells().iter().enumerate() {
        if place > 0 {
            text.push(b',')?;
        }
        text.extend_from_slice(&cell_text(alloc, cell)?)?;
    }
    Ok(())
}

/// Whether a group makes of the rows of a case what it should.
fn group_case(alloc: Global, case: &[u8]) -> Result<bool, Fail> {
    let mut parts = case.split(|byte| *byte == b'/');
    let mut words = parts.next().ok_or("a view")?.split(|byte| *byte == b' ');
    let kind = Kind::Group {
        src: source(0),
        keys: columns(alloc, words.next().ok_or("keys")?)?,
        aggs: aggregates(alloc, words.next().ok_or("aggregates")?)?,
    };
    let rows = parts.next().ok_or("rows")?;
    let want = parts.next().ok_or("a result")?;
    Ok(made(alloc, kind, rows, b"")?.as_slice() == want)
}

/// Whether a join does.
fn join_case(alloc: Global, case: &[u8]) -> Result<bool, Fail> {
    let mut parts = case.split(|byte| *byte == b'/');
    let mut words = parts.next().ok_or("a view")?.split(|byte| *byte == b' ');
    let kind = Kind::Join {
        left: source(0),
        right: source(1),
        on: pairs(
            alloc,
            words.next().ok_or("left columns")?,
            words.next().ok_or("right columns")?,
        )?,
    };
    let left = parts.next().ok_or("left rows")?;
    let right = parts.next().ok_or("right rows")?;
    let want = parts.next().ok_or("a result")?;
    Ok(made(alloc, kind, left, right)?.as_slice() == want)
}

#[test]
fn groups_have_a_row_for_each_key(rt: HostRuntime) -> Result<(), Fail> {
    for case in GROUPS.as_bytes().split(|byte| *byte == b'\n') {
        assert!(rt; group_case(rt.alloc(), case)?);
    }
    Ok(())
}

#[test]
fn joins_go_by_left_row_and_then_by_right_row(rt: HostRuntime) -> Result<(), Fail> {
    for case in JOINS.as_bytes().split(|byte| *byte == b'\n') {
        assert!(rt; join_case(rt.alloc(), case)?);
    }
    Ok(())
}
