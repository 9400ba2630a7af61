//! Bodies: which deliveries they bring, and which record is the first bad one.
//!
//! In a body of these tests `~` stands for 255 letters, the most that a text may have, and `^` for a
//! byte that is in no UTF-8.

use crate::texts::{put_cell, put_row};
use depot_cell::{Cell, Memory};
use desc_types::{AcceptedDesc, Delivery};
use feed_csv::{BadRecord, DeliveryFault, read_delivery};
use std::alloc::Global;
use std::test::Fail;
use table_desc::Draft;

/// Feed 0 has no header, and the tables 0 and 1. Feed 1 has a header, and table 2. Table 3 is a view.
fn described(alloc: Global) -> Result<AcceptedDesc, Fail> {
    let draft = Draft::new(alloc)
        .with_line(alloc, b"feed f")?
        .with_line(alloc, b"feed h header")?
        .with_line(
            alloc,
            b"raw r feed f width 10 time t cols t:int s:text n:int",
        )?
        .with_line(
            alloc,
            b"raw u feed f width 10 time t cols s:text n:int t:int k:text",
        )?
        .with_line(
            alloc,
            b"raw g feed h width 10 time t cols t:int s:text n:int",
        )?
        .with_line(
            alloc,
            b"view v width 10 filter r 0 0 where n > 1 keep t s n",
        )?;
    match draft.into_read() {
        Ok(accepted) => Ok(accepted),
        Err(bad) => Err(Fail::new(bad.cause.text())),
    }
}

/// The bytes that a body of these tests stands for.
fn body_bytes(alloc: Global, body: &[u8]) -> Result<Vec<u8>, Memory> {
    let mut bytes = Vec::new(alloc);
    for byte in body {
        match byte {
            b'~' => bytes.extend_from_slice(&[b'x'; 255])?,
            b'^' => bytes.push(0xff)?,
            byte => bytes.push(*byte)?,
        }
    }
    Ok(bytes)
}

/// The rows of a delivery as a text: of each its table, the number of its record and its cells, with
/// a `|` after each of them, and a blank at its end.
fn delivery_text(alloc: Global, delivery: &Delivery) -> Result<Vec<u8>, Memory> {
    let mut text = Vec::new(alloc);
    for row in &delivery.rows {
        put_cell(alloc, &Cell::Int(row.table.into()), &mut text)?;
        put_cell(alloc, &Cell::Int(row.number.into()), &mut text)?;
        put_row(alloc, &row.cells, &mut text)?;
        text.push(b' ')?;
    }
    Ok(text)
}

/// A bad record as a text: its number, a `|` and its cause.
fn bad_text(alloc: Global, bad: BadRecord) -> Result<Vec<u8>, Memory> {
    let mut text = Vec::new(alloc);
    put_cell(alloc, &Cell::Int(bad.number.into()), &mut text)?;
    text.extend_from_slice(bad.cause.text().as_bytes())?;
    Ok(text)
}

/// What the body of a delivery brings.
fn delivery(alloc: Global, feed: u16, body: &[u8]) -> Result<Result<Delivery, BadRecord>, Fail> {
    let served = described(alloc)?;
    let bytes = body_bytes(alloc, body)?;
    if bytes.len() > 16_777_216 {
        return Err(Fail::new("a long body"));
    }
    match read_delivery(alloc, &served, feed, 7, 1_099_511_627_776, &bytes) {
        Ok(delivery) => Ok(Ok(delivery)),
        Err(DeliveryFault::At(bad)) => Ok(Err(bad)),
        Err(DeliveryFault::Memory) => Err(Fail::new("no memory")),
    }
}

/// Whether this is what a body brings, as a text.
fn brings(alloc: Global, feed: u16, body: &[u8], want: &str) -> Result<bool, Fail> {
    let text = match delivery(alloc, feed, body)? {
        Ok(delivery) => delivery_text(alloc, &delivery)?,
        Err(bad) => bad_text(alloc, bad)?,
    };
    Ok(text.as_slice() == want.as_bytes())
}

#[test]
fn a_delivery_has_what_it_was_given(rt: HostRuntime) -> Result<(), Fail> {
    let delivery = delivery(rt.alloc(), 1, b"")?.ok().ok_or("a delivery")?;
    assert!(rt; delivery.feed == 1);
    assert!(rt; delivery.number == 7);
    assert!(rt; delivery.closes == 1_099_511_627_776);
    Ok(())
}

/// Bodies of the feed without a header, and their rows.
static ROWS: [(&str, &str); 7] = [
    ("", ""),
    ("r,3,\"a,b\",5\r\nr,4,c,6\r\n", "0|1|3|a,b|5| 0|2|4|c|6| "),
    ("r,007,,-0\n\nr,8,b,2", "0|1|7||0| 0|2|8|b|2| "),
    (
        "r,0,a,5\nr,1099511627775,a,5\n",
        "0|1|0|a|5| 0|2|1099511627775|a|5| ",
    ),
    (
        "r,1,a,5\nr,2,b,5\nu,c,5,3,\nr,4,d,5\nu,e,5,5,\nu,f,5,6,\n",
        "0|1|1|a|5| 0|2|2|b|5| 1|3|c|5|3|| 0|4|4|d|5| 1|5|e|5|5|| 1|6|f|5|6|| ",
    ),
    ("\u{feff}r,3,a,5\n", "0|1|3|a|5| "),
    ("\"r\",\"3\",\"\"\"\",5\n", "0|1|3|\"|5| "),
];

#[test]
fn bodies_bring_their_rows(rt: HostRuntime) -> Result<(), Fail> {
    for &(body, want) in &ROWS {
        assert!(rt; brings(rt.alloc(), 0, body.as_bytes(), want)?, "of {body}");
    }
    Ok(())
}

/// Bodies of the feed with a header.
static HEADS: [(&str, &str); 8] = [
    ("", ""),
    ("table,t,s,n\ng,3,a,5\n", "2|1|3|a|5| "),
    ("\u{feff}table,t,s,n\ng,3,a,5\n", "2|1|3|a|5| "),
    ("^\ng,3,a,5\ng,4,b,6", "2|1|3|a|5| 2|2|4|b|6| "),
    ("\"\"\ng,3,a,5\n", "2|1|3|a|5| "),
    ("g,3,a,5\n", ""),
    ("table,t,s,n\ntable,t,s,n\n", "1|no_table"),
    ("table,t,s,n\ng,3,a,5\ng,3,a,x\n", "2|bad_int"),
];

#[test]
fn a_header_is_not_counted(rt: HostRuntime) -> Result<(), Fail> {
    for &(body, want) in &HEADS {
        assert!(rt; brings(rt.alloc(), 1, body.as_bytes(), want)?, "of {body}");
    }
    Ok(())
}

/// Records that are bad for one cause or for two, and the cause that is told.
static BAD: [(&str, &str); 38] = [
    ("\"\"", "no_table"),
    ("q,3,a,5", "no_table"),
    ("v,3,a,5", "no_table"),
    ("g,3,a,5", "no_table"),
    ("R,3,a,5", "no_table"),
    (" r,3,a,5", "no_table"),
    ("r", "bad_count"),
    ("r,3", "bad_count"),
    ("r,3,a,5,6", "bad_count"),
    ("r,3,a,5,", "bad_count"),
    ("r,3,^,5", "not_utf8"),
    ("r,3,~a,5", "long_text"),
    ("r,,a,5", "bad_int"),
    ("r,3,a,+5", "bad_int"),
    ("r,3,a, 5", "bad_int"),
    ("r,9223372036854775808,a,5", "bad_int"),
    ("r,-1,a,5", "bad_time"),
    ("r,1099511627776,a,5", "bad_time"),
    ("q,3", "no_table"),
    ("q,3,^,5", "no_table"),
    ("q,3,~a,5", "no_table"),
    ("q,x,a,5", "no_table"),
    ("q,-1,a,5", "no_table"),
    ("r,3,^", "bad_count"),
    ("r,3,~a", "bad_count"),
    ("r,x,a,5,6", "bad_count"),
    ("r,-1,a,5,6", "bad_count"),
    ("r,3,~^,5", "long_text"),
    ("r,3,^,x", "not_utf8"),
    ("r,x,^,5", "bad_int"),
    ("u,^,5,-1,", "not_utf8"),
    ("r,-1,^,5", "bad_time"),
    ("r,3,~a,x", "long_text"),
    ("r,x,~a,5", "bad_int"),
    ("u,~a,5,-1,", "long_text"),
    ("r,-1,~a,5", "bad_time"),
    ("u,a,x,-1,", "bad_int"),
    ("r,-1,a,x", "bad_time"),
];

/// A body of a row and two more records.
fn body_of(alloc: Global, second: &str, third: &str) -> Result<Vec<u8>, Memory> {
    let mut body = Vec::from_slice(alloc, b"r,3,~,5\n")?;
    body.extend_from_slice(second.as_bytes())?;
    body.push(b'\n')?;
    body.extend_from_slice(third.as_bytes())?;
    Ok(body)
}

/// Whether a body of a row and two more records has this bad record.
fn tells(alloc: Global, second: &str, third: &str, number: u32, cause: &str) -> Result<bool, Fail> {
    let body = body_of(alloc, second, third)?;
    match delivery(alloc, 0, &body)? {
        Ok(_) => Ok(false),
        Err(bad) => Ok(bad.number == number && bad.cause.text() == cause),
    }
}

#[test]
fn the_first_cause_of_a_record_is_told(rt: HostRuntime) -> Result<(), Fail> {
    for &(record, cause) in &BAD {
        assert!(rt;
            tells(rt.alloc(), "u,a,5,3,b", record, 3, cause)?,
            "of {record}"
        );
    }
    Ok(())
}

#[test]
fn the_first_bad_record_is_told(rt: HostRuntime) -> Result<(), Fail> {
    for &(first, cause) in &BAD {
        for &(second, _) in &BAD {
            assert!(rt; tells(rt.alloc(), first, second, 2, cause)?, "of {first}");
        }
    }
    Ok(())
}
