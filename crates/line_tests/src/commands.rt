//! Session lines: what each asks for, its first fault and the body after it; and the replies.

use depot_cell::{Cell, Memory, Row, Rows};
use depot_script::{
    BodySize, answer_text, body_size, drained_text, loaded_text, part_text, read_command,
    reclaimed_text, refused_text, repeat_text, rows_text,
};
use desc_lines::words_of;
use desc_types::{AcceptedDesc, Key};
use std::alloc::Global;
use std::test::Fail;
use table_desc::Draft;
use view_meaning::{Loaded, Mark, PinItem};

/// Two feeds, f and g, and two tables, t and u.
fn described(alloc: Global) -> Result<AcceptedDesc, Fail> {
    let draft = Draft::new(alloc)
        .with_line(alloc, b"feed f")?
        .with_line(alloc, b"feed g")?
        .with_line(alloc, b"raw t feed f width 10 time at cols at:int")?
        .with_line(alloc, b"raw u feed g width 1 time at cols at:int")?;
    match draft.into_read() {
        Ok(accepted) => Ok(accepted),
        Err(bad) => Err(Fail::new(bad.cause.text())),
    }
}

/// What a line asks for, as `Debug` writes it, or the word of its first fault.
fn answer(alloc: Global, served: &AcceptedDesc, line: &[u8]) -> Result<String, Memory> {
    let words = words_of(alloc, line)?;
    match read_command(alloc, served, &words)? {
        Ok(command) => Ok(format!(in alloc; "{command:?}")?),
        Err(fault) => Ok(String::from_str(alloc, fault.text())?),
    }
}

/// Expects that each line has this answer.
fn expect_answers(alloc: Global, lines: &[(&'static str, &'static str)]) -> Result<(), Fail> {
    let served = described(alloc)?;
    for &(line, want) in lines {
        if answer(alloc, &served, line.as_bytes())?.as_str() != want {
            return Err(Fail::new(line));
        }
    }
    Ok(())
}

/// Lines that ask for something, and what.
static COMMANDS: [(&str, &str); 19] = [
    ("", "Nothing"),
    (" \t", "Nothing"),
    ("# drain", "Nothing"),
    ("\t #deliver f 0 0 5", "Nothing"),
    ("drain", "Drain"),
    (" drain\t", "Drain"),
    ("reclaim", "Reclaim"),
    ("end", "End"),
    ("aside f", "Aside { feed: 0 }"),
    ("aside g", "Aside { feed: 1 }"),
    (
        "deliver g 1 2 3",
        "Deliver { feed: 1, number: 1, closes: 2, size: 3 }",
    ),
    (
        "deliver\tf  0000000000000000001 00 0",
        "Deliver { feed: 0, number: 1, closes: 0, size: 0 }",
    ),
    // the greatest numbers
    (
        "deliver f 4294967295 1099511627776 16777216",
        "Deliver { feed: 0, number: 4294967295, closes: 1099511627776, size: 16777216 }",
    ),
    (
        "query t 0 10",
        "Query(Request { items: [Item { table: 0, from: 0, to: 10, level: Open }] })",
    ),
    (
        "query u 1099511627776 1099511627776 closed",
        "Query(Request { items: [Item { table: 1, from: 1099511627776, to: 1099511627776, \
            level: Closed }] })",
    ),
    (
        "query t 05 6 complete ; u 7 8 ; t 5 6",
        "Query(Request { items: [Item { table: 0, from: 5, to: 6, level: Complete }, \
            Item { table: 1, from: 7, to: 8, level: Open }, \
            Item { table: 0, from: 5, to: 6, level: Open }] })",
    ),
    // whether an item ends before it begins, its request says
    (
        "query t 9 8",
        "Query(Request { items: [Item { table: 0, from: 9, to: 8, level: Open }] })",
    ),
    (
        "marks u 0 10",
        "Marks(Request { items: [Item { table: 1, from: 0, to: 10, level: Open }] })",
    ),
    (
        "marks t 9 8",
        "Marks(Request { items: [Item { table: 0, from: 9, to: 8, level: Open }] })",
    ),
];

#[test]
fn a_line_asks_for_one_thing(rt: HostRuntime) -> Result<(), Fail> {
    expect_answers(rt.alloc(), &COMMANDS)
}

/// Lines with one fault.
static FAULTS: [(&str, &str); 57] = [
    ("extend t 0 1", "bad_word"),
    ("ask t 0 1", "bad_word"),
    ("priority t 0 1", "bad_word"),
    ("fetch", "bad_word"),
    ("Drain", "bad_word"),
    ("drain\r", "bad_word"),
    ("drains", "bad_word"),
    ("go", "bad_word"),
    (";", "bad_word"),
    ("query t 0 1 open", "bad_word"),
    ("query t 0 1 Closed", "bad_word"),
    ("query t 0 1 closed\r", "bad_word"),
    ("query t 0 1 0", "bad_word"),
    ("query t 0 1 closed ; t 0 1 open ; t 0 1", "bad_word"),
    ("drain x", "bad_count"),
    ("drain #", "bad_count"),
    ("drain ;", "bad_count"),
    ("reclaim now", "bad_count"),
    ("end end", "bad_count"),
    ("aside", "bad_count"),
    ("aside f g", "bad_count"),
    ("deliver", "bad_count"),
    ("deliver f 0 0", "bad_count"),
    ("deliver f 0 0 0 0", "bad_count"),
    ("marks", "bad_count"),
    ("marks t 0", "bad_count"),
    ("marks t 0 1 closed", "bad_count"),
    ("marks t 0 1 ; t 0 1", "bad_count"),
    ("query", "bad_count"),
    ("query ;", "bad_count"),
    ("query t 0", "bad_count"),
    ("query t 0 1 closed complete", "bad_count"),
    ("query t 0 1 ;", "bad_count"),
    ("query ; t 0 1", "bad_count"),
    ("query t 0 1 ; ; t 0 1", "bad_count"),
    ("query t 0 1;t 0 1", "bad_count"),
    ("deliver f 00000000000000000001 0 0", "bad_number"),
    ("deliver f 4294967296 0 0", "bad_number"),
    ("deliver f 0 1099511627777 0", "bad_number"),
    ("deliver f 0 0 16777217", "bad_number"),
    ("deliver f 0 0 9999999999999999999", "bad_number"),
    ("deliver f -1 0 0", "bad_number"),
    ("deliver f 0 +1 0", "bad_number"),
    ("deliver f 0 0 0x1", "bad_number"),
    ("deliver f 0 0 0\r", "bad_number"),
    ("query t 0 1099511627777", "bad_number"),
    ("query t 1099511627777 0", "bad_number"),
    ("query t 0 1;", "bad_number"),
    ("query t 0 1 ; t 0 x", "bad_number"),
    ("marks t 0 00000000000000000001", "bad_number"),
    ("deliver t 0 0 0", "no_feed"),
    ("aside t", "no_feed"),
    ("aside F", "no_feed"),
    ("query f 0 1", "no_table"),
    ("query ;t 0 1", "no_table"),
    ("query t 0 1 ; u 0 1 ; v 0 1", "no_table"),
    ("marks T 0 1", "no_table"),
];

#[test]
fn a_line_may_have_a_fault(rt: HostRuntime) -> Result<(), Fail> {
    expect_answers(rt.alloc(), &FAULTS)
}

/// Lines with several faults, and the first of them.
static SEVERAL: [(&str, &str); 26] = [
    // the first word before all else
    ("extend f x", "bad_word"),
    ("Deliver z x 0", "bad_word"),
    // the count of words before a level
    ("query t 0 1 open ; t 0", "bad_count"),
    ("query t 0 1 open ;", "bad_count"),
    ("query t 0 ; t 0 1 open", "bad_count"),
    // the count of words before numbers
    ("deliver f x 0", "bad_count"),
    ("marks t x", "bad_count"),
    ("query t x 1 ; t 0", "bad_count"),
    ("query t x 1 ;", "bad_count"),
    // the count of words before names
    ("deliver z 0 0", "bad_count"),
    ("aside z z", "bad_count"),
    ("marks z 0", "bad_count"),
    ("query z 0 1 ; t 0", "bad_count"),
    ("query z 0", "bad_count"),
    // levels before numbers
    ("query t x 1 open", "bad_word"),
    ("query t x 1 ; t 0 1 open", "bad_word"),
    ("query t 0 1 open ; t 0 x", "bad_word"),
    // levels before names
    ("query z 0 1 open", "bad_word"),
    ("query z 0 1 ; t 0 1 open", "bad_word"),
    // numbers before names
    ("deliver z 4294967296 0 0", "bad_number"),
    ("deliver z 0 1099511627777 0", "bad_number"),
    ("deliver z 0 0 16777217", "bad_number"),
    ("marks z 0 x", "bad_number"),
    ("query z x 1", "bad_number"),
    ("query z 0 1 ; t 0 x", "bad_number"),
    ("query z x 1 open ; t", "bad_count"),
];

#[test]
fn the_first_fault_of_a_line_is_told(rt: HostRuntime) -> Result<(), Fail> {
    expect_answers(rt.alloc(), &SEVERAL)
}

/// Lines with bytes that are no UTF-8.
static BYTES: [(&[u8], &str); 7] = [
    (b"#\xff", "Nothing"),
    (b"\xff", "bad_word"),
    (b"drain\xff", "bad_word"),
    (b"drain \xff", "bad_count"),
    (b"query t 0 1 \xff", "bad_word"),
    (b"aside \xff", "no_feed"),
    (b"marks t\xff 0 1", "no_table"),
];

#[test]
fn a_word_may_be_any_bytes(rt: HostRuntime) -> Result<(), Fail> {
    let served = described(rt.alloc())?;
    for &(line, want) in &BYTES {
        if answer(rt.alloc(), &served, line)?.as_str() != want {
            return Err(Fail::new(want));
        }
    }
    Ok(())
}

/// The body after a line.
fn body_of(alloc: Global, line: &str) -> Result<BodySize, Memory> {
    let words = words_of(alloc, line.as_bytes())?;
    Ok(body_size(&words))
}

/// Lines and the bodies after them.
static BODIES: [(&str, BodySize); 18] = [
    ("deliver f 0 0 5", BodySize::Body(5)),
    (" deliver\tf 0 0 0005 ", BodySize::Body(5)),
    ("deliver f 0 0 0", BodySize::Body(0)),
    ("deliver f 0 0 16777216", BodySize::Body(16_777_216)),
    ("deliver f 0 0 16777217", BodySize::TooBig),
    ("deliver f 0 0 9999999999999999999", BodySize::TooBig),
    // whatever else is wrong
    ("deliver z x y 5", BodySize::Body(5)),
    ("deliver z x y 16777217", BodySize::TooBig),
    ("deliver ; ; ; 7", BodySize::Body(7)),
    // no number, no five words, or no delivery
    ("deliver f 0 0 x", BodySize::NoBody),
    ("deliver f 0 0 5\r", BodySize::NoBody),
    ("deliver f 0 0 00000000000000000005", BodySize::NoBody),
    ("deliver f 0 5", BodySize::NoBody),
    ("deliver f 0 0 5 5", BodySize::NoBody),
    ("Deliver f 0 0 5", BodySize::NoBody),
    ("query t 0 1 5", BodySize::NoBody),
    ("#deliver f 0 0 5", BodySize::NoBody),
    ("", BodySize::NoBody),
];

#[test]
fn a_body_follows_a_delivery_whatever_else_is_wrong(rt: HostRuntime) -> Result<(), Fail> {
    for &(line, want) in &BODIES {
        if body_of(rt.alloc(), line)? != want {
            return Err(Fail::new(line));
        }
    }
    Ok(())
}

/// A reply of each kind but rows, one after another.
fn replies(alloc: Global) -> Result<Vec<u8>, Memory> {
    let loaded = Loaded {
        entry: 7,
        kept: 2,
        aside: 1,
    };
    let item = PinItem {
        key: Key { table: 0, part: 7 },
        version: 1,
        upto: 2,
        mark: Mark::Complete,
    };
    let mut text = loaded_text(alloc, b"f", u32::MAX, &loaded)?;
    text.extend_from_slice(&repeat_text(alloc, b"f", 0)?)?;
    text.extend_from_slice(&refused_text(alloc, u64::MAX, None, "bad_word")?)?;
    text.extend_from_slice(&refused_text(alloc, 3, Some(12), "bad_int")?)?;
    text.extend_from_slice(&drained_text(alloc, 9)?)?;
    text.extend_from_slice(&reclaimed_text(alloc, 4, 11)?)?;
    text.extend_from_slice(&answer_text(alloc, 9, 1)?)?;
    text.extend_from_slice(&part_text(alloc, b"t", &item, 0)?)?;
    Ok(text)
}

#[test]
fn each_reply_is_one_line(rt: HostRuntime) -> Result<(), Fail> {
    let want = b"loaded f 4294967295 entry 7 kept 2 aside 1\n\
        repeat f 0\n\
        refused 18446744073709551615 bad_word\n\
        refused 3 record 12 bad_int\n\
        drained at 9\n\
        reclaimed 4 at 11\n\
        answer at 9 parts 1\n\
        part t 7 version 1 upto 2 mark complete rows 0\n";
    assert!(rt; replies(rt.alloc())?.as_slice() == want.as_slice());
    Ok(())
}

/// Two rows as CSV: one of an int, and one of two.
fn two_rows(alloc: Global) -> Result<Vec<u8>, Fail> {
    let mut short = Row::new(alloc);
    short.push(Cell::Int(-3))?;
    let mut long = Row::new(alloc);
    long.push(Cell::Int(4))?;
    long.push(Cell::Int(5))?;
    let mut rows = Rows::new(alloc);
    rows.push(short)?;
    rows.push(long)?;
    Ok(rows_text(alloc, &rows)?)
}

#[test]
fn rows_may_have_different_lengths(rt: HostRuntime) -> Result<(), Fail> {
    assert!(rt; two_rows(rt.alloc())?.as_slice() == b"-3\n4,5\n".as_slice());
    Ok(())
}
