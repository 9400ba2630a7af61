//! Cells, their texts and orders, and rows.

use crate::texts::rows_text;
use depot_cell::{
    Cell, CellFault, Memory, Op, Row, Rows, Ty, cell_text, copy_cell, copy_row, holds, read_cell,
    read_number,
};
use std::alloc::Global;
use std::test::Fail;

#[test]
fn numbers_are_read_or_refused(rt: HostRuntime) {
    for &(text, number) in &[
        ("0", Some(0)),
        ("007", Some(7)),
        ("-0", None),
        ("-42", None),
        ("9223372036854775807", Some(9_223_372_036_854_775_807)),
        ("-9223372036854775808", None),
        ("9223372036854775808", Some(9_223_372_036_854_775_808)),
        ("-9223372036854775809", None),
        ("00000000000000000007", None),
        ("+5", None),
        (" 5", None),
        ("", None),
    ] {
        assert!(rt; read_number(text.as_bytes()) == number, "at {text}");
    }
}

/// The int that a text says.
fn int_of(alloc: Global, text: &str) -> Result<i64, CellFault> {
    match read_cell(alloc, Ty::Int, text.as_bytes())? {
        Cell::Int(int) => Ok(int),
        Cell::Text(_) => Err(CellFault::NotUtf8),
    }
}

#[test]
fn ints_are_read_or_refused(rt: HostRuntime) {
    let alloc = rt.alloc();
    for &(text, int) in &[
        ("0", Ok(0)),
        ("007", Ok(7)),
        ("-0", Ok(0)),
        ("-42", Ok(-42)),
        ("9223372036854775807", Ok(9_223_372_036_854_775_807)),
        ("-9223372036854775808", Ok(-9_223_372_036_854_775_808)),
        ("9223372036854775808", Err(CellFault::BadInt)),
        ("-9223372036854775809", Err(CellFault::BadInt)),
        ("00000000000000000007", Err(CellFault::BadInt)),
        ("+5", Err(CellFault::BadInt)),
        (" 5", Err(CellFault::BadInt)),
        ("", Err(CellFault::BadInt)),
    ] {
        assert!(rt; int_of(alloc, text) == int, "at {text}");
    }
}

/// What the cell of a text is spelled as.
fn spelled(alloc: Global, ty: Ty, text: &[u8]) -> Result<Vec<u8>, CellFault> {
    Ok(cell_text(alloc, &read_cell(alloc, ty, text)?)?)
}

#[test]
fn texts_are_read_and_spelled(rt: HostRuntime) -> Result<(), Fail> {
    let alloc = rt.alloc();
    for &(ty, text, want) in &[
        (Ty::Int, "007", "7"),
        (Ty::Int, "-0", "0"),
        (Ty::Int, "-9223372036854775808", "-9223372036854775808"),
        (Ty::Text, "007", "007"),
        (Ty::Text, "", ""),
        (Ty::Text, "é", "é"),
    ] {
        let text = spelled(alloc, ty, text.as_bytes())?;
        assert!(rt; text.as_slice() == want.as_bytes(), "at {want}");
    }
    Ok(())
}

/// A text with 254 times the letter a, and then an end.
fn long_text(alloc: Global, end: &[u8]) -> Result<Vec<u8>, Memory> {
    let mut text = vec![in alloc; b'a'; 254]?;
    text.extend_from_slice(end)?;
    Ok(text)
}

/// How many bytes the cell of a text has.
fn spelled_len(alloc: Global, text: &[u8]) -> Result<usize, CellFault> {
    Ok(spelled(alloc, Ty::Text, text)?.len())
}

#[test]
fn a_text_has_at_most_255_bytes(rt: HostRuntime) -> Result<(), Fail> {
    let alloc = rt.alloc();
    for &(end, want) in &[
        (b"a".as_slice(), Ok(255)),
        (b"\xff".as_slice(), Err(CellFault::NotUtf8)),
        (b"\xffa".as_slice(), Err(CellFault::LongText)),
    ] {
        let text = long_text(alloc, end)?;
        assert!(rt; spelled_len(alloc, &text) == want, "at {end:?}");
    }
    Ok(())
}

/// Two ints and four texts, each less than the next.
fn ordered_cells(alloc: Global) -> Result<Row, Fail> {
    let mut cells = Row::with_capacity(alloc, 1)?;
    cells.push(Cell::Int(-1))?;
    cells.push(Cell::Int(2))?;
    for text in &["", "B", "a", "aa"] {
        cells.push(read_cell(alloc, Ty::Text, text.as_bytes())?)?;
    }
    Ok(cells)
}

/// Whether a cell is less than another, the same, and greater.
fn order_of(left: &Cell, right: &Cell) -> (bool, bool, bool) {
    (
        holds(Op::Lt, left, right),
        holds(Op::Eq, left, right),
        holds(Op::Gt, left, right),
    )
}

#[test]
fn cells_are_ordered(rt: HostRuntime) -> Result<(), Fail> {
    let row = ordered_cells(rt.alloc())?;
    for (i, lower) in row.cells().iter().enumerate() {
        for (j, upper) in row.cells().iter().enumerate() {
            assert!(rt;
                order_of(lower, upper) == (i < j, i == j, i > j),
                "at {i} and {j}"
            );
        }
    }
    Ok(())
}

#[test]
fn cells_are_copied(rt: HostRuntime) -> Result<(), Fail> {
    let alloc = rt.alloc();
    let row = ordered_cells(alloc)?;
    for cell in row.cells() {
        assert!(rt; copy_cell(alloc, cell)? == *cell, "at {cell:?}");
    }
    Ok(())
}

#[test]
fn rows_are_built_and_copied(rt: HostRuntime) -> Result<(), Fail> {
    let alloc = rt.alloc();
    let row = ordered_cells(alloc)?;
    let mut rows = Rows::new(alloc);
    rows.push(Row::new(alloc))?;
    rows.push(copy_row(alloc, &row)?)?;
    let text = rows_text(alloc, rows.rows())?;
    assert!(rt; text.as_slice() == b" -1|2||B|a|aa| ".as_slice());
    Ok(())
}

/// Whether an operator holds of -5, 4 and 5, each beside 4.
fn held(op: Op) -> (bool, bool, bool) {
    let four = Cell::Int(4);
    (
        holds(op, &Cell::Int(-5), &four),
        holds(op, &four, &four),
        holds(op, &Cell::Int(5), &four),
    )
}

#[test]
fn ints_are_compared(rt: HostRuntime) {
    for &(op, want) in &[
        (Op::Eq, (false, true, false)),
        (Op::Ne, (true, false, true)),
        (Op::Lt, (true, false, false)),
        (Op::Le, (true, true, false)),
        (Op::Gt, (false, false, true)),
        (Op::Ge, (false, true, true)),
    ] {
        assert!(rt; held(op) == want, "at {op:?}");
    }
}
