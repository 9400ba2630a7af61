//! Indexes: which rows are found by a key, and in which order.

use crate::cases::Given;
use depot_cell::{Cell, Memory, Row};
use row_index::{KeyCells, Members, RowIndex, index_rows};
use std::alloc::Global;
use std::test::Fail;

/// Puts the ticks of some rows after a text, each with a blank after it.
fn put_ticks(alloc: Global, rows: &[&Row], text: &mut Vec<u8>) -> Result<(), Memory> {
    for row in rows {
        if let Some(Cell::Int(tick)) = row.cells().first() {
            text.extend_from_slice(format!(in alloc; "{tick} ")?.as_bytes())?;
        }
    }
    Ok(())
}

/// Puts the ticks of the rows that stand by a key after a text.
fn put_found(
    alloc: Global,
    index: &RowIndex<'_>,
    key: &KeyCells<'_>,
    text: &mut Vec<u8>,
) -> Result<(), Memory> {
    match index.get(key) {
        Some(members) => put_ticks(alloc, members.rows(), text),
        None => Ok(()),
    }
}

/// The left rows whose a is a right row's b, for each right row: their ticks, and a `/`.
fn found(alloc: Global, given: &Given) -> Result<Vec<u8>, Memory> {
    let index = index_rows(alloc, &[1], &given.left)?;
    let mut key = KeyCells::new(alloc);
    let mut text = Vec::new(alloc);
    for part in &given.right {
        for row in part.rows() {
            key.fill(&[3], row)?;
            put_found(alloc, &index, &key, &mut text)?;
            text.push(b'/')?;
        }
    }
    Ok(text)
}

#[test]
fn rows_are_found_by_their_key(rt: HostRuntime) -> Result<(), Fail> {
    let alloc = rt.alloc();
    let view = "join l 0 0 r 0 0 on a=b";
    for &(body, want) in &[
        ("", ""),
        ("r,1,x,0,a\n", "/"),
        ("l,1,a,0,\n", ""),
        (
            "l,1,a,0,b\nl,2,b,0,a\nl,13,a,0,\nl,14,ab,0,\nr,3,x,0,a\nr,4,x,0,\nr,35,x,0,ab\n",
            "1 13 //14 /",
        ),
    ] {
        let given = Given::read(alloc, 10, view, body.as_bytes())?;
        assert!(rt;
            found(alloc, &given)?.as_slice() == want.as_bytes(),
            "at {body}"
        );
    }
    Ok(())
}

/// The rows of one key, of which there are two.
fn pair_text(alloc: Global, first: &Row, second: &Row) -> Result<Vec<u8>, Memory> {
    let mut members = Members::of_one(alloc, first)?;
    members.push(second)?;
    let mut text = Vec::new(alloc);
    put_ticks(alloc, members.rows(), &mut text)?;
    Ok(text)
}

#[test]
fn members_stand_in_order(rt: HostRuntime) -> Result<(), Fail> {
    let alloc = rt.alloc();
    let mut first = Row::new(alloc);
    first.push(Cell::Int(7))?;
    let mut second = Row::new(alloc);
    second.push(Cell::Int(-7))?;
    assert!(rt; pair_text(alloc, &first, &second)?.as_slice() == b"7 -7 ".as_slice());
    Ok(())
}

/// How many cells a key has that is filled twice: by a column that the row does not have too, and
/// then by fewer.
fn key_sizes(alloc: Global, row: &Row) -> Result<(usize, usize), Memory> {
    let mut key = KeyCells::new(alloc);
    key.fill(&[1, 0, 2], row)?;
    let first = key.cells().len();
    key.fill(&[1], row)?;
    Ok((first, key.cells().len()))
}

#[test]
fn a_key_has_the_cells_of_the_last_row(rt: HostRuntime) -> Result<(), Fail> {
    let alloc = rt.alloc();
    let mut row = Row::new(alloc);
    row.push(Cell::Int(7))?;
    row.push(Cell::Int(8))?;
    assert!(rt; key_sizes(alloc, &row)? == (2, 1));
    Ok(())
}
