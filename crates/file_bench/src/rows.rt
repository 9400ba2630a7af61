//! Rows as bytes and back.

use crate::fault::Fault;
use depot_cell::{Cell, CellFault, Memory, Row, Rows, Ty, read_cell};
use row_codec::{CodecFault, decode_rows, encode_rows};
use std::alloc::Global;
use std::mem;

/// How many rows there are.
const ROWS: usize = 100;

/// The types of the columns. With a text of 19 bytes a row has 36: 8, 20 and 8.
static TYPES: [Ty; 3] = [Ty::Int, Ty::Text, Ty::Int];

static HOST: &[u8] = b"web-042.fra.example";

/// Writes 100 rows as bytes and reads them back, so many times. What was read stays in memory to the
/// end, as it does in a depot.
pub fn code_rows(alloc: Global, rounds: u32) -> Result<(), Fault> {
    let rows = sample_rows(alloc)?;
    for _ in 0..rounds {
        mem::forget(code_once(alloc, &rows)?);
    }
    Ok(())
}

/// The same, but what was read is dropped at once.
pub fn code_and_drop_rows(alloc: Global, rounds: u32) -> Result<(), Fault> {
    let rows = sample_rows(alloc)?;
    for _ in 0..rounds {
        drop(code_once(alloc, &rows)?);
    }
    Ok(())
}

/// Writes the rows as bytes and reads them back.
fn code_once(alloc: Global, rows: &Rows) -> Result<Rows, Fault> {
    let bytes = encode_rows(alloc, rows)?;
    match decode_rows(alloc, &TYPES, bytes.as_slice()) {
        Ok(read) if read.rows().len() == ROWS => Ok(read),
        Ok(_) | Err(CodecFault::At { .. }) => Err(Fault::Broken),
        Err(CodecFault::Memory) => Err(Fault::Memory),
    }
}

/// The rows.
fn sample_rows(alloc: Global) -> Result<Rows, Fault> {
    let mut rows = Rows::new(alloc);
    for number in 0..ROWS {
        let row = sample_row(alloc, number as i64)?;
        match rows.push(row) {
            Ok(()) => {}
            Err(_) => return Err(Fault::Memory),
        }
    }
    Ok(rows)
}

fn sample_row(alloc: Global, number: i64) -> Result<Row, Fault> {
    let mut row = Row::with_capacity(alloc, TYPES.len())?;
    let host = sample_host(alloc)?;
    push_cell(&mut row, Cell::Int(number))?;
    push_cell(&mut row, host)?;
    push_cell(&mut row, Cell::Int(number))?;
    Ok(row)
}

fn push_cell(row: &mut Row, cell: Cell) -> Result<(), Memory> {
    match row.push(cell) {
        Ok(()) => Ok(()),
        Err((_, memory)) => Err(memory),
    }
}

fn sample_host(alloc: Global) -> Result<Cell, Fault> {
    match read_cell(alloc, Ty::Text, HOST) {
        Ok(cell) => Ok(cell),
        Err(CellFault::Memory) => Err(Fault::Memory),
        Err(_) => Err(Fault::Broken),
    }
}
