//! Rows as texts, so that a test can compare many cells at once.

use depot_cell::{Cell, Memory, Row, cell_text};
use std::alloc::Global;

/// Puts a cell at the end of a text, and a `|` after it.
pub fn put_cell(alloc: Global, cell: &Cell, text: &mut Vec<u8>) -> Result<(), Memory> {
    text.extend_from_slice(&cell_text(alloc, cell)?)?;
    text.push(b'|')?;
    Ok(())
}

/// Puts the cells of a row at the end of a text, each with a `|` after it.
pub fn put_row(alloc: Global, row: &Row, text: &mut Vec<u8>) -> Result<(), Memory> {
    for cell in row.cells() {
        put_cell(alloc, cell, text)?;
    }
    Ok(())
}

/// Rows as a text: a `|` after each cell, and a blank after each row.
pub fn rows_text(alloc: Global, rows: &[Row]) -> Result<Vec<u8>, Memory> {
    let mut text = Vec::new(alloc);
    for row in rows {
        put_row(alloc, row, &mut text)?;
        text.push(b' ')?;
    }
    Ok(text)
}
