//! What the tests have in common.

use depot_cell::{Row, Ty, read_cell};
use std::alloc::{AllocError, Global};
use std::test::Fail;

/// The first so many of the bytes, with one of them replaced.
pub fn damaged(
    alloc: Global,
    bytes: &[u8],
    len: usize,
    at: usize,
    byte: u8,
) -> Result<Vec<u8>, AllocError> {
    let mut damaged = Vec::new(alloc);
    for (place, old) in bytes.iter().enumerate() {
        if place < len {
            damaged.push(if place == at { byte } else { *old })?;
        }
    }
    Ok(damaged)
}

/// The row whose cells have these types and texts.
pub fn row_of(alloc: Global, cells: &[(Ty, &[u8])]) -> Result<Row, Fail> {
    let mut row = Row::new(alloc);
    for &(ty, text) in cells {
        row.push(read_cell(alloc, ty, text)?)?;
    }
    Ok(row)
}
