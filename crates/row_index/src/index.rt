//! The index: each different key of some rows, with the rows that have it.

ghost use Rattle.std.specs.Prelude.{◌≡◌, ◌∷◌, [], IfOk, OnOk, fold};
ghost use Rattle.indexmap.specs.IndexMap.{insert_entry};
ghost use Rattle.depot_cell.specs.Cells.{same_cells};
ghost use Rattle.view_meaning.specs.Parts.{rows_in};
ghost use Rattle.row_index.specs.Index.{keyed, with_row};

use crate::key::KeyCells;
use crate::members::Members;
use depot_cell::{Memory, Row};
use indexmap::IndexMap;
use std::alloc::Global;
use std::mem::replace;
use view_meaning::Part;

/// The keys of some rows, in order of first appearance, each with the rows that have it.
pub type RowIndex<'a> = IndexMap<KeyCells<'a>, Members<'a>>;

/// The rows of some parts by their cells in these columns. A row of a key that is known takes
/// memory only for its place among the rows of that key.
pub fn index_rows<'a, P: Part>(
    alloc: Global,
    columns: &[u16],
    parts: &'a [P],
) -> Result<RowIndex<'a>, Memory>
    ensures exact { IfOk result (λ index.
        index.entries ≡ keyed columns.now (rows_in P.rows parts.now)) }
{
    let mut index = IndexMap::new(alloc);
    let mut key = KeyCells::new(alloc);
    for part in parts {
        add_rows(alloc, columns, part, &mut key, &mut index)?;
    }
    Ok(index)
}

/// Adds each row of a part by its key. `key` is filled for each of them.
fn add_rows<'a, P: Part>(
    alloc: Global,
    columns: &[u16],
    part: &'a P,
    key: &mut KeyCells<'a>,
    index: &mut RowIndex<'a>,
) -> Result<(), Memory>
    ensures ok { OnOk result (index.new.entries
        ≡ fold (with_row columns.now) index.old.entries (P.rows part.now)) }
{
    for place in 0..part.len() {
        add_row(alloc, columns, part.row(place), key, index)?;
    }
    Ok(())
}

/// Adds a row by its key, which `key` is filled with.
fn add_row<'a>(
    alloc: Global,
    columns: &[u16],
    row: &'a Row,
    key: &mut KeyCells<'a>,
    index: &mut RowIndex<'a>,
) -> Result<(), Memory>
    ensures ok { OnOk result (index.new.entries
        ≡ with_row columns.now index.old.entries row.now) }
{
    key.fill(columns, row)?;
    match index.get_index_of(&*key) {
        Some(place) => index[place].push(row),
        None => add_key(alloc, key, row, index),
    }
}

/// Adds a new key with its first row. It is moved out of `key`.
fn add_key<'a>(
    alloc: Global,
    key: &mut KeyCells<'a>,
    row: &'a Row,
    index: &mut RowIndex<'a>,
) -> Result<(), Memory>
    ensures ok { OnOk result (index.new.entries
        ≡ insert_entry same_cells index.old.entries key.old (row.now ∷ [])) }
{
    let members = Members::of_one(alloc, row)?;
    match index.insert(replace(key, KeyCells::new(alloc)), members) {
        Ok(_) => Ok(()),
        Err(_) => Err(Memory),
    }
}
