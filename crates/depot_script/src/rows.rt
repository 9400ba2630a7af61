//! Rows as CSV text. No cell takes memory of its own on its way there.

ghost use Rattle.std.specs.Prelude.{◌≡◌, ◌++◌, ◌∷◌, [], IfOk, OnErr, OnOk, map};
ghost use Rattle.csv.specs.Records.{fields_of, partial_of};
ghost use Rattle.depot_cell.specs.Spelling.{text_of};
ghost use Rattle.depot_script.specs.Texts.{AreFrontOf, rows_text};

use csv::{ByteRecord, WriterBuilder};
use depot_cell::{Cell, Memory, Row, Rows};
use itoa::Buffer;
use std::alloc::Global;

/// The rows as CSV, in order: each one a line that ends with LF, with quotes if CSV needs them.
pub fn rows_text(alloc: Global, rows: &Rows) -> Result<Vec<u8>, Memory>
    ensures exact { IfOk result (λ text. text.items ≡ rows_text rows.now) }
{
    let mut writer = WriterBuilder::new()
        .flexible(true)
        .from_writer(Vec::new(alloc));
    let mut fields = ByteRecord::new(alloc);
    for row in rows.rows() {
        put_cells(row, &mut fields)?;
        if writer.write_byte_record(&fields).is_err() {
            return Err(Memory);
        }
    }
    match writer.into_inner() {
        Ok(text) => Ok(text),
        Err(_) => Err(Memory),
    }
}

/// Makes the fields those of a row's cells, whatever they were.
fn put_cells(row: &Row, fields: &mut ByteRecord) -> Result<(), Memory>
    ensures exact { OnOk result (fields_of fields.new ≡ map text_of row.now) }
    ensures whole { OnOk result (partial_of fields.new ≡ []) }
    ensures err { OnErr result (AreFrontOf row.now (fields_of fields.new)) }
{
    fields.clear();
    for cell in row.cells() {
        push_cell(cell, fields)?;
    }
    Ok(())
}

/// Ends the open field with the text of a cell.
fn push_cell(cell: &Cell, fields: &mut ByteRecord) -> Result<(), Memory>
    ensures gained { OnOk result (fields_of fields.new
        ≡ fields_of fields.old ++ ((partial_of fields.old ++ text_of cell.now) ∷ [])) }
    ensures whole { OnOk result (partial_of fields.new ≡ []) }
    ensures kept { OnErr result (fields_of fields.new ≡ fields_of fields.old) }
{
    match cell {
        Cell::Int(number) => fields.push_field(Buffer::new().format(*number).as_bytes())?,
        Cell::Text(text) => fields.push_field(text.as_bytes())?,
    }
    Ok(())
}
