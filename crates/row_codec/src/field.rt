//! Numbers, cells and rows at the front of bytes.
//!
//! Each call that takes something answers it with the bytes after it.

ghost use Rattle.std.specs.Prelude.{◌≡◌, ◌++◌, map, OnOk};
ghost use Rattle.row_codec.specs.Answers.{Finds, Takes};
ghost use Rattle.row_codec.specs.Reading.{cell_at, checked, int_at, is_tick, number_at, row_at};
ghost use Rattle.row_codec.specs.Reading.{text_at, wanted_of};
ghost use Rattle.row_codec.specs.Spelling.{cell_bytes, number_bytes, row_bytes};

use crate::fault::{Cut, Short};
use byteorder::{BigEndian, ByteOrder};
use depot_cell::{Cell, CellFault, Memory, Row, Ty, read_cell};
use desc_types::END;
use std::alloc::Global;

/// What has to stand at some place of a row.
#[derive(Clone, Copy, Debug, PartialEq, Eq)]
pub(crate) enum Wanted {
    Int,
    Text,
    /// An int from 0 up to, but not including, [`END`].
    Tick,
}

#[tactic(auto, unfolding(crate::specs::Reading::number_at))]
pub(crate) fn take_u16(bytes: &[u8]) -> Result<(u16, &[u8]), Short>
    ensures exact { Finds (λ taken. (taken.0, taken.1.now)) result (number_at 2 bytes.now) }
{
    if bytes.len() < 2 {
        return Err(Short(bytes.len()));
    }
    Ok((BigEndian::read_u16(bytes), &bytes[2..]))
}

#[tactic(auto, unfolding(crate::specs::Reading::number_at))]
pub(crate) fn take_u32(bytes: &[u8]) -> Result<(u32, &[u8]), Short>
    ensures exact { Finds (λ taken. (taken.0, taken.1.now)) result (number_at 4 bytes.now) }
{
    if bytes.len() < 4 {
        return Err(Short(bytes.len()));
    }
    Ok((BigEndian::read_u32(bytes), &bytes[4..]))
}

#[tactic(auto, unfolding(crate::specs::Reading::number_at))]
pub(crate) fn take_u64(bytes: &[u8]) -> Result<(u64, &[u8]), Short>
    ensures exact { Finds (λ taken. (taken.0, taken.1.now)) result (number_at 8 bytes.now) }
{
    if bytes.len() < 8 {
        return Err(Short(bytes.len()));
    }
    Ok((BigEndian::read_u64(bytes), &bytes[8..]))
}

#[tactic(auto, unfolding(crate::specs::Reading::int_at))]
fn take_int(bytes: &[u8]) -> Result<(Cell, &[u8]), Short>
    ensures exact { Finds (λ taken. (taken.0, taken.1.now)) result (int_at bytes.now) }
{
    let (number, rest) = take_u64(bytes)?;
    Ok((Cell::Int(number.cast_signed()), rest))
}

/// A tick. One out of time cannot be read.
#[tactic(auto, unfolding(crate::specs::Reading::int_at))]
fn take_tick(bytes: &[u8]) -> Result<(Cell, &[u8]), Short>
    ensures exact { Finds (λ taken. (taken.0, taken.1.now)) result (checked is_tick int_at bytes.now) }
{
    let (number, rest) = take_u64(bytes)?;
    if number >= END {
        return Err(Short(bytes.len()));
    }
    Ok((Cell::Int(number.cast_signed()), rest))
}

#[tactic(auto, unfolding(crate::specs::Reading::text_at))]
fn take_text(alloc: Global, bytes: &[u8]) -> Result<(Cell, &[u8]), Cut>
    ensures exact { Takes (λ taken. (taken.0, taken.1.now)) result (text_at bytes.now) }
{
    match bytes {
        [] => Err(Cut::Left(0)),
        [size, rest @ ..] => {
            let size = usize::from(*size);
            if rest.len() < size {
                return Err(Cut::Left(bytes.len()));
            }
            let (text, rest) = rest.split_at(size);
            match read_cell(alloc, Ty::Text, text) {
                Ok(cell) => Ok((cell, rest)),
                Err(CellFault::Memory) => Err(Cut::Memory),
                Err(CellFault::NotUtf8 | CellFault::LongText | CellFault::BadInt) => {
                    Err(Cut::Left(bytes.len()))
                }
            }
        }
    }
}

pub(crate) fn take_cell(alloc: Global, wanted: Wanted, bytes: &[u8]) -> Result<(Cell, &[u8]), Cut>
    ensures exact { Takes (λ taken. (taken.0, taken.1.now)) result (cell_at wanted bytes.now) }
{
    match wanted {
        Wanted::Int => Ok(take_int(bytes)?),
        Wanted::Text => take_text(alloc, bytes),
        Wanted::Tick => Ok(take_tick(bytes)?),
    }
}

/// What a column of this type wants.
pub(crate) fn wanted_of(ty: Ty) -> Wanted
    ensures exact { result ≡ wanted_of ty }
{
    match ty {
        Ty::Int => Wanted::Int,
        Ty::Text => Wanted::Text,
    }
}

/// A row with a cell of each type.
pub(crate) fn take_row<'a>(
    alloc: Global,
    types: &[Ty],
    bytes: &'a [u8],
) -> Result<(Row, &'a [u8]), Cut>
    ensures exact { Takes (λ taken. (taken.0, taken.1.now)) result
        (row_at (map wanted_of types.now) bytes.now) }
{
    let mut row = Row::with_capacity(alloc, types.len())?;
    let mut rest = bytes;
    for ty in types {
        let (cell, after) = take_cell(alloc, wanted_of(*ty), rest)?;
        match row.push(cell) {
            Ok(()) => rest = after,
            Err(_) => return Err(Cut::Memory),
        }
    }
    Ok((row, rest))
}

pub(crate) fn put(out: &mut Vec<u8>, bytes: &[u8]) -> Result<(), Memory>
    ensures ok { OnOk result (out.new.items ≡ out.old.items ++ bytes.now) }
{
    out.extend_from_slice(bytes)?;
    Ok(())
}

#[tactic(auto, unfolding(crate::specs::Spelling::number_bytes))]
pub(crate) fn put_u16(out: &mut Vec<u8>, number: u16) -> Result<(), Memory>
    ensures ok { OnOk result (out.new.items ≡ out.old.items ++ number_bytes 2 number) }
{
    put(out, &number.to_be_bytes())
}

#[tactic(auto, unfolding(crate::specs::Spelling::number_bytes))]
pub(crate) fn put_u32(out: &mut Vec<u8>, number: u32) -> Result<(), Memory>
    ensures ok { OnOk result (out.new.items ≡ out.old.items ++ number_bytes 4 number) }
{
    put(out, &number.to_be_bytes())
}

#[tactic(auto, unfolding(crate::specs::Spelling::number_bytes))]
pub(crate) fn put_u64(out: &mut Vec<u8>, number: u64) -> Result<(), Memory>
    ensures ok { OnOk result (out.new.items ≡ out.old.items ++ number_bytes 8 number) }
{
    put(out, &number.to_be_bytes())
}

fn put_cell(out: &mut Vec<u8>, cell: &Cell) -> Result<(), Memory>
    ensures ok { OnOk result (out.new.items ≡ out.old.items ++ cell_bytes cell.now) }
{
    match cell {
        Cell::Int(number) => put_u64(out, number.cast_unsigned()),
        Cell::Text(text) => {
            put(out, &[text.as_bytes().len() as u8])?;
            put(out, text.as_bytes())
        }
    }
}

pub(crate) fn put_row(out: &mut Vec<u8>, row: &Row) -> Result<(), Memory>
    ensures ok { OnOk result (out.new.items ≡ out.old.items ++ row_bytes row.now) }
{
    for cell in row.cells() {
        put_cell(out, cell)?;
    }
    Ok(())
}
