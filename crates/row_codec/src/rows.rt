//! Lists of rows.

ghost use Rattle.std.specs.Prelude.{◌≡◌, map, IfOk};
ghost use Rattle.row_codec.specs.Answers.{Gives, Takes};
ghost use Rattle.row_codec.specs.Laws.{AreRowsOf};
ghost use Rattle.row_codec.specs.Reading.{read_rows, rows_at, so_many_rows_at, wanted_of};
ghost use Rattle.row_codec.specs.Spelling.{rows_bytes};

use crate::fault::{CodecFault, Cut, fault_at};
use crate::field::{put_row, put_u64, take_row, take_u64};
use depot_cell::{Memory, Rows, Ty};
use std::alloc::Global;

/// The bytes of rows.
pub fn encode_rows(alloc: Global, rows: &Rows) -> Result<Vec<u8>, Memory>
    ensures exact { IfOk result (λ bytes. bytes.items ≡ rows_bytes rows.now) }
{
    let mut out = Vec::new(alloc);
    put_u64(&mut out, rows.rows().len() as u64)?;
    for row in rows.rows() {
        put_row(&mut out, row)?;
    }
    Ok(out)
}

/// The rows of these types that the bytes are. It keeps memory for rows that were read, and for
/// none that the count promises.
pub fn decode_rows(alloc: Global, types: &[Ty], bytes: &[u8]) -> Result<Rows, CodecFault>
    ensures exact { Gives (λ rows. rows) result (read_rows types.now bytes.now) }
    ensures ok { IfOk result (λ rows. AreRowsOf types.now rows × (bytes.now ≡ rows_bytes rows)) }
{
    match take_rows(alloc, types, bytes) {
        Ok((rows, [])) => Ok(rows),
        Ok((_, rest)) => Err(fault_at(bytes, rest.len())),
        Err(Cut::Left(left)) => Err(fault_at(bytes, left)),
        Err(Cut::Memory) => Err(CodecFault::Memory),
    }
}

#[tactic(auto, unfolding(crate::specs::Reading::rows_at))]
fn take_rows<'a>(alloc: Global, types: &[Ty], bytes: &'a [u8]) -> Result<(Rows, &'a [u8]), Cut>
    ensures exact { Takes (λ taken. (taken.0, taken.1.now)) result
        (rows_at (map wanted_of types.now) bytes.now) }
{
    let (count, rest) = take_u64(bytes)?;
    take_so_many_rows(alloc, types, count, rest)
}

fn take_so_many_rows<'a>(
    alloc: Global,
    types: &[Ty],
    count: u64,
    bytes: &'a [u8],
) -> Result<(Rows, &'a [u8]), Cut>
    ensures exact { Takes (λ taken. (taken.0, taken.1.now)) result
        (so_many_rows_at (map wanted_of types.now) count bytes.now) }
{
    let mut rows = Rows::new(alloc);
    let mut rest = bytes;
    for _ in 0..count {
        let (row, after) = take_row(alloc, types, rest)?;
        match rows.push(row) {
            Ok(()) => rest = after,
            Err(_) => return Err(Cut::Memory),
        }
    }
    Ok((rows, rest))
}
