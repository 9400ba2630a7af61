//! Two rows of a text and two ints, as bytes and in files.

ghost use Rattle.std.specs.Prelude.{◌≡◌, IfOk};
ghost use Rattle.std.specs.Arc.{arc_value};
ghost use Rattle.row_codec.specs.Laws.{AreRowsOf};
ghost use Rattle.row_codec.specs.Spelling.{rows_bytes};

use depot_cell::{Memory, Rows, Ty};
use row_codec::{CodecFault, decode_rows, encode_rows};
use std::alloc::Global;
use std::sync::Arc;
use version_store::FileFault;

/// The types of the columns.
pub(crate) static TYPES: [Ty; 3] = [Ty::Text, Ty::Int, Ty::Int];

/// The rows.
pub(crate) static ROWS: &[u8] = b"\0\0\0\0\0\0\0\x02\
    \x01a\0\0\0\0\0\0\0\x05\0\0\0\0\0\0\0\x01\
    \x01b\0\0\0\0\0\0\0\x02\0\0\0\0\0\0\0\x01";

/// No rows.
pub(crate) static NONE: &[u8] = b"\0\0\0\0\0\0\0\0";

/// The rows that are spelled by bytes. The file that is blamed for others is 0.
pub(crate) fn rows_of(alloc: Global, types: &[Ty], bytes: &[u8]) -> Result<Arc<Rows>, FileFault>
    ensures typed { IfOk result (λ rows. AreRowsOf types.now (arc_value rows)) }
    ensures spelled { IfOk result (λ rows. bytes.now ≡ rows_bytes (arc_value rows)) }
{
    match decode_rows(alloc, types, bytes) {
        Ok(rows) => Ok(shared(alloc, rows)?),
        Err(CodecFault::At { place }) => Err(FileFault::Damaged { file: 0, place }),
        Err(CodecFault::Memory) => Err(FileFault::Memory),
    }
}

/// Rows that can be shared.
pub(crate) fn shared(alloc: Global, rows: Rows) -> Result<Arc<Rows>, Memory>
    ensures exact { IfOk result (λ shared. arc_value shared ≡ rows) }
{
    Ok(Arc::new(alloc, rows)?)
}

/// Whether rows are spelled by these bytes.
pub(crate) fn are_spelled(alloc: Global, rows: &Rows, bytes: &[u8]) -> Result<bool, Memory> {
    Ok(encode_rows(alloc, rows)?.as_slice() == bytes)
}
