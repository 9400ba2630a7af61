//! Rows.

use crate::spelling::{damaged, row_of};
use depot_cell::{Rows, Ty};
use row_codec::{CodecFault, decode_rows, encode_rows, rows_have_one_spelling};
use std::alloc::Global;
use std::test::Fail;

/// Two rows of a text and two ints, and a byte after them.
static ROWS: &[u8] = b"\0\0\0\0\0\0\0\x02\
    \x01a\0\0\0\0\0\0\0\x05\0\0\0\0\0\0\0\x01\
    \x01b\0\0\0\0\0\0\0\x02\0\0\0\0\0\0\0\x01!";

/// The bytes of rows that hold these cells.
fn spelled(alloc: Global, cells: &[&[(Ty, &[u8])]]) -> Result<Vec<u8>, Fail> {
    let mut rows = Rows::new(alloc);
    for &row in cells {
        rows.push(row_of(alloc, row)?)?;
    }
    Ok(encode_rows(alloc, &rows)?)
}

/// The cells of `ROWS`.
static CELLS: [&[(Ty, &[u8])]; 2] = [
    &[(Ty::Text, b"a"), (Ty::Int, b"5"), (Ty::Int, b"1")],
    &[(Ty::Text, b"b"), (Ty::Int, b"2"), (Ty::Int, b"1")],
];

/// The one row of an int, a text and an int that a filter keeps.
static KEPT: [&[(Ty, &[u8])]; 1] = [&[(Ty::Int, b"3"), (Ty::Text, b"a"), (Ty::Int, b"5")]];

/// Its bytes.
static KEPT_BYTES: &[u8] = b"\0\0\0\0\0\0\0\x01\
    \0\0\0\0\0\0\0\x03\x01a\0\0\0\0\0\0\0\x05";

/// A row of the least int, -5 and an empty text.
static ODD: [&[(Ty, &[u8])]; 1] = [&[
    (Ty::Int, b"-9223372036854775808"),
    (Ty::Int, b"-5"),
    (Ty::Text, b""),
]];

/// Its bytes.
static ODD_BYTES: &[u8] = b"\0\0\0\0\0\0\0\x01\
    \x80\0\0\0\0\0\0\0\xff\xff\xff\xff\xff\xff\xff\xfb\0";

#[test]
fn rows_have_their_bytes(rt: HostRuntime) -> Result<(), Fail> {
    assert!(rt; spelled(rt.alloc(), &CELLS)?.as_slice() == &ROWS[..44]);
    assert!(rt; spelled(rt.alloc(), &KEPT)?.as_slice() == KEPT_BYTES);
    assert!(rt; spelled(rt.alloc(), &ODD)?.as_slice() == ODD_BYTES);
    assert!(rt; spelled(rt.alloc(), &[])?.as_slice() == b"\0\0\0\0\0\0\0\0".as_slice());
    rows_have_one_spelling();
    Ok(())
}

/// The place that is blamed for bytes, none if they are rows and these are spelled by them.
fn place(alloc: Global, bytes: &[u8]) -> Result<Option<u64>, Fail> {
    match decode_rows(alloc, &[Ty::Text, Ty::Int, Ty::Int], bytes) {
        Ok(rows) => {
            let again = encode_rows(alloc, &rows)?;
            if again.as_slice() != bytes {
                return Err(Fail::new("other bytes"));
            }
            Ok(None)
        }
        Err(CodecFault::At { place }) => Ok(Some(place)),
        Err(CodecFault::Memory) => Err(Fail::new("no memory")),
    }
}

/// How many bytes there are, one that is replaced and by what, and the place that is blamed.
static DAMAGES: [(usize, usize, u8, Option<u64>); 12] = [
    (44, 0, 0, None),
    (43, 0, 0, Some(36)),
    (45, 0, 0, Some(44)),
    (0, 0, 0, Some(0)),
    (7, 0, 0, Some(0)),
    (8, 7, 0, None),
    (8, 0, 255, Some(8)),
    (44, 7, 3, Some(44)),
    (44, 7, 1, Some(26)),
    (44, 8, 255, Some(8)),
    (44, 9, 255, Some(8)),
    (29, 0, 0, Some(28)),
];

#[test]
fn damaged_rows_are_blamed_at_their_place(rt: HostRuntime) -> Result<(), Fail> {
    for &(len, at, byte, want) in &DAMAGES {
        let bytes = damaged(rt.alloc(), ROWS, len, at, byte)?;
        assert!(rt; place(rt.alloc(), &bytes)? == want, "at {len} {at}");
    }
    Ok(())
}
