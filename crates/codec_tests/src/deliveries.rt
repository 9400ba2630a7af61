//! Deliveries.

use crate::spelling::{damaged, row_of};
use depot_cell::Ty;
use desc_types::{AcceptedDesc, DRow};
use row_codec::{CodecFault, decode_delivery, deliveries_have_one_spelling, encode_delivery};
use std::alloc::Global;
use std::test::Fail;
use table_desc::Draft;

/// A delivery of two rows of table 0, and a byte after it.
static DELIVERY: &[u8] = b"\0\0\0\0\0\0\0\0\0\0\0\0\0\0\0\0\0\x02\
    \0\0\0\x01\0\0\0\0\0\0\0\0\0\x03\x01a\0\0\0\0\0\0\0\x05\
    \0\0\0\x02\0\0\0\0\0\0\0\0\0\x0c\x01b\0\0\0\0\0\0\0\x02!";

/// A feed with table 0, one with table 1, and a view.
fn described(alloc: Global) -> Result<AcceptedDesc, Fail> {
    let draft = Draft::new(alloc)
        .with_line(alloc, b"feed f")?
        .with_line(alloc, b"feed g")?
        .with_line(
            alloc,
            b"raw r feed f width 10 time at cols at:int k:text n:int",
        )?
        .with_line(
            alloc,
            b"raw s feed g width 10 time at cols at:int k:text n:int",
        )?
        .with_line(
            alloc,
            b"view big width 10 filter r 0 0 where n >= 5 keep at k n",
        )?;
    match draft.into_read() {
        Ok(accepted) => Ok(accepted),
        Err(bad) => Err(Fail::new(bad.cause.text())),
    }
}

/// The two records of `DELIVERY`.
static RECORDS: [(u32, &[(Ty, &[u8])]); 2] = [
    (1, &[(Ty::Int, b"3"), (Ty::Text, b"a"), (Ty::Int, b"5")]),
    (2, &[(Ty::Int, b"12"), (Ty::Text, b"b"), (Ty::Int, b"2")]),
];

/// Whether a row is this record of table 0.
fn is_record(alloc: Global, row: &DRow, number: u32, cells: &[(Ty, &[u8])]) -> Result<bool, Fail> {
    let cells = row_of(alloc, cells)?;
    Ok(row.number == number && row.table == 0 && row.cells.cells() == cells.cells())
}

#[test]
fn a_delivery_has_its_bytes(rt: HostRuntime) -> Result<(), Fail> {
    let alloc = rt.alloc();
    let accepted = described(alloc)?;
    let delivery = match decode_delivery(alloc, &accepted, &DELIVERY[..66]) {
        Ok(delivery) => delivery,
        Err(_) => return Err(Fail::new("damaged")),
    };
    assert!(rt; (delivery.feed, delivery.number, delivery.closes) == (0, 0, 0));
    assert!(rt; delivery.rows.len() == 2);
    for (row, &(number, cells)) in delivery.rows.iter().zip(&RECORDS) {
        assert!(rt; is_record(alloc, row, number, cells)?);
    }
    assert!(rt; encode_delivery(alloc, &delivery)?.as_slice() == &DELIVERY[..66]);
    deliveries_have_one_spelling();
    Ok(())
}

/// The place that is blamed for bytes, none if they are a delivery and it is spelled by them.
fn place(alloc: Global, accepted: &AcceptedDesc, bytes: &[u8]) -> Result<Option<u64>, Fail> {
    match decode_delivery(alloc, accepted, bytes) {
        Ok(delivery) => {
            let again = encode_delivery(alloc, &delivery)?;
            if again.as_slice() != bytes {
                return Err(Fail::new("other bytes"));
            }
            Ok(None)
        }
        Err(CodecFault::At { place }) => Ok(Some(place)),
        Err(CodecFault::Memory) => Err(Fail::new("no memory")),
    }
}

/// How many bytes there are, one that is replaced and by what, and the place that is blamed.
static DAMAGES: [(usize, usize, u8, Option<u64>); 20] = [
    (66, 0, 0, None),
    (65, 0, 0, Some(58)),
    (67, 0, 0, Some(66)),
    (0, 0, 0, Some(0)),
    (18, 17, 0, None),
    (66, 17, 3, Some(66)),
    (66, 17, 1, Some(42)),
    (66, 1, 1, Some(22)),
    (66, 1, 2, Some(0)),
    (66, 5, 9, None),
    (66, 8, 1, None),
    (66, 8, 2, Some(6)),
    (66, 21, 0, Some(18)),
    (66, 45, 1, Some(42)),
    (66, 45, 0, Some(42)),
    (66, 23, 1, Some(22)),
    (66, 23, 2, Some(22)),
    (66, 23, 3, Some(22)),
    (66, 26, 1, Some(24)),
    (66, 24, 255, Some(24)),
];

#[test]
fn damaged_deliveries_are_blamed_at_their_place(rt: HostRuntime) -> Result<(), Fail> {
    let accepted = described(rt.alloc())?;
    for &(len, at, byte, want) in &DAMAGES {
        let bytes = damaged(rt.alloc(), DELIVERY, len, at, byte)?;
        assert!(rt;
            place(rt.alloc(), &accepted, &bytes)? == want,
            "at {len} {at}"
        );
    }
    Ok(())
}
