//! The description of the histories: two raw tables, and views on three levels above them.
//!
//! Table `r` has partitions of ten ticks, `s` of twenty. View `a` is a filter of `r` and `j` a join
//! of `a` and `s`, both in partitions of twenty ticks. View `g` is a group of `j` in partitions of
//! forty, which reads twenty ticks before each of them too, so some partitions of `j` have two
//! readers.

ghost use Rattle.std.specs.Prelude.{◌≡◌, All, false, slice_get, true};
ghost use Rattle.partition_map.specs.Partitions.{is_met};
ghost use Rattle.partition_map.specs.Time.{END};
ghost use Rattle.view_meaning.specs.Partitions.{is_part};
ghost use Rattle.view_meaning.specs.Versions.{is_raw};

use desc_types::{AcceptedDesc, Desc, END, Key, Kind, Width};
use std::alloc::Global;
use std::test::Fail;
use table_desc::Draft;

/// How many tables there are.
pub const TABLES: u16 = 5;

/// The first letters of the tables, in order.
pub static LETTERS: [u8; 5] = *b"rsajg";

/// The description.
pub fn described(alloc: Global) -> Result<AcceptedDesc, Fail> {
    let draft = Draft::new(alloc)
        .with_line(alloc, b"feed f")?
        .with_line(alloc, b"raw r feed f width 10 time t cols t:int k:text")?
        .with_line(alloc, b"raw s feed f width 20 time t cols t:int k:text")?
        .with_line(alloc, b"view a width 20 filter r 0 0 where t >= 0 keep t k")?
        .with_line(alloc, b"view j width 20 join a 0 0 s 0 0 on k=k")?
        .with_line(
            alloc,
            b"view g width 40 group j -20 0 by l_k agg count as n",
        )?;
    match draft.into_read() {
        Ok(accepted) => Ok(accepted),
        Err(bad) => Err(Fail::new(bad.cause.text())),
    }
}

/// Whether the keys are partitions of tables.
pub fn are_parts(desc: &Desc, keys: &[Key]) -> bool
    ensures parts { result ≡ true → All (λ key. is_part desc.now key ≡ true) keys.now }
{
    for key in keys {
        if !is_part(desc, *key) {
            return false;
        }
    }
    true
}

/// Whether a key is a partition of a table.
pub fn is_part(desc: &Desc, key: Key) -> bool
    ensures part { result ≡ true → is_part desc.now key ≡ true }
{
    match desc.tables.get(usize::from(key.table)) {
        Some(table) => begins_in_time(table.width, key.part),
        None => false,
    }
}

/// Whether a partition begins in time.
fn begins_in_time(width: Width, part: u64) -> bool
    ensures met { result ≡ true → is_met width 0 END part ≡ true }
{
    match part.checked_mul(width.ticks()) {
        Some(start) => start < END,
        None => false,
    }
}

/// Whether a table is there and is a view.
pub fn is_view(desc: &Desc, table: u16) -> bool
    ensures view { result ≡ true → is_raw (slice_get desc.now.tables table) ≡ false }
{
    match desc.tables.get(usize::from(table)) {
        Some(table) => !matches!(table.kind, Kind::Raw { .. }),
        None => false,
    }
}
