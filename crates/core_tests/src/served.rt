//! The description of the histories, and deliveries for it.
//!
//! Table `r` has partitions of ten ticks. View `tot` sums it by key, in partitions of twenty. View
//! `roll` sums those, and reads the twenty ticks before each of its partitions too.

ghost use Rattle.std.specs.Prelude.{◌≡◌, IfOk, Ok, true};
ghost use Rattle.partition_map.specs.Partitions.{is_met};
ghost use Rattle.partition_map.specs.Time.{END as the_end};
ghost use Rattle.table_desc.specs.Described.{described};
ghost use Rattle.view_meaning.specs.Journal.{FitsDelivery};
ghost use Rattle.view_meaning.specs.Partitions.{is_part};

use depot_cell::{Memory, copy_row};
use desc_types::{AcceptedDesc, DRow, Delivery, Desc, END, Key, Width};
use feed_csv::{DeliveryFault, read_delivery};
use std::alloc::Global;
use std::test::Fail;
use table_desc::{DescFault, read_desc};

/// The lines of the description.
pub static LINES: &str = "feed f
raw r feed f width 10 time at cols at:int k:text n:int
view tot width 20 group r 0 0 by k agg sum:n as s count as c
view roll width 20 group tot -20 0 by k agg sum:s as s";

/// The description that some lines declare.
pub fn served(alloc: Global, lines: &[u8]) -> Result<AcceptedDesc, Fail>
    ensures exact { IfOk result (λ served. described lines.now ≡ Ok served.desc) }
{
    match read_desc(alloc, lines) {
        Ok(served) => Ok(served),
        Err(DescFault::At(bad)) => Err(Fail::new(bad.cause.text())),
        Err(DescFault::Memory) => Err(Fail::new("no memory")),
    }
}

/// The delivery that a body brings.
pub fn delivered(
    alloc: Global,
    served: &AcceptedDesc,
    number: u32,
    closes: u64,
    body: &[u8],
) -> Result<Delivery, Fail>
    ensures fits { IfOk result (FitsDelivery served.now.desc) }
{
    if body.len() > 16_777_216 || served.desc.feeds.is_empty() || closes > END {
        return Err(Fail::new("no delivery"));
    }
    match read_delivery(alloc, served, 0, number, closes, body) {
        Ok(delivery) => Ok(delivery),
        Err(DeliveryFault::At(bad)) => Err(Fail::new(bad.cause.text())),
        Err(DeliveryFault::Memory) => Err(Fail::new("no memory")),
    }
}

/// A copy of a delivery.
pub fn copied(alloc: Global, delivery: &Delivery) -> Result<Delivery, Memory>
    ensures exact { IfOk result (λ copy. copy ≡ delivery.now) }
{
    let mut rows = Vec::new(alloc);
    for row in &delivery.rows {
        rows.push(DRow {
            number: row.number,
            table: row.table,
            cells: copy_row(alloc, &row.cells)?,
        })?;
    }
    Ok(Delivery {
        feed: delivery.feed,
        number: delivery.number,
        closes: delivery.closes,
        rows,
    })
}

/// Whether a key is a partition of a table.
pub fn is_part(desc: &Desc, key: Key) -> bool
    ensures part { result ≡ true → is_part desc.now key ≡ true }
{
    match desc.tables.get(usize::from(key.table)) {
        Some(table) => begins_in_time(table.width, key.part),
        None => false,
    }
}

/// Whether a partition begins in time.
fn begins_in_time(width: Width, part: u64) -> bool
    ensures met { result ≡ true → is_met width 0 the_end part ≡ true }
{
    match part.checked_mul(width.ticks()) {
        Some(start) => start < END,
        None => false,
    }
}
