//! The partition that a row lies in.

ghost use Rattle.std.specs.Prelude.{ℕ, ◌≡◌, ◌<◌, IsSome, length, option_to_list};
ghost use Rattle.partition_map.specs.Partitions.{is_covered, has};
ghost use Rattle.view_meaning.specs.Partitions.{key_of};
ghost use Rattle.view_meaning.specs.RawValues.{lies_in};

use crate::plain::row_tick;
use desc_types::{DRow, Desc, END, Width};
use partition_map::part_of;

/// The number of the partition that a row lies in, if there is one.
pub fn part_of_row(desc: &Desc, row: &DRow) -> Option<u64>
    ensures exact { (part : ℕ) → has (option_to_list result) part
        ≡ lies_in desc.now (key_of row.now.table part) row.now }
    ensures within { IsSome result → row.now.table < length desc.now.tables }
{
    let table = desc.tables.get(usize::from(row.table))?;
    covering_part(table.width, row_tick(&table.kind, &row.cells)?)
}

/// The number of the partition that covers a tick, if there is one.
fn covering_part(width: Width, tick: u64) -> Option<u64>
    ensures exact { (part : ℕ) → has (option_to_list result) part ≡ is_covered width part tick }
{
    if tick < END {
        Some(part_of(width, tick))
    } else {
        None
    }
}
