//! The texts of the replies of one line. Their forms stand in `docs/FORMATS.md`.
//!
//! Names are bytes. Only want of memory is answered in place of a text.

ghost use Rattle.std.specs.Prelude.{◌≡◌, IfOk};
ghost use Rattle.depot_script.specs.Texts.{answer_text, drained_text, loaded_text, part_text};
ghost use Rattle.depot_script.specs.Texts.{reclaimed_text, refused_text, repeat_text};

use crate::line::Line;
use depot_cell::Memory;
use std::alloc::Global;
use view_meaning::{Loaded, PinItem};

/// The text that tells what loading a delivery did.
pub fn loaded_text(
    alloc: Global,
    feed: &[u8],
    number: u32,
    loaded: &Loaded,
) -> Result<Vec<u8>, Memory>
    ensures exact { IfOk result (λ text. text.items ≡ loaded_text feed.now number loaded.now) }
{
    Line::new(alloc)
        .name(b"loaded ", feed)?
        .number(b" ", u64::from(number))?
        .number(b" entry ", loaded.entry)?
        .number(b" kept ", loaded.kept)?
        .number(b" aside ", loaded.aside)?
        .end()
}

/// The text that tells that a delivery is a repeat.
pub fn repeat_text(alloc: Global, feed: &[u8], number: u32) -> Result<Vec<u8>, Memory>
    ensures exact { IfOk result (λ text. text.items ≡ repeat_text feed.now number) }
{
    Line::new(alloc)
        .name(b"repeat ", feed)?
        .number(b" ", u64::from(number))?
        .end()
}

/// The text that tells that a line was refused, and for which cause. `at` is the number of the
/// record of its body that is bad, if it was refused for one.
pub fn refused_text(
    alloc: Global,
    line: u64,
    at: Option<u64>,
    cause: &str,
) -> Result<Vec<u8>, Memory>
    ensures exact { IfOk result (λ text. text.items ≡ refused_text line at cause.now) }
{
    Line::new(alloc)
        .number(b"refused ", line)?
        .record(at)?
        .name(b" ", cause.as_bytes())?
        .end()
}

/// The text that tells that all is computed, up to this place of the journal.
pub fn drained_text(alloc: Global, place: u64) -> Result<Vec<u8>, Memory>
    ensures exact { IfOk result (λ text. text.items ≡ drained_text place) }
{
    Line::new(alloc).number(b"drained at ", place)?.end()
}

/// The text that tells how many versions were dropped, at this place of the journal.
pub fn reclaimed_text(alloc: Global, dropped: u64, place: u64) -> Result<Vec<u8>, Memory>
    ensures exact { IfOk result (λ text. text.items ≡ reclaimed_text dropped place) }
{
    Line::new(alloc)
        .number(b"reclaimed ", dropped)?
        .number(b" at ", place)?
        .end()
}

/// The first line of an answer: its place in the journal, and how many partitions follow.
pub fn answer_text(alloc: Global, place: u64, parts: u64) -> Result<Vec<u8>, Memory>
    ensures exact { IfOk result (λ text. text.items ≡ answer_text place parts) }
{
    Line::new(alloc)
        .number(b"answer at ", place)?
        .number(b" parts ", parts)?
        .end()
}

/// The line of a partition that is shown, with the number of its rows.
pub fn part_text(alloc: Global, table: &[u8], item: &PinItem, rows: u64) -> Result<Vec<u8>, Memory>
    ensures exact { IfOk result (λ text. text.items ≡ part_text table.now item.now rows) }
{
    Line::new(alloc)
        .name(b"part ", table)?
        .number(b" ", item.key.part)?
        .number(b" version ", item.version)?
        .number(b" upto ", item.upto)?
        .mark(item.mark)?
        .number(b" rows ", rows)?
        .end()
}
