//! The columns that a raw table's line declares.

ghost use Rattle.std.specs.Prelude.{◌≡◌, ◌<◌, length, IfSome};
ghost use Rattle.desc_causes.specs.Causes.{written_place};

use desc_lines::{WrittenColumn, is_word};

/// The place of the column with this name.
pub fn written_place(columns: &[WrittenColumn], name: &[u8]) -> Option<usize>
    ensures exact { result ≡ written_place columns.now name.now }
    ensures within { IfSome result (λ place. place < length columns.now) }
{
    columns.iter().position(|column| is_word(column.name, name))
}
