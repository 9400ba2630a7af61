//! What a query asks for, and what it is shown of a partition beside the rows.

ghost use Rattle.std.specs.Prelude.{◌≡◌};
ghost use Rattle.std.specs.Ordering.{nat_cmp};
ghost use Rattle.view_meaning.specs.Ranks.{rank_of};

use desc_types::Key;
use std::cmp::Ordering;

/// How settled the rows of a partition are, from least to most.
#[derive(Clone, Copy, Debug, PartialEq, Eq, PartialOrd, Ord)]
pub enum Mark {
    /// More rows may come.
    Open,
    /// No more rows are expected.
    Closed,
    /// All rows that were expected are there.
    Complete,
}

/// How two marks are ordered: open before closed before complete.
pub fn compare_marks(left: Mark, right: Mark) -> Ordering
    ensures exact { result ≡ nat_cmp (rank_of left) (rank_of right) }
{
    left.cmp(&right)
}

/// One part of a query: the partitions of a table that share a tick with `from` up to, but not
/// including, `to`, except those whose mark is below `level`.
#[derive(Clone, Copy, Debug, PartialEq, Eq)]
pub struct Item {
    pub table: u16,
    pub from: u64,
    pub to: u64,
    pub level: Mark,
}

/// A partition as it is shown: its version, the place in the journal up to which its rows count
/// deliveries, and its mark.
#[derive(Clone, Copy, Debug, PartialEq, Eq)]
pub struct PinItem {
    pub key: Key,
    pub version: u64,
    pub upto: u64,
    pub mark: Mark,
}

/// A partition with its mark.
#[derive(Clone, Copy, Debug, PartialEq, Eq)]
pub struct MarkItem {
    pub key: Key,
    pub mark: Mark,
}
