//! Descriptions: the feeds, the tables and their columns.

ghost use Rattle.std.specs.Prelude.{◌≡◌};
ghost use Rattle.desc_types.specs.Keys.{key_cmp};

use crate::view::Kind;
use depot_cell::{Str, Ty};
use partition_map::Width;
use std::cmp::Ordering;
use std::marker::Model;

/// Where deliveries come from. With `header` the first record of each delivery is skipped.
#[derive(Debug, Drop)]
pub struct Feed {
    pub name: Str,
    pub header: bool,
}

/// A column of a table.
#[derive(Debug, Drop)]
pub struct Column {
    pub name: Str,
    pub ty: Ty,
}

/// A table: its columns, the width of its partitions, and what fills it.
#[derive(Debug, Drop)]
pub struct Table {
    pub name: Str,
    pub columns: Vec<Column>,
    pub width: Width,
    pub kind: Kind,
}

impl Model for Table {
    ghost use Rattle.desc_types.specs.Tables.{TableOf};
    ghost use Rattle.desc_types.specs.Kinds.{kind_of};

    ghost Value = { TableOf };

    ghost view = { λ table. record {
      name = table.name;
      columns = table.columns.items;
      width = table.width;
      kind = kind_of table.kind;
    } };
}

/// A description: feeds and tables, each numbered from 0 in the order of declaration.
#[derive(Debug, Drop)]
pub struct Desc {
    pub feeds: Vec<Feed>,
    pub tables: Vec<Table>,
}

impl Model for Desc {
    ghost use Rattle.desc_types.specs.Descriptions.{DescOf};

    ghost Value = { DescOf };

    ghost view = { λ desc. record { feeds = desc.feeds.items; tables = desc.tables.items } };
}

/// The name of a partition: its table and its number. Keys are ordered by table, then by number.
#[derive(Clone, Copy, Debug, PartialEq, Eq, PartialOrd, Ord)]
pub struct Key {
    pub table: u16,
    pub part: u64,
}

/// How two keys are ordered: by table, then by number.
pub fn compare_keys(left: Key, right: Key) -> Ordering
    ensures exact { result ≡ key_cmp left right }
{
    left.cmp(&right)
}
