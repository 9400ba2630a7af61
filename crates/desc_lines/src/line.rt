//! A line of a description, in its words.

use crate::kind::WrittenKind;
use std::marker::Model;

/// A table: its name, the width of its partitions, and what fills it.
#[derive(Drop)]
pub struct WrittenTable<'a> {
    pub name: &'a [u8],
    pub width: &'a [u8],
    pub kind: WrittenKind<'a>,
}

impl<'a> Model for WrittenTable<'a> {
    ghost use Rattle.desc_lines.specs.Written.{WrittenTableOf};
    ghost use Rattle.desc_lines.specs.WrittenKinds.{written_kind};

    ghost Value = { WrittenTableOf };

    ghost view = { λ table. record {
      name = table.name.now;
      width = table.width.now;
      kind = written_kind table.kind;
    } };
}

/// A line: it declares a feed or a table. With `header` the first record of each delivery of the
/// feed is skipped.
#[derive(Drop)]
pub enum WrittenLine<'a> {
    Feed { name: &'a [u8], header: bool },
    Table(WrittenTable<'a>),
}
