//! A command, in the words of its line.

use std::marker::Model;

/// An item of a query, written `T FROM TO` or `T FROM TO LEVEL`.
#[derive(Drop)]
pub struct WrittenItem<'a> {
    pub table: &'a [u8],
    pub from: &'a [u8],
    pub to: &'a [u8],
    pub level: Option<&'a [u8]>,
}

impl<'a> Model for WrittenItem<'a> {
    ghost use Rattle.std.specs.Prelude.{option_map};
    ghost use Rattle.depot_script.specs.Written.{WrittenItemOf};

    ghost Value = { WrittenItemOf };

    ghost view = { λ item. record {
      table = item.table.now;
      from = item.from.now;
      to = item.to.now;
      level = option_map (λ level. level.now) item.level;
    } };
}

/// A command, with the words that follow its first.
#[derive(Drop)]
pub enum WrittenCommand<'a> {
    Deliver {
        feed: &'a [u8],
        number: &'a [u8],
        closes: &'a [u8],
        size: &'a [u8],
    },
    Drain,
    Query(Vec<WrittenItem<'a>>),
    Marks(WrittenItem<'a>),
    Aside {
        feed: &'a [u8],
    },
    Reclaim,
    End,
}
