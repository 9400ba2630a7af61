//! What fills a table, in the words of its line.

use crate::parts::{WrittenAgg, WrittenColumn, WrittenCond, WrittenPair, WrittenSource};

/// What fills a table.
#[derive(Drop)]
pub enum WrittenKind<'a> {
    /// A feed, the name of the time column, and the columns.
    Raw {
        feed: &'a [u8],
        time: &'a [u8],
        columns: Vec<WrittenColumn<'a>>,
    },
    /// A source, the conditions on its rows, and the columns that are kept.
    Filter {
        source: WrittenSource<'a>,
        conds: Vec<WrittenCond<'a>>,
        keep: Vec<&'a [u8]>,
    },
    /// A source, the key columns, and the aggregates.
    Group {
        source: WrittenSource<'a>,
        keys: Vec<&'a [u8]>,
        aggs: Vec<WrittenAgg<'a>>,
    },
    /// Two sources, and the pairs of columns that have to agree.
    Join {
        left: WrittenSource<'a>,
        right: WrittenSource<'a>,
        on: Vec<WrittenPair<'a>>,
    },
}
