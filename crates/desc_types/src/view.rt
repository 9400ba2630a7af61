//! What fills a table: the deliveries of a feed, or the rows of other tables.

use depot_cell::{Cell, Op};
use desc_lines::Fun;
use partition_map::Span;

/// A source of a view: a table declared before it, and the span that is read of it.
#[derive(Clone, Copy, Debug, PartialEq, Eq)]
pub struct Src {
    pub table: u16,
    pub span: Span,
}

/// A condition of a filter: a column of the source compared with a value of the column's type.
#[derive(Debug, Drop)]
pub struct Cond {
    pub column: u16,
    pub op: Op,
    pub value: Cell,
}

/// An aggregate of a group, over a column of the source. The column of a count is 0.
#[derive(Clone, Copy, Debug, PartialEq, Eq)]
pub struct Agg {
    pub fun: Fun,
    pub column: u16,
}

/// A column of the left source and one of the right that have to agree.
#[derive(Clone, Copy, Debug, PartialEq, Eq)]
pub struct Pair {
    pub left: u16,
    pub right: u16,
}

/// What fills a table.
#[derive(Debug, Drop)]
pub enum Kind {
    /// The rows that the deliveries of a feed bring. The column `time` holds a row's tick.
    Raw {
        feed: u16,
        time: u16,
    },
    /// The rows of the source that meet all conditions, cut to the columns of `keep`, in its order.
    Filter {
        src: Src,
        conds: Vec<Cond>,
        keep: Vec<u16>,
    },
    /// A row for each different list of keys: the keys, then the aggregates.
    Group {
        src: Src,
        keys: Vec<u16>,
        aggs: Vec<Agg>,
    },
    /// Each left row beside each right row that agrees with it on all pairs.
    Join {
        left: Src,
        right: Src,
        on: Vec<Pair>,
    },
}
