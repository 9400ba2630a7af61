//! The parts of a table's line, in its words.

use crate::fun::Fun;
use depot_cell::Op;
use std::marker::Model;

/// A column of a raw table, written `NAME:TYPE`.
#[derive(Drop)]
pub struct WrittenColumn<'a> {
    pub name: &'a [u8],
    pub ty: &'a [u8],
}

impl<'a> Model for WrittenColumn<'a> {
    ghost use Rattle.desc_lines.specs.Written.{WrittenColumnOf};

    ghost Value = { WrittenColumnOf };

    ghost view = { λ column. record { name = column.name.now; ty = column.ty.now } };
}

/// A source of a view, written `TABLE LO HI`: the offsets tell the span that is read of it.
#[derive(Drop)]
pub struct WrittenSource<'a> {
    pub table: &'a [u8],
    pub lo: &'a [u8],
    pub hi: &'a [u8],
}

impl<'a> Model for WrittenSource<'a> {
    ghost use Rattle.desc_lines.specs.Written.{WrittenSourceOf};

    ghost Value = { WrittenSourceOf };

    ghost view = { λ source. record {
      table = source.table.now;
      lo = source.lo.now;
      hi = source.hi.now;
    } };
}

/// A condition of a filter, written `COLUMN OP LITERAL`.
#[derive(Drop)]
pub struct WrittenCond<'a> {
    pub column: &'a [u8],
    pub op: Op,
    pub literal: &'a [u8],
}

impl<'a> Model for WrittenCond<'a> {
    ghost use Rattle.desc_lines.specs.Written.{WrittenCondOf};

    ghost Value = { WrittenCondOf };

    ghost view = { λ cond. record {
      column = cond.column.now;
      op = cond.op;
      literal = cond.literal.now;
    } };
}

/// An aggregate of a group, written `FUN:COLUMN as NAME`, or `count as NAME` without a column.
#[derive(Drop)]
pub struct WrittenAgg<'a> {
    pub fun: Fun,
    pub column: Option<&'a [u8]>,
    pub name: &'a [u8],
}

impl<'a> Model for WrittenAgg<'a> {
    ghost use Rattle.std.specs.Prelude.{option_map};
    ghost use Rattle.desc_lines.specs.Written.{WrittenAggOf};

    ghost Value = { WrittenAggOf };

    ghost view = { λ agg. record {
      fun = agg.fun;
      column = option_map (λ column. column.now) agg.column;
      name = agg.name.now;
    } };
}

/// A column of the left source of a join and one of the right, written `LEFT=RIGHT`.
#[derive(Drop)]
pub struct WrittenPair<'a> {
    pub left: &'a [u8],
    pub right: &'a [u8],
}

impl<'a> Model for WrittenPair<'a> {
    ghost use Rattle.desc_lines.specs.Written.{WrittenPairOf};

    ghost Value = { WrittenPairOf };

    ghost view = { λ pair. record { left = pair.left.now; right = pair.right.now } };
}
