//! The parts of a table in the words of its line.
//!
//! Names are borrowed from the description. What is made, as the text of a number, has an owner
//! that lives until the line is written.

ghost use Rattle.std.specs.Prelude.{◌≡◌, decimal, drop, map, IfOk};
ghost use Rattle.std.specs.Fmt.{signed_decimal};
ghost use Rattle.desc_lines.specs.Written.{Filter, Group, Join};
ghost use Rattle.desc_lines.specs.WrittenKinds.{written_kind};
ghost use Rattle.desc_types.specs.Lookups.{table_columns};
ghost use Rattle.table_desc.specs.Canonical.{aggs_spelled, column_name, column_spelled};
ghost use Rattle.table_desc.specs.Canonical.{cond_spelled, feed_name, over_spelled, pair_spelled};
ghost use Rattle.table_desc.specs.Canonical.{source_spelled, table_name, type_word};

use depot_cell::{Memory, Op, Ty, cell_text};
use desc_lines::{WrittenAgg, WrittenColumn, WrittenCond, WrittenKind, WrittenPair, WrittenSource};
use desc_types::{Agg, Column, Cond, Desc, Fun, Pair, Src};
use std::alloc::Global;
use std::marker::Model;

/// A source that owns the texts of its offsets.
#[derive(Drop)]
pub struct SpelledSource<'a> {
    table: &'a [u8],
    lo: Vec<u8>,
    hi: Vec<u8>,
}

impl<'a> Model for SpelledSource<'a> {
    ghost use Rattle.desc_lines.specs.Written.{WrittenSourceOf};

    ghost Value = { WrittenSourceOf };

    ghost view = { λ source. record {
      table = source.table.now;
      lo = source.lo.items;
      hi = source.hi.items;
    } };
}

impl<'a> SpelledSource<'a> {
    /// The source in words.
    pub fn words(&self) -> WrittenSource
        ensures exact { result ≡ self.now }
    {
        WrittenSource {
            table: self.table,
            lo: &self.lo,
            hi: &self.hi,
        }
    }
}

/// A condition that owns the text of its literal.
#[derive(Drop)]
pub struct SpelledCond<'a> {
    column: &'a [u8],
    op: Op,
    literal: Vec<u8>,
}

impl<'a> Model for SpelledCond<'a> {
    ghost use Rattle.desc_lines.specs.Written.{WrittenCondOf};

    ghost Value = { WrittenCondOf };

    ghost view = { λ cond. record {
      column = cond.column.now;
      op = cond.op;
      literal = cond.literal.items;
    } };
}

impl<'a> SpelledCond<'a> {
    /// The condition in words.
    fn words(&self) -> WrittenCond
        ensures exact { result ≡ self.now }
    {
        WrittenCond {
            column: self.column,
            op: self.op,
            literal: &self.literal,
        }
    }
}

/// The name of the feed with this number.
pub fn feed_name(desc: &Desc, number: u16) -> &[u8]
    ensures exact { result.now ≡ feed_name desc.now number }
{
    match desc.feeds.get(usize::from(number)) {
        Some(feed) => feed.name.as_bytes(),
        None => &[],
    }
}

fn table_name(desc: &Desc, number: u16) -> &[u8]
    ensures exact { result.now ≡ table_name desc.now number }
{
    match desc.tables.get(usize::from(number)) {
        Some(table) => table.name.as_bytes(),
        None => &[],
    }
}

/// The columns of the table with this number.
pub fn table_columns(desc: &Desc, number: u16) -> &[Column]
    ensures exact { result.now ≡ table_columns desc.now number }
{
    match desc.tables.get(usize::from(number)) {
        Some(table) => &table.columns,
        None => &[],
    }
}

/// The columns after the first so many.
pub fn columns_from(columns: &[Column], number: usize) -> &[Column]
    ensures exact { result.now ≡ drop number columns.now }
{
    match columns.get(number..) {
        Some(columns) => columns,
        None => &[],
    }
}

/// The name of the column with this number.
pub fn column_name(columns: &[Column], number: u16) -> &[u8]
    ensures exact { result.now ≡ column_name columns.now number }
{
    match columns.get(usize::from(number)) {
        Some(column) => column.name.as_bytes(),
        None => &[],
    }
}

/// The names of the columns with these numbers.
pub fn column_names<'a>(
    alloc: Global,
    columns: &'a [Column],
    numbers: &[u16],
) -> Result<Vec<&'a [u8]>, Memory>
    ensures exact { IfOk result (λ names.
        map (λ name. name.now) names.items ≡ map (column_name columns.now) numbers.now) }
{
    let mut names = Vec::new(alloc);
    for number in numbers {
        names.push(column_name(columns, *number))?;
    }
    Ok(names)
}

/// The columns of a raw table, in words.
pub fn columns_spelled<'a>(
    alloc: Global,
    columns: &'a [Column],
) -> Result<Vec<WrittenColumn<'a>>, Memory>
    ensures exact { IfOk result (λ made. made.items ≡ map column_spelled columns.now) }
{
    let mut made = Vec::new(alloc);
    for column in columns {
        made.push(WrittenColumn {
            name: column.name.as_bytes(),
            ty: type_word(column.ty),
        })?;
    }
    Ok(made)
}

fn type_word(ty: Ty) -> &'static [u8]
    ensures exact { result.now ≡ type_word ty }
{
    match ty {
        Ty::Int => b"int",
        Ty::Text => b"text",
    }
}

/// A source of a view.
pub fn source_spelled<'a>(
    alloc: Global,
    desc: &'a Desc,
    source: Src,
) -> Result<SpelledSource<'a>, Memory>
    ensures exact { IfOk result (λ made. made ≡ source_spelled desc.now source) }
{
    Ok(SpelledSource {
        table: table_name(desc, source.table),
        lo: offset_text(alloc, source.span.lo)?,
        hi: offset_text(alloc, source.span.hi)?,
    })
}

fn offset_text(alloc: Global, offset: i64) -> Result<Vec<u8>, Memory>
    ensures exact { IfOk result (λ text. text.items ≡ signed_decimal offset) }
{
    Ok(offset.to_string(alloc)?.into_bytes())
}

/// The shortest decimal form of a number.
pub fn number_text(alloc: Global, number: u64) -> Result<Vec<u8>, Memory>
    ensures exact { IfOk result (λ text. text.items ≡ decimal number) }
{
    Ok(number.to_string(alloc)?.into_bytes())
}

/// The conditions of a filter over a source with these columns.
pub fn conds_spelled<'a>(
    alloc: Global,
    columns: &'a [Column],
    conds: &[Cond],
) -> Result<Vec<SpelledCond<'a>>, Memory>
    ensures exact { IfOk result (λ made. made.items ≡ map (cond_spelled columns.now) conds.now) }
{
    let mut made = Vec::new(alloc);
    for cond in conds {
        made.push(SpelledCond {
            column: column_name(columns, cond.column),
            op: cond.op,
            literal: cell_text(alloc, &cond.value)?,
        })?;
    }
    Ok(made)
}

/// The aggregates of a group over a source with these columns: each has the name of its own
/// column.
pub fn aggs_spelled<'a>(
    alloc: Global,
    columns: &'a [Column],
    own: &'a [Column],
    aggs: &[Agg],
) -> Result<Vec<WrittenAgg<'a>>, Memory>
    ensures exact { IfOk result (λ made.
        made.items ≡ aggs_spelled columns.now own.now aggs.now) }
{
    let mut made = Vec::new(alloc);
    for (column, agg) in own.iter().zip(aggs) {
        made.push(agg_spelled(columns, column, *agg))?;
    }
    Ok(made)
}

fn agg_spelled<'a>(columns: &'a [Column], own: &'a Column, agg: Agg) -> WrittenAgg<'a>
    ensures exact { result ≡ record {
      fun = agg.fun;
      column = over_spelled columns.now agg.fun agg.column;
      name = own.now.name;
    } }
{
    WrittenAgg {
        fun: agg.fun,
        column: match agg.fun {
            Fun::Count => None,
            Fun::Sum | Fun::Least | Fun::Greatest => Some(column_name(columns, agg.column)),
        },
        name: own.name.as_bytes(),
    }
}

/// The pairs of a join.
pub fn pairs_spelled<'a>(
    alloc: Global,
    left: &'a [Column],
    right: &'a [Column],
    on: &[Pair],
) -> Result<Vec<WrittenPair<'a>>, Memory>
    ensures exact { IfOk result (λ made. made.items ≡ map (pair_spelled left.now right.now) on.now) }
{
    let mut made = Vec::new(alloc);
    for pair in on {
        made.push(WrittenPair {
            left: column_name(left, pair.left),
            right: column_name(right, pair.right),
        })?;
    }
    Ok(made)
}

/// A filter in the words of its source and its conditions.
pub fn filter_words<'a>(
    alloc: Global,
    source: &'a SpelledSource,
    conds: &'a [SpelledCond],
    keep: Vec<&'a [u8]>,
) -> Result<WrittenKind<'a>, Memory>
    ensures exact { IfOk result (λ kind. written_kind kind
        ≡ Filter source.now conds.now (map (λ name. name.now) keep.entry.items)) }
{
    let conds = words_of_conds(alloc, conds)?;
    Ok(WrittenKind::Filter {
        source: source.words(),
        conds,
        keep,
    })
}

fn words_of_conds<'a>(
    alloc: Global,
    conds: &'a [SpelledCond],
) -> Result<Vec<WrittenCond<'a>>, Memory>
    ensures exact { IfOk result (λ made. made.items ≡ conds.now) }
{
    let mut made = Vec::new(alloc);
    for cond in conds {
        made.push(cond.words())?;
    }
    Ok(made)
}

/// A group in the words of its source.
pub fn group_words<'a>(
    source: &'a SpelledSource,
    keys: Vec<&'a [u8]>,
    aggs: Vec<WrittenAgg<'a>>,
) -> WrittenKind<'a>
    ensures exact { written_kind result
        ≡ Group source.now (map (λ name. name.now) keys.entry.items) aggs.entry.items }
{
    WrittenKind::Group {
        source: source.words(),
        keys,
        aggs,
    }
}

/// A join in the words of its sources.
pub fn join_words<'a>(
    left: &'a SpelledSource,
    right: &'a SpelledSource,
    on: Vec<WrittenPair<'a>>,
) -> WrittenKind<'a>
    ensures exact { written_kind result ≡ Join left.now right.now on.entry.items }
{
    WrittenKind::Join {
        left: left.words(),
        right: right.words(),
        on,
    }
}
