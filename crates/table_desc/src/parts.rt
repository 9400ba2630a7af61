//! The parts of a table that a line declares: its columns, sources, conditions, aggregates and
//! pairs.
//!
//! Nothing is refused here. The causes were tested before, so that all names are found.

ghost use Rattle.std.specs.Prelude.{◌≡◌, ◌≤◌, ◌++◌, [], length, map, filter_map, true, All, IfOk, OnOk};
ghost use Rattle.std.specs.List.{cons_option};
ghost use Rattle.desc_lines.specs.Names.{is_name};
ghost use Rattle.desc_lines.specs.Written.{WrittenColumnOf};
ghost use Rattle.desc_types.specs.Lookups.{find_table};
ghost use Rattle.table_desc.specs.Declarations.{column_number, declared_agg, declared_column};
ghost use Rattle.table_desc.specs.Declarations.{declared_cond, declared_pair, declared_source, found};
ghost use Rattle.table_desc.specs.Declarations.{time_number, value_of};

use depot_cell::{Cell, Memory, Str, Ty};
use desc_causes::{read_span, written_place};
use desc_lines::{WrittenAgg, WrittenColumn, WrittenCond, WrittenPair, WrittenSource};
use desc_types::{
    Agg, Column, Cond, Desc, Pair, Span, Src, field_cell, find_type, place_of_column,
    place_of_table, read_type,
};
use std::alloc::Global;

/// The span of just a partition's own ticks.
const OWN_TICKS: Span = Span { lo: 0, hi: 0 };

/// The text of a name.
pub fn name_text(alloc: Global, name: &[u8]) -> Result<Str, Memory>
    requires named { is_name name.now ≡ true }
    ensures exact { IfOk result (λ text. text ≡ name.now) }
{
    Str::from_bytes(alloc, name)
}

/// The columns of a raw table.
pub fn declared_columns(alloc: Global, columns: &[WrittenColumn]) -> Result<Vec<Column>, Memory>
    requires named { All (λ (column : WrittenColumnOf). is_name column.name ≡ true) columns.now }
    ensures exact { IfOk result (λ made. made.items ≡ map declared_column columns.now) }
{
    let mut made = Vec::new(alloc);
    for column in columns {
        made.push(declared_column(alloc, column)?)?;
    }
    Ok(made)
}

fn declared_column(alloc: Global, column: &WrittenColumn) -> Result<Column, Memory>
    requires named { is_name column.now.name ≡ true }
    ensures exact { IfOk result (λ made. made ≡ declared_column column.now) }
{
    let name = name_text(alloc, column.name)?;
    let ty = match read_type(column.ty) {
        Some(ty) => ty,
        None => Ty::Int,
    };
    Ok(Column { name, ty })
}

/// The number of the column that a raw table declares with this name.
pub fn time_number(columns: &[WrittenColumn], time: &[u8]) -> u16
    requires few { length columns.now ≤ 16 }
    ensures exact { result ≡ time_number columns.now time.now }
{
    match written_place(columns, time) {
        Some(number) => number as u16,
        None => 0,
    }
}

/// A source of a view.
pub fn declared_source(desc: &Desc, source: &WrittenSource) -> Src
    requires few { length desc.now.tables ≤ 64 }
    ensures exact { result ≡ declared_source desc.now source.now }
{
    Src {
        table: table_number(desc, source.table),
        span: match read_span(source) {
            Some(span) => span,
            None => OWN_TICKS,
        },
    }
}

fn table_number(desc: &Desc, name: &[u8]) -> u16
    requires few { length desc.now.tables ≤ 64 }
    ensures exact { result ≡ found (find_table desc.now name.now) }
{
    match place_of_table(&desc.tables, name) {
        Some(table) => table as u16,
        None => 0,
    }
}

/// The number of the column with this name.
fn column_number(columns: &[Column], name: &[u8]) -> u16
    requires few { length columns.now ≤ 16 }
    ensures exact { result ≡ column_number columns.now name.now }
{
    match place_of_column(columns, name) {
        Some(number) => number as u16,
        None => 0,
    }
}

/// The numbers of the columns with these names.
pub fn column_numbers(
    alloc: Global,
    columns: &[Column],
    names: &[&[u8]],
) -> Result<Vec<u16>, Memory>
    requires few { length columns.now ≤ 16 }
    ensures exact { IfOk result (λ numbers.
        numbers.items ≡ map (column_number columns.now) (map (λ name. name.now) names.now)) }
{
    let mut numbers = Vec::new(alloc);
    for name in names {
        numbers.push(column_number(columns, name))?;
    }
    Ok(numbers)
}

/// The conditions of a filter.
pub fn declared_conds(
    alloc: Global,
    columns: &[Column],
    conds: &[WrittenCond],
) -> Result<Vec<Cond>, Memory>
    requires few { length columns.now ≤ 16 }
    ensures exact { IfOk result (λ made.
        made.items ≡ filter_map (declared_cond columns.now) conds.now) }
{
    let mut made = Vec::new(alloc);
    for cond in conds {
        push_some(&mut made, declared_cond(alloc, columns, cond)?)?;
    }
    Ok(made)
}

fn push_some(conds: &mut Vec<Cond>, cond: Option<Cond>) -> Result<(), Memory>
    ensures ok { OnOk result (conds.new.items ≡ conds.old.items ++ cons_option cond []) }
{
    match cond {
        Some(cond) => Ok(conds.push(cond)?),
        None => Ok(()),
    }
}

fn declared_cond(
    alloc: Global,
    columns: &[Column],
    cond: &WrittenCond,
) -> Result<Option<Cond>, Memory>
    requires few { length columns.now ≤ 16 }
    ensures exact { IfOk result (λ made. made ≡ declared_cond columns.now cond.now) }
{
    let value = value_of(alloc, find_type(columns, cond.column), cond.literal)?;
    match value {
        Some(value) => Ok(Some(Cond {
            column: column_number(columns, cond.column),
            op: cond.op,
            value,
        })),
        None => Ok(None),
    }
}

fn value_of(alloc: Global, ty: Option<Ty>, literal: &[u8]) -> Result<Option<Cell>, Memory>
    ensures exact { IfOk result (λ value. value ≡ value_of ty literal.now) }
{
    match ty {
        Some(ty) => field_cell(alloc, ty, literal),
        None => Ok(None),
    }
}

/// The aggregates of a group.
pub fn declared_aggs(
    alloc: Global,
    columns: &[Column],
    aggs: &[WrittenAgg],
) -> Result<Vec<Agg>, Memory>
    requires few { length columns.now ≤ 16 }
    ensures exact { IfOk result (λ made. made.items ≡ map (declared_agg columns.now) aggs.now) }
{
    let mut made = Vec::new(alloc);
    for agg in aggs {
        made.push(declared_agg(columns, agg))?;
    }
    Ok(made)
}

pub fn declared_agg(columns: &[Column], agg: &WrittenAgg) -> Agg
    requires few { length columns.now ≤ 16 }
    ensures exact { result ≡ declared_agg columns.now agg.now }
{
    Agg {
        fun: agg.fun,
        column: match agg.column {
            Some(name) => column_number(columns, name),
            None => 0,
        },
    }
}

/// The pairs of a join.
pub fn declared_pairs(
    alloc: Global,
    left: &[Column],
    right: &[Column],
    on: &[WrittenPair],
) -> Result<Vec<Pair>, Memory>
    requires few_left { length left.now ≤ 16 }
    requires few_right { length right.now ≤ 16 }
    ensures exact { IfOk result (λ made.
        made.items ≡ map (declared_pair left.now right.now) on.now) }
{
    let mut made = Vec::new(alloc);
    for pair in on {
        made.push(Pair {
            left: column_number(left, pair.left),
            right: column_number(right, pair.right),
        })?;
    }
    Ok(made)
}
