//! The columns that a view has: those that it keeps of its source, computes, or joins.

ghost use Rattle.std.specs.Prelude.{◌≡◌, ◌≤◌, ◌++◌, length, map, option_map, slice_get, true, All, IfOk};
ghost use Rattle.std.specs.Prelude.{OnOk};
ghost use Rattle.std.specs.Str.{IsUtf8};
ghost use Rattle.desc_lines.specs.Names.{is_name};
ghost use Rattle.desc_lines.specs.Written.{WrittenAggOf};
ghost use Rattle.desc_types.specs.declared.table.Column.{Column as ColumnOf};
ghost use Rattle.desc_types.specs.Columns.{agg_type, computed_type, joined_columns, kept_columns};
ghost use Rattle.desc_types.specs.Columns.{prefixed};
ghost use Rattle.table_desc.specs.Declarations.{LeavesRoom, agg_column};

use crate::parts::{declared_agg, name_text};
use depot_cell::{Memory, Str, Ty};
use desc_lines::WrittenAgg;
use desc_types::{Agg, Column, Fun};
use std::alloc::Global;

/// The columns with these numbers.
pub fn kept_columns(
    alloc: Global,
    columns: &[Column],
    numbers: &[u16],
) -> Result<Vec<Column>, Memory>
    ensures exact { IfOk result (λ kept. kept.items ≡ kept_columns columns.now numbers.now) }
{
    let mut kept = Vec::new(alloc);
    for number in numbers {
        if let Some(column) = columns.get(usize::from(*number)) {
            kept.push(copy_column(alloc, column)?)?;
        }
    }
    Ok(kept)
}

fn copy_column(alloc: Global, column: &Column) -> Result<Column, Memory>
    ensures exact { IfOk result (λ copy. copy ≡ column.now) }
{
    Ok(Column {
        name: Str::from_bytes(alloc, column.name.as_bytes())?,
        ty: column.ty,
    })
}

/// The columns of a group: those of its keys, then those of its aggregates.
pub fn group_columns(
    alloc: Global,
    columns: &[Column],
    keys: &[u16],
    aggs: &[WrittenAgg],
) -> Result<Vec<Column>, Memory>
    requires few { length columns.now ≤ 16 }
    requires named { All (λ (agg : WrittenAggOf). is_name agg.name ≡ true) aggs.now }
    ensures exact { IfOk result (λ made. made.items
        ≡ kept_columns columns.now keys.now ++ map (agg_column columns.now) aggs.now) }
{
    let mut made = kept_columns(alloc, columns, keys)?;
    for agg in aggs {
        made.push(agg_column(alloc, columns, agg)?)?;
    }
    Ok(made)
}

fn agg_column(alloc: Global, columns: &[Column], agg: &WrittenAgg) -> Result<Column, Memory>
    requires few { length columns.now ≤ 16 }
    requires named { is_name agg.now.name ≡ true }
    ensures exact { IfOk result (λ made. made ≡ agg_column columns.now agg.now) }
{
    let name = name_text(alloc, agg.name)?;
    Ok(Column {
        name,
        ty: agg_type(columns, declared_agg(columns, agg)),
    })
}

fn agg_type(columns: &[Column], agg: Agg) -> Ty
    ensures exact { result ≡ agg_type columns.now agg }
{
    computed_type(agg.fun, type_at(columns, agg.column))
}

fn type_at(columns: &[Column], number: u16) -> Option<Ty>
    ensures exact { result
        ≡ option_map (λ (column : ColumnOf). column.ty) (slice_get columns.now number) }
{
    match columns.get(usize::from(number)) {
        Some(column) => Some(column.ty),
        None => None,
    }
}

fn computed_type(fun: Fun, ty: Option<Ty>) -> Ty
    ensures exact { result ≡ computed_type fun ty }
{
    match (fun, ty) {
        (Fun::Least | Fun::Greatest, Some(ty)) => ty,
        _ => Ty::Int,
    }
}

/// The columns of a join: the left ones under `l_`, then the right ones under `r_`.
pub fn joined_columns(
    alloc: Global,
    left: &[Column],
    right: &[Column],
) -> Result<Vec<Column>, Memory>
    requires room_left { All LeavesRoom left.now }
    requires room_right { All LeavesRoom right.now }
    ensures exact { IfOk result (λ made. made.items ≡ joined_columns left.now right.now) }
{
    let mut made = Vec::new(alloc);
    push_prefixed(alloc, &mut made, b"l_", left)?;
    push_prefixed(alloc, &mut made, b"r_", right)?;
    Ok(made)
}

fn push_prefixed(
    alloc: Global,
    made: &mut Vec<Column>,
    prefix: &[u8; 2],
    columns: &[Column],
) -> Result<(), Memory>
    requires text { IsUtf8 prefix.now }
    requires room { All LeavesRoom columns.now }
    ensures ok { OnOk result (
        made.new.items ≡ made.old.items ++ map (prefixed prefix.now) columns.now) }
{
    for column in columns {
        made.push(prefixed(alloc, prefix, column)?)?;
    }
    Ok(())
}

fn prefixed(alloc: Global, prefix: &[u8; 2], column: &Column) -> Result<Column, Memory>
    requires text { IsUtf8 prefix.now }
    requires room { LeavesRoom column.now }
    ensures exact { IfOk result (λ made. made ≡ prefixed prefix.now column.now) }
{
    let mut name = Vec::from_slice(alloc, prefix)?;
    name.extend_from_slice(column.name.as_bytes())?;
    Ok(Column {
        name: Str::from_bytes(alloc, &name)?,
        ty: column.ty,
    })
}
