//! Types that do not fit: the test of `BadType` on a table's line.

ghost use Rattle.std.specs.Prelude.{◌≡◌, is_none, is_some};
ghost use Rattle.std.specs.List.{list_any};
ghost use Rattle.depot_cell.specs.Numbers.{int_of};
ghost use Rattle.desc_lines.specs.Written.{WrittenColumnOf};
ghost use Rattle.desc_lines.specs.WrittenKinds.{written_kind};
ghost use Rattle.desc_causes.specs.Causes.{has_bad_type, has_odd_literal, have_two_types, is_text};
ghost use Rattle.desc_causes.specs.Causes.{is_odd_literal, is_odd_pair, is_text_sum, sums_texts};
ghost use Rattle.desc_causes.specs.Causes.{time_type, type_over};
ghost use Rattle.desc_types.specs.Lookups.{read_type};

use crate::utf8::is_utf8;
use crate::written::written_place;
use depot_cell::{Ty, read_cell};
use desc_lines::{WrittenAgg, WrittenColumn, WrittenCond, WrittenKind, WrittenPair};
use desc_types::{Column, Desc, Fun, find_type, read_type, source_columns};
use std::alloc::Global;

/// The most bytes of a text.
const MOST_BYTES: usize = 255;

/// Whether a type is none, or a column has another type than its place wants.
pub fn has_bad_type(alloc: Global, desc: &Desc, kind: &WrittenKind) -> bool
    ensures exact { result ≡ has_bad_type desc.now (written_kind kind.now) }
{
    match kind {
        WrittenKind::Raw { time, columns, .. } => {
            has_odd_type(columns) || has_text_time(columns, time)
        }
        WrittenKind::Filter { source, conds, .. } => {
            have_odd_literal(alloc, source_columns(desc, source), conds)
        }
        WrittenKind::Group { source, aggs, .. } => {
            have_text_sum(source_columns(desc, source), aggs)
        }
        WrittenKind::Join { left, right, on } => {
            let left = source_columns(desc, left);
            have_odd_pair(left, source_columns(desc, right), on)
        }
    }
}

fn has_odd_type(columns: &[WrittenColumn]) -> bool
    ensures exact { result
        ≡ list_any (λ (column : WrittenColumnOf). is_none (read_type column.ty)) columns.now }
{
    columns.iter().any(|column| read_type(column.ty).is_none())
}

fn has_text_time(columns: &[WrittenColumn], time: &[u8]) -> bool
    ensures exact { result ≡ is_text (time_type columns.now time.now) }
{
    is_text(time_type(columns, time))
}

fn time_type(columns: &[WrittenColumn], time: &[u8]) -> Option<Ty>
    ensures exact { result ≡ time_type columns.now time.now }
{
    match written_place(columns, time) {
        Some(place) => {
            let column = &columns[place];
            read_type(column.ty)
        }
        None => None,
    }
}

fn is_text(ty: Option<Ty>) -> bool
    ensures exact { result ≡ is_text ty }
{
    match ty {
        Some(Ty::Text) => true,
        _ => false,
    }
}

fn have_odd_literal(alloc: Global, columns: &[Column], conds: &[WrittenCond]) -> bool
    ensures exact { result ≡ list_any (has_odd_literal columns.now) conds.now }
{
    conds.iter().any(|cond| is_odd_literal(alloc, find_type(columns, cond.column), cond.literal))
}

fn is_odd_literal(alloc: Global, ty: Option<Ty>, literal: &[u8]) -> bool
    ensures exact { result ≡ is_odd_literal ty literal.now }
{
    match ty {
        Some(Ty::Int) => !is_int(alloc, literal),
        Some(Ty::Text) => literal.len() > MOST_BYTES || !is_utf8(literal),
        None => false,
    }
}

// Reading an int takes no memory.
fn is_int(alloc: Global, literal: &[u8]) -> bool
    ensures exact { result ≡ is_some (int_of literal.now) }
{
    match read_cell(alloc, Ty::Int, literal) {
        Ok(_) => true,
        Err(_) => false,
    }
}

fn have_text_sum(columns: &[Column], aggs: &[WrittenAgg]) -> bool
    ensures exact { result ≡ list_any (is_text_sum columns.now) aggs.now }
{
    aggs.iter()
        .any(|agg| sums_texts(agg.fun, type_over(columns, agg)))
}

fn type_over(columns: &[Column], agg: &WrittenAgg) -> Option<Ty>
    ensures exact { result ≡ type_over columns.now agg.now.column }
{
    match agg.column {
        Some(name) => find_type(columns, name),
        None => None,
    }
}

fn sums_texts(fun: Fun, ty: Option<Ty>) -> bool
    ensures exact { result ≡ sums_texts fun ty }
{
    match (fun, ty) {
        (Fun::Sum, Some(Ty::Text)) => true,
        _ => false,
    }
}

fn have_odd_pair(left: &[Column], right: &[Column], on: &[WrittenPair]) -> bool
    ensures exact { result ≡ list_any (is_odd_pair left.now right.now) on.now }
{
    on.iter().any(|pair| {
        have_two_types(find_type(left, pair.left), find_type(right, pair.right))
    })
}

fn have_two_types(left: Option<Ty>, right: Option<Ty>) -> bool
    ensures exact { result ≡ have_two_types left right }
{
    match (left, right) {
        (Some(Ty::Int), Some(Ty::Text)) => true,
        (Some(Ty::Text), Some(Ty::Int)) => true,
        _ => false,
    }
}
