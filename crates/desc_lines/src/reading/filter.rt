//! The line of a filter.

ghost use Rattle.std.specs.Prelude.{◌≡◌, List, Some, map, option_map, IfOk};
ghost use Rattle.desc_lines.specs.WrittenKinds.{written_kind};
ghost use Rattle.desc_lines.specs.Written.{Filter};
ghost use Rattle.desc_lines.specs.Cuts.{if_some};
ghost use Rattle.desc_lines.specs.Lines.{cond_of, filter_of, op_of, selection_of};

use crate::kind::WrittenKind;
use crate::parts::{WrittenCond, WrittenSource};
use crate::reading::{copy_words, source_of};
use crate::words::is_word;
use depot_cell::{Memory, Op};
use std::alloc::Global;
use std::marker::Model;

/// What a filter takes of its source: the rows that meet the conditions, and the kept columns.
#[derive(Drop)]
struct Selection<'a> {
    conds: Vec<WrittenCond<'a>>,
    keep: Vec<&'a [u8]>,
}

impl<'a> Model for Selection<'a> {
    ghost use Rattle.std.specs.Prelude.{map};
    ghost use Rattle.desc_lines.specs.Lines.{SelectionOf};

    ghost Value = { SelectionOf };

    ghost view = { λ selection. record {
      conds = selection.conds.items;
      keep = map (λ word. word.now) selection.keep.items;
    } };
}

/// The filter that words say: `S LO HI where C OP LIT [and C OP LIT ..] keep C ..`.
pub fn read_filter<'a>(alloc: Global, words: &[&'a [u8]]) -> Result<Option<WrittenKind<'a>>, Memory>
    ensures exact { IfOk result (λ kind.
        option_map written_kind kind ≡ filter_of (map (λ word. word.now) words.now)) }
{
    match words {
        [table, lo, hi, given, words @ ..] => {
            if is_word(given, b"where") {
                let source = source_of(table, lo, hi);
                Ok(filter_kind(source, read_selection(alloc, words)?))
            } else {
                Ok(None)
            }
        }
        _ => Ok(None),
    }
}

fn filter_kind<'a>(
    source: WrittenSource<'a>,
    selection: Option<Selection<'a>>,
) -> Option<WrittenKind<'a>>
    ensures exact { option_map written_kind result
        ≡ option_map (λ selection. Filter source.entry selection.conds selection.keep)
        selection.entry }
{
    match selection {
        Some(selection) => Some(WrittenKind::Filter {
            source,
            conds: selection.conds,
            keep: selection.keep,
        }),
        None => None,
    }
}

fn read_selection<'a>(alloc: Global, words: &[&'a [u8]]) -> Result<Option<Selection<'a>>, Memory>
    ensures exact { IfOk result (λ selection.
        selection ≡ selection_of (map (λ word. word.now) words.now)) }
{
    let mut conds = Vec::new(alloc);
    let mut words = words;
    while let [column, op, literal, next, others @ ..] = words {
        match read_cond(column, op, literal) {
            Some(cond) => conds.push(cond)?,
            None => return Ok(None),
        }
        if is_word(next, b"keep") {
            return read_keep(alloc, conds, others);
        }
        if !is_word(next, b"and") {
            return Ok(None);
        }
        words = others;
    }
    Ok(None)
}

fn read_keep<'a>(
    alloc: Global,
    conds: Vec<WrittenCond<'a>>,
    words: &[&'a [u8]],
) -> Result<Option<Selection<'a>>, Memory>
    ensures exact { IfOk result (λ selection. selection
        ≡ if_some words.now (Some (record {
          conds = conds.entry.items;
          keep = map (λ word. word.now) words.now;
        }))) }
{
    if words.is_empty() {
        return Ok(None);
    }
    let keep = copy_words(alloc, words)?;
    Ok(Some(Selection { conds, keep }))
}

fn read_cond<'a>(column: &'a [u8], op: &[u8], literal: &'a [u8]) -> Option<WrittenCond<'a>>
    ensures exact { result ≡ cond_of column.now op.now literal.now }
{
    match read_op(op) {
        Some(op) => Some(WrittenCond {
            column,
            op,
            literal,
        }),
        None => None,
    }
}

fn read_op(word: &[u8]) -> Option<Op>
    ensures exact { result ≡ op_of word.now }
{
    if is_word(word, b"=") {
        Some(Op::Eq)
    } else if is_word(word, b"!=") {
        Some(Op::Ne)
    } else if is_word(word, b"<") {
        Some(Op::Lt)
    } else if is_word(word, b"<=") {
        Some(Op::Le)
    } else if is_word(word, b">") {
        Some(Op::Gt)
    } else if is_word(word, b">=") {
        Some(Op::Ge)
    } else {
        None
    }
}
