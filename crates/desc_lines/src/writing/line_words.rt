//! A line that is being written, word by word.

ghost use Rattle.std.specs.Prelude.{List, ℕ, ◌≡◌, ◌++◌, ◌∷◌, [], codes, flat_map, map, IfOk};
ghost use Rattle.desc_lines.specs.Cuts.{joined};
ghost use Rattle.desc_lines.specs.LineTexts.{agg_words, column_word, cond_words, conds_words};
ghost use Rattle.desc_lines.specs.LineTexts.{fun_word, op_word, pair_word, source_words};
ghost use Rattle.desc_lines.specs.LineTexts.{spaced_after};

use crate::fun::Fun;
use crate::parts::{WrittenAgg, WrittenColumn, WrittenCond, WrittenPair, WrittenSource};
use depot_cell::{Memory, Op};
use std::alloc::Global;
use std::marker::Model;

/// The words so far, with single spaces between them.
#[derive(Drop)]
pub struct LineWords {
    bytes: Vec<u8>,
}

impl Model for LineWords {
    ghost Value = { List ℕ };

    ghost view = { λ line. line.bytes.items };
}

impl LineWords {
    /// A line of one word.
    pub fn new(alloc: Global, word: &[u8]) -> Result<LineWords, Memory>
        ensures exact { IfOk result (λ line. line ≡ word.now) }
    {
        Ok(LineWords {
            bytes: Vec::from_slice(alloc, word)?,
        })
    }

    /// The line with a word after it.
    pub fn word(self, word: &[u8]) -> Result<LineWords, Memory>
        ensures exact { IfOk result (λ line. line ≡ self ++ 32 ∷ word.now) }
    {
        let mut bytes = self.bytes;
        bytes.push(b' ')?;
        bytes.extend_from_slice(word)?;
        Ok(LineWords { bytes })
    }

    /// The line with a word after it that has a sign between its parts.
    fn joined(self, left: &[u8], sign: u8, right: &[u8]) -> Result<LineWords, Memory>
        ensures exact { IfOk result (λ line. line ≡ self ++ 32 ∷ joined left.now sign right.now) }
    {
        let mut bytes = self.word(left)?.bytes;
        bytes.push(sign)?;
        bytes.extend_from_slice(right)?;
        Ok(LineWords { bytes })
    }

    /// The line with words after it.
    pub fn words(self, words: &[&[u8]]) -> Result<LineWords, Memory>
        ensures exact { IfOk result (λ line.
            line ≡ self ++ spaced_after (map (λ word. word.now) words.now)) }
    {
        let mut line = self;
        for word in words {
            line = line.word(word)?;
        }
        Ok(line)
    }

    /// The line with columns after it: `C:TYPE ..`.
    pub fn columns(self, columns: &[WrittenColumn]) -> Result<LineWords, Memory>
        ensures exact { IfOk result (λ line.
            line ≡ self ++ spaced_after (map column_word columns.now)) }
    {
        let mut line = self;
        for column in columns {
            line = line.joined(column.name, b':', column.ty)?;
        }
        Ok(line)
    }

    /// The line with a source after it: `S LO HI`.
    pub fn source(self, source: &WrittenSource) -> Result<LineWords, Memory>
        ensures exact { IfOk result (λ line.
            line ≡ self ++ spaced_after (source_words source.now)) }
    {
        self.words(&[source.table, source.lo, source.hi])
    }

    /// The line with conditions after it: `C OP LIT [and C OP LIT ..]`.
    pub fn conds(self, conds: &[WrittenCond]) -> Result<LineWords, Memory>
        ensures exact { IfOk result (λ line. line ≡ self ++ spaced_after (conds_words conds.now)) }
    {
        match conds {
            [first, others @ ..] => self.cond(first)?.more_conds(others),
            [] => Ok(self),
        }
    }

    fn more_conds(self, conds: &[WrittenCond]) -> Result<LineWords, Memory>
        ensures exact { IfOk result (λ line. line
            ≡ self ++ spaced_after (flat_map (λ cond. codes "and" ∷ cond_words cond) conds.now)) }
    {
        let mut line = self;
        for cond in conds {
            line = line.word(b"and")?.cond(cond)?;
        }
        Ok(line)
    }

    fn cond(self, cond: &WrittenCond) -> Result<LineWords, Memory>
        ensures exact { IfOk result (λ line. line ≡ self ++ spaced_after (cond_words cond.now)) }
    {
        self.word(cond.column)?
            .word(op_word(cond.op))?
            .word(cond.literal)
    }

    /// The line with aggregates after it: `AGG as NAME ..`.
    pub fn aggs(self, aggs: &[WrittenAgg]) -> Result<LineWords, Memory>
        ensures exact { IfOk result (λ line.
            line ≡ self ++ spaced_after (flat_map agg_words aggs.now)) }
    {
        let mut line = self;
        for agg in aggs {
            line = line.agg(agg)?;
        }
        Ok(line)
    }

    fn agg(self, agg: &WrittenAgg) -> Result<LineWords, Memory>
        ensures exact { IfOk result (λ line. line ≡ self ++ spaced_after (agg_words agg.now)) }
    {
        let fun = fun_word(agg.fun);
        match agg.column {
            Some(column) => self.joined(fun, b':', column)?.word(b"as")?.word(agg.name),
            None => self.word(fun)?.word(b"as")?.word(agg.name),
        }
    }

    /// The line with pairs after it: `C=C ..`.
    pub fn pairs(self, pairs: &[WrittenPair]) -> Result<LineWords, Memory>
        ensures exact { IfOk result (λ line.
            line ≡ self ++ spaced_after (map pair_word pairs.now)) }
    {
        let mut line = self;
        for pair in pairs {
            line = line.joined(pair.left, b'=', pair.right)?;
        }
        Ok(line)
    }

    /// The text of the line: LF at its end.
    pub fn end(self) -> Result<Vec<u8>, Memory>
        ensures exact { IfOk result (λ text. text.items ≡ self ++ 10 ∷ []) }
    {
        let mut bytes = self.bytes;
        bytes.push(b'\n')?;
        Ok(bytes)
    }
}

fn op_word(op: Op) -> &'static [u8]
    ensures exact { result.now ≡ op_word op }
{
    match op {
        Op::Eq => b"=",
        Op::Ne => b"!=",
        Op::Lt => b"<",
        Op::Le => b"<=",
        Op::Gt => b">",
        Op::Ge => b">=",
    }
}

fn fun_word(fun: Fun) -> &'static [u8]
    ensures exact { result.now ≡ fun_word fun }
{
    match fun {
        Fun::Sum => b"sum",
        Fun::Count => b"count",
        Fun::Least => b"least",
        Fun::Greatest => b"greatest",
    }
}
