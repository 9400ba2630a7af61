//! The lines of a description so far, for a reader that gets them one by one.

ghost use Rattle.std.specs.Prelude.{◌≡◌, ◌<◌, ◌^◌, [], ◌∷◌, IfOk};
ghost use Rattle.table_desc.specs.Described.{read_of, with_lines};
ghost use Rattle.table_desc.specs.Drafts.{DraftsTexts, no_lines, with_more};

use crate::describing::{no_desc, with_numbered};
use crate::fault::{BadLine, DescFault};
use depot_cell::Memory;
use desc_types::AcceptedDesc;
use std::alloc::Global;
use std::marker::Model;

/// The lines of a description so far. Make one by [`Draft::new`], give it the lines in order by
/// [`Draft::with_line`], and ask at the end what they declare by [`Draft::into_read`].
#[derive(Debug, Drop)]
pub struct Draft {
    lines: u64,
    read: Result<AcceptedDesc, BadLine>,
}

impl Model for Draft {
    ghost use Rattle.table_desc.specs.Described.{read_of};
    ghost use Rattle.table_desc.specs.Drafts.{DraftOf};

    ghost Value = { DraftOf };

    ghost view = { λ draft. record {
      lines = draft.lines;
      read = read_of draft.read;
    } };
}

impl Draft {
    /// No lines.
    pub fn new(alloc: Global) -> Draft
        ensures exact { result ≡ no_lines }
    {
        Draft {
            lines: 0,
            read: Ok(no_desc(alloc)),
        }
    }

    /// The lines with one more, which is given without its LF. After a bad line no line is looked
    /// at.
    pub fn with_line(self, alloc: Global, line: &[u8]) -> Result<Draft, Memory>
        requires few { self.lines < 2 ^ 40 }
        ensures exact { IfOk result (λ draft. draft ≡ with_more self line.now) }
    {
        let lines = self.lines + 1;
        let read = match self.read {
            Ok(accepted) => read_next(alloc, accepted, lines, line)?,
            Err(bad) => Err(bad),
        };
        Ok(Draft { lines, read })
    }

    /// What the lines declare, or the first bad one.
    pub fn into_read(self) -> Result<AcceptedDesc, BadLine>
        ensures exact { read_of result ≡ self.read }
    {
        self.read
    }
}

/// A description with what the line with this number declares, or the line as the bad one.
fn read_next(
    alloc: Global,
    accepted: AcceptedDesc,
    number: u64,
    line: &[u8],
) -> Result<Result<AcceptedDesc, BadLine>, Memory>
    ensures exact { IfOk result (λ read.
        read_of read ≡ with_lines number accepted.desc (line.now ∷ [])) }
{
    match with_numbered(alloc, accepted, number, line) {
        Ok(accepted) => Ok(Ok(accepted)),
        Err(DescFault::At(bad)) => Ok(Err(bad)),
        Err(DescFault::Memory) => Err(Memory),
    }
}

/// A law: the lines of a text, given one by one, declare what the text does.
pub fn texts_are_drafted()
    ensures law { DraftsTexts }
{}
