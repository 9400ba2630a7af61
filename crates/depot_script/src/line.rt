//! A line of a reply, as it is written piece by piece.

ghost use Rattle.std.specs.Prelude.{List, ℕ, ◌≡◌, ◌++◌, [], IfOk, codes, decimal};
ghost use Rattle.depot_script.specs.Texts.{line_end, mark_text, record_text};

use depot_cell::Memory;
use itoa::Buffer;
use std::alloc::Global;
use std::marker::Model;
use view_meaning::Mark;

/// A line that is being written. It is seen as the text so far: the lines before it, and what there
/// is of this one.
#[derive(Drop)]
pub struct Line {
    bytes: Vec<u8>,
}

impl Model for Line {
    ghost Value = { List ℕ };

    ghost view = { λ line. line.bytes.items };
}

impl Line {
    /// The first line of a text.
    pub fn new(alloc: Global) -> Line
        ensures exact { result ≡ [] }
    {
        Line {
            bytes: Vec::new(alloc),
        }
    }

    /// The line with a word after it.
    fn word(self, word: &[u8]) -> Result<Line, Memory>
        ensures exact { IfOk result (λ line. line ≡ self ++ word.now) }
    {
        let mut bytes = self.bytes;
        bytes.extend_from_slice(word)?;
        Ok(Line { bytes })
    }

    /// The line with a label after it, and then a name.
    pub fn name(self, label: &[u8], name: &[u8]) -> Result<Line, Memory>
        ensures exact { IfOk result (λ line. line ≡ self ++ label.now ++ name.now) }
    {
        self.word(label)?.word(name)
    }

    /// The line with a label after it, and then a number in the shortest decimal form.
    pub fn number(self, label: &[u8], number: u64) -> Result<Line, Memory>
        ensures exact { IfOk result (λ line. line ≡ self ++ label.now ++ decimal number) }
    {
        self.name(label, Buffer::new().format(number).as_bytes())
    }

    /// The line with the number of a record after it, if there is one.
    pub fn record(self, at: Option<u64>) -> Result<Line, Memory>
        ensures exact { IfOk result (λ line. line ≡ self ++ record_text at) }
    {
        match at {
            Some(at) => self.number(b" record ", at),
            None => Ok(self),
        }
    }

    /// The line with a mark after it.
    pub fn mark(self, mark: Mark) -> Result<Line, Memory>
        ensures exact { IfOk result (λ line. line ≡ self ++ codes " mark " ++ mark_text mark) }
    {
        self.name(b" mark ", mark_word(mark))
    }

    /// The next line of the text, after the end of this one.
    pub fn next_line(self) -> Result<Line, Memory>
        ensures exact { IfOk result (λ line. line ≡ self ++ line_end) }
    {
        self.word(b"\n")
    }

    /// The text, after the end of the line.
    pub fn end(self) -> Result<Vec<u8>, Memory>
        ensures exact { IfOk result (λ text. text.items ≡ self ++ line_end) }
    {
        Ok(self.next_line()?.into_text())
    }

    /// The text so far.
    pub fn into_text(self) -> Vec<u8>
        ensures exact { result.items ≡ self }
    {
        self.bytes
    }
}

fn mark_word(mark: Mark) -> &'static [u8]
    ensures exact { result.now ≡ mark_text mark }
{
    match mark {
        Mark::Open => b"open",
        Mark::Closed => b"closed",
        Mark::Complete => b"complete",
    }
}
