//! A whole description, line by line.

ghost use Rattle.std.specs.Prelude.{◌≡◌, ◌<◌, Result, [], ◌∷◌, length, position, Some, ◌==◌};
ghost use Rattle.std.specs.Prelude.{IfOk, IfSome};
ghost use Rattle.std.specs.Io.BufRead.{strip_last};
ghost use Rattle.desc_lines.specs.WrittenLines.{written_line};
ghost use Rattle.table_desc.specs.Described.{HasAccepted};
ghost use Rattle.table_desc.specs.Described.{Reads, described, is_line_text, no_desc};
ghost use Rattle.table_desc.specs.SaidLines.{IsSaidLine};
ghost use Rattle.table_desc.specs.Described.{read_of, with_line, with_lines, with_written};

use crate::declaring::with_declared;
use crate::fault::{BadLine, DescFault};
use depot_cell::Memory;
use desc_causes::{DescCause, cause_of, is_utf8};
use desc_lines::{WrittenLine, is_skipped, read_line, words_of};
use desc_types::{AcceptedDesc, Desc};
use std::alloc::Global;

/// The description that a text declares, or its first bad line.
///
/// A line ends with LF or with CR and LF. What follows the last LF is a line as it stands.
pub fn read_desc(alloc: Global, bytes: &[u8]) -> Result<AcceptedDesc, DescFault>
    ensures exact { Reads result (described bytes.now) }
{
    let mut accepted = no_desc(alloc);
    let mut rest = bytes;
    let mut number = 1;
    while let Some(end) = line_end(rest) {
        accepted = with_numbered(alloc, accepted, number, without_cr(&rest[..end]))?;
        rest = &rest[end + 1..];
        number += 1;
    }
    with_numbered(alloc, accepted, number, rest)
}

/// The description that declares nothing.
pub(crate) fn no_desc(alloc: Global) -> AcceptedDesc
    ensures exact { result.desc ≡ no_desc }
{
    AcceptedDesc::new(Desc {
        feeds: Vec::new(alloc),
        tables: Vec::new(alloc),
    })
}

fn line_end(text: &[u8]) -> Option<usize>
    ensures exact { result ≡ position (λ byte. byte == 10) text.now }
    ensures within { IfSome result (λ end. end < length text.now) }
{
    text.iter().position(|byte| *byte == b'\n')
}

fn without_cr(line: &[u8]) -> &[u8]
    ensures exact { result.now ≡ strip_last 13 line.now }
{
    if line.last() == Some(&b'\r') {
        &line[..line.len() - 1]
    } else {
        line
    }
}

/// A description with what the line with this number declares.
pub(crate) fn with_numbered(
    alloc: Global,
    accepted: AcceptedDesc,
    number: u64,
    line: &[u8],
) -> Result<AcceptedDesc, DescFault>
    ensures exact { Reads result (with_lines number accepted.desc (line.now ∷ [])) }
{
    match with_line(alloc, accepted, line)? {
        Ok(accepted) => Ok(accepted),
        Err(cause) => Err(DescFault::At(BadLine {
            line: number,
            cause,
        })),
    }
}

/// A description with what a line declares, or why the line is bad.
fn with_line(
    alloc: Global,
    accepted: AcceptedDesc,
    line: &[u8],
) -> Result<Result<AcceptedDesc, DescCause>, Memory>
    ensures exact { IfOk result (λ read. read_of read ≡ with_line accepted.desc line.now) }
{
    let words = words_of(alloc, line)?;
    if is_skipped(&words) {
        Ok(Ok(accepted))
    } else if is_line_text(line) {
        match read_line(alloc, &words)? {
            Some(line) => with_written(alloc, accepted, &line),
            None => Ok(Err(DescCause::BadLine)),
        }
    } else {
        Ok(Err(DescCause::BadLine))
    }
}

/// Whether bytes can be a line of a description: a text without an LF.
fn is_line_text(line: &[u8]) -> bool
    ensures exact { result ≡ is_line_text line.now }
{
    is_utf8(line) && line_end(line).is_none()
}

fn with_written(
    alloc: Global,
    accepted: AcceptedDesc,
    line: &WrittenLine,
) -> Result<Result<AcceptedDesc, DescCause>, Memory>
    requires said { IsSaidLine (written_line line.now) }
    ensures exact { IfOk result (λ read.
        read_of read ≡ with_written accepted.desc (Some (written_line line.now))) }
{
    match cause_of(alloc, &accepted.desc, line)? {
        Some(cause) => Ok(Err(cause)),
        None => Ok(Ok(AcceptedDesc::new(with_declared(alloc, accepted, line)?))),
    }
}

/// A law: what a text declares is accepted.
pub fn described_is_accepted()
    ensures law { HasAccepted }
{}
