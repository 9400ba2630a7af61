//! Lines of descriptions: their words, their shapes, and the text that writes them again.

use depot_cell::Memory;
use desc_lines::{
    begins_comment, is_go, is_name, is_skipped, is_word, push_line, read_line, words_of,
};
use std::alloc::Global;
use std::test::Fail;

/// How many words a line has, whether it is `go`, and whether it is skipped.
fn words_said(alloc: Global, line: &str) -> Result<(usize, bool, bool), Memory> {
    let words = words_of(alloc, line.as_bytes())?;
    Ok((words.len(), is_go(&words), is_skipped(&words)))
}

#[test]
fn lines_are_go_or_skipped_or_neither(rt: HostRuntime) -> Result<(), Fail> {
    for &(line, count, goes, skipped) in &[
        ("go", 1, true, false),
        (" go\t", 1, true, false),
        ("go on", 2, false, false),
        ("Go", 1, false, false),
        ("go\r", 1, false, false),
        ("", 0, false, true),
        (" \t", 0, false, true),
        (" #go \t on", 2, false, true),
        ("go #", 2, false, false),
    ] {
        let said = words_said(rt.alloc(), line)?;
        assert!(rt; said == (count, goes, skipped), "at {line}");
    }
    Ok(())
}

#[test]
fn names_begin_with_a_letter_and_are_not_reserved(rt: HostRuntime) {
    for &(word, want) in &[
        ("a", true),
        ("Z_9", true),
        ("abcdefghijklmnopqrstuvwxyzABCDEF", true),
        ("abcdefghijklmnopqrstuvwxyzABCDEFG", false),
        ("by", false),
        ("where", false),
        ("By", true),
        ("1a", false),
        ("_a", false),
        ("a-b", false),
        ("", false),
    ] {
        assert!(rt; is_name(word.as_bytes()) == want, "at {word}");
    }
}

#[test]
fn words_may_be_empty(rt: HostRuntime) {
    assert!(rt; begins_comment(b"#a") && !begins_comment(b""));
    assert!(rt; is_word(b"", b"") && !is_word(b"a", b"A"));
}

/// The text of a line that is read, or nothing if it has no shape.
fn written_again(alloc: Global, line: &str) -> Result<Vec<u8>, Memory> {
    let words = words_of(alloc, line.as_bytes())?;
    let mut text = Vec::new(alloc);
    if let Some(line) = read_line(alloc, &words)? {
        push_line(alloc, &mut text, &line)?;
    }
    Ok(text)
}

/// Whether a line is read, and written as this text and an LF.
fn is_written(alloc: Global, line: &str, text: &str) -> Result<bool, Memory> {
    let mut want = Vec::from_slice(alloc, text.as_bytes())?;
    want.push(b'\n')?;
    Ok(is_word(&written_again(alloc, line)?, &want))
}

#[test]
fn each_shape_is_written_as_it_was_read(rt: HostRuntime) -> Result<(), Fail> {
    for line in &[
        "feed f",
        "feed header header",
        "raw r feed f width 60 time at cols at:int host:text",
        "view v width 60 filter r 0 -60 where n >= -5 and k = and and n != 0 keep k n",
        "view g width 60 group r 0 0 by k n agg sum:n as s count as c least:at as a",
        "view j width 60 join v 0 0 g -120 60 on k=k n=s",
        // odd parts, of which the later causes speak
        "raw r feed f width w time t cols :: a:b:c",
        "view g width 60 group r 0 0 by k agg sum: as s greatest:a:b as as",
        "view j width 60 join v 0 0 g 0 0 on == a==",
    ] {
        assert!(rt; is_written(rt.alloc(), line, line)?, "at {line}");
    }
    assert!(rt; is_written(rt.alloc(), "  feed\t f  \t", "feed f")?);
    Ok(())
}

#[test]
fn other_lines_have_no_shape(rt: HostRuntime) -> Result<(), Fail> {
    for line in &[
        "",
        "go",
        "feed",
        "feed f Header",
        "feed f header on",
        "raw r feed f width 1 time t cols",
        "raw r feed f width 1 time t cols at",
        "raw r feed f width 1 time t colls a:int",
        "view v width 1 filter r 0 0 where keep k",
        "view v width 1 filter r 0 0 where n = 1 keep",
        "view v width 1 filter r 0 0 where n == 1 keep n",
        "view v width 1 filter r 0 0 where n = 1 or n = 2 keep n",
        "view v width 1 group r 0 0 by agg count as c",
        "view v width 1 group r 0 0 by k agg",
        "view v width 1 group r 0 0 by k count as c",
        "view v width 1 group r 0 0 by k agg count:n as c",
        "view v width 1 group r 0 0 by k agg sum as c",
        "view v width 1 group r 0 0 by k agg count is c",
        "view v width 1 group r 0 0 by k agg agg count as c",
        "view v width 1 join a 0 0 b 0 0 on",
        "view v width 1 join a 0 0 b 0 0 on k",
        "view v width 1 sort r 0 0 by k",
    ] {
        assert!(rt; written_again(rt.alloc(), line)?.is_empty(), "at {line}");
    }
    Ok(())
}
