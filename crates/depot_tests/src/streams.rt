//! Sources, sinks, lines and bodies.

use depot_io::{
    Failed, Line, LineFault, LineReader, Memory, NeverSource, PutTo, ReadAhead, Sink, Source,
    StdSink, StdSource, VecSink, VecSource, WriteFault, put_all,
};
use std::alloc::Global;
use std::io;
use std::io::Write;
use std::test::Fail;

fn reader_of(alloc: Global, bytes: &[u8]) -> Result<LineReader<NeverSource>, Memory> {
    match LineReader::new(alloc, NeverSource::new(bytes.to_vec(alloc)?)) {
        Ok(reader) => Ok(reader),
        Err((_, Memory)) => Err(Memory),
    }
}

/// The lines of an input, one after the other, each with a `|` after it.
fn lines_of(alloc: Global, bytes: &[u8]) -> Result<Vec<u8>, Fail> {
    let mut reader = reader_of(alloc, bytes)?;
    let mut seen = Vec::new(alloc);
    for _ in 0..100 {
        if reader.next_line()? == Line::End {
            break;
        }
        seen.extend_from_slice(reader.line())?;
        seen.push(b'|')?;
    }
    Ok(seen)
}

#[test]
fn one_cr_is_dropped_before_an_lf_alone(rt: HostRuntime) -> Result<(), Fail> {
    for &(input, want) in &[
        ("", ""),
        ("\n", "|"),
        ("go\nend\n", "go|end|"),
        ("go\r\nend\r\n", "go|end|"),
        ("go\r\r\nend", "go\r|end|"),
        ("\r\n\rgo\r", "|\rgo\r|"),
        ("g\ro\n\n", "g\ro||"),
    ] {
        let seen = lines_of(rt.alloc(), input.as_bytes())?;
        assert!(rt; seen.as_slice() == want.as_bytes(), "at {input:?}");
    }
    Ok(())
}

/// What is read as the first line, if a byte comes so often and then an end.
fn long_line(alloc: Global, count: usize, end: &[u8]) -> Result<Result<Line, LineFault>, Memory> {
    let mut bytes = vec![in alloc; b'a'; count]?;
    bytes.extend_from_slice(end)?;
    Ok(reader_of(alloc, &bytes)?.next_line())
}

#[test]
fn a_line_has_at_most_4_096_bytes(rt: HostRuntime) -> Result<(), Fail> {
    for &(count, end, want) in &[
        (4_096, "\n", Ok(Line::Text { len: 4_096 })),
        (4_096, "", Ok(Line::Text { len: 4_096 })),
        (4_095, "\r\n", Ok(Line::Text { len: 4_095 })),
        (4_096, "\r\n", Err(LineFault::LongLine)),
        (4_097, "\n", Err(LineFault::LongLine)),
    ] {
        let line = long_line(rt.alloc(), count, end.as_bytes())?;
        assert!(rt; line == want, "at {count} and {end:?}");
    }
    Ok(())
}

/// What of a line and a body is seen.
#[derive(Drop)]
struct Seen {
    ended: Result<(), LineFault>,
    body: Vec<u8>,
    /// Whether the line is still there, with so many bytes taken as it and the body have.
    is_kept: bool,
}

/// Reads the line `ab` of a source, and then a body of so many bytes.
fn read_body(alloc: Global, source: &mut VecSource, size: u64) -> Result<Seen, Memory> {
    let Ok(mut reader) = LineReader::new(alloc, source) else {
        return Err(Memory);
    };
    let mut body = Vec::new(alloc);
    let is_line = reader.next_line() == Ok(Line::Text { len: 2 });
    let ended = reader.take_exact(size, &mut body);
    let is_kept = is_line
        && reader.line() == b"ab".as_slice()
        && reader.taken() == 3 + body.len() as u64;
    Ok(Seen {
        ended,
        body,
        is_kept,
    })
}

#[test]
fn a_body_ends_at_a_fault_or_the_end(rt: HostRuntime) -> Result<(), Fail> {
    let alloc = rt.alloc();
    // Which call fails, how many bytes are asked for, and what of them is there.
    for &(call, size, want, held) in &[
        (0, 4, Ok(()), "body"),
        (0, 0, Ok(()), ""),
        (0, 5, Err(LineFault::Cut), "body"),
        (4, 4, Err(LineFault::ReadFault), ""),
        (5, 5, Err(LineFault::ReadFault), "body"),
    ] {
        let mut source = VecSource::new(b"ab\nbody".to_vec(alloc)?, [call].to_vec(alloc)?);
        let seen = read_body(alloc, &mut source, size)?;
        let rest = source.take(&mut [0; 8]);
        assert!(rt;
            seen.ended == want && seen.is_kept,
            "of call {call} and size {size}"
        );
        assert!(rt; seen.body.as_slice() == held.as_bytes());
        assert!(rt; rest == Ok(4 - held.len()));
    }
    Ok(())
}

/// Which of `one`, `two` and `three` a sink takes, and what it got.
fn put_words(
    alloc: Global,
    room: usize,
    call: u64,
) -> Result<([Result<(), WriteFault>; 3], VecSink), Memory> {
    let mut sink = VecSink::new(alloc, room, [call].to_vec(alloc)?)?;
    let one = put_all(&mut sink, b"one");
    let two = put_all(&mut sink, b"two");
    let three = put_all(&mut &mut sink, b"three");
    Ok(([one, two, three], sink))
}

#[test]
fn a_sink_takes_what_fits(rt: HostRuntime) -> Result<(), Fail> {
    let (put, fault) = (Ok(()), Err(WriteFault));
    // The room, which call fails, and which words are put of `one`, `two` and `three`.
    for &(room, call, wants, got) in &[
        (11, 0, [put, put, put], "onetwothree"),
        (10, 0, [put, put, fault], "onetwo"),
        (11, 1, [fault, put, put], "twothree"),
        (11, 3, [put, put, fault], "onetwo"),
        (2, 0, [fault, fault, fault], ""),
    ] {
        let (puts, sink) = put_words(rt.alloc(), room, call)?;
        assert!(rt; puts == wants, "with room {room} and call {call}");
        assert!(rt;
            sink.bytes() == got.as_bytes(),
            "with room {room} and call {call}"
        );
    }
    Ok(())
}

#[test]
fn a_reader_is_read_ahead(rt: HostRuntime) -> Result<(), Fail> {
    let alloc = rt.alloc();
    // 10,000 bytes are taken by three at a time, and then at once.
    let bytes = vec![in alloc; b'a'; 10_000]?;
    let mut rest = vec![in alloc; 0; 10_000]?;
    let mut source = ReadAhead::over(bytes.as_slice());
    for _ in 0..300 {
        assert!(rt; source.take(&mut [0; 3]) == Ok(3));
    }
    assert!(rt; source.take(&mut rest) == Ok(8_192 - 900));
    assert!(rt; source.take(&mut rest) == Ok(10_000 - 8_192));
    assert!(rt; source.take(&mut rest) == Ok(0));
    Ok(())
}

/// Takes two bytes of a write, and nothing once it has five or more.
#[derive(Drop)]
struct Short {
    got: Vec<u8>,
}

impl Write for Short {
    fn write(&mut self, bytes: &[u8]) -> io::Result<usize> {
        let count = if self.got.len() < 5 {
            bytes.len().min(2)
        } else {
            0
        };
        self.got.extend_from_slice(&bytes[..count])?;
        Ok(count)
    }

    fn flush(&mut self) -> io::Result<()> {
        Ok(())
    }
}

#[test]
fn a_writer_gets_all_or_what_it_takes(rt: HostRuntime) -> Result<(), Fail> {
    let mut got = Vec::new(rt.alloc());
    assert!(rt; put_all(&mut PutTo::over(&mut got), b"all").is_ok());
    assert!(rt; got.as_slice() == b"all".as_slice());
    Ok(())
}

#[test]
fn a_writer_that_takes_nothing_fails(rt: HostRuntime) -> Result<(), Fail> {
    let mut short = Short {
        got: Vec::new(rt.alloc()),
    };
    let mut sink = PutTo::over(&mut short);
    assert!(rt; sink.put(b"abc") == Ok(2));
    assert!(rt; put_all(&mut sink, b"cdefg") == Err(WriteFault));
    assert!(rt; sink.put(b"") == Ok(0));
    assert!(rt; sink.put(b"h") == Err(Failed));
    assert!(rt; short.got.as_slice() == b"abcdef".as_slice());
    Ok(())
}

#[test]
fn the_standard_streams_are_adapted(rt: HostRuntime) -> Result<(), Fail> {
    let _source = StdSource::new(&rt);
    put_all(&mut StdSink::new(&rt), b"put\n")?;
    Ok(())
}
