//! Standard input as a source, and standard output as a sink: the adapters at the reader and the
//! writer of the runtime. These tell nothing of their bytes.
ghost use Rattle.std.specs.Prelude.{◌≡◌, None};

use crate::{Failed, PutTo, ReadAhead, Sink, Source};
use std::io;
use std::io::Write;
use std::marker::PhantomData;

/// Standard input.
#[derive(Drop)]
pub struct StdSource<'a, R: Input> {
    source: ReadAhead<R::Reader>,
    of: PhantomData<&'a R>,
}

impl<'a, R: Input> StdSource<'a, R> {
    pub fn new(rt: &'a R) -> StdSource<'a, R>
        // What is left is what a reader of the runtime has left: nothing was taken or made up.
        ensures left { (reader : R.Reader) ×
            (⟦<StdSource<'static, R> as Source>⟧.bytes_left result ≡ R.Reader.remaining reader) }
        ensures faults { ⟦<StdSource<'static, R> as Source>⟧.faults result ≡ 0 }
    {
        StdSource {
            source: ReadAhead::over(rt.reader()),
            of: PhantomData,
        }
    }
}

impl<R: Input> Source for StdSource<'_, R> {
    ghost bytes_left = { λ source. ⟦<ReadAhead<R::Reader> as Source>⟧.bytes_left source.source };

    ghost faults = { λ source. ⟦<ReadAhead<R::Reader> as Source>⟧.faults source.source };

    ghost loan = { λ _. None };

    fn take(&mut self, into: &mut [u8]) -> Result<usize, Failed> {
        self.source.take(into)
    }
}

/// What the runtime prints to, as a writer: each write is one call of it.
#[derive(Drop)]
pub struct Printer<'a, R: Print> {
    rt: &'a R,
}

impl<R: Print> Write for Printer<'_, R> {
    fn write(&mut self, bytes: &[u8]) -> io::Result<usize> {
        self.rt.write_some(bytes)
    }

    fn flush(&mut self) -> io::Result<()> {
        Ok(())
    }
}

/// Standard output.
pub type StdSink<'a, R> = PutTo<Printer<'a, R>>;

impl<'a, R: Print> PutTo<Printer<'a, R>> {
    pub fn new(rt: &'a R) -> StdSink<'a, R>
        ensures faults { ⟦<PutTo<Printer<'static, R>> as Sink>⟧.faults result ≡ 0 }
    {
        PutTo::over(Printer { rt })
    }
}
