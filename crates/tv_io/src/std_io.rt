//! A source over a reader of std, and a sink over a writer.

ghost use Rattle.std.specs.Prelude.{◌≡◌, [], false, None, IsSome, unwrap_or};
ghost use Rattle.tv_base.specs.Sink.{IsPrefix};
ghost use Rattle.tv_base.specs.Source.{AllBytes};
ghost use Rattle.tv_io.specs.Calls.{failures_of};

use crate::failures::{CountedFailures, read_by_kind, written_by_kind};
use std::io;
use std::io::{Read, Write};
use tv_base::{ByteSink, ByteSource};

/// Gives what a reader gives. Its bytes are known where the reader's are. Each error of the reader is a failure, `Interrupted` too.
#[derive(Drop)]
pub struct ReadSource<R: Read> {
    inner: R,
    failures: CountedFailures,
}

impl<R: Read> ReadSource<R> {
    /// A source over this reader. Nothing is read yet.
    pub fn new(inner: R) -> ReadSource<R>
        ensures inner { result.inner ≡ inner }
        ensures failures { ⟦<ReadSource<R> as ByteSource>⟧.failures result
            ≡ record { number = 0; last = None } }
    {
        ReadSource {
            inner,
            failures: CountedFailures::none(),
        }
    }

    /// The reader, taken out of the source. It stands where the reads have left it.
    pub fn into_inner(self) -> R
        ensures { result ≡ self.inner }
    {
        let ReadSource { inner, failures: _ } = self;
        inner
    }
}

impl<R: Read> ByteSource for ReadSource<R> {
    ghost is_known = { λ s. IsSome (R.remaining s.inner)
        × AllBytes (unwrap_or (R.remaining s.inner) []) };

    ghost left = { λ s. unwrap_or (R.remaining s.inner) [] };

    ghost failures = { λ s. failures_of s.failures };

    /// Calls the reader once, and returns what it returned, with the kind of its error.
    fn read(&mut self, buf: &mut [u8]) -> Result<usize, io::ErrorKind> {
        let call = read_by_kind(self.inner.read(buf));
        self.failures.count(call)
    }

    /// No byte: what the reader has isn't known before it is read.
    fn buffered(&self) -> &[u8]
        ensures none { result.now ≡ [] }
        ensures prefix { ⟦<ReadSource<R> as ByteSource>⟧.is_known self.now
            → IsPrefix result.now (⟦<ReadSource<R> as ByteSource>⟧.left self.now) }
    {
        &[]
    }

    /// Takes no byte, and returns `false`.
    fn pass(&mut self, len: usize) -> bool
        ensures none { result ≡ false }
        ensures unchanged { self.new ≡ self.old }
    {
        let _len = len;
        false
    }

    ghost are_bytes = { λ s told. told.1 };
}

/// Hands what is written to a writer. What it holds is known where the writer's bytes are. Each error of the writer is a failure,
/// `Interrupted` too, and a write that takes no byte is one of kind `WriteZero`.
#[derive(Drop)]
pub struct WriteSink<W: Write> {
    inner: W,
    failures: CountedFailures,
}

impl<W: Write> WriteSink<W> {
    /// A sink over this writer. Nothing is written yet.
    pub fn new(inner: W) -> WriteSink<W>
        ensures inner { result.inner ≡ inner }
        ensures failures { ⟦<WriteSink<W> as ByteSink>⟧.failures result
            ≡ record { number = 0; last = None } }
    {
        WriteSink {
            inner,
            failures: CountedFailures::none(),
        }
    }

    /// The writer, taken out of the sink. It isn't flushed.
    pub fn into_inner(self) -> W
        ensures { result ≡ self.inner }
    {
        let WriteSink { inner, failures: _ } = self;
        inner
    }
}

impl<W: Write> ByteSink for WriteSink<W> {
    ghost is_known = { λ s. IsSome (W.contents s.inner) };

    ghost held = { λ s. unwrap_or (W.contents s.inner) [] };

    ghost failures = { λ s. failures_of s.failures };

    /// Calls the writer once, and returns what it returned, with the kind of its error.
    fn write(&mut self, buf: &[u8]) -> Result<usize, io::ErrorKind> {
        let call = written_by_kind(buf, self.inner.write(buf));
        self.failures.count(call)
    }
}
