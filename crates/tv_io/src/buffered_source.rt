//! A source over a reader of std, with a buffer.

ghost use Rattle.std.specs.Prelude.{◌≡◌, ◌<◌, ◌≤◌, ◌+◌, ◌↔◌, ℕ, [], ◌∷◌, length, min, max, take, drop, None, Some, Ok, IsSome, IfOk, IfErr, OnOk, OnErr};
ghost use Rattle.std.specs.Prelude.{IsTrue, false, unwrap_or};
ghost use Rattle.std.specs.Io.Buffered.{reader_buffer, reader_capacity, reader_inner, reader_remaining};
ghost use Rattle.tv_base.specs.declared.cause.ReadError.TheVariants.{Memory};
ghost use Rattle.tv_base.specs.Append.{AppendsNext, append_stop};
ghost use Rattle.tv_base.specs.Lend.{Passes};
ghost use Rattle.tv_base.specs.Sink.{IsPrefix};
ghost use Rattle.tv_base.specs.Source.{AllBytes, GivesSome, GivesFirst, CountsFailure};
ghost use Rattle.tv_base.specs.Stop.{Counts};
ghost use Rattle.tv_io.specs.Buffered.{TakesBuffered};
ghost use Rattle.tv_io.specs.Calls.{failures_of};

use crate::failures::{CountedFailures, read_by_kind};
use std::alloc::{AllocError, Global};
use std::io;
use std::io::{BufRead, BufReader, Read};
use tv_base::{ByteSource, ReadError};

// This many bytes are asked for in a read, unless the caller says how many.
const CAPACITY: usize = 65536;

/// Gives what a reader gives, through a buffer, and lends what is buffered. So what is read from a file takes the same way as what is read
/// from a slice, and the reader is called once for many bytes. A call of the source calls the reader once at most, and not at all where bytes are
/// buffered.
///
/// The bytes are known where the reader's are: those that are buffered, and then those that the reader has left. Each error of the reader is a
/// failure, `Interrupted` too. (Not in tantivy.)
///
/// ```
/// pub fn number_of<R: Read + Drop>(alloc: Global, reader: R) -> Result<u64, ReadError> {
///     let mut source = BufferedSource::new(alloc, reader)?;
///     u64::deserialize(alloc, &mut source)
/// }
/// ```
#[derive(Drop)]
pub struct BufferedSource<R: Read> {
    inner: BufReader<R>,
    failures: CountedFailures,
}

impl<R: Read> BufferedSource<R> {
    /// A source over this reader, with a buffer of 65536 bytes. Nothing is read yet. The only error is that memory was refused; the reader is
    /// dropped then.
    pub fn new(alloc: Global, inner: R) -> Result<BufferedSource<R>, AllocError>
    where
        R: Drop,
        ensures inner { IfOk result (λ s. reader_inner s.inner ≡ inner) }
        ensures buffered { IfOk result (λ s. reader_buffer s.inner ≡ []) }
        ensures capacity { IfOk result (λ s. reader_capacity s.inner ≡ 65536) }
        ensures remaining { IfOk result (λ s. reader_remaining R.remaining s.inner ≡ R.remaining inner) }
        ensures failures { IfOk result (λ s. ⟦<BufferedSource<R> as ByteSource>⟧.failures s
            ≡ record { number = 0; last = None }) }
    {
        BufferedSource::with_capacity(alloc, CAPACITY, inner)
    }

    /// A source over this reader, with a buffer of this many bytes. Nothing is read yet. With a capacity of 0 no more is read than is asked for: the
    /// buffer then has one byte, for `next_byte`. The only error is that memory was refused; the reader is dropped then.
    pub fn with_capacity(
        alloc: Global,
        capacity: usize,
        inner: R,
    ) -> Result<BufferedSource<R>, AllocError>
    where
        R: Drop,
        ensures inner { IfOk result (λ s. reader_inner s.inner ≡ inner) }
        ensures buffered { IfOk result (λ s. reader_buffer s.inner ≡ []) }
        ensures capacity { IfOk result (λ s. reader_capacity s.inner ≡ max capacity 1) }
        ensures remaining { IfOk result (λ s. reader_remaining R.remaining s.inner ≡ R.remaining inner) }
        ensures failures { IfOk result (λ s. ⟦<BufferedSource<R> as ByteSource>⟧.failures s
            ≡ record { number = 0; last = None }) }
    {
        match BufReader::with_capacity(alloc, capacity.max(1), inner) {
            Ok(inner) => Ok(BufferedSource {
                inner,
                failures: CountedFailures::none(),
            }),
            Err(_) => Err(AllocError),
        }
    }

    // Reads after the bytes that are there, at most this many.
    fn read_behind(&mut self, bytes: &mut Vec<u8>, most: usize) -> Result<usize, ReadError>
        requires { most ≤ 4096 }
        ensures bound { IfOk result (λ n. n ≤ most) }
        ensures longer { IfOk result (λ n. length bytes.new.items ≡ length bytes.old.items + n) }
        ensures bytes { ⟦<BufferedSource<R> as ByteSource>⟧.is_known self.old
            → AppendsNext (⟦<BufferedSource<R> as ByteSource>⟧.left self.old)
            (⟦<BufferedSource<R> as ByteSource>⟧.left self.new) bytes.old.items bytes.new.items
            most result }
        ensures is_known { ⟦<BufferedSource<R> as ByteSource>⟧.is_known self.old
            → ⟦<BufferedSource<R> as ByteSource>⟧.is_known self.new }
        ensures failures { Counts append_stop result
            (⟦<BufferedSource<R> as ByteSource>⟧.failures self.old)
            (⟦<BufferedSource<R> as ByteSource>⟧.failures self.new) }
    {
        let filled = bytes.len();
        bytes.resize(filled + most, 0)?;
        match self.read(&mut bytes[filled..]) {
            Ok(count) => {
                bytes.truncate(filled + count);
                Ok(count)
            }
            Err(kind) => Err(ReadError::Io(kind)),
        }
    }

    /// The reader, taken out of the source. It stands where the reads have left it, and what is buffered is dropped.
    pub fn into_inner(self) -> R
        ensures { result ≡ reader_inner self.inner }
    {
        let BufferedSource { inner, failures: _ } = self;
        inner.into_inner()
    }
}

impl<R: Read> ByteSource for BufferedSource<R> {
    ghost is_known = { λ s. IsSome (reader_remaining R.remaining s.inner)
        × AllBytes (unwrap_or (reader_remaining R.remaining s.inner) []) };

    ghost left = { λ s. unwrap_or (reader_remaining R.remaining s.inner) [] };

    ghost failures = { λ s. failures_of s.failures };

    /// Gives bytes that are buffered. Where none are, calls the reader once: straight into `buf` where that is as large as the buffer, and else
    /// into the buffer. An error takes nothing.
    fn read(&mut self, buf: &mut [u8]) -> Result<usize, io::ErrorKind>
        // the trait's clauses
        ensures bound { IfOk result (λ n. n ≤ length buf.new) }
        ensures bytes { ⟦<BufferedSource<R> as ByteSource>⟧.is_known self.old
            → GivesSome (⟦<BufferedSource<R> as ByteSource>⟧.left self.old)
            (⟦<BufferedSource<R> as ByteSource>⟧.left self.new) result buf.new }
        ensures is_known { ⟦<BufferedSource<R> as ByteSource>⟧.is_known self.old
            → ⟦<BufferedSource<R> as ByteSource>⟧.is_known self.new }
        ensures failures { CountsFailure result
            (⟦<BufferedSource<R> as ByteSource>⟧.failures self.old)
            (⟦<BufferedSource<R> as ByteSource>⟧.failures self.new) }

        // where bytes are buffered, as many of them are given as fit
        ensures count { 0 < length (reader_buffer self.old.inner)
            → result ≡ Ok (min (length (reader_buffer self.old.inner)) (length buf.new)) }
        ensures given { 0 < length (reader_buffer self.old.inner)
            → TakesBuffered self.old.inner self.new.inner
            (take (min (length (reader_buffer self.old.inner)) (length buf.new)) buf.new) }
    {
        let buffered = self.inner.buffer();
        if buffered.is_empty() {
            let call = read_by_kind(self.inner.read(buf));
            return self.failures.count(call);
        }
        let count = buffered.len().min(buf.len());
        buf[..count].copy_from_slice(&buffered[..count]);
        self.inner.consume(count);
        Ok(count)
    }

    /// Takes the first byte that is buffered. Where none is, reads one.
    fn next_byte(&mut self) -> Result<Option<u8>, io::ErrorKind>
        // the trait's clauses
        ensures bytes { ⟦<BufferedSource<R> as ByteSource>⟧.is_known self.old
            → GivesFirst (⟦<BufferedSource<R> as ByteSource>⟧.left self.old)
            (⟦<BufferedSource<R> as ByteSource>⟧.left self.new) result }
        ensures is_known { ⟦<BufferedSource<R> as ByteSource>⟧.is_known self.old
            → ⟦<BufferedSource<R> as ByteSource>⟧.is_known self.new }
        ensures failures { CountsFailure result
            (⟦<BufferedSource<R> as ByteSource>⟧.failures self.old)
            (⟦<BufferedSource<R> as ByteSource>⟧.failures self.new) }

        // where bytes are buffered, the first of them is given
        ensures given { 0 < length (reader_buffer self.old.inner) → (byte : ℕ)
            × (result ≡ Ok (Some byte))
            × TakesBuffered self.old.inner self.new.inner (byte ∷ []) }
    {
        if let Some(first) = self.inner.buffer().first() {
            let byte = *first;
            self.inner.consume(1);
            return Ok(Some(byte));
        }
        let mut byte = [0; 1];
        match self.read(&mut byte) {
            Ok(0) => Ok(None),
            Ok(_) => Ok(Some(byte[0])),
            Err(kind) => Err(kind),
        }
    }

    /// Appends bytes that are buffered, and at most `most`. Where none are, reads into the room after those of `bytes`.
    fn append(&mut self, bytes: &mut Vec<u8>, most: usize) -> Result<usize, ReadError>
        // the trait's clauses
        requires { most ≤ 4096 }
        ensures bound { IfOk result (λ n. n ≤ most) }
        ensures longer { IfOk result (λ n. length bytes.new.items ≡ length bytes.old.items + n) }
        ensures bytes { ⟦<BufferedSource<R> as ByteSource>⟧.is_known self.old
            → AppendsNext (⟦<BufferedSource<R> as ByteSource>⟧.left self.old)
            (⟦<BufferedSource<R> as ByteSource>⟧.left self.new) bytes.old.items bytes.new.items
            most result }
        ensures is_known { ⟦<BufferedSource<R> as ByteSource>⟧.is_known self.old
            → ⟦<BufferedSource<R> as ByteSource>⟧.is_known self.new }
        ensures failures { Counts append_stop result
            (⟦<BufferedSource<R> as ByteSource>⟧.failures self.old)
            (⟦<BufferedSource<R> as ByteSource>⟧.failures self.new) }

        // where bytes are buffered, as many of them are appended as are wanted, and none where memory is refused
        ensures count { 0 < length (reader_buffer self.old.inner)
            → IfOk result (λ n. n ≡ min (length (reader_buffer self.old.inner)) most) }
        ensures given { 0 < length (reader_buffer self.old.inner)
            → OnOk result (TakesBuffered self.old.inner self.new.inner
            (drop (length bytes.old.items) bytes.new.items)) }
        ensures error { 0 < length (reader_buffer self.old.inner)
            → IfErr result (λ error. error ≡ Memory) }
        ensures kept { 0 < length (reader_buffer self.old.inner)
            → OnErr result (self.new ≡ self.old) }
    {
        let buffered = self.inner.buffer();
        if buffered.is_empty() {
            return self.read_behind(bytes, most);
        }
        let count = buffered.len().min(most);
        bytes.extend_from_slice(&buffered[..count])?;
        self.inner.consume(count);
        Ok(count)
    }

    /// What is buffered.
    fn buffered(&self) -> &[u8]
        ensures all { result.now ≡ reader_buffer self.now.inner }
        ensures prefix { ⟦<BufferedSource<R> as ByteSource>⟧.is_known self.now
            → IsPrefix result.now (⟦<BufferedSource<R> as ByteSource>⟧.left self.now) }
    {
        self.inner.buffer()
    }

    /// Takes this many bytes where as many are buffered.
    fn pass(&mut self, len: usize) -> bool
        // the trait's clauses
        ensures bytes { ⟦<BufferedSource<R> as ByteSource>⟧.is_known self.old
            → Passes (⟦<BufferedSource<R> as ByteSource>⟧.left self.old)
            (⟦<BufferedSource<R> as ByteSource>⟧.left self.new) len result }
        ensures is_known { ⟦<BufferedSource<R> as ByteSource>⟧.is_known self.old
            → ⟦<BufferedSource<R> as ByteSource>⟧.is_known self.new }
        ensures failures { ⟦<BufferedSource<R> as ByteSource>⟧.failures self.new
            ≡ ⟦<BufferedSource<R> as ByteSource>⟧.failures self.old }

        // where as many are buffered they are taken, and else nothing is
        ensures passed { IsTrue result ↔ (len ≤ length (reader_buffer self.old.inner)) }
        ensures taken { IsTrue result
            → TakesBuffered self.old.inner self.new.inner
            (take len (reader_buffer self.old.inner)) }
        ensures unchanged { result ≡ false → self.new ≡ self.old }
    {
        if len > self.inner.buffer().len() {
            return false;
        }
        self.inner.consume(len);
        true
    }

    ghost are_bytes = { λ s told. told.1 };
}
