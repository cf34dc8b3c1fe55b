//! A source that ends with the first bytes of another one.

ghost use Rattle.std.specs.Prelude.{◌≡◌, ◌<◌, ◌≤◌, ◌+◌, IfOk, length, take};
ghost use Rattle.tv_base.specs.Append.{AppendsNext, append_stop};
ghost use Rattle.tv_base.specs.Lend.{Passes};
ghost use Rattle.tv_base.specs.Sink.{IsPrefix};
ghost use Rattle.tv_base.specs.Source.{GivesSome, GivesFirst, CountsFailure};
ghost use Rattle.tv_base.specs.Stop.{Counts};
ghost use Rattle.tv_io.specs.Limited.{TakesWithin, first_bytes};

use std::io;
use tv_base::{ByteSource, ReadError};

/// The first bytes of another source, at most this many, as std's `Read::take` gives them. It is lent the other source, and takes of it just
/// the bytes that it gives. Where all of them were taken it is at its end, and the other source isn't read any more. (Not in tantivy.)
///
/// ```
/// pub fn number_within(alloc: Global, bytes: &[u8], limit: u64) -> Result<u64, ReadError> {
///     let mut source = SliceSource::new(bytes);
///     let mut first = LimitedSource::new(&mut source, limit);
///     u64::deserialize(alloc, &mut first)
/// }
/// ```
#[derive(Drop)]
pub struct LimitedSource<'s, S: ByteSource> {
    source: &'s mut S,
    limit: u64,
}

impl<'s, S: ByteSource> LimitedSource<'s, S> {
    /// The first `limit` bytes of this source. Nothing is read yet.
    pub fn new(source: &'s mut S, limit: u64) -> LimitedSource<'s, S>
        ensures same_source { result.source.ghost_name ≡ source.entry.ghost_name }
        ensures source { result.source.now ≡ source.old }
        ensures limit { result.limit ≡ limit }
    {
        LimitedSource { source, limit }
    }

    /// How many more bytes may be taken, whether or not the other source has as many.
    pub fn limit(&self) -> u64
        ensures { result ≡ self.now.limit }
    {
        self.limit
    }

    // This many, or as many as may be taken.
    fn within(&self, most: usize) -> usize
        ensures at_most { result ≤ most }
        ensures limit { result ≤ self.now.limit }
        ensures some { 0 < most → 0 < self.now.limit → 0 < result }
    {
        (most as u64).min(self.limit) as usize
    }
}

impl<'s, S: ByteSource> ByteSource for LimitedSource<'s, S> {
    ghost is_known = { λ s. S.is_known s.source.now };

    ghost left = { λ s. take s.limit (S.left s.source.now) };

    ghost failures = { λ s. S.failures s.source.now };

    /// Reads the other source once, for at most as many bytes as may be taken.
    fn read(&mut self, buf: &mut [u8]) -> Result<usize, io::ErrorKind>
        // the trait's clauses
        ensures bound { IfOk result (λ n. n ≤ length buf.new) }
        ensures bytes { S.is_known self.old.source.now
            → GivesSome (take self.old.limit (S.left self.old.source.now))
            (take self.new.limit (S.left self.new.source.now)) result buf.new }
        ensures is_known { S.is_known self.old.source.now → S.is_known self.new.source.now }
        ensures failures { CountsFailure result (S.failures self.old.source.now)
            (S.failures self.new.source.now) }

        // what is given was taken of the other source, which isn't read at the end
        ensures taken { S.is_known self.old.source.now
            → TakesWithin (S.left self.old.source.now) (S.left self.new.source.now) self.old.limit
            self.new.limit }
        ensures unread { self.old.limit ≡ 0 → self.new ≡ self.old }
        ensures same_source { self.new.source.ghost_name ≡ self.old.source.ghost_name }
    {
        let most = self.within(buf.len());
        if self.limit == 0 {
            return Ok(0);
        }
        let count = self.source.read(&mut buf[..most])?;
        self.limit -= count as u64;
        Ok(count)
    }

    /// Takes a byte of the other source, if one more may be taken.
    fn next_byte(&mut self) -> Result<Option<u8>, io::ErrorKind>
        // the trait's clauses
        ensures bytes { S.is_known self.old.source.now
            → GivesFirst (take self.old.limit (S.left self.old.source.now))
            (take self.new.limit (S.left self.new.source.now)) result }
        ensures is_known { S.is_known self.old.source.now → S.is_known self.new.source.now }
        ensures failures { CountsFailure result (S.failures self.old.source.now)
            (S.failures self.new.source.now) }

        // what is given was taken of the other source, which isn't read at the end
        ensures taken { S.is_known self.old.source.now
            → TakesWithin (S.left self.old.source.now) (S.left self.new.source.now) self.old.limit
            self.new.limit }
        ensures unread { self.old.limit ≡ 0 → self.new ≡ self.old }
        ensures same_source { self.new.source.ghost_name ≡ self.old.source.ghost_name }
    {
        if self.limit == 0 {
            return Ok(None);
        }
        let byte = self.source.next_byte()?;
        if byte.is_some() {
            self.limit -= 1;
        }
        Ok(byte)
    }

    /// Appends bytes of the other source, at most as many as may be taken.
    fn append(&mut self, bytes: &mut Vec<u8>, most: usize) -> Result<usize, ReadError>
        // the trait's clauses
        requires { most ≤ 4096 }
        ensures bound { IfOk result (λ n. n ≤ most) }
        ensures longer { IfOk result (λ n. length bytes.new.items ≡ length bytes.old.items + n) }
        ensures bytes { S.is_known self.old.source.now
            → AppendsNext (take self.old.limit (S.left self.old.source.now))
            (take self.new.limit (S.left self.new.source.now)) bytes.old.items bytes.new.items most
            result }
        ensures is_known { S.is_known self.old.source.now → S.is_known self.new.source.now }
        ensures failures { Counts append_stop result (S.failures self.old.source.now)
            (S.failures self.new.source.now) }

        // what is appended was taken of the other source, which isn't read at the end
        ensures taken { S.is_known self.old.source.now
            → TakesWithin (S.left self.old.source.now) (S.left self.new.source.now) self.old.limit
            self.new.limit }
        ensures unread { self.old.limit ≡ 0 → self.new ≡ self.old }
        ensures same_source { self.new.source.ghost_name ≡ self.old.source.ghost_name }
    {
        let most = self.within(most);
        if self.limit == 0 {
            return Ok(0);
        }
        let count = self.source.append(bytes, most)?;
        self.limit -= count as u64;
        Ok(count)
    }

    /// What the other source has buffered, up to the last byte that may be taken.
    fn buffered(&self) -> &[u8]
        ensures { S.is_known self.now.source.now
            → IsPrefix result.now (take self.now.limit (S.left self.now.source.now)) }
    {
        let buffered = self.source.buffered();
        let most = self.within(buffered.len());
        &buffered[..most]
    }

    /// Takes this many of the bytes that the other source has buffered, if as many may be taken.
    fn pass(&mut self, len: usize) -> bool
        // the trait's clauses
        ensures bytes { S.is_known self.old.source.now
            → Passes (take self.old.limit (S.left self.old.source.now))
            (take self.new.limit (S.left self.new.source.now)) len result }
        ensures is_known { S.is_known self.old.source.now → S.is_known self.new.source.now }
        ensures failures { S.failures self.new.source.now ≡ S.failures self.old.source.now }

        // what is passed was taken of the other source
        ensures taken { S.is_known self.old.source.now
            → TakesWithin (S.left self.old.source.now) (S.left self.new.source.now) self.old.limit
            self.new.limit }
        ensures same_source { self.new.source.ghost_name ≡ self.old.source.ghost_name }
    {
        if len as u64 > self.limit || !self.source.pass(len) {
            return false;
        }
        self.limit -= len as u64;
        true
    }

    ghost are_bytes = { λ s told. first_bytes s.limit (S.left s.source.now)
        (S.are_bytes s.source.now told) };
}
