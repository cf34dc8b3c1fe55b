//! A source over a slice.

ghost use Rattle.std.specs.Prelude.{◌≡◌, ◌≤◌, ◌+◌, ◌↔◌, None, Ok, IsOk, IfOk, IfErr, IsTrue, length, min};
ghost use Rattle.tv_base.specs.declared.cause.ReadError.TheVariants.{Memory};
ghost use Rattle.tv_base.specs.Append.{AppendsNext, append_stop};
ghost use Rattle.tv_base.specs.Lend.{Passes};
ghost use Rattle.tv_base.specs.Sink.{IsPrefix};
ghost use Rattle.tv_base.specs.Source.{AllBytes, GivesSome, GivesFirst, CountsFailure};
ghost use Rattle.tv_base.specs.Stop.{Counts};

use crate::cause::ReadError;
use crate::source::ByteSource;
use std::io;

/// Reads the bytes of a slice. No read fails.
#[derive(Drop)]
pub struct SliceSource<'a> {
    rest: &'a [u8],
    ghost are_bytes: { AllBytes rest.now },
}

impl<'a> SliceSource<'a> {
    /// A source that has these bytes left.
    pub fn new(bytes: &'a [u8]) -> SliceSource<'a>
        ensures { ⟦<SliceSource<'a> as ByteSource>⟧.left result ≡ bytes.now }
    {
        SliceSource { rest: bytes }
    }

    /// The bytes that are left.
    pub fn rest(&self) -> &'a [u8]
        ensures { result.now ≡ ⟦<SliceSource<'a> as ByteSource>⟧.left self.now }
    {
        self.rest
    }
}

impl<'a> ByteSource for SliceSource<'a> {
    ghost is_known = { λ _. Unit {0} };

    ghost left = { λ s. s.rest.now };

    ghost failures = { λ _. record { number = 0; last = None } };

    /// Reads as many bytes as there are and have a place in `buf`.
    fn read(&mut self, buf: &mut [u8]) -> Result<usize, io::ErrorKind>
        ensures count { result ≡ Ok (min (length self.old.rest.now) (length buf.old)) }
        ensures bound { IfOk result (λ n. n ≤ length buf.new) }
        ensures bytes { GivesSome self.old.rest.now self.new.rest.now result buf.new }
        ensures failures { CountsFailure result
            (⟦<SliceSource<'a> as ByteSource>⟧.failures self.old)
            (⟦<SliceSource<'a> as ByteSource>⟧.failures self.new) }
    {
        let count = self.rest.len().min(buf.len());
        buf[..count].copy_from_slice(&self.rest[..count]);
        self.rest = &self.rest[count..];
        Ok(count)
    }

    fn next_byte(&mut self) -> Result<Option<u8>, io::ErrorKind>
        ensures ok { IsOk result }
        ensures bytes { GivesFirst self.old.rest.now self.new.rest.now result }
        ensures failures { CountsFailure result
            (⟦<SliceSource<'a> as ByteSource>⟧.failures self.old)
            (⟦<SliceSource<'a> as ByteSource>⟧.failures self.new) }
    {
        match self.rest.split_first() {
            Some((first, rest)) => {
                self.rest = rest;
                Ok(Some(*first))
            }
            None => Ok(None),
        }
    }

    /// Appends as many bytes as there are, and at most `most`. The only error is `Memory`.
    fn append(&mut self, bytes: &mut Vec<u8>, most: usize) -> Result<usize, ReadError>
        ensures count { IfOk result (λ n. n ≡ min (length self.old.rest.now) most) }
        ensures bound { IfOk result (λ n. n ≤ most) }
        ensures longer { IfOk result (λ n. length bytes.new.items ≡ length bytes.old.items + n) }
        ensures bytes { AppendsNext self.old.rest.now self.new.rest.now bytes.old.items
            bytes.new.items most result }
        ensures error { IfErr result (λ error. error ≡ Memory) }
        ensures failures { Counts append_stop result
            (⟦<SliceSource<'a> as ByteSource>⟧.failures self.old)
            (⟦<SliceSource<'a> as ByteSource>⟧.failures self.new) }
    {
        let moved = self.rest.len().min(most);
        bytes.extend_from_slice(&self.rest[..moved])?;
        self.rest = &self.rest[moved..];
        Ok(moved)
    }

    /// All bytes that are left.
    fn buffered(&self) -> &[u8]
        ensures all { result.now ≡ self.now.rest.now }
        ensures prefix { IsPrefix result.now self.now.rest.now }
    {
        self.rest
    }

    /// Takes this many bytes where there are as many.
    fn pass(&mut self, len: usize) -> bool
        ensures passed { IsTrue result ↔ (len ≤ length self.old.rest.now) }
        ensures bytes { Passes self.old.rest.now self.new.rest.now len result }
    {
        if len > self.rest.len() {
            return false;
        }
        self.rest = &self.rest[len..];
        true
    }

    ghost are_bytes = { λ s told. s.are_bytes };
}
