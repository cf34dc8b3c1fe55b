//! Values that are written and read by a grammar of their own.

ghost use Rattle.std.specs.Prelude.{ℕ, ℤ, Bool, List, string_bytes};
ghost use Rattle.tv_base.specs.declared.cause.Cause.{Cause};
ghost use Rattle.tv_base.specs.Number.{VNum, vnum, Fixed, one_byte, four_bytes, eight_bytes, sixteen_bytes, Signed, signed_bytes, Truth, truth_byte};
ghost use Rattle.tv_base.specs.Parts.{Sized, Text, short_sized};
ghost use Rattle.tv_base.specs.ErrorInPart.{ErrorInNumber, ErrorInBytes, ErrorInTruth, ErrorInSized, ErrorInText};
ghost use Rattle.tv_base.specs.ReadsAs.{ReadsAs, ReadsLean};
ghost use Rattle.tv_base.specs.Reading.{vint_at};
ghost use Rattle.tv_base.specs.Writing.{Writes};
ghost use Rattle.tv_base.specs.Take.{TakesLean};

use crate::cause::{ReadError, WriteError};
use crate::facet::Facet;
use crate::sink::ByteSink;
use crate::source::ByteSource;
use crate::take::{
    take_bool, take_bytes, take_facet, take_i64, take_string, take_u8, take_u32, take_u64,
    take_u128, take_vint,
};
use crate::vint::VInt;
use crate::write::{
    write_bool, write_i64, write_sized, write_text, write_u8, write_u32, write_u64, write_u128,
    write_vint,
};
use std::alloc::Global;

/// A value that has an encoding in bytes: the shortest is written, and each is read.
pub trait BinarySerializable: Sized {
    /// What a value is, apart from where it lies in memory.
    ghost Seen: { Type 0 };

    /// A value, seen so.
    ghost view: { Self → Seen };

    /// The shortest encoding.
    ghost shortest: { Seen → List ℕ };

    /// Which bytes encode which value.
    ghost encodes: { List ℕ → Seen → Type 0 };

    /// What is malformed in bytes of which no prefix encodes a value.
    ghost has_error: { List ℕ → Cause → Type 0 };

    /// Writes the shortest encoding. Errors: that of a write that failed. The sink then holds a beginning of the encoding
    /// after what it held before.
    fn serialize<K: ByteSink>(&self, sink: &mut K) -> Result<(), WriteError>
        ensures { Writes K.ByteSink sink.old sink.new result (shortest (view self.now)) };

    /// Reads a value, and takes the bytes that encode it and no more.
    ///
    /// Errors: `Corrupted` with the first error in the bytes, from left to right, `Io` with the kind of the read that failed, and
    /// `Memory`. At `Corrupted` just the bytes that show the error were taken: without the last of them only an end was to be seen,
    /// and at `UnexpectedEnd` all were taken. `TooLong` comes after 2^64 - 1 bytes, where more are needed. After each other error some
    /// prefix was taken.
    fn deserialize<S: ByteSource>(alloc: Global, source: &mut S) -> Result<Self, ReadError>
        ensures { ReadsAs S.ByteSource source.old source.new view result encodes has_error };
}

impl BinarySerializable for VInt {
    ghost Seen = { ℕ };

    ghost view = { λ x. x.0 };

    ghost shortest = { vnum };

    ghost encodes = { VNum };

    ghost has_error = { ErrorInNumber };

    fn serialize<K: ByteSink>(&self, sink: &mut K) -> Result<(), WriteError> {
        write_vint(sink, self.0)
    }

    fn deserialize<S: ByteSource>(alloc: Global, source: &mut S) -> Result<VInt, ReadError>
        ensures reads { ReadsLean S.ByteSource source.old source.new (λ x. x.0)
            result VNum ErrorInNumber }
    {
        let mut count = 0;
        take_wrapped(source, &mut count)
    }
}

fn take_wrapped<S: ByteSource>(source: &mut S, count: &mut u64) -> Result<VInt, ReadError>
    ensures takes { TakesLean S.ByteSource source.old count.old source.new count.new
        (λ x. x.0) result vint_at }
{
    Ok(VInt(take_vint(source, count)?))
}

impl BinarySerializable for u8 {
    ghost Seen = { ℕ };

    ghost view = { λ n. n };

    ghost shortest = { one_byte };

    ghost encodes = { Fixed 1 };

    ghost has_error = { ErrorInBytes 1 };

    fn serialize<K: ByteSink>(&self, sink: &mut K) -> Result<(), WriteError> {
        write_u8(sink, *self)
    }

    fn deserialize<S: ByteSource>(alloc: Global, source: &mut S) -> Result<u8, ReadError>
        ensures reads { ReadsLean S.ByteSource source.old source.new (λ n. n) result
            (Fixed 1) (ErrorInBytes 1) }
    {
        let mut count = 0;
        take_u8(source, &mut count)
    }
}

impl BinarySerializable for u32 {
    ghost Seen = { ℕ };

    ghost view = { λ n. n };

    ghost shortest = { four_bytes };

    ghost encodes = { Fixed 4 };

    ghost has_error = { ErrorInBytes 4 };

    fn serialize<K: ByteSink>(&self, sink: &mut K) -> Result<(), WriteError> {
        write_u32(sink, *self)
    }

    fn deserialize<S: ByteSource>(alloc: Global, source: &mut S) -> Result<u32, ReadError>
        ensures reads { ReadsLean S.ByteSource source.old source.new (λ n. n) result
            (Fixed 4) (ErrorInBytes 4) }
    {
        let mut count = 0;
        take_u32(source, &mut count)
    }
}

impl BinarySerializable for u64 {
    ghost Seen = { ℕ };

    ghost view = { λ n. n };

    ghost shortest = { eight_bytes };

    ghost encodes = { Fixed 8 };

    ghost has_error = { ErrorInBytes 8 };

    fn serialize<K: ByteSink>(&self, sink: &mut K) -> Result<(), WriteError> {
        write_u64(sink, *self)
    }

    fn deserialize<S: ByteSource>(alloc: Global, source: &mut S) -> Result<u64, ReadError>
        ensures reads { ReadsLean S.ByteSource source.old source.new (λ n. n) result
            (Fixed 8) (ErrorInBytes 8) }
    {
        let mut count = 0;
        take_u64(source, &mut count)
    }
}

impl BinarySerializable for String {
    ghost Seen = { List ℕ };

    ghost view = { λ text. string_bytes text };

    ghost shortest = { short_sized };

    ghost encodes = { Text };

    ghost has_error = { ErrorInText };

    fn serialize<K: ByteSink>(&self, sink: &mut K) -> Result<(), WriteError> {
        write_text(sink, self.as_str())
    }

    fn deserialize<S: ByteSource>(alloc: Global, source: &mut S) -> Result<String, ReadError> {
        let mut count = 0;
        take_string(alloc, source, &mut count)
    }
}

impl BinarySerializable for u128 {
    ghost Seen = { ℕ };

    ghost view = { λ n. n };

    ghost shortest = { sixteen_bytes };

    ghost encodes = { Fixed 16 };

    ghost has_error = { ErrorInBytes 16 };

    fn serialize<K: ByteSink>(&self, sink: &mut K) -> Result<(), WriteError> {
        write_u128(sink, *self)
    }

    fn deserialize<S: ByteSource>(alloc: Global, source: &mut S) -> Result<u128, ReadError>
        ensures reads { ReadsLean S.ByteSource source.old source.new (λ n. n) result
            (Fixed 16) (ErrorInBytes 16) }
    {
        let mut count = 0;
        take_u128(source, &mut count)
    }
}

impl BinarySerializable for i64 {
    ghost Seen = { ℤ };

    ghost view = { λ n. n };

    ghost shortest = { signed_bytes };

    ghost encodes = { Signed };

    ghost has_error = { ErrorInBytes 8 };

    fn serialize<K: ByteSink>(&self, sink: &mut K) -> Result<(), WriteError> {
        write_i64(sink, *self)
    }

    fn deserialize<S: ByteSource>(alloc: Global, source: &mut S) -> Result<i64, ReadError>
        ensures reads { ReadsLean S.ByteSource source.old source.new (λ n. n) result
            Signed (ErrorInBytes 8) }
    {
        let mut count = 0;
        take_i64(source, &mut count)
    }
}

impl BinarySerializable for bool {
    ghost Seen = { Bool };

    ghost view = { λ truth. truth };

    ghost shortest = { truth_byte };

    ghost encodes = { Truth };

    ghost has_error = { ErrorInTruth };

    fn serialize<K: ByteSink>(&self, sink: &mut K) -> Result<(), WriteError> {
        write_bool(sink, *self)
    }

    fn deserialize<S: ByteSource>(alloc: Global, source: &mut S) -> Result<bool, ReadError>
        ensures reads { ReadsLean S.ByteSource source.old source.new
            (λ truth. truth) result Truth ErrorInTruth }
    {
        let mut count = 0;
        take_bool(source, &mut count)
    }
}

impl BinarySerializable for Vec<u8> {
    ghost Seen = { List ℕ };

    ghost view = { λ bytes. bytes.items };

    ghost shortest = { short_sized };

    ghost encodes = { Sized };

    ghost has_error = { ErrorInSized };

    fn serialize<K: ByteSink>(&self, sink: &mut K) -> Result<(), WriteError> {
        write_sized(sink, self.as_slice())
    }

    fn deserialize<S: ByteSource>(alloc: Global, source: &mut S) -> Result<Vec<u8>, ReadError> {
        let mut count = 0;
        take_bytes(alloc, source, &mut count)
    }
}

impl BinarySerializable for Facet {
    ghost Seen = { List ℕ };

    ghost view = { λ facet. facet };

    ghost shortest = { short_sized };

    ghost encodes = { Text };

    ghost has_error = { ErrorInText };

    fn serialize<K: ByteSink>(&self, sink: &mut K) -> Result<(), WriteError> {
        write_text(sink, self.encoded_str())
    }

    fn deserialize<S: ByteSource>(alloc: Global, source: &mut S) -> Result<Facet, ReadError> {
        let mut count = 0;
        take_facet(alloc, source, &mut count)
    }
}
