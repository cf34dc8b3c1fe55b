//! Writing bytes, numbers and texts.
//!
//! Each function hands on the error of a failed write. The sink then holds what it held before, and a beginning of what was
//! to be written.

ghost use Rattle.std.specs.Prelude.{◌≡◌};
ghost use Rattle.tv_base.specs.Number.{vnum, one_byte, four_bytes, eight_bytes, sixteen_bytes, signed_bytes, truth_byte};
ghost use Rattle.tv_base.specs.Parts.{short_sized};
ghost use Rattle.tv_base.specs.Writing.{Writes};

use crate::cause::WriteError;
use crate::sink::ByteSink;
use crate::vint::VInt;

/// Writes all of the bytes, in as many writes as it takes.
#[inline]
pub fn write_all<K: ByteSink>(sink: &mut K, bytes: &[u8]) -> Result<(), WriteError>
    ensures { Writes K.ByteSink sink.old sink.new result bytes.now }
{
    let mut rest = bytes;
    while !rest.is_empty() {
        let count = sink.write(rest)?;
        rest = &rest[count..];
    }
    Ok(())
}

/// Writes one byte.
#[inline]
#[tactic(auto, unfolding(crate::specs::Number::one_byte))]
pub fn write_u8<K: ByteSink>(sink: &mut K, number: u8) -> Result<(), WriteError>
    ensures { Writes K.ByteSink sink.old sink.new result (one_byte number) }
{
    write_all(sink, &[number])
}

/// Writes a number in four bytes, the lowest first.
#[inline]
#[tactic(auto, using(crate::proofs::Widths::four_bytes_is))]
pub fn write_u32<K: ByteSink>(sink: &mut K, number: u32) -> Result<(), WriteError>
    ensures { Writes K.ByteSink sink.old sink.new result (four_bytes number) }
{
    let four = number.to_le_bytes();
    write_all(sink, &four)
}

/// Writes a number in eight bytes, the lowest first.
#[inline]
#[tactic(auto, using(crate::proofs::Widths::eight_bytes_is))]
pub fn write_u64<K: ByteSink>(sink: &mut K, number: u64) -> Result<(), WriteError>
    ensures { Writes K.ByteSink sink.old sink.new result (eight_bytes number) }
{
    let eight = number.to_le_bytes();
    write_all(sink, &eight)
}

/// Writes a number in sixteen bytes, the lowest first.
#[inline]
#[tactic(auto, using(crate::proofs::Widths::sixteen_bytes_is))]
pub fn write_u128<K: ByteSink>(sink: &mut K, number: u128) -> Result<(), WriteError>
    ensures { Writes K.ByteSink sink.old sink.new result (sixteen_bytes number) }
{
    let sixteen = number.to_le_bytes();
    write_all(sink, &sixteen)
}

/// Writes a signed number in eight bytes, the lowest first, in two's complement.
#[inline]
pub fn write_i64<K: ByteSink>(sink: &mut K, number: i64) -> Result<(), WriteError>
    ensures { Writes K.ByteSink sink.old sink.new result (signed_bytes number) }
{
    write_u64(sink, number.cast_unsigned())
}

/// Writes a truth value in one byte: 0 or 1.
#[inline]
#[tactic(auto, unfolding(crate::specs::Number::one_byte))]
pub fn write_bool<K: ByteSink>(sink: &mut K, truth: bool) -> Result<(), WriteError>
    ensures { Writes K.ByteSink sink.old sink.new result (truth_byte truth) }
{
    if truth {
        write_u8(sink, 1)
    } else {
        write_u8(sink, 0)
    }
}

/// Writes the shortest encoding of a number.
// Most have one byte.
#[inline(always)]
pub fn write_vint<K: ByteSink>(sink: &mut K, number: u64) -> Result<(), WriteError>
    ensures { Writes K.ByteSink sink.old sink.new result (vnum number) }
{
    if number < 128 {
        return write_u8(sink, number as u8 + 128);
    }
    let (bytes, len) = VInt(number).spelling();
    write_all(sink, &bytes[..len])
}

/// Writes bytes after their length.
#[inline(always)]
#[tactic(auto, using(crate::proofs::Written::Writes_then, crate::proofs::Written::Writes_prefix))]
pub fn write_sized<K: ByteSink>(sink: &mut K, content: &[u8]) -> Result<(), WriteError>
    ensures { Writes K.ByteSink sink.old sink.new result (short_sized content.now) }
{
    write_vint(sink, content.len() as u64)?;
    write_all(sink, content)
}

/// Writes a text after its length in bytes.
#[inline(always)]
pub fn write_text<K: ByteSink>(sink: &mut K, text: &str) -> Result<(), WriteError>
    ensures { Writes K.ByteSink sink.old sink.new result (short_sized text.now) }
{
    write_sized(sink, text.as_bytes())
}
