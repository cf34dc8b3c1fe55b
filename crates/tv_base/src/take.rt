//! Reading from a source that is lent, and counting the bytes that are taken of it.
//!
//! Each function takes exactly the bytes of its value, and raises `count` by their number. Before `count` would pass
//! 2^64 - 1 it returns `Corrupted(TooLong)`: the bytes that were taken end too early. Every other error is what the bytes show, also
//! where as many were taken. After an error `count` has risen by the number of the bytes that were taken up to there.

ghost use Rattle.std.specs.Prelude.{◌<◌, ◌≡◌, ◌⊎◌, ◌≤◌, ◌+◌, [], length, true, false, IfOk, IfErr, IsErrOf, OnOk, OnErr, string_bytes};
ghost use Rattle.std.specs.Str.{is_utf8};
ghost use Rattle.tv_base.specs.declared.cause.Cause.{Cause};
ghost use Rattle.tv_base.specs.declared.cause.Cause.TheVariants.{UnexpectedEnd, BadNumber, BadBool, NotUtf8, TooLong};
ghost use Rattle.tv_base.specs.declared.cause.ReadError.TheVariants.{Corrupted};
ghost use Rattle.tv_base.specs.Take.{TakesBy, TakesLean};
ghost use Rattle.tv_base.specs.Reading.{bytes_at, more_at, u8_at, u32_at, u64_at, u128_at, i64_at, truth_at, vint_at, sized_at, text_at};

use crate::cause::{Cause, ReadError};
use crate::facet::Facet;
use crate::source::ByteSource;
use crate::vint::{fill, pass_number};
use std::alloc::Global;
use std::mem;

/// Fills `buf` with the next bytes: those buffered, or else in as many reads as it takes.
///
/// Errors: `Corrupted(UnexpectedEnd)` where the source ends before, `Corrupted(TooLong)`, and `Io` where a read fails.
/// What `buf` then holds is unspecified.
#[inline]
pub fn take<S: ByteSource>(source: &mut S, count: &mut u64, buf: &mut [u8]) -> Result<(), ReadError>
    ensures takes { TakesLean S.ByteSource source.old count.old source.new count.new
        (λ _. buf.new) result (bytes_at (length buf.old)) }
    ensures causes { (cause : Cause) → IsErrOf result (Corrupted cause)
        → (cause ≡ UnexpectedEnd) ⊎ (cause ≡ TooLong) }
    ensures counted { OnOk result (count.new ≡ count.old + length buf.old) }
    ensures at_most { count.new ≤ count.old + length buf.old }
{
    let len = buf.len() as u64;
    if u64::MAX - *count < len {
        return take_by_reads(source, count, buf);
    }
    if fill(source, buf) {
        *count += len;
        return Ok(());
    }
    take_by_reads(source, count, buf)
}

// The same by reads alone.
fn take_by_reads<S: ByteSource>(
    source: &mut S,
    count: &mut u64,
    buf: &mut [u8],
) -> Result<(), ReadError>
    ensures takes { TakesLean S.ByteSource source.old count.old source.new count.new
        (λ _. buf.new) result (bytes_at (length buf.old)) }
    ensures causes { (cause : Cause) → IsErrOf result (Corrupted cause)
        → (cause ≡ UnexpectedEnd) ⊎ (cause ≡ TooLong) }
    ensures counted { OnOk result (count.new ≡ count.old + length buf.old) }
    ensures at_most { count.new ≤ count.old + length buf.old }
{
    let mut filled = 0;
    while filled < buf.len() {
        let room = (u64::MAX - *count) as usize;
        if room == 0 {
            return Err(ReadError::Corrupted(Cause::TooLong));
        }
        let end = filled + room.min(buf.len() - filled);
        match source.read(&mut buf[filled..end]) {
            Ok(0) => return Err(ReadError::Corrupted(Cause::UnexpectedEnd)),
            Ok(more) => {
                filled += more;
                *count += more as u64;
            }
            Err(kind) => return Err(ReadError::Io(kind)),
        }
    }
    Ok(())
}

/// Takes one byte. Errors: those of [`take`].
#[inline]
#[tactic(auto, unfolding(crate::specs::Reading::u8_at))]
pub fn take_u8<S: ByteSource>(source: &mut S, count: &mut u64) -> Result<u8, ReadError>
    ensures takes { TakesLean S.ByteSource source.old count.old source.new count.new
        (λ x. x) result u8_at }
    ensures causes { (cause : Cause) → IsErrOf result (Corrupted cause)
        → (cause ≡ UnexpectedEnd) ⊎ (cause ≡ TooLong) }
    ensures refused { OnErr result (count.new ≡ count.old) }
    ensures counted { OnOk result (count.new ≡ count.old + 1) }
{
    if *count == u64::MAX {
        return Err(ReadError::Corrupted(Cause::TooLong));
    }
    match source.next_byte() {
        Ok(Some(byte)) => {
            *count += 1;
            Ok(byte)
        }
        Ok(None) => Err(ReadError::Corrupted(Cause::UnexpectedEnd)),
        Err(kind) => Err(ReadError::Io(kind)),
    }
}

/// Takes a number in four bytes, the lowest first. Errors: those of [`take`].
#[tactic(auto, unfolding(crate::specs::Reading::number_at))]
pub fn take_u32<S: ByteSource>(source: &mut S, count: &mut u64) -> Result<u32, ReadError>
    ensures takes { TakesLean S.ByteSource source.old count.old source.new count.new
        (λ x. x) result u32_at }
    ensures counted { OnOk result (count.new ≡ count.old + 4) }
    ensures at_most { count.new ≤ count.old + 4 }
{
    let mut bytes = [0; 4];
    take(source, count, &mut bytes)?;
    Ok(u32::from_le_bytes(bytes))
}

/// Takes a number in eight bytes, the lowest first. Errors: those of [`take`].
#[tactic(auto, unfolding(crate::specs::Reading::number_at))]
pub fn take_u64<S: ByteSource>(source: &mut S, count: &mut u64) -> Result<u64, ReadError>
    ensures takes { TakesLean S.ByteSource source.old count.old source.new count.new
        (λ x. x) result u64_at }
    ensures counted { OnOk result (count.new ≡ count.old + 8) }
    ensures at_most { count.new ≤ count.old + 8 }
{
    let mut bytes = [0; 8];
    take(source, count, &mut bytes)?;
    Ok(u64::from_le_bytes(bytes))
}

/// Takes a number in sixteen bytes, the lowest first. Errors: those of [`take`].
#[tactic(auto, unfolding(crate::specs::Reading::number_at))]
pub fn take_u128<S: ByteSource>(source: &mut S, count: &mut u64) -> Result<u128, ReadError>
    ensures takes { TakesLean S.ByteSource source.old count.old source.new count.new
        (λ x. x) result u128_at }
    ensures counted { OnOk result (count.new ≡ count.old + 16) }
    ensures at_most { count.new ≤ count.old + 16 }
{
    let mut bytes = [0; 16];
    take(source, count, &mut bytes)?;
    Ok(u128::from_le_bytes(bytes))
}

/// Takes a signed number in eight bytes, the lowest first, in two's complement. Errors: those of [`take`].
#[tactic(auto, unfolding(crate::specs::Reading::i64_at))]
pub fn take_i64<S: ByteSource>(source: &mut S, count: &mut u64) -> Result<i64, ReadError>
    ensures takes { TakesLean S.ByteSource source.old count.old source.new count.new
        (λ x. x) result i64_at }
    ensures counted { OnOk result (count.new ≡ count.old + 8) }
    ensures at_most { count.new ≤ count.old + 8 }
{
    let number = take_u64(source, count)?;
    Ok(number.cast_signed())
}

/// Takes a truth value: one byte, 0 or 1.
///
/// Errors: those of [`take`], and `Corrupted(BadBool)` where the byte is neither.
#[tactic(auto, unfolding(crate::specs::Reading::truth_at))]
pub fn take_bool<S: ByteSource>(source: &mut S, count: &mut u64) -> Result<bool, ReadError>
    ensures takes { TakesLean S.ByteSource source.old count.old source.new count.new
        (λ x. x) result truth_at }
    ensures counted { OnOk result (count.new ≡ count.old + 1) }
    ensures at_most { count.new ≤ count.old + 1 }
    ensures other { IsErrOf result (Corrupted BadBool) → count.new ≡ count.old + 1 }
{
    match take_u8(source, count)? {
        0 => Ok(false),
        1 => Ok(true),
        _ => Err(ReadError::Corrupted(Cause::BadBool)),
    }
}

// A number of variable length has at most this many bytes.
const LONGEST_NUMBER: u64 = 10;

/// Takes a number of variable length. No byte is taken after the first error.
///
/// Errors: those of [`take`], and `Corrupted(BadNumber)` where the number has more than ten bytes or is 2^64 or more.
#[inline]
pub fn take_vint<S: ByteSource>(source: &mut S, count: &mut u64) -> Result<u64, ReadError>
    ensures takes { TakesLean S.ByteSource source.old count.old source.new count.new
        (λ x. x) result vint_at }
    ensures at_most { count.new ≤ count.old + 10 }
    ensures ten { IsErrOf result (Corrupted BadNumber) → count.new ≡ count.old + 10 }
{
    if u64::MAX - *count < LONGEST_NUMBER {
        return take_groups(source, count);
    }
    match pass_number(source) {
        Some((number, len)) => {
            *count += len as u64;
            Ok(number)
        }
        None => take_groups(source, count),
    }
}

// Nine groups of seven bits may come before the last.
const MORE_GROUPS: u32 = 9;

// The same, group by group.
fn take_groups<S: ByteSource>(source: &mut S, count: &mut u64) -> Result<u64, ReadError>
    ensures takes { TakesLean S.ByteSource source.old count.old source.new count.new
        (λ x. x) result vint_at }
    ensures at_most { count.new ≤ count.old + 10 }
    ensures ten { IsErrOf result (Corrupted BadNumber) → count.new ≡ count.old + 10 }
{
    let mut value = 0u64;
    let mut weight = 1u64;
    for _ in 0..MORE_GROUPS {
        let byte = take_u8(source, count)?;
        value += u64::from(byte % 128) * weight;
        if byte >= 128 {
            return Ok(value);
        }
        weight *= 128;
    }
    let last = take_u8(source, count)?;
    if last < 128 || last % 128 > 1 {
        return Err(ReadError::Corrupted(Cause::BadNumber));
    }
    Ok(value + u64::from(last % 128) * weight)
}

// No more than this is made room for before it is read.
const PIECE: u64 = 4096;

// So much is asked for at once even where less came before.
const LEAST_PIECE: u64 = 64;

// How much is asked for at once after a read that gave this much: twice that, within bounds. So a source that gives little at a time doesn't have much
// room cleared for each read.
fn piece_behind(last: u64) -> u64
    ensures some { 0 < result }
    ensures most { result ≤ 4096 }
{
    last.saturating_mul(2).clamp(LEAST_PIECE, PIECE)
}

/// Takes the next `len` bytes, and puts them after those that are there. Room is made only as they come.
///
/// Errors: those of [`take`], and `Memory`. After an error what `bytes` holds is unspecified.
pub fn take_pieces<S: ByteSource>(
    source: &mut S,
    count: &mut u64,
    bytes: &mut Vec<u8>,
    len: u64,
) -> Result<(), ReadError>
    ensures takes { TakesBy S.ByteSource source.old count.old source.new count.new
        (λ _. bytes.new.items) result (more_at bytes.old.items len) }
    ensures longer { OnOk result (length bytes.new.items ≡ length bytes.old.items + len) }
    ensures at_most { count.new ≤ count.old + len }
{
    let mut missing = len;
    let mut last = PIECE;
    while missing > 0 {
        let room = u64::MAX - *count;
        if room == 0 {
            return Err(ReadError::Corrupted(Cause::TooLong));
        }
        let most = missing.min(room).min(piece_behind(last));
        let more = source.append(bytes, most as usize)? as u64;
        if more == 0 {
            return Err(ReadError::Corrupted(Cause::UnexpectedEnd));
        }
        *count += more;
        missing -= more;
        last = more;
    }
    Ok(())
}

/// Takes bytes after their length, and puts them in place of those that are there. Room is made only as they come.
///
/// Errors: those of [`take_vint`], and `Memory`. After an error what `bytes` holds is unspecified.
#[tactic(auto, using(crate::proofs::TakeSteps::Taken_then), unfolding(crate::specs::Reading::sized_at))]
pub fn take_sized<S: ByteSource>(
    source: &mut S,
    count: &mut u64,
    bytes: &mut Vec<u8>,
) -> Result<(), ReadError>
    ensures takes { TakesBy S.ByteSource source.old count.old source.new count.new
        (λ _. bytes.new.items) result sized_at }
{
    let len = take_vint(source, count)?;
    bytes.clear();
    take_pieces(source, count, bytes, len)
}

/// Takes bytes after their length. Room is made only as they come. Errors: those of [`take_sized`].
pub fn take_bytes<S: ByteSource>(
    alloc: Global,
    source: &mut S,
    count: &mut u64,
) -> Result<Vec<u8>, ReadError>
    ensures takes { TakesBy S.ByteSource source.old count.old source.new count.new
        (λ bytes. bytes.items) result sized_at }
{
    let mut bytes = Vec::new(alloc);
    take_sized(source, count, &mut bytes)?;
    Ok(bytes)
}

/// Takes a text after its length in bytes, and puts it in place of the one that is there, in the same room where that
/// suffices. More room is made only as the bytes come.
///
/// Errors: those of [`take_sized`], and `Corrupted(NotUtf8)`. After an error `text` is empty.
#[tactic(auto, unfolding(crate::specs::Reading::text_at))]
pub fn take_text<S: ByteSource>(
    alloc: Global,
    source: &mut S,
    count: &mut u64,
    text: &mut String,
) -> Result<(), ReadError>
    ensures takes { TakesBy S.ByteSource source.old count.old source.new count.new
        (λ _. string_bytes text.new) result text_at }
    ensures empty { OnErr result (string_bytes text.new ≡ []) }
{
    let mut bytes = mem::replace(text, String::new(alloc)).into_bytes();
    take_sized(source, count, &mut bytes)?;
    *text = text_of(bytes)?;
    Ok(())
}

/// Takes a text after its length in bytes. Room is made only as the bytes come. Errors: those of [`take_text`].
pub fn take_string<S: ByteSource>(
    alloc: Global,
    source: &mut S,
    count: &mut u64,
) -> Result<String, ReadError>
    ensures takes { TakesBy S.ByteSource source.old count.old source.new count.new
        (λ s. string_bytes s) result text_at }
{
    let mut text = String::new(alloc);
    take_text(alloc, source, count, &mut text)?;
    Ok(text)
}

/// Takes a facet: its encoded text, after its length in bytes. Errors: those of [`take_text`].
pub fn take_facet<S: ByteSource>(
    alloc: Global,
    source: &mut S,
    count: &mut u64,
) -> Result<Facet, ReadError>
    ensures takes { TakesBy S.ByteSource source.old count.old source.new count.new
        (λ facet. facet) result text_at }
{
    let encoded = take_string(alloc, source, count)?;
    Ok(Facet::from_encoded_string(encoded))
}

// The text of these bytes.
fn text_of(bytes: Vec<u8>) -> Result<String, ReadError>
    ensures ok { IfOk result (λ s. (is_utf8 bytes.items ≡ true) × (string_bytes s ≡ bytes.items)) }
    ensures err { IfErr result (λ e. (is_utf8 bytes.items ≡ false) × (e ≡ Corrupted NotUtf8)) }
{
    match String::from_utf8(bytes) {
        Ok(text) => Ok(text),
        Err(_) => Err(ReadError::Corrupted(Cause::NotUtf8)),
    }
}
