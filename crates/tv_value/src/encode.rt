//! Encodings of numbers, texts and tokens, appended to a buffer of bytes.

ghost use Rattle.std.specs.Prelude.{◌≡◌, ◌+◌, ◌<◌, ◌^◌, ◌++◌, length, OnOk, OnErr};
ghost use Rattle.tv_base.specs.Buffer.{Extends, GrowsWithin};
ghost use Rattle.tv_base.specs.Number.{vnum};
ghost use Rattle.tv_base.specs.Parts.{short_sized};
ghost use Rattle.tv_base.specs.Sink.{IsPrefix};
ghost use Rattle.tv_format.specs.Short.{short_token, IsText, IsToken};
ghost use Rattle.tv_value.specs.TokenRef.{ref_of};

use crate::pre_tokenized::TokenRef;
use std::alloc::AllocError;
use tv_base::{ByteBuffer, VInt};

/// Appends the shortest encoding of `number`. (Not in tantivy.) The only error is that memory was refused; the old bytes are then still a
/// prefix. Memory grows as for one write of all of it.
#[inline(always)]
pub fn push_number(bytes: &mut ByteBuffer, number: u64) -> Result<(), AllocError>
    ensures ok { OnOk result (bytes.new.items ≡ bytes.old.items ++ vnum number) }
    ensures small { OnOk result (length bytes.new.items < 2 ^ 63) }
    ensures err { OnErr result (IsPrefix bytes.old.items bytes.new.items) }
    ensures grows { GrowsWithin (length bytes.old.items + length (vnum number)) bytes.old bytes.new }
{
    if number < 128 {
        return bytes.push(number as u8 + 128);
    }
    if number < 16384 {
        return bytes.extend_from_chunk(&[(number % 128) as u8, (number / 128) as u8 + 128]);
    }
    push_long_number(bytes, number)
}

// Appends the shortest encoding of `number`, by a call that isn't expanded in place.
#[inline(never)]
fn push_long_number(bytes: &mut ByteBuffer, number: u64) -> Result<(), AllocError>
    ensures { Extends result bytes.old bytes.new (vnum number) }
{
    let (encoding, len) = VInt(number).spelling();
    bytes.extend_from_slice(&encoding[..len])
}

/// Appends the length of `content`, and `content`. (Not in tantivy.) The error is that of `push_number`.
#[inline(always)]
#[tactic(auto, using(tv_base::proofs::Growing::grows_then, tv_base::proofs::Growing::grows_more))]
pub fn push_sized(bytes: &mut ByteBuffer, content: &[u8]) -> Result<(), AllocError>
    ensures ok { OnOk result (bytes.new.items ≡ bytes.old.items ++ short_sized content.now) }
    ensures err { OnErr result (IsPrefix bytes.old.items bytes.new.items) }
    ensures grows { GrowsWithin (length bytes.old.items + length (short_sized content.now))
        bytes.old bytes.new }
{
    let len = content.len();
    if len < 128 {
        return bytes.extend_from_head(len as u8 + 128, content);
    }
    push_long(bytes, content)
}

// Appends the length of `content`, and `content`, by a call that isn't expanded in place.
#[inline(never)]
#[tactic(auto, using(tv_base::proofs::Growing::grows_then, tv_base::proofs::Growing::grows_more))]
fn push_long(bytes: &mut ByteBuffer, content: &[u8]) -> Result<(), AllocError>
    ensures ok { OnOk result (bytes.new.items ≡ bytes.old.items ++ short_sized content.now) }
    ensures err { OnErr result (IsPrefix bytes.old.items bytes.new.items) }
    ensures grows { GrowsWithin (length bytes.old.items + length (short_sized content.now))
        bytes.old bytes.new }
{
    push_number(bytes, content.len() as u64)?;
    bytes.extend_from_slice(content)
}

/// Appends the length of `text`, and `text`. (Not in tantivy.) The error is that of `push_number`.
pub fn push_text(bytes: &mut ByteBuffer, text: &str) -> Result<(), AllocError>
    ensures ok { OnOk result (bytes.new.items ≡ bytes.old.items ++ short_sized text.now) }
    ensures valid { OnOk result (IsText text.now) }
    ensures err { OnErr result (IsPrefix bytes.old.items bytes.new.items) }
    ensures grows { GrowsWithin (length bytes.old.items + length (short_sized text.now)) bytes.old
        bytes.new }
{
    push_sized(bytes, text.as_bytes())
}

/// Appends the shortest encoding of `token`. (Not in tantivy.) The error is that of `push_number`.
#[tactic(auto, using(tv_base::proofs::Growing::grows_then, tv_base::proofs::Growing::grows_more))]
pub fn push_token(bytes: &mut ByteBuffer, token: TokenRef<'_>) -> Result<(), AllocError>
    ensures ok { OnOk result
        (bytes.new.items ≡ bytes.old.items ++ short_token (ref_of token.entry)) }
    ensures valid { OnOk result (IsToken (ref_of token.entry)) }
    ensures small { OnOk result (length bytes.new.items < 2 ^ 63) }
    ensures err { OnErr result (IsPrefix bytes.old.items bytes.new.items) }
    ensures grows { GrowsWithin (length bytes.old.items + length (short_token (ref_of token.entry)))
        bytes.old bytes.new }
{
    push_number(bytes, token.offset_from as u64)?;
    push_number(bytes, token.offset_to as u64)?;
    push_number(bytes, token.position as u64)?;
    push_text(bytes, token.text)?;
    push_number(bytes, token.position_length as u64)
}
