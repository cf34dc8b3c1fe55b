//! Passing over texts with their tokens, which are tested and not kept.

ghost use Rattle.tv_base.specs.ErrorInPart.{ErrorInNumber, InEach};
ghost use Rattle.tv_format.specs.Encoding.{TokenEncoding};
ghost use Rattle.tv_format.specs.InputError.{Corrupt, ErrorInToken, ErrorInTokenized};
ghost use Rattle.tv_reader.specs.Finds.{FindsRoomy};
ghost use Rattle.tv_reading.specs.Skip.{IsNumberEncoding, IsTokenEncoding, AreTokenEncodings, IsTextAndNumber, ErrorInTextAndNumber, ErrorInTokens, AreCounted};
ghost use Rattle.tv_reading.specs.Skip.{ErrorInCounted, IsTokenizedEncoding};

use crate::parts::skip_text;
use tv_base::ByteSource;
use tv_base::take::take_vint;
use tv_reader::DeserializeError;

// Passes over a number of variable length.
fn skip_number<S: ByteSource>(source: &mut S, count: &mut u64) -> Result<(), DeserializeError>
    ensures finds { FindsRoomy S.ByteSource source.old count.old source.new
        count.new result (λ b _. IsNumberEncoding b) (Corrupt ErrorInNumber) }
{
    take_vint(source, count)?;
    Ok(())
}

// Passes over a text, and a number after it.
fn skip_text_and_number<S: ByteSource>(
    source: &mut S,
    count: &mut u64,
    scratch: &mut Vec<u8>,
) -> Result<(), DeserializeError>
    ensures finds { FindsRoomy S.ByteSource source.old count.old source.new
        count.new result (λ b _. IsTextAndNumber b) (Corrupt ErrorInTextAndNumber) }
{
    skip_text(source, count, scratch)?;
    skip_number(source, count)
}

// Passes over a token: three numbers, a text and a number.
fn skip_token<S: ByteSource>(
    source: &mut S,
    count: &mut u64,
    scratch: &mut Vec<u8>,
) -> Result<(), DeserializeError>
    ensures finds { FindsRoomy S.ByteSource source.old count.old source.new
        count.new result (λ b _. IsTokenEncoding b) (Corrupt ErrorInToken) }
{
    skip_number(source, count)?;
    skip_number(source, count)?;
    skip_number(source, count)?;
    skip_text_and_number(source, count, scratch)
}

// Passes over this many tokens.
fn skip_tokens<S: ByteSource>(
    source: &mut S,
    count: &mut u64,
    scratch: &mut Vec<u8>,
    announced: u64,
) -> Result<(), DeserializeError>
    ensures finds { FindsRoomy S.ByteSource source.old count.old source.new
        count.new result (λ b _. AreTokenEncodings announced b) (Corrupt (ErrorInTokens announced)) }
{
    for _ in 0..announced {
        skip_token(source, count, scratch)?;
    }
    Ok(())
}

// Passes over the number of tokens, and each.
fn skip_counted_tokens<S: ByteSource>(
    source: &mut S,
    count: &mut u64,
    scratch: &mut Vec<u8>,
) -> Result<(), DeserializeError>
    ensures finds { FindsRoomy S.ByteSource source.old count.old source.new
        count.new result (λ b _. AreCounted b) (Corrupt ErrorInCounted) }
{
    let announced = take_vint(source, count)?;
    skip_tokens(source, count, scratch, announced)
}

// Passes over a text and its tokens, after their codes.
pub(crate) fn skip_tokenized<S: ByteSource>(
    source: &mut S,
    count: &mut u64,
    scratch: &mut Vec<u8>,
) -> Result<(), DeserializeError>
    ensures finds { FindsRoomy S.ByteSource source.old count.old source.new
        count.new result (λ b _. IsTokenizedEncoding b) (Corrupt ErrorInTokenized) }
{
    skip_text(source, count, scratch)?;
    skip_counted_tokens(source, count, scratch)
}
