//! Parts of encoded values at the start of bytes. They are read where they stand.

ghost use Rattle.std.specs.Prelude.{◌≡◌, ◌≢◌, ◌∷◌, ℕ, List, IfSome, IfNone, MatchOption};
ghost use Rattle.tv_base.specs.Number.{VNum, Fixed, Signed, Truth};
ghost use Rattle.tv_base.specs.Parts.{Begins, Behind, Sized, Text};
ghost use Rattle.tv_value.specs.InPlace.{BeginsTokens, NoPrefix, NoTokens};
ghost use Rattle.tv_value.specs.LeafParts.{content_of};
ghost use Rattle.tv_value.specs.PreTokenized.{text_of, tokens_of};
ghost use Rattle.tv_value.specs.TokenRef.{ref_of};
ghost use Rattle.tv_format.specs.Content.{form_of};
ghost use Rattle.tv_format.specs.Encoding.{ContentBody, Key, TokenEncoding, Tokenized};
ghost use Rattle.tv_format.specs.Tree.{Token};
ghost use Rattle.tv_format.specs.Version.{entry_total, plain};
ghost use Rattle.tv_format.specs.WriteVersion.{written_version};
ghost use Rattle.tv_format.specs.declared.leaf_type.WriteVersion.{WriteVersion};

use crate::leaf::LeafContent;
use crate::pre_tokenized::{PreTokenizedStr, TokenRef};
use crate::utf8::is_utf8_prefix;
use tv_base::VInt;
use tv_format::type_codes::{TEXT_CODE, TOK_STR_EXT_CODE};
use tv_format::{Form, WriteVersion};

/// The number of variable length at the start of the bytes, and what follows it. None where no prefix encodes a number. (Not in tantivy.)
#[inline]
pub fn number_at(bytes: &[u8]) -> Option<(u64, &[u8])>
    ensures found { IfSome result (λ x. Begins (λ b. VNum b x.0) bytes.now x.1.now) }
    ensures none { IfNone result ((n : ℕ) → NoPrefix (λ b. VNum b n) bytes.now) }
{
    // most have one byte
    if let Some((first, rest)) = bytes.split_first() {
        if *first >= 128 {
            return Some((u64::from(*first % 128), rest));
        }
    }
    let (number, len) = VInt::from_slice(bytes)?;
    Some((number, &bytes[len..]))
}

/// The text at the start of the bytes, and what follows it. None where no prefix encodes a text. (Not in tantivy.)
pub fn text_at(bytes: &[u8]) -> Option<(&str, &[u8])>
    ensures found { IfSome result (λ x. Begins (λ b. Text b x.0.now) bytes.now x.1.now) }
    ensures none { IfNone result ((content : List ℕ) → NoPrefix (λ b. Text b content) bytes.now) }
{
    let (len, behind_len) = number_at(bytes)?;
    if (behind_len.len() as u64) < len {
        return None;
    }
    let len = len as usize;
    if !is_utf8_prefix(behind_len, len) {
        return None;
    }
    let (content, rest) = behind_len.split_at(len);
    let text = unsafe { str::from_utf8_unchecked(content) };
    Some((text, rest))
}

// The token at the start of the bytes, and what follows it. None where no prefix encodes a token.
pub(crate) fn token_at(bytes: &[u8]) -> Option<(TokenRef<'_>, &[u8])>
    ensures found { IfSome result
        (λ x. Begins (λ b. TokenEncoding b (ref_of x.0)) bytes.now x.1.now) }
    ensures none { IfNone result
        ((token : Token) → NoPrefix (λ b. TokenEncoding b token) bytes.now) }
{
    let (offset_from, behind_from) = number_at(bytes)?;
    let (offset_to, behind_to) = number_at(behind_from)?;
    let (position, behind_position) = number_at(behind_to)?;
    let (text, behind_text) = text_at(behind_position)?;
    let (position_length, rest) = number_at(behind_text)?;
    let token = TokenRef {
        offset_from: offset_from as usize,
        offset_to: offset_to as usize,
        position: position as usize,
        text,
        position_length: position_length as usize,
    };
    Some((token, rest))
}

// What follows this many tokens at the start of the bytes. None where no prefix encodes this many.
pub(crate) fn behind_tokens(count: u64, bytes: &[u8]) -> Option<&[u8]>
    ensures found { IfSome result (λ rest. BeginsTokens count bytes.now rest.now) }
    ensures none { IfNone result (NoTokens count bytes.now) }
{
    let mut rest = bytes;
    for _i in 0..count {
        let (_token, behind) = token_at(rest)?;
        rest = behind;
    }
    Some(rest)
}

/// The bytes after their length at the start, and what follows them. `None` where they aren't all there.
pub fn sized_at(bytes: &[u8]) -> Option<(&[u8], &[u8])>
    ensures { IfSome result (λ x. Begins (λ b. Sized b x.0.now) bytes.now x.1.now) }
{
    let (len, behind_len) = number_at(bytes)?;
    if (behind_len.len() as u64) < len {
        return None;
    }
    Some(behind_len.split_at(len as usize))
}

/// The number in eight bytes at the start, and what follows it. `None` where there are fewer.
#[inline(always)]
pub fn eight_at(bytes: &[u8]) -> Option<(u64, &[u8])>
    ensures { IfSome result (λ x. Begins (λ b. Fixed 8 b x.0) bytes.now x.1.now) }
{
    let (prefix, rest) = bytes.split_first_chunk::<8>()?;
    Some((u64::from_le_bytes(*prefix), rest))
}

/// The signed number in eight bytes at the start, and what follows it. `None` where there are fewer.
#[inline(always)]
pub fn signed_at(bytes: &[u8]) -> Option<(i64, &[u8])>
    ensures { IfSome result (λ x. Begins (λ b. Signed b x.0) bytes.now x.1.now) }
{
    let (bits, rest) = eight_at(bytes)?;
    Some((bits.cast_signed(), rest))
}

/// The number in sixteen bytes at the start, and what follows it. `None` where there are fewer.
#[inline(always)]
pub fn sixteen_at(bytes: &[u8]) -> Option<(u128, &[u8])>
    ensures { IfSome result (λ x. Begins (λ b. Fixed 16 b x.0) bytes.now x.1.now) }
{
    let (prefix, rest) = bytes.split_first_chunk::<16>()?;
    Some((u128::from_le_bytes(*prefix), rest))
}

/// The truth value at the start, and what follows it. `None` where none is there.
#[inline(always)]
pub fn truth_at(bytes: &[u8]) -> Option<(bool, &[u8])>
    ensures { IfSome result (λ x. Begins (λ b. Truth b x.0) bytes.now x.1.now) }
{
    let (byte, rest) = bytes.split_first()?;
    match *byte {
        0 => Some((false, rest)),
        1 => Some((true, rest)),
        _ => None,
    }
}

/// The text with its tokens at the start, after the code of an extension, and what follows them. `None` where none are there.
pub fn tokenized_at(bytes: &[u8]) -> Option<(PreTokenizedStr<'_>, &[u8])>
    ensures { IfSome result
        (λ x. Begins (Behind 0 (λ b. Tokenized b (text_of x.0) (tokens_of x.0))) bytes.now
        x.1.now) }
{
    let (code, payload) = bytes.split_first()?;
    if *code != TOK_STR_EXT_CODE {
        return None;
    }
    let (content, len) = PreTokenizedStr::from_payload(payload)?;
    Some((content, &payload[len..]))
}

// What stands after the code of a key, which only version 3 leaves out.
#[inline(always)]
fn behind_key_code(bytes: &[u8], version: WriteVersion) -> Option<&[u8]>
    ensures coded { version ≡ WriteVersion.V2 → MatchOption result
        ((behind : List ℕ) → bytes.now ≢ 0 ∷ behind) (λ behind. bytes.now ≡ 0 ∷ behind.now) }
    ensures bare { version ≡ WriteVersion.V3 → MatchOption result ⊥
        (λ behind. bytes.now ≡ behind.now) }
{
    match version {
        WriteVersion::V2 => {
            let (code, behind) = bytes.split_first()?;
            if *code != TEXT_CODE {
                return None;
            }
            Some(behind)
        }
        WriteVersion::V3 => Some(bytes),
    }
}

/// The key at the start, as this version encodes it, and what follows it. `None` where none is there.
#[inline(always)]
pub fn key_at(bytes: &[u8], version: WriteVersion) -> Option<(&str, &[u8])>
    ensures { IfSome result
        (λ x. Begins (λ b. Key (written_version version) b x.0.now) bytes.now x.1.now) }
{
    let behind = behind_key_code(bytes, version)?;
    let (key, rest) = text_at(behind)?;
    Some((key, rest))
}

/// The number of an object's entries at the start, as this version encodes it, and what follows it. `None` where none is there.
#[inline(always)]
pub fn entry_count_at(bytes: &[u8], version: WriteVersion) -> Option<(u64, &[u8])>
    ensures { IfSome result
        (λ x. Begins (λ b. VNum b (entry_total (written_version version) x.0)) bytes.now
        x.1.now) }
{
    let (number, rest) = number_at(bytes)?;
    match version {
        WriteVersion::V2 => {
            if number % 2 != 0 {
                return None;
            }
            Some((number / 2, rest))
        }
        WriteVersion::V3 => Some((number, rest)),
    }
}

/// What a value without children of this form holds, as it stands at the start after the value's code, and what follows it. `None` where none
/// is there. (Not in tantivy.)
#[inline(always)]
pub fn content_at(form: Form, bytes: &[u8]) -> Option<(LeafContent<'_>, &[u8])>
    ensures form { IfSome result (λ x. form_of (content_of x.0) ≡ form) }
    ensures found { IfSome result
        (λ x. Begins (λ b. ContentBody plain b (content_of x.0)) bytes.now x.1.now) }
{
    match form {
        Form::Nothing => Some((LeafContent::Nothing, bytes)),
        Form::Truth => {
            let (truth, rest) = truth_at(bytes)?;
            Some((LeafContent::Truth(truth), rest))
        }
        Form::Unsigned => {
            let (number, rest) = eight_at(bytes)?;
            Some((LeafContent::Unsigned(number), rest))
        }
        Form::Signed => {
            let (number, rest) = signed_at(bytes)?;
            Some((LeafContent::Signed(number), rest))
        }
        Form::Wide => {
            let (number, rest) = sixteen_at(bytes)?;
            Some((LeafContent::Wide(number), rest))
        }
        Form::Text => {
            let (text, rest) = text_at(bytes)?;
            Some((LeafContent::Text(text), rest))
        }
        Form::Bytes => {
            let (content, rest) = sized_at(bytes)?;
            Some((LeafContent::Bytes(content), rest))
        }
        Form::Tokens => {
            let (text, rest) = tokenized_at(bytes)?;
            Some((LeafContent::Tokens(text), rest))
        }
    }
}
