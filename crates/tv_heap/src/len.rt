//! How many bytes are written of a value without children.

ghost use Rattle.std.specs.Prelude.{◌≡◌, ◌+◌, ◌<◌, ◌≤◌, ◌^◌, SomeIff, length};
ghost use Rattle.std.specs.List.{flat_map};
ghost use Rattle.tv_base.specs.Number.{vnum};
ghost use Rattle.tv_heap.specs.LeafBytes.{content_bytes, leaf_bytes};
ghost use Rattle.tv_value.specs.LeafParts.{content_of};
ghost use Rattle.tv_value.specs.Lent.{leaf_of};
ghost use Rattle.tv_value.specs.PreTokenized.{text_of, tokens_of, tokens_left};
ghost use Rattle.tv_format.specs.Short.{short_token, short_tokenized};
ghost use Rattle.tv_value.specs.TokenRef.{ref_of};

use tv_base::vint::VInt;
use tv_value::leaf::{LeafContent, ReferenceValueLeaf};
use tv_value::pre_tokenized::{PreTokenizedStr, TokenIter, TokenRef};

/// The length of the shortest encoding of a number. (Not in tantivy.)
#[inline(always)]
pub fn number_len(number: u64) -> u32
    ensures len { result ≡ length (vnum number) }
    ensures small { result ≤ 10 }
{
    if number < 128 {
        return 1;
    }
    let (_, len) = VInt(number).spelling();
    len as u32
}

// The length of this many bytes after their length, above what there is, where the sum fits.
#[inline(always)]
fn sized_above(len: usize, base: u32) -> Option<u32>
    ensures { let total = base
        + (length (vnum len) + len) in SomeIff result (total < 2 ^ 32) total }
{
    base.checked_add(u32::try_from(len).ok()?)?
        .checked_add(number_len(len as u64))
}

// The length of the encoding of a token, above what there is, where the sum fits.
fn token_above(token: TokenRef<'_>, base: u32) -> Option<u32>
    ensures { let total = base
        + length (short_token (ref_of token.entry)) in SomeIff result (total < 2 ^ 32) total }
{
    sized_above(token.text.len(), base)?
        .checked_add(number_len(token.offset_from as u64))?
        .checked_add(number_len(token.offset_to as u64))?
        .checked_add(number_len(token.position as u64))?
        .checked_add(number_len(token.position_length as u64))
}

// The length of the encodings of tokens, above what there is, where the sum fits.
fn tokens_above(tokens: TokenIter<'_>, base: u32) -> Option<u32>
    ensures { let total = base
        + length (flat_map short_token (tokens_left tokens.entry)) in SomeIff result
        (total < 2 ^ 32) total }
{
    let mut total = base;
    for token in tokens {
        total = token_above(token, total)?;
    }
    Some(total)
}

// The length of a text and its tokens, where it fits.
fn tokenized_len(content: PreTokenizedStr<'_>) -> Option<u32>
    ensures { let len = length (short_tokenized (text_of content.entry) (tokens_of content.entry))
        in SomeIff result (len < 2 ^ 32) len }
{
    let base = sized_above(content.text().len(), number_len(content.len() as u64))?;
    tokens_above(content.tokens(), base)
}

/// The length of what is written of a value without children, where it is at most 4294967295 bytes.
#[inline(always)]
#[tactic(auto, using(crate::proofs::Writes::length_eight, crate::proofs::Writes::length_sixteen))]
pub fn leaf_len(value: &ReferenceValueLeaf<'_>) -> Option<u32>
    ensures { let len = length (leaf_bytes (leaf_of value.now)) in SomeIff result (len < 2 ^ 32)
        len }
{
    match value.content() {
        LeafContent::Nothing | LeafContent::Truth(_) => Some(0),
        LeafContent::Unsigned(_) | LeafContent::Signed(_) => Some(8),
        LeafContent::Wide(_) => Some(16),
        LeafContent::Text(text) => sized_above(text.len(), 0),
        LeafContent::Bytes(bytes) => sized_above(bytes.len(), 0),
        LeafContent::Tokens(text) => tokenized_len(text),
    }
}

/// The same of a value without children that holds this. (Not in tantivy.) It has a body of its own, since `leaf_len` is slower where what a value
/// holds is handed on.
#[inline(always)]
#[tactic(auto, using(crate::proofs::Writes::length_eight, crate::proofs::Writes::length_sixteen))]
pub fn content_len(content: LeafContent<'_>) -> Option<u32>
    ensures { let len = length (content_bytes (content_of content.entry)) in SomeIff result
        (len < 2 ^ 32) len }
{
    match content {
        LeafContent::Nothing | LeafContent::Truth(_) => Some(0),
        LeafContent::Unsigned(_) | LeafContent::Signed(_) => Some(8),
        LeafContent::Wide(_) => Some(16),
        LeafContent::Text(text) => sized_above(text.len(), 0),
        LeafContent::Bytes(bytes) => sized_above(bytes.len(), 0),
        LeafContent::Tokens(text) => tokenized_len(text),
    }
}
