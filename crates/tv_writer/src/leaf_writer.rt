//! Writing values without children, each in its shortest encoding.
//!
//! Each function hands on the error of a failed write. The sink then holds what it held before, and a beginning of what was
//! to be written.

ghost use Rattle.std.specs.Prelude.{◌≡◌, [], ◌∷◌};
ghost use Rattle.std.specs.List.{flat_map};
ghost use Rattle.tv_base.specs.Number.{vnum, eight_bytes, sixteen_bytes, signed_bytes, truth_byte};
ghost use Rattle.tv_base.specs.Parts.{short_sized};
ghost use Rattle.tv_base.specs.Writing.{Writes};
ghost use Rattle.tv_value.specs.LeafParts.{content_of};
ghost use Rattle.tv_value.specs.Lent.{leaf_of};
ghost use Rattle.tv_value.specs.PreTokenized.{text_of, tokens_left, tokens_of};
ghost use Rattle.tv_format.specs.Short.{short_token, short_tokenized, short_content, short_leaf};
ghost use Rattle.tv_value.specs.TokenRef.{ref_of};

use tv_base::write::{
    write_all, write_bool, write_sized, write_text, write_u8, write_u128, write_vint,
};
use tv_base::{ByteSink, WriteError};
use tv_format::type_codes::TOK_STR_EXT_CODE;
use tv_value::leaf::{LeafContent, ReferenceValueLeaf};
use tv_value::pre_tokenized::{PreTokenizedStr, TokenIter, TokenRef};

/// Writes the code of a value.
///
/// The only error is the kind with which the write failed, and then the sink holds what it held before. (Not in tantivy.)
#[inline]
#[tactic(auto, unfolding(tv_base::specs::Number::one_byte))]
pub fn write_code<K: ByteSink>(sink: &mut K, code: u8) -> Result<(), WriteError>
    ensures { Writes K.ByteSink sink.old sink.new result (code ∷ []) }
{
    write_u8(sink, code)
}

/// Writes a code, and a text after its length.
///
/// The only error is the kind with which a write failed. The sink then holds what it held before, and a beginning of these bytes.
/// (Not in tantivy.)
#[inline(always)]
pub fn write_coded_text<K: ByteSink>(sink: &mut K, code: u8, text: &str) -> Result<(), WriteError>
    ensures { Writes K.ByteSink sink.old sink.new result (code ∷ short_sized text.now) }
{
    write_coded_bytes(sink, code, text.as_bytes())
}

// A code, and bytes after their length. A length of one byte is written with the code.
#[inline(always)]
#[tactic(auto, using(crate::proofs::Coded::Coded_then))]
fn write_coded_bytes<K: ByteSink>(sink: &mut K, code: u8, content: &[u8]) -> Result<(), WriteError>
    ensures { Writes K.ByteSink sink.old sink.new result (code ∷ short_sized content.now) }
{
    let len = content.len();
    if len < 128 {
        write_all(sink, &[code, len as u8 + 128])?;
        return write_all(sink, content);
    }
    write_code(sink, code)?;
    write_sized(sink, content)
}

/// Writes a code, and a number in eight bytes, the lowest first.
///
/// The only error is the kind with which the write failed. The sink then holds what it held before, and a beginning of these bytes.
/// (Not in tantivy.)
#[inline]
#[tactic(auto, using(crate::proofs::Coded::Coded_then))]
pub fn write_coded_u64<K: ByteSink>(sink: &mut K, code: u8, number: u64) -> Result<(), WriteError>
    ensures { Writes K.ByteSink sink.old sink.new result (code ∷ eight_bytes number) }
{
    let [a, b, c, d, e, f, g, h] = number.to_le_bytes();
    write_all(sink, &[code, a, b, c, d, e, f, g, h])
}

// A code, and a signed number in eight bytes.
#[inline]
#[tactic(auto, using(crate::proofs::Coded::Coded_then))]
fn write_coded_i64<K: ByteSink>(sink: &mut K, code: u8, number: i64) -> Result<(), WriteError>
    ensures { Writes K.ByteSink sink.old sink.new result (code ∷ signed_bytes number) }
{
    write_coded_u64(sink, code, number.cast_unsigned())
}

// A code, and a number in sixteen bytes.
#[inline]
#[tactic(auto, using(crate::proofs::Coded::Coded_then))]
fn write_coded_u128<K: ByteSink>(sink: &mut K, code: u8, number: u128) -> Result<(), WriteError>
    ensures { Writes K.ByteSink sink.old sink.new result (code ∷ sixteen_bytes number) }
{
    write_code(sink, code)?;
    write_u128(sink, number)
}

/// Writes a code, and a truth value in a byte, 0 or 1.
///
/// The only error is the kind with which a write failed. The sink then holds what it held before, and a beginning of these bytes.
/// (Not in tantivy.)
#[inline]
#[tactic(auto, using(crate::proofs::Coded::Coded_then))]
pub fn write_coded_bool<K: ByteSink>(sink: &mut K, code: u8, truth: bool) -> Result<(), WriteError>
    ensures { Writes K.ByteSink sink.old sink.new result (code ∷ truth_byte truth) }
{
    write_code(sink, code)?;
    write_bool(sink, truth)
}

/// Writes a code, and a number of children in its shortest encoding.
///
/// The only error is the kind with which a write failed. The sink then holds what it held before, and a beginning of these bytes.
/// (Not in tantivy.)
#[inline]
#[tactic(auto, using(crate::proofs::Coded::Coded_then))]
pub fn write_coded_count<K: ByteSink>(sink: &mut K, code: u8, count: u64) -> Result<(), WriteError>
    ensures { Writes K.ByteSink sink.old sink.new result (code ∷ vnum count) }
{
    if count < 128 {
        return write_all(sink, &[code, count as u8 + 128]);
    }
    write_code(sink, code)?;
    write_vint(sink, count)
}

// A token: where it begins and ends, its position, its text, and how many positions it takes.
#[tactic(auto, using(tv_base::proofs::Written::Writes_then, tv_base::proofs::Written::Writes_prefix))]
fn write_token<K: ByteSink>(sink: &mut K, token: TokenRef<'_>) -> Result<(), WriteError>
    ensures { Writes K.ByteSink sink.old sink.new result (short_token (ref_of token.entry)) }
{
    write_vint(sink, token.offset_from as u64)?;
    write_vint(sink, token.offset_to as u64)?;
    write_vint(sink, token.position as u64)?;
    write_text(sink, token.text)?;
    write_vint(sink, token.position_length as u64)
}

// The tokens that are left, in order.
fn write_tokens<K: ByteSink>(sink: &mut K, tokens: TokenIter<'_>) -> Result<(), WriteError>
    ensures { Writes K.ByteSink sink.old sink.new result
        (flat_map short_token (tokens_left tokens.entry)) }
{
    for token in tokens {
        write_token(sink, token)?;
    }
    Ok(())
}

// A text, how many tokens it has, and each.
#[tactic(auto, using(tv_base::proofs::Written::Writes_then, tv_base::proofs::Written::Writes_prefix))]
fn write_tokenized<K: ByteSink>(sink: &mut K, text: PreTokenizedStr<'_>) -> Result<(), WriteError>
    ensures { Writes K.ByteSink sink.old sink.new result
        (short_tokenized (text_of text.entry) (tokens_of text.entry)) }
{
    write_text(sink, text.text())?;
    write_vint(sink, text.len() as u64)?;
    write_tokens(sink, text.tokens())
}

// A code, and a text with its tokens after a code of its own.
#[tactic(auto, using(crate::proofs::Coded::Coded_then))]
fn write_extension<K: ByteSink>(
    sink: &mut K,
    code: u8,
    text: PreTokenizedStr<'_>,
) -> Result<(), WriteError>
    ensures { Writes K.ByteSink sink.old sink.new result
        (code ∷ 0 ∷ short_tokenized (text_of text.entry) (tokens_of text.entry)) }
{
    write_code(sink, code)?;
    write_code(sink, TOK_STR_EXT_CODE)?;
    write_tokenized(sink, text)
}

// A code, and what a value without children holds.
fn write_content<K: ByteSink>(
    sink: &mut K,
    code: u8,
    content: LeafContent<'_>,
) -> Result<(), WriteError>
    ensures { Writes K.ByteSink sink.old sink.new result
        (code ∷ short_content (content_of content.entry)) }
{
    match content {
        LeafContent::Nothing => write_code(sink, code),
        LeafContent::Truth(truth) => write_coded_bool(sink, code, truth),
        LeafContent::Unsigned(number) => write_coded_u64(sink, code, number),
        LeafContent::Signed(number) => write_coded_i64(sink, code, number),
        LeafContent::Wide(number) => write_coded_u128(sink, code, number),
        LeafContent::Text(text) => write_coded_text(sink, code, text),
        LeafContent::Bytes(bytes) => write_coded_bytes(sink, code, bytes),
        LeafContent::Tokens(text) => write_extension(sink, code, text),
    }
}

/// Writes a value without children: its code, and what it holds. It takes no memory of its own.
///
/// The only error is the kind with which a write failed. The sink then holds what it held before, and a beginning of the value.
/// (Not in tantivy.)
// What is commonest is written as it is lent, without standing in memory before.
#[inline(always)]
pub fn write_leaf<K: ByteSink>(
    sink: &mut K,
    leaf: &ReferenceValueLeaf<'_>,
) -> Result<(), WriteError>
    ensures { Writes K.ByteSink sink.old sink.new result (short_leaf (leaf_of leaf.now)) }
{
    let code = leaf.leaf_type().store_code();
    match leaf.content() {
        LeafContent::Text(text) => write_coded_text(sink, code, text),
        LeafContent::Unsigned(number) => write_coded_u64(sink, code, number),
        LeafContent::Signed(number) => write_coded_i64(sink, code, number),
        content => write_content(sink, code, content),
    }
}
