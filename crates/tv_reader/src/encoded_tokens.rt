//! Taking texts with their tokens. Each token is lent to what the tokens are gathered in.

ghost use Rattle.std.specs.Prelude.{◌≡◌, [], ◌∷◌, ◌++◌, List, OnOk, map, string_bytes};
ghost use Rattle.tv_base.specs.Take.{TakesBy};
ghost use Rattle.tv_format.specs.Tree.{Token};
ghost use Rattle.tv_reader.specs.EncodedTokens.{EncodesTokenized};
ghost use Rattle.tv_reader.specs.Finds.{FindsRoomy};
ghost use Rattle.tv_reader.specs.Leaves.{token_at, tokens_at, counted_tokens_at, tokenized_at};
ghost use Rattle.tv_reader.specs.Trees.{NoneBehind};
ghost use Rattle.tv_reader.specs.Version.{version_of};
ghost use Rattle.tv_reader.specs.declared.value_type.ValueType.TheVariants as types;
ghost use Rattle.tv_value.specs.EncodedTokens.{gathered};
ghost use Rattle.tv_value.specs.HeldTokens.{token_of};
ghost use Rattle.tv_value.specs.TokenRef.{ref_of};

use crate::error::DeserializeError;
use crate::version::DocStoreVersion;
use std::alloc::{AllocError, Global};
use tv_base::take::{take_string, take_text, take_vint};
use tv_base::{ByteSource, ReadError};
use tv_value::pre_tokenized::{EncodedTokens, TokenRef};
use tv_value::tokenizer::Token;

// What tokens are gathered in, one after the other.
pub(crate) trait TokenBuffer: Sized + Drop {
    /// The tokens.
    ghost tokens: { Self → List Token };

    /// It holds none yet.
    fn none(alloc: Global) -> Self
        ensures { tokens result ≡ [] };

    /// Adds a token. The only error is that memory was refused.
    fn put(&mut self, alloc: Global, token: TokenRef<'_>) -> Result<(), AllocError>
        ensures { OnOk result (tokens self.new ≡ tokens self.old ++ ref_of token.entry ∷ []) };
}

// In their shortest encoding, and not owned one by one.
impl TokenBuffer for EncodedTokens {
    ghost tokens = { λ e. gathered e };

    fn none(alloc: Global) -> EncodedTokens {
        EncodedTokens::new(alloc)
    }

    fn put(&mut self, _alloc: Global, token: TokenRef<'_>) -> Result<(), AllocError> {
        self.push(token)
    }
}

// Owned.
impl TokenBuffer for Vec<Token> {
    ghost tokens = { λ ts. map token_of ts.items };

    fn none(alloc: Global) -> Vec<Token> {
        Vec::new(alloc)
    }

    fn put(&mut self, alloc: Global, token: TokenRef<'_>) -> Result<(), AllocError> {
        let text = String::from_str(alloc, token.text)?;
        self.push(Token {
            offset_from: token.offset_from,
            offset_to: token.offset_to,
            position: token.position,
            text,
            position_length: token.position_length,
        })?;
        Ok(())
    }
}

// A token, whose text is put in the place of what `text` holds, and lent from there.
#[tactic(auto, using(tv_base::proofs::TakeSteps::Taken_then), unfolding(crate::specs::Leaves::token_at))]
fn take_lent_token<'t, S: ByteSource>(
    alloc: Global,
    source: &mut S,
    count: &mut u64,
    text: &'t mut String,
) -> Result<TokenRef<'t>, ReadError>
    ensures takes { TakesBy S.ByteSource source.old count.old source.new count.new
        (λ token. ref_of token) result token_at }
{
    let offset_from = take_vint(source, count)?;
    let offset_to = take_vint(source, count)?;
    let position = take_vint(source, count)?;
    take_text(alloc, source, count, text)?;
    let position_length = take_vint(source, count)?;
    Ok(TokenRef {
        offset_from: offset_from as usize,
        offset_to: offset_to as usize,
        position: position as usize,
        text: text.as_str(),
        position_length: position_length as usize,
    })
}

// This many tokens. Nothing is reserved from their number.
fn gather_tokens<G: TokenBuffer, S: ByteSource>(
    alloc: Global,
    source: &mut S,
    count: &mut u64,
    announced: u64,
) -> Result<G, ReadError>
    ensures takes { TakesBy S.ByteSource source.old count.old source.new count.new
        (λ ts. G.tokens ts) result (tokens_at announced) }
{
    let mut tokens = G::none(alloc);
    let mut text = String::new(alloc);
    for _ in 0..announced {
        let token = take_lent_token(alloc, source, count, &mut text)?;
        tokens.put(alloc, token)?;
    }
    Ok(tokens)
}

// The number of the tokens, and each.
#[tactic(auto, using(tv_base::proofs::TakeSteps::Taken_then), unfolding(crate::specs::Leaves::counted_tokens_at))]
fn gather_counted_tokens<G: TokenBuffer, S: ByteSource>(
    alloc: Global,
    source: &mut S,
    count: &mut u64,
) -> Result<G, ReadError>
    ensures takes { TakesBy S.ByteSource source.old count.old source.new count.new
        (λ ts. G.tokens ts) result counted_tokens_at }
{
    let announced = take_vint(source, count)?;
    gather_tokens::<G, S>(alloc, source, count, announced)
}

// A text and its tokens.
#[tactic(auto, using(tv_base::proofs::TakeSteps::Taken_then), unfolding(crate::specs::Leaves::tokenized_at))]
pub(crate) fn gather_tokenized<G: TokenBuffer, S: ByteSource>(
    alloc: Global,
    source: &mut S,
    count: &mut u64,
) -> Result<(String, G), ReadError>
    ensures takes { TakesBy S.ByteSource source.old count.old source.new count.new
        (λ x. (string_bytes x.0, G.tokens x.1)) result tokenized_at }
{
    let text = take_string(alloc, source, count)?;
    let tokens = gather_counted_tokens::<G, S>(alloc, source, count)?;
    Ok((text, tokens))
}

/// Takes a text and its tokens after their codes. The tokens are gathered in their shortest encoding, so that no more memory is taken
/// than for the bytes that are read. Nothing is reserved from the number of the tokens. (Not in tantivy.)
///
/// Errors: those of `take_string`, and `Memory`.
pub fn take_gathered<S: ByteSource>(
    alloc: Global,
    source: &mut S,
    count: &mut u64,
    version: DocStoreVersion,
) -> Result<(String, EncodedTokens), DeserializeError>
    ensures finds { FindsRoomy S.ByteSource source.old count.old source.new
        count.new result (EncodesTokenized (version_of version))
        (NoneBehind (version_of version) types.PreTokStr) }
{
    let _ = version;
    let tokenized = gather_tokenized::<EncodedTokens, S>(alloc, source, count)?;
    Ok(tokenized)
}
