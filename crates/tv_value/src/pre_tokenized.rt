//! Texts with their tokens, lent from where they are kept or encoded. A copy alone takes memory. Tokens that are gathered, each in its
//! shortest encoding.

ghost use Rattle.std.specs.Prelude.{◌≡◌, ◌↔◌, [], IfOk, IsTrue, length, ◌++◌, ◌∷◌, OnOk, OnErr};
ghost use Rattle.tv_format.specs.Short.{IsText, short_token};
ghost use Rattle.tv_format.specs.ShortLaws.{IsText-prop};
ghost use Rattle.tv_value.specs.HeldTokens.{HeldTokens, HeldTokens-prop, token_of};
ghost use Rattle.tv_value.specs.TokenRef.{ref_of};
ghost use Rattle.std.specs.List.{flat_map};

use crate::encode::push_token;
use crate::in_place::{behind_tokens, number_at, text_at, token_at};
use crate::tokenizer::{PreTokenizedString, Token};
use std::alloc::{AllocError, Global};
use std::fmt;
use tv_base::ByteBuffer;

/// A token that is lent (not in tantivy). Offsets are in bytes of the text that it is a token of.
#[derive(Clone, Copy, Debug, PartialEq, Eq)]
pub struct TokenRef<'a> {
    /// Where it begins.
    pub offset_from: usize,
    /// Where it ends.
    pub offset_to: usize,
    /// Which token of the text it is.
    pub position: usize,
    /// Its own text.
    pub text: &'a str,
    /// How many positions it takes.
    pub position_length: usize,
}

/// The tokens of a text that are left, each once and in order (not in tantivy).
#[derive(Clone, Copy)]
pub struct TokenIter<'a> {
    kept: &'a [Token],
    encoded: &'a [u8],
    count: u64,
    pub ghost held: { HeldTokens kept.now encoded.now count } by { HeldTokens-prop kept.now encoded.now count },
}

/// A text and its tokens, both lent (not in tantivy).
#[derive(Clone, Copy, Debug)]
pub struct PreTokenizedStr<'a> {
    text: &'a str,
    tokens: TokenIter<'a>,
    pub ghost valid: { IsText text.now } by { IsText-prop text.now },
}

impl<'a> PreTokenizedStr<'a> {
    ghost use Rattle.std.specs.Prelude.{◌≤◌, map, take, IfSome, IfNone};
    ghost use Rattle.std.specs.String.{string_bytes};
    ghost use Rattle.tv_value.specs.InPlace.{NoTokenized};
    ghost use Rattle.tv_value.specs.PreTokenized.{text_of, tokens_left, tokens_of};
    ghost use Rattle.tv_format.specs.Encoding.{Tokenized};
    ghost use Rattle.tv_value.specs.EncodedTokens.{gathered};

    /// The text and the tokens of the string.
    pub fn from_string(string: &'a PreTokenizedString) -> PreTokenizedStr<'a>
        ensures text { text_of result ≡ string_bytes string.now.text }
        ensures tokens { tokens_of result ≡ map token_of string.now.tokens.items }
    {
        let tokens = TokenIter {
            kept: string.tokens.as_slice(),
            encoded: &[],
            count: 0,
        };
        PreTokenizedStr {
            text: string.text.as_str(),
            tokens,
        }
    }

    /// The text and the tokens that a prefix of the bytes encodes as the store does, and how many bytes that prefix has (not in tantivy). None
    /// where no prefix encodes a text and its tokens.
    pub fn from_payload(bytes: &'a [u8]) -> Option<(PreTokenizedStr<'a>, usize)>
        ensures found { IfSome result
            (λ x. (x.1 ≤ length bytes.now)
            × Tokenized (take x.1 bytes.now) (text_of x.0) (tokens_of x.0)) }
        ensures none { IfNone result (NoTokenized bytes.now) }
    {
        let (text, behind_text) = text_at(bytes)?;
        let (count, encoded) = number_at(behind_text)?;
        let rest = behind_tokens(count, encoded)?;
        let tokens = TokenIter {
            kept: &[],
            encoded,
            count,
        };
        let len = bytes.len() - rest.len();
        Some((PreTokenizedStr { text, tokens }, len))
    }

    // The text with these tokens.
    pub(crate) fn of_encoded(text: &'a str, tokens: &'a EncodedTokens) -> PreTokenizedStr<'a>
        ensures text { text_of result ≡ text.now }
        ensures tokens { tokens_of result ≡ gathered tokens.now }
    {
        let tokens = TokenIter {
            kept: &[],
            encoded: tokens.bytes.as_slice(),
            count: tokens.count,
        };
        PreTokenizedStr { text, tokens }
    }

    /// The text.
    pub fn text(&self) -> &'a str
        ensures { result.now ≡ text_of self.now }
    {
        self.text
    }

    /// The tokens, in order.
    pub fn tokens(&self) -> TokenIter<'a>
        ensures { tokens_left result ≡ tokens_of self.now }
    {
        self.tokens
    }

    /// How many tokens there are.
    pub fn len(&self) -> usize
        ensures { result ≡ length (tokens_of self.now) }
    {
        let kept = self.tokens.kept.len();
        kept + self.tokens.count as usize
    }

    /// Whether there is no token. The text may have characters nevertheless.
    pub fn is_empty(&self) -> bool
        ensures { IsTrue result ↔ (tokens_of self.now ≡ []) }
    {
        self.len() == 0
    }

    /// A copy that owns the text and the tokens (not in tantivy). AllocError where memory runs out.
    pub fn to_owned_string(&self, alloc: Global) -> Result<PreTokenizedString, AllocError>
        ensures text { IfOk result (λ copy. string_bytes copy.text ≡ text_of self.now) }
        ensures tokens { IfOk result (λ copy. map token_of copy.tokens.items ≡ tokens_of self.now) }
    {
        let mut tokens = Vec::new(alloc);
        for token in self.tokens {
            tokens.push(owned(token, alloc)?)?;
        }
        let text = String::from_str(alloc, self.text)?;
        Ok(PreTokenizedString { text, tokens })
    }
}

// A token that is kept, lent.
fn lent(token: &Token) -> TokenRef<'_>
    ensures { ref_of result ≡ token_of token.now }
{
    TokenRef {
        offset_from: token.offset_from,
        offset_to: token.offset_to,
        position: token.position,
        text: token.text.as_str(),
        position_length: token.position_length,
    }
}

// A lent token, copied.
fn owned(token: TokenRef<'_>, alloc: Global) -> Result<Token, AllocError>
    ensures { IfOk result (λ copy. token_of copy ≡ ref_of token.entry) }
{
    Ok(Token {
        offset_from: token.offset_from,
        offset_to: token.offset_to,
        position: token.position,
        text: String::from_str(alloc, token.text)?,
        position_length: token.position_length,
    })
}

impl<'a> Iterator for TokenIter<'a> {
    ghost use Rattle.std.specs.Iterator.{YieldsFirstBy, item_count};

    type Item = TokenRef<'a>;

    ghost next_gives = { YieldsFirstBy ref_of (λ s. s.held.0) };

    ghost remaining = { item_count (λ s. s.held.0) };

    fn next(&mut self) -> Option<TokenRef<'a>> {
        let TokenIter {
            kept,
            encoded,
            count,
        } = *self;
        if let Some((token, kept)) = kept.split_first() {
            *self = TokenIter {
                kept,
                encoded,
                count,
            };
            return Some(lent(token));
        }
        if count == 0 {
            return None;
        }
        let (token, encoded) = token_at(encoded)?;
        *self = TokenIter {
            kept,
            encoded,
            count: count - 1,
        };
        Some(token)
    }
}

/// The tokens that are left, as a list.
impl fmt::Debug for TokenIter<'_> {
    fn fmt<W: fmt::Write>(&self, f: &mut fmt::Formatter<W>) -> fmt::Result {
        f.debug_list().entries(*self).finish()
    }
}

impl TokenIter<'_> {
    ghost use Rattle.tv_value.specs.PreTokenized.{tokens_left};
    ghost use Rattle.tv_value.specs.SameTokens.{tokens_eq};

    // Whether the same tokens are left, in the same order.
    fn is_same(self, mut other: TokenIter<'_>) -> bool
        ensures { result ≡ tokens_eq (tokens_left self.entry) (tokens_left other.entry) }
    {
        for token in self {
            match other.next() {
                Some(same) if same == token => {}
                _ => return false,
            }
        }
        other.next().is_none()
    }
}

/// Texts with their tokens are equal where the texts are and the tokens, however they are kept. No memory is taken.
impl PartialEq for PreTokenizedStr<'_> {
    ghost use Rattle.std.specs.Cmp.{on_per};
    ghost use Rattle.tv_value.specs.PreTokenized.{parts_of};
    ghost use Rattle.tv_value.specs.SameTokens.{tokenized_eq};
    ghost use Rattle.tv_value.specs.SameTokensLaws.{tokenized_eq-Decides, deciding_per};

    ghost eq = { λ a b. tokenized_eq (parts_of a) (parts_of b) };

    ghost laws = { on_per parts_of (deciding_per tokenized_eq-Decides) };

    fn eq(&self, other: &Self) -> bool {
        let has_same_text = self.text == other.text;
        has_same_text && self.tokens.is_same(other.tokens)
    }
}

impl Eq for PreTokenizedStr<'_> {
    ghost use Rattle.std.specs.Cmp.{on_equiv};
    ghost use Rattle.tv_value.specs.PreTokenized.{parts_of};
    ghost use Rattle.tv_value.specs.SameTokensLaws.{tokenized_eq-Decides, deciding_equiv};

    ghost laws = { on_equiv parts_of (deciding_equiv tokenized_eq-Decides) };
}

/// Tokens in their shortest encoding, one after the other (not in tantivy).
#[derive(Debug, Drop)]
pub struct EncodedTokens {
    pub(crate) bytes: ByteBuffer,
    pub(crate) count: u64,
    pub ghost held: { HeldTokens [] bytes.items count } by { HeldTokens-prop [] bytes.items count },
    pub ghost short: { bytes.items ≡ flat_map short_token held.0 },
}

impl EncodedTokens {
    ghost use Rattle.tv_value.specs.PreTokenized.{text_of, tokens_of};
    ghost use Rattle.tv_value.specs.EncodedTokens.{gathered};

    /// No tokens. It takes no memory.
    pub fn new(alloc: Global) -> EncodedTokens
        ensures { gathered result ≡ [] }
    {
        EncodedTokens {
            bytes: ByteBuffer::new(alloc),
            count: 0,
        }
    }

    /// Adds a token. The only error is that memory was refused; the tokens stay what they were then.
    pub fn push(&mut self, token: TokenRef<'_>) -> Result<(), AllocError>
        ensures ok { OnOk result (gathered self.new ≡ gathered self.old ++ ref_of token.entry ∷ []) }
        ensures err { OnErr result (gathered self.new ≡ gathered self.old) }
    {
        let len = self.bytes.len();
        match push_token(&mut self.bytes, token) {
            Ok(()) => {
                self.count += 1;
                Ok(())
            }
            Err(refused) => {
                self.bytes.truncate(len);
                Err(refused)
            }
        }
    }

    /// The tokens with a text, lent.
    pub fn with_text<'a>(&'a self, text: &'a str) -> PreTokenizedStr<'a>
        ensures text { text_of result ≡ text.now }
        ensures tokens { tokens_of result ≡ gathered self.now }
    {
        PreTokenizedStr::of_encoded(text, self)
    }
}
