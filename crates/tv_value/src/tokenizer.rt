//! Texts and the tokens that they are made of.

ghost use Rattle.std.specs.Prelude.{◌≡◌, ◌<◌, ◌^◌, IfOk};

use crate::pre_tokenized::PreTokenizedStr;
use std::alloc::AllocError;

/// A token of a text. Offsets are in bytes of that text.
#[derive(Debug, PartialEq, Eq, Drop)]
pub struct Token {
    /// Where it begins.
    pub offset_from: usize,
    /// Where it ends.
    pub offset_to: usize,
    /// Which token of the text it is.
    pub position: usize,
    /// Its own text, which a filter may have changed.
    pub text: String,
    /// How many positions it takes.
    pub position_length: usize,
    pub ghost fits: { (offset_from < 2 ^ 64) × (offset_to < 2 ^ 64) × (position < 2 ^ 64)
        × (position_length < 2 ^ 64) },
}

impl Token {
    ghost use Rattle.tv_value.specs.HeldTokens.{token_of};

    /// A copy. AllocError where memory runs out.
    pub fn try_clone(&self) -> Result<Token, AllocError>
        ensures { IfOk result (λ copy. token_of copy ≡ token_of self.now) }
    {
        let alloc = *self.text.allocator();
        Ok(Token {
            offset_from: self.offset_from,
            offset_to: self.offset_to,
            position: self.position,
            text: String::from_str(alloc, self.text.as_str())?,
            position_length: self.position_length,
        })
    }
}

/// A text and its tokens, in order. Neither has to follow from the other.
#[derive(Debug, PartialEq, Eq, Drop)]
pub struct PreTokenizedString {
    /// The text.
    pub text: String,
    /// Its tokens.
    pub tokens: Vec<Token>,
}

impl PreTokenizedString {
    ghost use Rattle.std.specs.Prelude.{map};
    ghost use Rattle.std.specs.String.{string_bytes};
    ghost use Rattle.tv_value.specs.HeldTokens.{token_of};

    /// A copy. AllocError where memory runs out.
    pub fn try_clone(&self) -> Result<PreTokenizedString, AllocError>
        ensures text { IfOk result (λ copy. string_bytes copy.text ≡ string_bytes self.now.text) }
        ensures tokens { IfOk result
            (λ copy. map token_of copy.tokens.items ≡ map token_of self.now.tokens.items) }
    {
        let alloc = *self.text.allocator();
        PreTokenizedStr::from_string(self).to_owned_string(alloc)
    }
}
