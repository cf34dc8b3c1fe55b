//! Texts with their tokens.

pub use tv_value::pre_tokenized::{PreTokenizedStr, TokenIter, TokenRef};
pub use tv_value::tokenizer::{PreTokenizedString, Token};
