//! What calls of several topics share: the content of their words, and their answers.

use anyhow::Result;
use case_words as words;
use std::alloc::{AllocError, Global};

/// The text of the only word of a call.
pub fn text(alloc: Global, call: &[&str]) -> Result<String> {
    words::text(alloc, words::one(call)?)
}

/// The bytes of the only word of a call.
pub fn bytes(alloc: Global, call: &[&str]) -> Result<Vec<u8>> {
    words::bytes(alloc, words::one(call)?)
}

/// An answer that has been printed, if there was memory for it.
pub fn answered(answer: Result<String, AllocError>) -> Result<String> {
    Ok(answer?)
}
