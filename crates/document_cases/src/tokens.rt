//! Texts with their tokens, as the store has them.

use anyhow::{Result, anyhow, ensure};
use case_words as words;
use case_words::leaves::tokenized;
use std::alloc::Global;
use tv_json::compact::push_json;
use tv_value::owned_value::OwnedValue;
use tv_value::pre_tokenized::PreTokenizedStr;
use tv_value::tokenizer::PreTokenizedString;

/// What a call about texts with tokens returns.
pub fn answer(alloc: Global, call: &[&str]) -> Result<String> {
    let (name, call) = words::first(call)?;
    match name {
        "read" => read(alloc, call),
        "same" => same(alloc, call),
        _ => Err(anyhow!("an unknown call about texts with tokens")),
    }
}

// The text that bytes encode.
fn read(alloc: Global, call: &[&str]) -> Result<String> {
    let bytes = words::bytes(alloc, words::one(call)?)?;
    match PreTokenizedStr::from_payload(bytes.as_slice()) {
        Some((text, length)) => shown(alloc, text, length),
        None => words::none(alloc),
    }
}

// Whether the texts that two words encode are equal, each to the other.
fn same(alloc: Global, call: &[&str]) -> Result<String> {
    let (kept, encoded) = words::two(call)?;
    let kept = tokenized(alloc, kept)?;
    let answer = same_as(alloc, &kept, encoded);
    drop(kept);
    answer
}

// Whether a text is equal to the one that the bytes encode, and that one to it. Copies of both are equal just then.
fn same_as(alloc: Global, kept: &PreTokenizedString, digits: &str) -> Result<String> {
    let bytes = words::bytes(alloc, digits)?;
    let Some((encoded, _)) = PreTokenizedStr::from_payload(&bytes) else {
        return Err(anyhow!("a payload"));
    };
    let lent = PreTokenizedStr::from_string(kept);
    let (one_way, other_way) = (lent == encoded, encoded == lent);
    let (kept_way, lent_way) = compared(kept, encoded.to_owned_string(alloc)?);
    ensure!(
        kept_way == one_way && lent_way == one_way,
        "copies compare otherwise"
    );
    Ok(format!(in alloc; "{one_way} {other_way}")?)
}

// Whether a text is equal to another one, kept and lent. The other one is dropped.
fn compared(kept: &PreTokenizedString, other: PreTokenizedString) -> (bool, bool) {
    let lent = PreTokenizedStr::from_string(kept);
    let is_lent = lent == PreTokenizedStr::from_string(&other);
    (words::is_equal(kept, other), is_lent)
}

// How many bytes encode a text, how many tokens it has, whether it has none, and the text with its tokens.
fn shown(alloc: Global, text: PreTokenizedStr<'_>, length: usize) -> Result<String> {
    let (count, is_empty) = (text.len(), text.is_empty());
    let mut answer = format!(in alloc; "{length} {count} {is_empty} ")?;
    push_kept(alloc, &mut answer, text.to_owned_string(alloc)?)?;
    Ok(answer)
}

// Appends a text with its tokens as JSON, and drops it.
fn push_kept(alloc: Global, answer: &mut String, kept: PreTokenizedString) -> Result<()> {
    let checked = check_copies(&kept);
    let value = OwnedValue::PreTokStr(kept);
    let outcome = push_json(alloc, answer, &value);
    drop(value);
    checked?;
    Ok(outcome?)
}

// Checks that copies of a text and of its tokens are equal to these.
fn check_copies(kept: &PreTokenizedString) -> Result<()> {
    let is_copied = words::is_equal(kept, kept.try_clone()?);
    ensure!(is_copied, "a copy of a text is not equal");
    for token in kept.tokens.iter() {
        let is_copied = words::is_equal(token, token.try_clone()?);
        ensure!(is_copied, "a copy of a token is not equal");
    }
    Ok(())
}
