//! Values of one kind: what each accessor returns, copies, and which values are equal.

use crate::shared;
use anyhow::{Result, anyhow, ensure};
use case_words as words;
use case_words::leaves::leaf;
use case_words::parts::{Part, push_parts};
use std::alloc::Global;
use tv_value::owned_value::OwnedValue;
use tv_value::same::is_same;
use tv_value::value::Value;

/// What a call about values returns.
pub fn answer(alloc: Global, call: &[&str]) -> Result<String> {
    let (name, call) = words::first(call)?;
    match name {
        "read" => read(alloc, call),
        "same" => same(alloc, call),
        _ => Err(anyhow!("an unknown call about values")),
    }
}

// What is read of a value.
fn read(alloc: Global, call: &[&str]) -> Result<String> {
    let (kind, value) = words::two(call)?;
    let value = leaf(alloc, kind, value)?;
    let answer = shown(alloc, &value);
    drop(value);
    answer
}

// Whether two values are equal, by each call.
fn same(alloc: Global, call: &[&str]) -> Result<String> {
    let (kind, value, other_kind, other_value) = words::four(call)?;
    let one = leaf(alloc, kind, value)?;
    let answer = same_as(alloc, &one, other_kind, other_value);
    drop(one);
    answer
}

// Whether a value is equal to that of another kind, by each call.
fn same_as(alloc: Global, one: &OwnedValue, kind: &str, value: &str) -> Result<String> {
    let other = leaf(alloc, kind, value)?;
    let (equal, same) = (*one == other, is_same(&one, &&other));
    drop(other);
    let same = same?;
    shared::answered(format!(in alloc; "{equal} {same}"))
}

// The name and the answer of each accessor that has one.
fn shown(alloc: Global, value: &OwnedValue) -> Result<String> {
    check_copies(alloc, value)?;
    let mut answer = String::from_str(alloc, "is")?;
    push_parts(alloc, &mut answer, &plain_parts(value))?;
    push_parts(alloc, &mut answer, &byte_parts(value))?;
    push_parts(alloc, &mut answer, &list_parts(value))?;
    Ok(answer)
}

// What the accessors of null, texts, numbers and truth values answer.
fn plain_parts(value: &OwnedValue) -> [(&'static str, Part<'_>); 5] {
    [
        ("null", Part::from(value.as_value().is_null())),
        ("str", Part::from(value.as_str())),
        ("u64", Part::from(value.as_u64())),
        ("i64", Part::from(value.as_i64())),
        ("bool", Part::from(value.as_bool())),
    ]
}

// What the accessors of dates, facets, bytes and addresses answer.
fn byte_parts(value: &OwnedValue) -> [(&'static str, Part<'_>); 4] {
    [
        ("date", Part::from(value.as_datetime())),
        ("facet", Part::from(value.as_facet())),
        ("bytes", Part::from(value.as_bytes())),
        ("ip", Part::from(value.as_ip_addr())),
    ]
}

// What the accessors of texts with tokens and of lists answer.
fn list_parts(value: &OwnedValue) -> [(&'static str, Part<'_>); 3] {
    let tokens = match value.as_pre_tokenized_text() {
        Some(text) => Part::Text(text.text()),
        None => Part::Nothing,
    };
    [
        ("tokens", tokens),
        ("array", Part::from(value.as_array().is_some())),
        ("object", Part::from(value.as_object().is_some())),
    ]
}

// Checks that copies are equal to the value that they copy.
fn check_copies(alloc: Global, value: &OwnedValue) -> Result<()> {
    let is_kept = is_copy(value, OwnedValue::from_value(alloc, &value)?);
    let is_cloned = words::is_equal(value, value.try_clone(alloc)?);
    ensure!(is_kept && is_cloned, "a copy is not equal");
    Ok(())
}

// Whether a copy is equal to a value, by each call. The copy is dropped.
fn is_copy(value: &OwnedValue, copy: OwnedValue) -> bool {
    let is_kept = copy == *value && is_same(&&copy, &value) == Ok(true);
    drop(copy);
    is_kept
}
