//! Documents that calls build: those of a tree builder, and additions.

use crate::documents;
use anyhow::{Context, Result, anyhow, ensure};
use case_words as words;
use case_words::leaves;
use serde_json::Value as JsonValue;
use std::alloc::Global;
use std::collections::BTreeMap;
use std::fmt::{Debug, Write};
use std::mem;
use tv_builder::errors::AddError;
use tv_doc::builder::{BuildError, BytesKind, TreeBuilder};
use tv_doc::document::CompactDoc;
use tv_value::field::Field;
use tv_value::json::LentJson;
use tv_value::leaf::ReferenceValueLeaf;
use tv_value::owned_value::OwnedValue;
use tv_value::value::Value;

/// What calls return, and the document that they make.
pub fn answer(alloc: Global, calls: &[&str]) -> Result<String> {
    let mut answers = String::new(alloc);
    let document = made(alloc, calls, &mut answers)?;
    answers.push_str(documents::shown(alloc, &document)?.as_str())?;
    Ok(answers)
}

/// The document that calls make, of which none is refused.
pub fn document(alloc: Global, calls: &[&str]) -> Result<CompactDoc> {
    let mut answers = String::new(alloc);
    let document = made(alloc, calls, &mut answers)?;
    ensure!(answers.is_empty(), "a call was refused: {answers}");
    Ok(document)
}

// The document that calls make. Puts refusals and states after the answers.
fn made(alloc: Global, calls: &[&str], answers: &mut String) -> Result<CompactDoc> {
    let mut builder = TreeBuilder::new(CompactDoc::new(alloc));
    for word in calls {
        let (call, content) = words::parted(word);
        match call {
            "state" => push_state(answers, &builder),
            "add" => added(alloc, &mut builder, content, answers),
            _ => built(alloc, &mut builder, call, content, answers),
        }?;
    }
    Ok(builder.into_doc())
}

// Adds a value to the document of a builder, and puts a refusal after the answers.
fn added(
    alloc: Global,
    builder: &mut TreeBuilder,
    content: &str,
    answers: &mut String,
) -> Result<()> {
    let empty = TreeBuilder::new(CompactDoc::new(alloc));
    let mut document = mem::replace(builder, empty).into_doc();
    let outcome = add(alloc, &mut document, content)?;
    *builder = TreeBuilder::new(document);
    note(answers, outcome)
}

// Makes a call on a tree builder, and puts a refusal after the answers.
fn built(
    alloc: Global,
    builder: &mut TreeBuilder,
    call: &str,
    content: &str,
    answers: &mut String,
) -> Result<()> {
    let outcome = build(alloc, builder, call, content)?;
    note(answers, outcome)
}

// Puts the refusal of a call after the answers.
fn note<E: Debug + Drop>(answers: &mut String, outcome: Result<(), E>) -> Result<()> {
    if let Err(error) = outcome {
        write!(answers, "error {error:?}\t")?;
    }
    Ok(())
}

// Puts the length of the heap, how many children and lists are open, and what is awaited after the answers.
fn push_state(answers: &mut String, builder: &TreeBuilder) -> Result<()> {
    let length = builder.heap_len();
    let pending = builder.pending();
    let frames = builder.frames();
    let awaits = builder.awaits();
    write!(
        answers,
        "heap {length} pending {pending} frames {frames} awaits {awaits:?}\t"
    )?;
    Ok(())
}

/// Makes a call on a tree builder, and returns what it answers.
pub fn build(
    alloc: Global,
    builder: &mut TreeBuilder,
    call: &str,
    content: &str,
) -> Result<Result<(), BuildError>> {
    match call {
        "array" => Ok(builder.open_array(words::number(content)?)),
        "object" => Ok(builder.open_object(words::number(content)?)),
        "key" => Ok(builder.key(words::text(alloc, content)?.as_str())),
        "finish" => Ok(builder.finish(words::field(content)?)),
        "tree" => Ok(tree(builder, value(alloc, content)?)),
        "leaf" => leaf(builder, value(alloc, content)?),
        _ => build_bytes(alloc, builder, call, content),
    }
}

// Makes a call for a value, which is dropped.
fn tree(builder: &mut TreeBuilder, value: OwnedValue) -> Result<(), BuildError> {
    let outcome = builder.tree(&&value);
    drop(value);
    outcome
}

// Makes a call for a value without children, which is dropped.
fn leaf(builder: &mut TreeBuilder, value: OwnedValue) -> Result<Result<(), BuildError>> {
    let outcome = lent_leaf(builder, &value);
    drop(value);
    outcome
}

// Makes a call for a value without children.
fn lent_leaf(builder: &mut TreeBuilder, value: &OwnedValue) -> Result<Result<(), BuildError>> {
    let leaf = value.as_leaf().context("a value without children")?;
    Ok(builder.leaf(leaf))
}

// Makes a call on a tree builder for bytes that come in chunks.
fn build_bytes(
    alloc: Global,
    builder: &mut TreeBuilder,
    call: &str,
    content: &str,
) -> Result<Result<(), BuildError>> {
    match call {
        "begin" => begin(builder, content),
        "chunk" => Ok(builder.chunk(words::bytes(alloc, content)?.as_slice())),
        "end" => Ok(builder.end_bytes()),
        _ => Err(anyhow!("an unknown call")),
    }
}

/// The value of a kind and what it holds, as `u64 1`, or of plain JSON.
pub fn value(alloc: Global, word: &str) -> Result<OwnedValue> {
    let (kind, content) = words::parted(word);
    match kind {
        "json" => Ok(OwnedValue::from_json(alloc, JsonValue::from_str(alloc, content)?)?),
        "zeros" => Ok(OwnedValue::Bytes(vec![in alloc; 0; words::number(content)?]?)),
        _ => leaves::leaf(alloc, kind, content),
    }
}

// Begins bytes of a kind and a length.
fn begin(builder: &mut TreeBuilder, content: &str) -> Result<Result<(), BuildError>> {
    let (kind, length) = words::parted(content);
    let kind = match kind {
        "str" => BytesKind::Str,
        "facet" => BytesKind::Facet,
        "bytes" => BytesKind::Bytes,
        "key" => BytesKind::Key,
        _ => return Err(anyhow!("an unknown kind of bytes")),
    };
    Ok(builder.begin_bytes(kind, words::number(length)?))
}

/// Adds a value to a field by the call of its type, and returns what that call answers.
pub fn add(
    alloc: Global,
    document: &mut CompactDoc,
    content: &str,
) -> Result<Result<(), AddError>> {
    let (number, content) = words::parted(content);
    let field = words::field(number)?;
    let (kind, json) = words::parted(content);
    Ok(match kind {
        "members" => add_members(document, field, members(alloc, json)?),
        "lent" => add_lent(document, field, JsonValue::from_str(alloc, json)?),
        _ => add_value(document, field, value(alloc, content)?),
    })
}

// Adds the members of an object, which are dropped.
fn add_members(
    document: &mut CompactDoc,
    field: Field,
    members: BTreeMap<String, OwnedValue>,
) -> Result<(), AddError> {
    document.add_object(field, &members)
}

// Adds a JSON value, which is dropped.
fn add_lent(document: &mut CompactDoc, field: Field, json: JsonValue) -> Result<(), AddError> {
    let outcome = document.add_field_value(field, &LentJson::new(&json));
    drop(json);
    outcome
}

// Adds a value by the call of its type, and drops it.
fn add_value(document: &mut CompactDoc, field: Field, value: OwnedValue) -> Result<(), AddError> {
    let outcome = add_typed(document, field, &value);
    drop(value);
    outcome
}

// Adds a value by the call of its type.
fn add_typed(document: &mut CompactDoc, field: Field, value: &OwnedValue) -> Result<(), AddError> {
    match value {
        OwnedValue::Null => document.add_leaf_field_value(field, ReferenceValueLeaf::Null),
        OwnedValue::Str(text) => document.add_text(field, text.as_str()),
        OwnedValue::U64(number) => document.add_u64(field, *number),
        OwnedValue::I64(number) => document.add_i64(field, *number),
        OwnedValue::Bool(truth) => document.add_bool(field, *truth),
        OwnedValue::Date(date) => document.add_date(field, *date),
        OwnedValue::IpAddr(address) => document.add_ip_addr(field, *address),
        OwnedValue::Facet(facet) => document.add_facet(field, facet),
        OwnedValue::Bytes(bytes) => document.add_bytes(field, bytes.as_slice()),
        OwnedValue::PreTokStr(text) => document.add_pre_tokenized_text(field, text),
        OwnedValue::Array(_) | OwnedValue::Object(_) => document.add_field_value(field, &value),
    }
}

// The members of a JSON object.
fn members(alloc: Global, json: &str) -> Result<BTreeMap<String, OwnedValue>> {
    match OwnedValue::from_json(alloc, JsonValue::from_str(alloc, json)?)? {
        OwnedValue::Object(entries) => members_of(alloc, entries),
        other => {
            drop(other);
            Err(anyhow!("a JSON object"))
        }
    }
}

// The entries by their keys.
fn members_of(
    alloc: Global,
    entries: Vec<(String, OwnedValue)>,
) -> Result<BTreeMap<String, OwnedValue>> {
    let mut members = BTreeMap::new(alloc);
    for (key, value) in entries {
        drop(members.insert(key, value)?);
    }
    Ok(members)
}
