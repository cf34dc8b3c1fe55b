//! Values as texts of JSON without spaces, written from where the values are lent.

ghost use Rattle.std.specs.Prelude.{◌≡◌, ◌++◌, OnOk, OnErr, string_bytes};
ghost use Rattle.serde_json.specs.Data as Data;
ghost use Rattle.serde_json.specs.Written.{compact_text};
ghost use Rattle.tv_value.specs.JsonOf.{json_of};
ghost use Rattle.tv_json.specs.Rising.{data_tokens, listed_json};
ghost use Rattle.tv_format.specs.Tree.{array, object, elements, entries};

use crate::member_order::{by_key, is_in_order};
use crate::open_lists::write_deep;
use crate::write::{JsonWriter, write_leaf};
use std::alloc::{AllocError, Global};
use std::convert::AsStr;
use std::mem::replace;
use tv_value::Value;
use tv_value::nested::{Lent, MAX_DEPTH, Nested, NestedValue, lend};

// Writes a value. Lists within fewer than `levels` others are written by recursion, which is faster, and those further in by a loop.
#[cycle(write_value)]
fn write_value<N: Nested>(json: &mut JsonWriter, value: &N, levels: u32) -> Result<(), AllocError>
    ensures ok { OnOk result
        (json.new.out.tokens ≡ json.old.out.tokens ++ data_tokens (json_of (N.tree value.now))) }
    ensures before { json.new.out.before ≡ json.old.out.before }
{
    if levels == 0 {
        return write_deep(json, value);
    }
    match value.as_nested() {
        NestedValue::Leaf(leaf) => write_leaf(json, &leaf),
        NestedValue::Array(items) => write_array::<N>(json, items, levels - 1),
        NestedValue::Object(members) => {
            if is_in_order(value.as_nested()) {
                write_members::<N>(json, members, levels - 1)
            } else {
                write_by_key::<N>(json, members, levels - 1)
            }
        }
    }
}

// Writes values as an array.
#[cycle(write_value)]
fn write_array<N: Nested>(
    json: &mut JsonWriter,
    items: N::ArrayIter,
    levels: u32,
) -> Result<(), AllocError>
    ensures ok { OnOk result
        (json.new.out.tokens
        ≡ json.old.out.tokens
        ++ data_tokens (json_of (array (elements (N.array_rest items))))) }
    ensures before { json.new.out.before ≡ json.old.out.before }
{
    json.out.begin_array()?;
    for item in items {
        write_value(json, &item, levels)?;
    }
    json.out.end_array()
}

// Writes keys and values as an object, as they come.
#[cycle(write_value)]
fn write_members<N: Nested>(
    json: &mut JsonWriter,
    members: N::ObjectIter,
    levels: u32,
) -> Result<(), AllocError>
    ensures ok { OnOk result
        (json.new.out.tokens
        ≡ json.old.out.tokens
        ++ data_tokens (Data.object (listed_json (N.object_rest members)))) }
    ensures before { json.new.out.before ≡ json.old.out.before }
{
    json.out.begin_object()?;
    for (key, value) in members {
        json.out.key(key.as_str())?;
        write_value(json, &value, levels)?;
    }
    json.out.end_object()
}

// Writes keys and values as an object, by byte order of the keys, of equal keys the last.
#[cycle(write_value)]
fn write_by_key<N: Nested>(
    json: &mut JsonWriter,
    members: N::ObjectIter,
    levels: u32,
) -> Result<(), AllocError>
    ensures ok { OnOk result
        (json.new.out.tokens
        ≡ json.old.out.tokens
        ++ data_tokens (json_of (object (entries (N.object_rest members))))) }
    ensures before { json.new.out.before ≡ json.old.out.before }
{
    json.out.begin_object()?;
    for (key, value) in by_key::<N>(json.alloc, members)? {
        json.out.key(key.as_str())?;
        write_value(json, &value, levels)?;
    }
    json.out.end_object()
}

// Writes a value from where it is lent.
pub(crate) fn write_lent<'a, V: Value<'a>>(
    json: &mut JsonWriter,
    value: &V,
) -> Result<(), AllocError>
    ensures ok { OnOk result
        (json.new.out.tokens ≡ json.old.out.tokens ++ data_tokens (json_of (V.tree value.now))) }
    ensures before { json.new.out.before ≡ json.old.out.before }
{
    match lend(value) {
        NestedValue::Leaf(leaf) => write_leaf(json, &leaf),
        NestedValue::Array(items) => write_array::<Lent<'a, V>>(json, items, MAX_DEPTH),
        NestedValue::Object(members) => {
            if is_in_order(lend(value)) {
                write_members::<Lent<'a, V>>(json, members, MAX_DEPTH)
            } else {
                write_by_key::<Lent<'a, V>>(json, members, MAX_DEPTH)
            }
        }
    }
}

/// Adds a value's JSON to a text, without spaces: the members of an object by byte order of their keys, of equal keys the last.
/// (Not in tantivy.) The only error is that memory was refused, and then the text is as it was.
pub fn push_json<'a, V: Value<'a>>(
    alloc: Global,
    text: &mut String,
    value: V,
) -> Result<(), AllocError>
    ensures ok { OnOk result
        (string_bytes text.new ≡ string_bytes text.old ++ compact_text (json_of (V.tree value))) }
    ensures err { OnErr result (string_bytes text.new ≡ string_bytes text.old) }
{
    let len = text.as_str().len();
    let bytes = replace(text, String::new(alloc)).into_bytes();
    let mut json = JsonWriter::new(alloc, bytes);
    match write_lent(&mut json, &value) {
        Ok(()) => {
            *text = json.into_text();
            Ok(())
        }
        Err(refused) => {
            *text = json.into_start(len);
            Err(refused)
        }
    }
}
