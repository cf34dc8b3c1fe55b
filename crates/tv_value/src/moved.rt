//! Values made of JSON values, whose texts they take over.

ghost use Rattle.std.specs.Prelude.{◌≡◌, map, IfOk};
ghost use Rattle.serde_json.specs.View.{view as data_of, number_view, items_view, members_view};
ghost use Rattle.tv_value.specs.JsonTree.{number_leaf, whole_tree, whole_elements, whole_entries};
ghost use Rattle.tv_value.specs.Owned.{owned_tree, owned_entries};
ghost use Rattle.tv_format.specs.Tree.{leaf, elements, entries};

use crate::owned_value::OwnedValue;
use serde_json::{Map, Number, Value as JsonValue};
use std::alloc::{AllocError, Global};

// A number, or null where it isn't a whole one of 64 bits.
fn number_of(number: &Number) -> OwnedValue
    ensures { owned_tree result ≡ leaf (number_leaf (number_view number.now)) }
{
    if let Some(signed) = number.as_i64() {
        return OwnedValue::I64(signed);
    }
    match number.as_u64() {
        Some(unsigned) => OwnedValue::U64(unsigned),
        None => OwnedValue::Null,
    }
}

// The value that a JSON value is, where its numbers are whole. Room is made for the lists alone. The only error is that memory
// was refused.
#[cycle(moved)]
pub(crate) fn moved(alloc: Global, json: JsonValue) -> Result<OwnedValue, AllocError>
    ensures { IfOk result (λ made. owned_tree made ≡ whole_tree (data_of json)) }
{
    match json {
        JsonValue::Null => Ok(OwnedValue::Null),
        JsonValue::Bool(truth) => Ok(OwnedValue::Bool(truth)),
        JsonValue::Number(number) => Ok(number_of(&number)),
        JsonValue::String(text) => Ok(OwnedValue::Str(text)),
        JsonValue::Array(items) => Ok(OwnedValue::Array(moved_items(alloc, items)?)),
        JsonValue::Object(members) => Ok(OwnedValue::Object(moved_members(alloc, members)?)),
    }
}

#[cycle(moved)]
fn moved_items(alloc: Global, items: Vec<JsonValue>) -> Result<Vec<OwnedValue>, AllocError>
    ensures { IfOk result
        (λ made. elements (map owned_tree made.items) ≡ whole_elements (items_view items.items)) }
{
    let mut made = Vec::new(alloc);
    for item in items {
        made.push(moved(alloc, item)?)?;
    }
    Ok(made)
}

#[cycle(moved)]
fn moved_members(
    alloc: Global,
    members: Map<String, JsonValue>,
) -> Result<Vec<(String, OwnedValue)>, AllocError>
    ensures { IfOk result
        (λ made. entries (owned_entries made.items)
        ≡ whole_entries (members_view members.entries)) }
{
    let mut made = Vec::new(alloc);
    for (key, member) in members {
        made.push((key, moved(alloc, member)?))?;
    }
    Ok(made)
}
