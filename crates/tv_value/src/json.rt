//! JSON values lent as values of a document, without copies.

ghost use Rattle.std.specs.Prelude.{◌≡◌, List, ℕ, map};
ghost use Rattle.std.specs.Iterator.{YieldsFirstBy, item_count};
ghost use Rattle.serde_json.specs.View.{view as data_of, number_view, items_view, members_view};
ghost use Rattle.serde_json.specs.Find.{is_float};
ghost use Rattle.tv_value.specs.JsonTree.{number_leaf as number_leaf_of};
ghost use Rattle.tv_value.specs.Lent.{leaf_of};
ghost use Rattle.serde_json.specs.Written.{has_float as has_float_in, items_have_float, members_have_float};

use crate::leaf::ReferenceValueLeaf;
use crate::value::{ReferenceValue, Value};
use serde_json::{Map, Number, Value as JsonValue};
use std::collections::btree_map;

// Whether the number isn't a whole one of 64 bits.
fn is_float_number(number: &Number) -> bool
    ensures { result ≡ is_float (number_view number.now) }
{
    number.as_i64().is_none() && number.as_u64().is_none()
}

/// Whether a number in the JSON value, at any depth, isn't whole or doesn't fit 64 bits. (Not in tantivy.)
#[inline(always)]
#[cycle(has_float)]
pub fn has_float(json: &JsonValue) -> bool
    ensures { result ≡ has_float_in (data_of json.now) }
{
    match json {
        JsonValue::Null | JsonValue::Bool(_) | JsonValue::String(_) => false,
        JsonValue::Number(number) => is_float_number(number),
        JsonValue::Array(items) => some_item_has_float(items),
        JsonValue::Object(members) => some_member_has_float(members),
    }
}

#[inline(never)]
#[cycle(has_float)]
fn some_item_has_float(items: &Vec<JsonValue>) -> bool
    ensures { result ≡ items_have_float (items_view items.now.items) }
{
    for item in items {
        if has_float(item) {
            return true;
        }
    }
    false
}

#[inline(never)]
#[cycle(has_float)]
fn some_member_has_float(members: &Map<String, JsonValue>) -> bool
    ensures { result ≡ members_have_float (members_view members.now.entries) }
{
    for (_, member) in members.iter() {
        if has_float(member) {
            return true;
        }
    }
    false
}

/// A JSON value that is lent as a value of a document. (Not in tantivy.) Numbers are lent as signed ones where they fit 64 bits, else as
/// unsigned ones; a number that isn't whole is lent as no value, so `has_float` is asked before.
#[derive(Clone, Copy)]
pub struct LentJson<'a> {
    json: &'a JsonValue,
}

impl<'a> LentJson<'a> {
    /// The JSON value, lent.
    pub fn new(json: &'a JsonValue) -> LentJson<'a>
        ensures { result.json.now ≡ json.now }
    {
        LentJson { json }
    }
}

/// The values of a JSON array that are left, in order. (Not in tantivy.)
#[derive(Clone, Copy)]
pub struct LentJsonArray<'a> {
    items: &'a [JsonValue],
}

impl<'a> Iterator for LentJsonArray<'a> {
    ghost use Rattle.tv_value.specs.JsonTree.{lent_json_tree};

    type Item = LentJson<'a>;

    ghost next_gives = { YieldsFirstBy (λ x. lent_json_tree x.json.now)
        (λ s. map lent_json_tree s.items.now) };

    ghost remaining = { item_count (λ s. s.items.now) };

    #[inline]
    fn next(&mut self) -> Option<LentJson<'a>> {
        let (json, others) = self.items.split_first()?;
        self.items = others;
        Some(LentJson { json })
    }
}

/// The keys and values of a JSON object that are left, in byte order of the keys. (Not in tantivy.)
#[derive(Drop)]
pub struct LentJsonObject<'a> {
    members: btree_map::Iter<'a, String, JsonValue>,
}

impl<'a> Iterator for LentJsonObject<'a> {
    ghost use Rattle.tv_value.specs.JsonTree.{lent_json_tree, lent_json_entries};
    ghost use Rattle.tv_value.specs.Lent.{entry_of};

    type Item = (&'a str, LentJson<'a>);

    ghost next_gives = { YieldsFirstBy (entry_of (λ x. lent_json_tree x.json.now))
        (λ s. lent_json_entries s.members) };

    ghost remaining = { item_count (λ s. s.members) };

    #[inline]
    fn next(&mut self) -> Option<(&'a str, LentJson<'a>)> {
        let (key, json) = self.members.next()?;
        Some((key.as_str(), LentJson { json }))
    }
}

// The leaf of a number.
#[inline(always)]
fn number_leaf(number: &Number) -> ReferenceValueLeaf<'static>
    ensures { leaf_of result ≡ number_leaf_of (number_view number.now) }
{
    if let Some(signed) = number.as_i64() {
        return ReferenceValueLeaf::I64(signed);
    }
    match number.as_u64() {
        Some(unsigned) => ReferenceValueLeaf::U64(unsigned),
        None => ReferenceValueLeaf::Null,
    }
}

impl<'a> Value<'a> for LentJson<'a> {
    ghost use Rattle.tv_value.specs.JsonTree.{lent_json_tree, lent_json_entries};

    type ArrayIter = LentJsonArray<'a>;

    type ObjectIter = LentJsonObject<'a>;

    ghost tree = { λ x. lent_json_tree x.json.now };

    ghost array_rest = { λ s. map lent_json_tree s.items.now };

    ghost object_rest = { λ s. lent_json_entries s.members };

    ghost array_walks = { λ s. (tt, tt) };

    ghost object_walks = { λ s. (tt, tt) };

    ghost array_steps = { λ s t r steps. steps };

    ghost object_steps = { λ s t r steps. steps };

    #[inline(always)]
    fn as_value(&self) -> ReferenceValue<'a, LentJson<'a>> {
        match self.json {
            JsonValue::Null => ReferenceValue::Leaf(ReferenceValueLeaf::Null),
            JsonValue::Bool(truth) => ReferenceValue::Leaf(ReferenceValueLeaf::Bool(*truth)),
            JsonValue::Number(number) => ReferenceValue::Leaf(number_leaf(number)),
            JsonValue::String(text) => ReferenceValue::Leaf(ReferenceValueLeaf::Str(text.as_str())),
            JsonValue::Array(items) => ReferenceValue::Array(LentJsonArray {
                items: items.as_slice(),
            }),
            JsonValue::Object(members) => ReferenceValue::Object(LentJsonObject {
                members: members.iter(),
            }),
        }
    }
}
