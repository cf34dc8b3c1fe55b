//! Values as JSON values, and the texts of those that JSON has no kind for.

ghost use Rattle.std.specs.Prelude.{◌≡◌, ◌↔◌, IfOk, IsErrOf, OnOk, ◌++◌, string_bytes};
ghost use Rattle.serde_json.specs.Data.{no_members, put};
ghost use Rattle.serde_json.specs.View.{view as data_of, items_view, members_view};
ghost use Rattle.tv_value.specs.JsonOf.{json_of, content_json, leaf_json, count_json, token_json, tokens_json, tokenized_json, elements_json, entries_json};
ghost use Rattle.tv_value.specs.JsonOf.{address_text, segments_text};
ghost use Rattle.tv_value.specs.LeafParts.{content_of};
ghost use Rattle.tv_value.specs.Lent.{leaf_of, nested_tree};
ghost use Rattle.tv_value.specs.Nesting.{NestsWithin};
ghost use Rattle.tv_value.specs.PreTokenized.{text_of, tokens_of, tokens_left};
ghost use Rattle.tv_value.specs.TokenRef.{ref_of};
ghost use Rattle.tv_value.specs.Owned.{owned_tree};
ghost use Rattle.tv_format.specs.Tree.{elements, entries};
ghost use Rattle.std.specs.Net.Addr.{ipv6_bits, ipv6_segments};
ghost use Rattle.base64.specs.Engines.{standard};
ghost use Rattle.base64.specs.GeneralPurpose.{encode_of};
ghost use Rattle.tv_base.specs.Facet.{printed};
ghost use Rattle.tv_date.specs.Printed.{moment_text};

use crate::copy::CopyError;
use crate::leaf::{LeafContent, ReferenceValueLeaf, address_of};
use crate::nested::{Lent, MAX_DEPTH, Nested, NestedValue, nests_within};
use crate::owned_value::OwnedValue;
use crate::pre_tokenized::{PreTokenizedStr, TokenIter, TokenRef};
use crate::value::Value;
use base64::engine::general_purpose::STANDARD;
use serde_json::{Map, Value as JsonValue};
use std::alloc::{AllocError, Global};
use std::convert::AsStr;
use std::net::Ipv6Addr;
use tv_base::Facet;
use tv_date::DateTime;

/// Appends the text of the moment `date`, as it is printed by RFC 3339. (Not in tantivy.) The only error is that memory was refused.
#[inline]
pub fn push_date(text: &mut String, date: DateTime) -> Result<(), AllocError>
    ensures { OnOk result
        (string_bytes text.new ≡ string_bytes text.old ++ moment_text date.nanoseconds) }
{
    date.push_rfc3339(text)
}

/// Appends the text that names the facet which is encoded as `encoded`. (Not in tantivy.) The only error is that memory was refused.
#[inline]
pub fn push_facet(text: &mut String, encoded: &str) -> Result<(), AllocError>
    ensures { OnOk result (string_bytes text.new ≡ string_bytes text.old ++ printed encoded.now) }
{
    Facet::print_encoded(encoded, text)
}

/// Appends `bytes` in base64 by the standard alphabet of RFC 4648, with padding. (Not in tantivy.) The only error is that memory was refused.
pub fn push_base64(text: &mut String, bytes: &[u8]) -> Result<(), AllocError>
    ensures { OnOk result
        (string_bytes text.new ≡ string_bytes text.old ++ encode_of standard bytes.now) }
{
    STANDARD.encode_string(bytes, text)
}

// An address of version 4 by that, another by version 6.
#[tactic(auto, unfolding(crate::specs::JsonOf::segments_text))]
fn push_segments(text: &mut String, address: Ipv6Addr) -> Result<(), AllocError>
    ensures { OnOk result
        (string_bytes text.new ≡ string_bytes text.old ++ segments_text (ipv6_segments address)) }
{
    match address.to_ipv4_mapped() {
        Some(mapped) => write!(text, "{mapped}"),
        None => write!(text, "{address}"),
    }
}

/// Appends the text of `address`: that of version 4 where it is one (`::ffff:a.b.c.d`), else that of version 6. (Not in tantivy.) The only
/// error is that memory was refused.
pub fn push_address(text: &mut String, address: Ipv6Addr) -> Result<(), AllocError>
    ensures { OnOk result
        (string_bytes text.new ≡ string_bytes text.old ++ address_text (ipv6_bits address)) }
{
    let _segments = address.segments();
    push_segments(text, address)
}

// Puts a member in.
fn put_member(
    alloc: Global,
    members: &mut Map<String, JsonValue>,
    key: &str,
    value: JsonValue,
) -> Result<(), AllocError>
    ensures { OnOk result
        (members_view members.new.entries
        ≡ put key.now (data_of value) (members_view members.old.entries)) }
{
    let name = String::from_str(alloc, key)?;
    drop(members.insert(name, value)?);
    Ok(())
}

fn token_value(alloc: Global, token: TokenRef<'_>) -> Result<JsonValue, AllocError>
    ensures { IfOk result (λ value. data_of value ≡ token_json (ref_of token.entry)) }
{
    let mut members = Map::new(alloc);
    let text = String::from_str(alloc, token.text)?;
    put_member(
        alloc,
        &mut members,
        "offset_from",
        JsonValue::from(token.offset_from as u64),
    )?;
    put_member(
        alloc,
        &mut members,
        "offset_to",
        JsonValue::from(token.offset_to as u64),
    )?;
    put_member(
        alloc,
        &mut members,
        "position",
        JsonValue::from(token.position as u64),
    )?;
    put_member(
        alloc,
        &mut members,
        "position_length",
        JsonValue::from(token.position_length as u64),
    )?;
    put_member(alloc, &mut members, "text", JsonValue::String(text))?;
    Ok(JsonValue::Object(members))
}

fn token_values(alloc: Global, tokens: TokenIter<'_>) -> Result<Vec<JsonValue>, AllocError>
    ensures { IfOk result
        (λ values. items_view values.items ≡ tokens_json (tokens_left tokens.entry)) }
{
    let mut values = Vec::new(alloc);
    for token in tokens {
        let value = token_value(alloc, token)?;
        values.push(value)?;
    }
    Ok(values)
}

fn tokenized_value(alloc: Global, content: PreTokenizedStr<'_>) -> Result<JsonValue, AllocError>
    ensures { IfOk result
        (λ value. data_of value
        ≡ tokenized_json (text_of content.entry) (tokens_of content.entry)) }
{
    let mut members = Map::new(alloc);
    let text = String::from_str(alloc, content.text())?;
    let tokens = token_values(alloc, content.tokens())?;
    put_member(alloc, &mut members, "text", JsonValue::String(text))?;
    put_member(alloc, &mut members, "tokens", JsonValue::Array(tokens))?;
    Ok(JsonValue::Object(members))
}

// The JSON value of what a value without children holds.
fn content_value(alloc: Global, content: LeafContent<'_>) -> Result<JsonValue, AllocError>
    ensures { IfOk result (λ value. data_of value ≡ content_json (content_of content.entry)) }
{
    let mut text = String::new(alloc);
    match content {
        LeafContent::Nothing => return Ok(JsonValue::Null),
        LeafContent::Truth(truth) => return Ok(JsonValue::Bool(truth)),
        LeafContent::Unsigned(number) => return Ok(JsonValue::from(number)),
        LeafContent::Signed(number) => return Ok(JsonValue::from(number)),
        LeafContent::Tokens(content) => return tokenized_value(alloc, content),
        LeafContent::Wide(number) => push_address(&mut text, address_of(number))?,
        LeafContent::Text(content) => text.push_str(content)?,
        LeafContent::Bytes(bytes) => push_base64(&mut text, bytes)?,
    }
    Ok(JsonValue::String(text))
}

fn leaf_value(alloc: Global, leaf: &ReferenceValueLeaf<'_>) -> Result<JsonValue, AllocError>
    ensures { IfOk result (λ value. data_of value ≡ leaf_json (leaf_of leaf.now)) }
{
    let mut text = String::new(alloc);
    match *leaf {
        ReferenceValueLeaf::Date(date) => push_date(&mut text, date)?,
        ReferenceValueLeaf::Facet(path) => push_facet(&mut text, path)?,
        _ => return content_value(alloc, leaf.content()),
    }
    Ok(JsonValue::String(text))
}

// The JSON value of a value of any depth.
#[cycle(nested_value)]
fn nested_value<N: Nested>(alloc: Global, value: &N) -> Result<JsonValue, AllocError>
    ensures { IfOk result (λ made. data_of made ≡ json_of (N.tree value.now)) }
{
    match value.as_nested() {
        NestedValue::Leaf(leaf) => leaf_value(alloc, &leaf),
        NestedValue::Array(items) => Ok(JsonValue::Array(item_values::<N>(alloc, items)?)),
        NestedValue::Object(members) => Ok(JsonValue::Object(member_values::<N>(alloc, members)?)),
    }
}

#[cycle(nested_value)]
fn item_values<N: Nested>(alloc: Global, items: N::ArrayIter) -> Result<Vec<JsonValue>, AllocError>
    ensures { IfOk result
        (λ values. items_view values.items ≡ elements_json (elements (N.array_rest items))) }
{
    let mut values = Vec::new(alloc);
    for item in items {
        let value = nested_value(alloc, &item)?;
        values.push(value)?;
    }
    Ok(values)
}

#[cycle(nested_value)]
fn member_values<N: Nested>(
    alloc: Global,
    members: N::ObjectIter,
) -> Result<Map<String, JsonValue>, AllocError>
    ensures { IfOk result
        (λ values. members_view values.entries
        ≡ entries_json (entries (N.object_rest members)) no_members) }
{
    let mut values = Map::new(alloc);
    for (key, member) in members {
        let value = nested_value(alloc, &member)?;
        put_member(alloc, &mut values, key.as_str(), value)?;
    }
    Ok(values)
}

/// The JSON value of a value that nests within `MAX_DEPTH` lists: null, texts, numbers and truth values as themselves; a date as it is
/// printed by RFC 3339, a facet as the text that names it, bytes by the standard alphabet of base64 with padding, an address of version
/// 4 by that and another by version 6; a text with its tokens as an object of `text` and `tokens`; arrays and objects by their parts, of
/// equal keys the last. (Not in tantivy.) Errors: `TooDeep` exactly where the value nests deeper, before anything is made, else `Memory`
/// where memory was refused.
pub fn to_json_value<'a, V: Value<'a>>(alloc: Global, value: V) -> Result<JsonValue, CopyError>
    ensures made { IfOk result (λ made. data_of made ≡ json_of (V.tree value)) }
    ensures within { OnOk result (NestsWithin MAX_DEPTH (V.tree value)) }
    ensures deep { IsErrOf result CopyError.TooDeep ↔ (¬ NestsWithin MAX_DEPTH (V.tree value)) }
{
    to_json_value_within(alloc, value, MAX_DEPTH)
}

/// The same of a value that nests within `depth` lists. (Not in tantivy.) Errors: `TooDeep` exactly where it nests deeper, before anything
/// is made, else `Memory` where memory was refused. It is made by a recursion, and dropped by one, of as many levels as the value has.
pub fn to_json_value_within<'a, V: Value<'a>>(
    alloc: Global,
    value: V,
    depth: u32,
) -> Result<JsonValue, CopyError>
    ensures made { IfOk result (λ made. data_of made ≡ json_of (V.tree value)) }
    ensures within { OnOk result (NestsWithin depth (V.tree value)) }
    ensures deep { IsErrOf result CopyError.TooDeep ↔ (¬ NestsWithin depth (V.tree value)) }
{
    if !nests_within(&value, depth) {
        return Err(CopyError::TooDeep);
    }
    let json = nested_value(alloc, &Lent::new(value))?;
    Ok(json)
}

impl OwnedValue {
    /// The JSON value, see the function `to_json_value`. Errors: `TooDeep` exactly where the value nests deeper than `MAX_DEPTH` lists, before
    /// anything is made, else `Memory` where memory was refused.
    pub fn to_json_value(&self, alloc: Global) -> Result<JsonValue, CopyError>
        ensures made { IfOk result (λ made. data_of made ≡ json_of (owned_tree self.now)) }
        ensures within { OnOk result (NestsWithin MAX_DEPTH (owned_tree self.now)) }
        ensures deep { IsErrOf result CopyError.TooDeep
            ↔ (¬ NestsWithin MAX_DEPTH (owned_tree self.now)) }
    {
        to_json_value(alloc, self)
    }
}
