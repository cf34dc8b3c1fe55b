//! What the members of a JSON object tell: values at keys that must be there, and at keys with a default.

ghost use Rattle.std.specs.Prelude.{◌≡◌, option_map};
ghost use Rattle.std.specs.Result.{result_map_both};
ghost use Rattle.serde_json.specs.View.{view, members_view};
ghost use Rattle.tv_schema.specs.SchemaJsonOptions.{required_bool, required_text, required_object, bool_or, text_or, unless_null, value_at};

use crate::json::key::SchemaKey;
use serde_json::{Map, Value};

// The members of an object, by their keys.
pub(super) type Members = Map<String, Value>;

// The value at the key, where there is one.
pub(super) fn member<'a>(members: &'a Members, key: SchemaKey) -> Option<&'a Value>
    ensures { option_map (λ found. view found.now) result
        ≡ value_at key (members_view members.now.entries) }
{
    members.get(key.name())
}

// The value at the key, where there is one that isn't null.
pub(super) fn present<'a>(members: &'a Members, key: SchemaKey) -> Option<&'a Value>
    ensures { option_map (λ found. view found.now) result
        ≡ unless_null (value_at key (members_view members.now.entries)) }
{
    match member(members, key) {
        Some(Value::Null) => None,
        found => found,
    }
}

// The truth value at the key; the key is at fault where it isn't there or a value of another kind is.
#[tactic(auto, unfolding(crate::specs::SchemaJsonOptions::required_bool))]
pub(super) fn required_bool(members: &Members, key: SchemaKey) -> Result<bool, SchemaKey>
    ensures { result ≡ required_bool key (members_view members.now.entries) }
{
    match member(members, key) {
        Some(found) => found.as_bool().ok_or(key),
        None => Err(key),
    }
}

// The text at the key; the key is at fault where it isn't there or a value of another kind is.
#[tactic(auto, unfolding(crate::specs::SchemaJsonOptions::required_text))]
pub(super) fn required_text<'a>(members: &'a Members, key: SchemaKey) -> Result<&'a str, SchemaKey>
    ensures { result_map_both (λ text. text.now) (λ key. key) result
        ≡ required_text key (members_view members.now.entries) }
{
    match member(members, key) {
        Some(found) => found.as_str().ok_or(key),
        None => Err(key),
    }
}

// The members of the object at the key; the key is at fault where it isn't there or a value of another kind is.
#[tactic(auto, unfolding(crate::specs::SchemaJsonOptions::required_object))]
pub(super) fn required_object<'a>(
    members: &'a Members,
    key: SchemaKey,
) -> Result<&'a Members, SchemaKey>
    ensures { result_map_both (λ inner. members_view inner.now.entries) (λ key. key) result
        ≡ required_object key (members_view members.now.entries) }
{
    match member(members, key) {
        Some(found) => found.as_object().ok_or(key),
        None => Err(key),
    }
}

// The truth value at the key, or the default where the key isn't there; the key is at fault for a value of another kind.
#[tactic(auto, unfolding(crate::specs::SchemaJsonOptions::bool_or))]
pub(super) fn bool_or(members: &Members, key: SchemaKey, default: bool) -> Result<bool, SchemaKey>
    ensures { result ≡ bool_or default key (members_view members.now.entries) }
{
    match member(members, key) {
        Some(found) => found.as_bool().ok_or(key),
        None => Ok(default),
    }
}

// The text at the key, or the default where the key isn't there; the key is at fault for a value of another kind.
#[tactic(auto, unfolding(crate::specs::SchemaJsonOptions::text_or))]
pub(super) fn text_or<'a>(
    members: &'a Members,
    key: SchemaKey,
    default: &'a str,
) -> Result<&'a str, SchemaKey>
    ensures { result_map_both (λ text. text.now) (λ key. key) result
        ≡ text_or default.now key (members_view members.now.entries) }
{
    match member(members, key) {
        Some(found) => found.as_str().ok_or(key),
        None => Ok(default),
    }
}
