//! Whether values have an encoding.

ghost use Rattle.std.specs.Bool.{MatchBool};
ghost use Rattle.std.specs.Prelude.{option_map};
ghost use Rattle.tv_value.specs.LeafParts.{content_of};
ghost use Rattle.tv_value.specs.Lent.{nested_tree};
ghost use Rattle.tv_format.specs.Short.{IsContent, IsText, IsSized, IsValue};
ghost use Rattle.tv_writer.specs.Children.{HasHead, IsKey};

use std::convert::AsStr;
use tv_value::laws::pre_tokenized_texts_encode;
use tv_value::leaf::LeafContent;
use tv_value::nested::{Nested, NestedValue, lend};
use tv_value::value::Value;

// No more bytes, and no more children, have an encoding.
const MOST: u64 = 9223372036854775807;

// Whether a text is short enough.
fn is_text(content: &str) -> bool
    ensures { MatchBool result (IsText content.now) (¬ IsText content.now) }
{
    content.len() as u64 <= MOST
}

// Whether bytes are few enough.
fn is_sized(content: &[u8]) -> bool
    ensures { MatchBool result (IsSized content.now) (¬ IsSized content.now) }
{
    content.len() as u64 <= MOST
}

// Whether what a value without children holds has an encoding: all has one but texts and bytes that are too long.
fn is_content(content: LeafContent<'_>) -> bool
    ensures { MatchBool result (IsContent (content_of content.entry))
        (¬ IsContent (content_of content.entry)) }
{
    pre_tokenized_texts_encode();
    match content {
        LeafContent::Text(text) => is_text(text),
        LeafContent::Bytes(bytes) => is_sized(bytes),
        _ => true,
    }
}

// Whether a key is short enough, if there is one.
fn is_key<K: AsStr>(key: &Option<K>) -> bool
    ensures { MatchBool result (IsKey (option_map K.text key.now))
        (¬ IsKey (option_map K.text key.now)) }
{
    match key {
        None => true,
        Some(key) => is_text(key.as_str()),
    }
}

// Whether a value has one, for all that the values in it say: a leaf has one, or a list has few enough children, and their keys have one.
#[tactic(auto, using(crate::proofs::WriterSteps::head_parts, crate::proofs::WriterSteps::has_head))]
pub(crate) fn has_head<N: Nested>(value: NestedValue<'_, N>) -> bool
    ensures { MatchBool result (HasHead (nested_tree N.array_rest N.object_rest value.entry))
        (¬ HasHead (nested_tree N.array_rest N.object_rest value.entry)) }
{
    let children = match value.into_children() {
        Ok(children) => children,
        Err(leaf) => return is_content(leaf.content()),
    };
    let mut count = 0;
    for (key, _) in children {
        if count == MOST || !is_key(&key) {
            return false;
        }
        count += 1;
    }
    true
}

// Whether a value and all its children have one.
#[tactic(auto, using(crate::proofs::WriterSteps::list_fits, crate::proofs::WriterSteps::list_parts, crate::proofs::WriterSteps::list_valid, tv_value::proofs::ListChildren::list_size))]
fn is_encoded<N: Nested>(value: NestedValue<'_, N>) -> bool
    ensures { MatchBool result (IsValue (nested_tree N.array_rest N.object_rest value.entry))
        (¬ IsValue (nested_tree N.array_rest N.object_rest value.entry)) }
{
    let children = match value.into_children() {
        Ok(children) => children,
        Err(leaf) => return is_content(leaf.content()),
    };
    let mut count = 0;
    for (key, item) in children {
        if count == MOST || !is_key(&key) || !is_encoded(item.as_nested()) {
            return false;
        }
        count += 1;
    }
    true
}

/// Whether a value has an encoding: no array and no object in it has 2^63 children, and no text and no bytes have that length.
pub fn has_encoding<'a, V: Value<'a>>(value: &V) -> bool
    ensures { MatchBool result (IsValue (V.tree value.now)) (¬ IsValue (V.tree value.now)) }
{
    is_encoded(lend(value))
}
