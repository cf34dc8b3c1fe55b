//! Passing over documents and values: they are tested as if they were read, and nothing of them is kept.

ghost use Rattle.std.specs.Prelude.{◌≡◌, ◌<◌, ◌∷◌, ◌++◌, [], Ok, OnOk};
ghost use Rattle.tv_format.specs.InputError.{ErrorInDocument};
ghost use Rattle.tv_reader.specs.Legacy.{Legacy, ErrorInLegacy};
ghost use Rattle.tv_reader.specs.Finds.{FindsRoomy, Nothing};
ghost use Rattle.tv_reader.specs.Trees.{NoValue};
ghost use Rattle.tv_reader.specs.ValueType.{type_prefix};
ghost use Rattle.tv_reader.specs.Version.{version_of};
ghost use Rattle.tv_reading.specs.Skip.{Before, ErrorBefore, ErrorInItem, ErrorInLeft, AreLeft, IsValueEncoding, IsDocumentEncoding, OpensValue, OpensItem};
ghost use Rattle.tv_reading.specs.Skip.{TakesItem, open_items, Passed};

use crate::encoded::behind_as_many;
use crate::parts::{skip_key, skip_sized, skip_text};
use crate::tokens::skip_tokenized;
use std::alloc::Global;
use tv_base::ByteSource;
use tv_base::take::take_vint;
use tv_reader::DeserializeError;
use tv_reader::heads::{take_document_head, take_field};
use tv_reader::trees::{take_entry_count, take_legacy_object};
use tv_reader::value_type::{ValueType, take_kind, take_leaf};
use tv_reader::version::DocStoreVersion;
use tv_value::nested::MAX_DEPTH;

// What an open list holds: values, keys with values, or fields with values.
#[derive(Clone, Copy)]
pub(crate) enum ItemKind {
    Value,
    Entry,
    Pair,
}

// How many items of an open list are left.
#[derive(Clone, Copy)]
pub(crate) struct ItemsLeft {
    kind: ItemKind,
    left: u64,
}

// Passes over the items that the source has buffered whole, one after the other, and gives those that are left. It may pass over none.
fn pass_buffered_items<S: ByteSource>(
    source: &mut S,
    count: &mut u64,
    version: DocStoreVersion,
    items: ItemsLeft,
) -> ItemsLeft
    ensures finds { FindsRoomy S.ByteSource source.old count.old source.new count.new (Ok result)
        (λ b left. Passed (version_of version) (items ∷ []) (left ∷ []) b) Nothing }
{
    let Some(known) = version.written() else {
        return items;
    };
    let lent = source.buffered();
    if u64::MAX - *count < lent.len() as u64 {
        return items;
    }
    let (rest, passed) = behind_as_many(items.kind, items.left, lent, known, MAX_DEPTH);
    let taken = lent.len() - rest.len();
    if !source.pass(taken) {
        return items;
    }
    *count += taken as u64;
    ItemsLeft {
        kind: items.kind,
        left: items.left - passed,
    }
}

// Takes one item off what is left, and says whether there was one. It is of the list that comes first then.
fn next_item(items: &mut ItemsLeft, outer: &mut Vec<ItemsLeft>) -> bool
    ensures { TakesItem (open_items items.old outer.old) items.new outer.new result }
{
    while items.left == 0 {
        let Some(next) = outer.pop() else {
            return false;
        };
        *items = next;
    }
    items.left -= 1;
    true
}

// Passes over what stands before the value of an item.
fn skip_before<S: ByteSource>(
    source: &mut S,
    count: &mut u64,
    version: DocStoreVersion,
    scratch: &mut Vec<u8>,
    kind: ItemKind,
) -> Result<(), DeserializeError>
    ensures finds { FindsRoomy S.ByteSource source.old count.old source.new
        count.new result (λ b _. Before (version_of version) kind b)
        (ErrorBefore (version_of version) kind) }
{
    match kind {
        ItemKind::Value => Ok(()),
        ItemKind::Entry => skip_key(source, count, scratch, version),
        ItemKind::Pair => {
            take_field(source, count)?;
            Ok(())
        }
    }
}

// Passes over what stands after the codes of a value: all of it, or what stands before its items.
fn skip_behind<S: ByteSource>(
    alloc: Global,
    source: &mut S,
    count: &mut u64,
    version: DocStoreVersion,
    scratch: &mut Vec<u8>,
    kind: ValueType,
) -> Result<Option<ItemsLeft>, DeserializeError>
    ensures finds { FindsRoomy S.ByteSource source.old count.old source.new
        count.new result (λ b opened. OpensValue (version_of version) (type_prefix kind ++ b) opened)
        (λ b r. NoValue (version_of version) (type_prefix kind ++ b) r) }
{
    match kind {
        ValueType::Array => {
            let left = take_vint(source, count)?;
            Ok(Some(ItemsLeft {
                kind: ItemKind::Value,
                left,
            }))
        }
        ValueType::Object => {
            let left = take_entry_count(source, count, version)?;
            Ok(Some(ItemsLeft {
                kind: ItemKind::Entry,
                left,
            }))
        }
        ValueType::String | ValueType::Facet => {
            skip_text(source, count, scratch)?;
            Ok(None)
        }
        ValueType::Bytes => {
            skip_sized(source, count)?;
            Ok(None)
        }
        ValueType::PreTokStr => {
            skip_tokenized(source, count, scratch)?;
            Ok(None)
        }
        ValueType::JSONObject => {
            take_legacy_object(alloc, source, count)?;
            Ok(None)
        }
        leaf => {
            take_leaf(alloc, source, count, version, leaf)?;
            Ok(None)
        }
    }
}

// Passes over a value, or over what stands before its items.
fn skip_head<S: ByteSource>(
    alloc: Global,
    source: &mut S,
    count: &mut u64,
    version: DocStoreVersion,
    scratch: &mut Vec<u8>,
) -> Result<Option<ItemsLeft>, DeserializeError>
    ensures finds { FindsRoomy S.ByteSource source.old count.old source.new
        count.new result (OpensValue (version_of version)) (NoValue (version_of version)) }
    ensures advances { OnOk result (count.old < count.new) }
{
    let kind = take_kind(source, count)?;
    skip_behind(alloc, source, count, version, scratch, kind)
}

// Passes over an item, or over all that stands before the items of its value.
fn skip_item<S: ByteSource>(
    alloc: Global,
    source: &mut S,
    count: &mut u64,
    version: DocStoreVersion,
    scratch: &mut Vec<u8>,
    kind: ItemKind,
) -> Result<Option<ItemsLeft>, DeserializeError>
    ensures finds { FindsRoomy S.ByteSource source.old count.old source.new
        count.new result (OpensItem (version_of version) kind)
        (ErrorInItem (version_of version) kind) }
    ensures advances { OnOk result (count.old < count.new) }
{
    skip_before(source, count, version, scratch, kind)?;
    skip_head(alloc, source, count, version, scratch)
}

// Passes over this many items, to any depth.
fn skip_items<S: ByteSource>(
    alloc: Global,
    source: &mut S,
    count: &mut u64,
    version: DocStoreVersion,
    first: ItemsLeft,
) -> Result<(), DeserializeError>
    ensures finds { FindsRoomy S.ByteSource source.old count.old source.new
        count.new result (λ b _. AreLeft (version_of version) (first ∷ []) b)
        (ErrorInLeft (version_of version) (first ∷ [])) }
{
    let mut items = pass_buffered_items(source, count, version, first);
    let mut scratch = Vec::new(alloc);
    let mut outer = Vec::new(alloc);
    'lists: while next_item(&mut items, &mut outer) {
        let before = *count;
        let opened = skip_item(alloc, source, count, version, &mut scratch, items.kind)?;
        // so the loop ends: the count has an end
        prove!(before < *count);
        if let Some(inner) = opened {
            outer.push(items)?;
            items = inner;
        }
    }
    Ok(())
}

/// Passes over a value, to any depth. It is tested as if it were read, and nothing of it is kept.
///
/// A value that the source has buffered whole is walked where it lies, by a recursion of `MAX_DEPTH` levels at most. Any other is taken part by part, by no
/// recursion. Memory is taken then for texts that the source doesn't lend, which are tested in one buffer that is used again, and for objects
/// as older stores hold them; and for each list that is open.
///
/// Errors: `CorruptedValue` and `TypeMismatch` with the first error in the bytes; `Io` where the source failed; `Memory`.
pub fn pass_value<S: ByteSource>(
    alloc: Global,
    source: &mut S,
    count: &mut u64,
    version: DocStoreVersion,
) -> Result<(), DeserializeError>
    ensures finds { FindsRoomy S.ByteSource source.old count.old source.new
        count.new result (λ b _. IsValueEncoding (version_of version) b) (NoValue (version_of version)) }
{
    let one = ItemsLeft {
        kind: ItemKind::Value,
        left: 1,
    };
    skip_items(alloc, source, count, version, one)
}

/// Passes over a document: the number of its pairs, and each pair, as `pass_value` passes over values.
///
/// Errors: those of `pass_value`.
pub fn pass_document<S: ByteSource>(
    alloc: Global,
    source: &mut S,
    count: &mut u64,
    version: DocStoreVersion,
) -> Result<(), DeserializeError>
    ensures finds { FindsRoomy S.ByteSource source.old count.old source.new
        count.new result (λ b _. IsDocumentEncoding (version_of version) b)
        (ErrorInDocument Legacy ErrorInLegacy (version_of version)) }
{
    let left = take_document_head(source, count)?;
    let pairs = ItemsLeft {
        kind: ItemKind::Pair,
        left,
    };
    skip_items(alloc, source, count, version, pairs)
}
