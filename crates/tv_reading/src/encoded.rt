//! Items that stand in bytes, passed over where they stand.

ghost use Rattle.std.specs.Prelude.{◌≡◌, ◌≤◌, ◌∷◌, IfSome};
ghost use Rattle.tv_base.specs.Parts.{Begins};
ghost use Rattle.tv_format.specs.WriteVersion.{written_version};
ghost use Rattle.tv_format.specs.declared.leaf_type.WriteVersion.{WriteVersion};
ghost use Rattle.tv_reading.specs.Skip.{Before, BeginsItems, IsItem, IsValueEncoding};

use crate::items::ItemKind;
use tv_format::type_codes::{ARRAY_CODE, OBJECT_CODE};
use tv_format::{LeafType, WriteVersion};
use tv_value::in_place::{content_at, entry_count_at, key_at, number_at};

// What follows the value without children that stands after this code. It is encoded alike in all versions that are written.
#[inline(always)]
fn behind_leaf(code: u8, bytes: &[u8]) -> Option<&[u8]>
    ensures { IfSome result
        (λ rest. (version : WriteVersion) → Begins (IsValueEncoding (written_version version))
        (code ∷ bytes.now) rest.now) }
{
    let leaf_type = LeafType::from_store_code(code)?;
    let (_content, rest) = content_at(leaf_type.form(), bytes)?;
    Some(rest)
}

// What follows what stands before the value of an item.
#[inline(always)]
fn behind_before(kind: ItemKind, bytes: &[u8], version: WriteVersion) -> Option<&[u8]>
    ensures { IfSome result
        (λ rest. Begins (Before (written_version version) kind) bytes.now rest.now) }
{
    match kind {
        ItemKind::Value => Some(bytes),
        ItemKind::Entry => {
            let (_key, rest) = key_at(bytes, version)?;
            Some(rest)
        }
        ItemKind::Pair => {
            let (_field, rest) = bytes.split_first_chunk::<4>()?;
            Some(rest)
        }
    }
}

// What follows the value at the start. None where there is none, or one as older stores hold it, or lists are nested deeper than this many levels.
#[inline(always)]
#[cycle(encoded)]
pub(crate) fn behind_value(bytes: &[u8], version: WriteVersion, levels: u32) -> Option<&[u8]>
    ensures { IfSome result
        (λ rest. Begins (IsValueEncoding (written_version version)) bytes.now rest.now) }
{
    let (code, behind) = bytes.split_first()?;
    match *code {
        ARRAY_CODE => {
            let (many, items) = number_at(behind)?;
            behind_items(ItemKind::Value, many, items, version, levels)
        }
        OBJECT_CODE => {
            let (many, items) = entry_count_at(behind, version)?;
            behind_items(ItemKind::Entry, many, items, version, levels)
        }
        code => behind_leaf(code, behind),
    }
}

// What follows this many items of a list at the start, which takes a level.
#[inline(never)]
#[cycle(encoded)]
fn behind_items(
    kind: ItemKind,
    many: u64,
    bytes: &[u8],
    version: WriteVersion,
    levels: u32,
) -> Option<&[u8]>
    ensures { IfSome result
        (λ rest. BeginsItems (written_version version) kind many bytes.now rest.now) }
{
    if levels == 0 {
        return None;
    }
    let mut rest = bytes;
    for _i in 0..many {
        let value = behind_before(kind, rest, version)?;
        rest = behind_value(value, version, levels - 1)?;
    }
    Some(rest)
}

// What follows the items at the start, as many as there are, up to this many, and how many they are.
pub(crate) fn behind_as_many(
    kind: ItemKind,
    most: u64,
    bytes: &[u8],
    version: WriteVersion,
    levels: u32,
) -> (&[u8], u64)
    ensures items { BeginsItems (written_version version) kind result.1 bytes.now result.0.now }
    ensures most { result.1 ≤ most }
{
    let mut rest = bytes;
    for count in 0..most {
        let Some(value) = behind_before(kind, rest, version) else {
            return (rest, count);
        };
        let Some(behind) = behind_value(value, version, levels) else {
            return (rest, count);
        };
        rest = behind;
    }
    (rest, most)
}
