//! The order of keys, and in which the members of an object are written.

ghost use Rattle.std.specs.Prelude.{◌≡◌, ◌↔◌, IsTrue, IfOk};
ghost use Rattle.serde_json.specs.Data.{no_members};
ghost use Rattle.tv_value.specs.JsonOf.{entries_json};
ghost use Rattle.tv_json.specs.Rising.{Below, KeysRise, entries_of, listed_json, pair_entries};
ghost use Rattle.tv_format.specs.Tree.{entries};
ghost use Rattle.tv_value.specs.Lent.{nested_tree};
ghost use Rattle.std.specs.Cmp.Lexicographic.{slice_cmp};
ghost use Rattle.std.specs.Ordering.{nat_cmp};

use std::alloc::{AllocError, Global};
use std::cmp::Ordering;
use std::collections::BTreeMap;
use std::convert::AsStr;
use tv_value::nested::{Nested, NestedValue};

// This many bytes are compared one by one.
const FIRST_BYTES: usize = 8;

/// How two keys compare by their bytes, as `cmp` says. Most keys differ in one of their first bytes, and this decides. (Not in tantivy.)
#[inline(always)]
pub fn compare(key: &str, other: &str) -> Ordering
    ensures { result ≡ slice_cmp nat_cmp key.now other.now }
{
    let ones = key.as_bytes();
    let twos = other.as_bytes();
    let len = ones.len().min(twos.len()).min(FIRST_BYTES);
    for at in 0..len {
        if ones[at] != twos[at] {
            return ones[at].cmp(&twos[at]);
        }
    }
    key.cmp(other)
}

// Whether a key is below another in byte order. Where their first bytes differ, these decide.
#[inline(always)]
fn is_below(key: &str, other: &str) -> bool
    ensures { IsTrue result ↔ Below key.now other.now }
{
    match (key.as_bytes().first(), other.as_bytes().first()) {
        (Some(one), Some(two)) if one != two => one < two,
        _ => key.cmp(other) == Ordering::Less,
    }
}

// Whether each key is below the next in byte order.
fn keys_rise<N: Nested>(mut members: N::ObjectIter) -> bool
    ensures { IsTrue result → KeysRise (entries (N.object_rest members)) }
{
    let Some((first, _)) = members.next() else {
        return true;
    };
    let mut last = first;
    for (key, _) in members {
        if !is_below(last.as_str(), key.as_str()) {
            return false;
        }
        last = key;
    }
    true
}

// Whether a value is an object whose keys are each below the next.
pub(crate) fn is_in_order<N: Nested>(value: NestedValue<'_, N>) -> bool
    ensures { IsTrue result → KeysRise
        (entries_of (nested_tree N.array_rest N.object_rest value.entry)) }
{
    match value {
        NestedValue::Object(members) => keys_rise::<N>(members),
        _ => false,
    }
}

// The members by byte order of their keys, of equal keys the last.
pub(crate) fn by_key<N: Nested>(
    alloc: Global,
    members: N::ObjectIter,
) -> Result<BTreeMap<String, N>, AllocError>
    ensures { IfOk result
        (λ found. listed_json (pair_entries N.tree found.entries)
        ≡ entries_json (entries (N.object_rest members)) no_members) }
{
    let mut found = BTreeMap::new(alloc);
    for (key, value) in members {
        let name = String::from_str(alloc, key.as_str())?;
        drop(found.insert(name, value)?);
    }
    Ok(found)
}
