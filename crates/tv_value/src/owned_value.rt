//! Values that own what they hold, and how they are lent; why a JSON value is none.

ghost use Rattle.std.specs.Prelude.{◌≡◌, ◌↔◌, ℕ, List, map, IfOk, IsErrOf, OnOk};
ghost use Rattle.std.specs.Iterator.{YieldsFirstRef, YieldsFirstBy, item_count};
ghost use Rattle.tv_value.specs.declared.owned_value.JsonError.TheVariants.{Memory};

use crate::copy::{CopyError, copy_of};
use crate::json::has_float;
use crate::leaf::ReferenceValueLeaf;
use crate::moved::moved;
use crate::nested::{MAX_DEPTH, nests_within};
use crate::pre_tokenized::PreTokenizedStr;
use crate::same::same_values;
use crate::tokenizer::PreTokenizedString;
use crate::value::{ReferenceValue, Value};
use serde_json::Value as JsonValue;
use std::alloc::{AllocError, Global};
use std::net::Ipv6Addr;
use thiserror::Error;
use tv_base::Facet;
use tv_date::DateTime;

/// Why a JSON value is no value of a document.
#[derive(Clone, Copy, Debug, PartialEq, Eq, Drop, Error)]
pub enum JsonError {
    /// A number in it isn't whole, or doesn't fit 64 bits.
    #[error("a number that isn't a whole number of 64 bits")]
    FloatNumber,
    /// Memory was refused.
    #[error("memory was refused")]
    Memory,
}

impl From<AllocError> for JsonError {
    ghost from_gives = { λ _ error. error ≡ Memory };

    fn from(_error: AllocError) -> JsonError {
        JsonError::Memory
    }
}

/// A value that owns what it holds.
#[derive(Debug, Drop)]
pub enum OwnedValue {
    /// No value.
    Null,
    /// A text.
    Str(String),
    /// A text and its tokens.
    PreTokStr(PreTokenizedString),
    /// A number from 0 to 2^64 - 1.
    U64(u64),
    /// A number from -2^63 to 2^63 - 1.
    I64(i64),
    /// A truth value.
    Bool(bool),
    /// A date.
    Date(DateTime),
    /// A facet.
    Facet(Facet),
    /// Bytes.
    Bytes(Vec<u8>),
    /// An IPv6 address. An address of version 4 is kept as `::ffff:a.b.c.d`.
    IpAddr(Ipv6Addr),
    /// Values, in order.
    Array(Vec<OwnedValue>),
    /// Keys and their values, in order. Keys may repeat.
    Object(Vec<(String, OwnedValue)>),
}

/// The values of an array that are left, in order.
#[derive(Clone, Copy)]
pub struct OwnedArrayIter<'a> {
    items: &'a [OwnedValue],
}

impl<'a> Iterator for OwnedArrayIter<'a> {
    type Item = &'a OwnedValue;

    ghost next_gives = { YieldsFirstRef (λ s. s.items.now) };

    ghost remaining = { item_count (λ s. s.items.now) };

    #[inline]
    fn next(&mut self) -> Option<&'a OwnedValue> {
        let (first, others) = self.items.split_first()?;
        self.items = others;
        Some(first)
    }
}

/// The keys and values of an object that are left, in order.
#[derive(Clone, Copy)]
pub struct OwnedObjectIter<'a> {
    members: &'a [(String, OwnedValue)],
}

impl<'a> Iterator for OwnedObjectIter<'a> {
    ghost use Rattle.tv_value.specs.Lent.{entry_of};
    ghost use Rattle.tv_value.specs.Owned.{owned_entries, owned_tree};

    type Item = (&'a str, &'a OwnedValue);

    ghost next_gives = { YieldsFirstBy (entry_of (λ x. owned_tree x.now))
        (λ s. owned_entries s.members.now) };

    ghost remaining = { item_count (λ s. s.members.now) };

    #[inline]
    fn next(&mut self) -> Option<(&'a str, &'a OwnedValue)> {
        let (first, others) = self.members.split_first()?;
        self.members = others;
        let (key, value) = first;
        Some((key.as_str(), value))
    }
}

impl<'a> Value<'a> for &'a OwnedValue {
    ghost use Rattle.tv_value.specs.Owned.{owned_entries, owned_tree, steps_of_refs};

    type ArrayIter = OwnedArrayIter<'a>;

    type ObjectIter = OwnedObjectIter<'a>;

    ghost tree = { λ x. owned_tree x.now };

    ghost array_rest = { λ s. map owned_tree s.items.now };

    ghost object_rest = { λ s. owned_entries s.members.now };

    ghost array_walks = { λ s. (tt, tt) };

    ghost object_walks = { λ s. (tt, tt) };

    ghost array_steps = { λ s t r steps. steps_of_refs owned_tree (λ s. s.items.now) s t r steps };

    ghost object_steps = { λ s t r steps. steps };

    #[inline(always)]
    fn as_value(&self) -> ReferenceValue<'a, &'a OwnedValue> {
        let leaf = match *self {
            OwnedValue::Array(items) => {
                let items = items.as_slice();
                return ReferenceValue::Array(OwnedArrayIter { items });
            }
            OwnedValue::Object(members) => {
                let members = members.as_slice();
                return ReferenceValue::Object(OwnedObjectIter { members });
            }
            OwnedValue::Null => ReferenceValueLeaf::Null,
            OwnedValue::Str(text) => ReferenceValueLeaf::Str(text.as_str()),
            OwnedValue::PreTokStr(text) => {
                ReferenceValueLeaf::PreTokStr(PreTokenizedStr::from_string(text))
            }
            OwnedValue::U64(number) => ReferenceValueLeaf::U64(*number),
            OwnedValue::I64(number) => ReferenceValueLeaf::I64(*number),
            OwnedValue::Bool(truth) => ReferenceValueLeaf::Bool(*truth),
            OwnedValue::Date(date) => ReferenceValueLeaf::Date(*date),
            OwnedValue::Facet(facet) => ReferenceValueLeaf::Facet(facet.encoded_str()),
            OwnedValue::Bytes(bytes) => ReferenceValueLeaf::Bytes(bytes.as_slice()),
            OwnedValue::IpAddr(address) => ReferenceValueLeaf::IpAddr(*address),
        };
        ReferenceValue::Leaf(leaf)
    }
}

// A copy of a facet.
fn owned_facet(alloc: Global, encoded: &str) -> Result<Facet, AllocError>
    ensures { IfOk result (λ made. made ≡ encoded.now) }
{
    match Facet::from_encoded(encoded.as_bytes().to_vec(alloc)?) {
        Ok(facet) => Ok(facet),
        Err(_) => unreachable!(),
    }
}

impl OwnedValue {
    ghost use Rattle.serde_json.specs.View.{view as data_of};
    ghost use Rattle.tv_format.specs.Tree.{leaf};
    ghost use Rattle.tv_value.specs.JsonTree.{AnswersJson};
    ghost use Rattle.tv_value.specs.Lent.{leaf_of};
    ghost use Rattle.tv_value.specs.Nesting.{NestsWithin};
    ghost use Rattle.tv_value.specs.Owned.{owned_tree};

    /// A copy of a value that nests within `MAX_DEPTH` lists. Errors: `TooDeep` exactly where it nests deeper, before anything is made, else
    /// `Memory` where memory was refused.
    pub fn from_value<'a, V: Value<'a>>(alloc: Global, value: &V) -> Result<OwnedValue, CopyError>
        ensures made { IfOk result (λ made. owned_tree made ≡ V.tree value.now) }
        ensures within { OnOk result (NestsWithin MAX_DEPTH (V.tree value.now)) }
        ensures deep { IsErrOf result CopyError.TooDeep
            ↔ (¬ NestsWithin MAX_DEPTH (V.tree value.now)) }
    {
        OwnedValue::from_value_within(alloc, value, MAX_DEPTH)
    }

    /// A copy of a value that nests within `depth` lists. (Not in tantivy.) Errors: `TooDeep` exactly where it nests deeper, before anything
    /// is made, else `Memory` where memory was refused. A copy is made by a recursion, and dropped by one, of as many levels as it has.
    pub fn from_value_within<'a, V: Value<'a>>(
        alloc: Global,
        value: &V,
        depth: u32,
    ) -> Result<OwnedValue, CopyError>
        ensures made { IfOk result (λ made. owned_tree made ≡ V.tree value.now) }
        ensures within { OnOk result (NestsWithin depth (V.tree value.now)) }
        ensures deep { IsErrOf result CopyError.TooDeep ↔ (¬ NestsWithin depth (V.tree value.now)) }
    {
        if !nests_within(value, depth) {
            return Err(CopyError::TooDeep);
        }
        let copy = copy_of(alloc, value)?;
        Ok(copy)
    }

    /// A copy of a value without children. (Not in tantivy.) The only error is that memory was refused.
    pub fn from_leaf(alloc: Global, value: ReferenceValueLeaf<'_>) -> Result<OwnedValue, AllocError>
        ensures { IfOk result (λ made. owned_tree made ≡ leaf (leaf_of value.entry)) }
    {
        match value {
            ReferenceValueLeaf::Null => Ok(OwnedValue::Null),
            ReferenceValueLeaf::Str(text) => Ok(OwnedValue::Str(String::from_str(alloc, text)?)),
            ReferenceValueLeaf::U64(number) => Ok(OwnedValue::U64(number)),
            ReferenceValueLeaf::I64(number) => Ok(OwnedValue::I64(number)),
            ReferenceValueLeaf::Date(date) => Ok(OwnedValue::Date(date)),
            ReferenceValueLeaf::Facet(encoded) => {
                Ok(OwnedValue::Facet(owned_facet(alloc, encoded)?))
            }
            ReferenceValueLeaf::Bytes(bytes) => Ok(OwnedValue::Bytes(bytes.to_vec(alloc)?)),
            ReferenceValueLeaf::IpAddr(address) => Ok(OwnedValue::IpAddr(address)),
            ReferenceValueLeaf::Bool(truth) => Ok(OwnedValue::Bool(truth)),
            ReferenceValueLeaf::PreTokStr(text) => {
                Ok(OwnedValue::PreTokStr(text.to_owned_string(alloc)?))
            }
        }
    }

    /// The value that a JSON value is: each kind as itself, a number as `I64` where it fits, else as `U64`, and an object by byte
    /// order of its keys. Texts are taken over as they are. Errors: `FloatNumber` exactly where a number in it isn't whole or doesn't fit
    /// 64 bits, else `Memory` where memory was refused.
    pub fn from_json(alloc: Global, json: JsonValue) -> Result<OwnedValue, JsonError>
        ensures { AnswersJson (data_of json) result }
    {
        if has_float(&json) {
            return Err(JsonError::FloatNumber);
        }
        let owned = moved(alloc, json)?;
        Ok(owned)
    }

    /// A copy of a value that nests within `MAX_DEPTH` lists. Errors: `TooDeep` exactly where it nests deeper, before anything is made, else
    /// `Memory` where memory was refused.
    pub fn try_clone(&self, alloc: Global) -> Result<OwnedValue, CopyError>
        ensures made { IfOk result (λ copy. owned_tree copy ≡ owned_tree self.now) }
        ensures within { OnOk result (NestsWithin MAX_DEPTH (owned_tree self.now)) }
        ensures deep { IsErrOf result CopyError.TooDeep
            ↔ (¬ NestsWithin MAX_DEPTH (owned_tree self.now)) }
    {
        OwnedValue::from_value(alloc, &self)
    }
}

/// Two values are equal exactly where they are of one kind and hold the same, children in the same order. No memory is taken. They are
/// compared by a recursion of as many levels as both have; a value that this library makes nests within 128 lists, unless a caller asks
/// for more.
impl PartialEq for OwnedValue {
    ghost use Rattle.std.specs.Cmp.{on_per};
    ghost use Rattle.tv_value.specs.Owned.{owned_tree};
    ghost use Rattle.tv_value.specs.Same.{tree_eq};
    ghost use Rattle.tv_value.specs.SameLaws.{tree_eq-Decides};
    ghost use Rattle.tv_value.specs.SameTokensLaws.{deciding_per};

    ghost eq = { λ a b. tree_eq (owned_tree a) (owned_tree b) };

    ghost laws = { on_per owned_tree (deciding_per tree_eq-Decides) };

    fn eq(&self, other: &OwnedValue) -> bool {
        same_values(&self, &other)
    }
}
