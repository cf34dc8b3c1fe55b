//! Values that are borrowed from a document.

ghost use Rattle.std.specs.Prelude.{◌≡◌, ◌↔◌};
ghost use Rattle.std.specs.Iterator.{YieldsFirstBy, item_count};
ghost use Rattle.tv_heap.specs.Held.{Held, Held-prop, HeldElements, HeldElements-prop, HeldEntries, HeldEntries-prop};
ghost use Rattle.tv_heap.specs.TypeCode.{type_code};

use crate::lent::{child_at, children, encoded_at, leaf_at, sized_at, text_at};
use crate::same::same_value;
use crate::value_type::ValueType;
use tv_value::nested::{Nested, NestedValue};
use tv_value::value::{ReferenceValue, Value};

/// What the store has for a value: a code, and what stands in the heap is what the store has after it. (Not in tantivy.)
#[derive(Clone, Copy)]
pub enum Encoded<'a> {
    /// No value.
    Null,
    /// A truth value.
    Bool(bool),
    /// A code, and a number in eight bytes after it.
    Number(u8, u64),
    /// A code, and the bytes after it.
    Bytes(u8, &'a [u8]),
    /// A text and its tokens: the bytes after their two codes.
    Tokenized(&'a [u8]),
    /// The number of the values of an array, and each of them.
    Array(u64, CompactDocArrayIter<'a>),
    /// The number of the entries of an object, below 2^63, and each key and value.
    Object(u64, CompactDocObjectIter<'a>),
}

/// A value of a document, which stands in the heap that it is lent from.
#[derive(Clone, Copy, Debug)]
pub struct CompactDocValue<'a> {
    heap: &'a [u8],
    value_type: ValueType,
    address: u32,
    pub ghost held: { Held heap.now (type_code value_type) address } by { Held-prop heap.now (type_code value_type) address },
}

/// The values of an array that are left, in order.
#[derive(Clone, Copy)]
pub struct CompactDocArrayIter<'a> {
    heap: &'a [u8],
    list: &'a [u8],
    pub ghost held: { HeldElements heap.now list.now } by { HeldElements-prop heap.now list.now },
}

/// The keys and values of an object that are left, in order.
#[derive(Clone, Copy)]
pub struct CompactDocObjectIter<'a> {
    heap: &'a [u8],
    list: &'a [u8],
    pub ghost held: { HeldEntries heap.now list.now } by { HeldEntries-prop heap.now list.now },
}

impl<'a> CompactDocValue<'a> {
    ghost use Rattle.tv_format.specs.Short.{short};
    ghost use Rattle.tv_format.specs.Version.{Version};
    ghost use Rattle.tv_heap.specs.Encoded.{encoded_bytes, HasFewEntries, IsTokenized, SaysTokenized};
    ghost use Rattle.tv_heap.specs.Value.{tree_of};

    /// The value of this type that stands at this address of the heap. (Not in tantivy.)
    pub fn new(heap: &'a [u8], value_type: ValueType, address: u32) -> CompactDocValue<'a>
        requires held { Held heap.now (type_code value_type) address }
        ensures tree { (held : Held heap.now (type_code value_type) address)
            → tree_of result ≡ held.0 }
    {
        CompactDocValue {
            heap,
            value_type,
            address,
        }
    }

    // Where in the heap it stands; of what has no bytes there it is some small number.
    pub(crate) fn address(&self) -> u32 {
        self.address
    }

    /// What each version of the store has for the value: its shortest encoding, out of the heap and without memory. (Not in tantivy.)
    #[inline(always)]
    pub fn encoded(&self) -> Encoded<'a>
        ensures bytes { (v : Version) → encoded_bytes v result ≡ short v (tree_of self.now) }
        ensures tokens { SaysTokenized result ↔ IsTokenized (tree_of self.now) }
        ensures entries { HasFewEntries result }
    {
        let heap = self.heap;
        let address = self.address;
        match self.value_type {
            ValueType::Array => {
                let list = sized_at(heap, address);
                Encoded::Array(children(list), CompactDocArrayIter { heap, list })
            }
            ValueType::Object => {
                let list = sized_at(heap, address);
                Encoded::Object(children(list) / 2, CompactDocObjectIter { heap, list })
            }
            single => match single.leaf_type() {
                Some(leaf_type) => encoded_at(heap, leaf_type, address),
                None => unreachable!(),
            },
        }
    }
}

impl<'a> Iterator for CompactDocArrayIter<'a> {
    type Item = CompactDocValue<'a>;

    ghost next_gives = { YieldsFirstBy (λ v. v.held.0) (λ s. s.held.0) };

    ghost remaining = { item_count (λ s. s.held.0) };

    #[inline]
    fn next(&mut self) -> Option<CompactDocValue<'a>> {
        let heap = self.heap;
        let (value_type, address, list) = child_at(self.list)?;
        *self = CompactDocArrayIter { heap, list };
        Some(CompactDocValue {
            heap,
            value_type,
            address,
        })
    }
}

impl<'a> Iterator for CompactDocObjectIter<'a> {
    ghost use Rattle.tv_value.specs.Lent.{entry_of};

    type Item = (&'a str, CompactDocValue<'a>);

    ghost next_gives = { YieldsFirstBy (entry_of (λ v. v.held.0)) (λ s. s.held.0) };

    ghost remaining = { item_count (λ s. s.held.0) };

    #[inline(always)]
    fn next(&mut self) -> Option<(&'a str, CompactDocValue<'a>)> {
        let heap = self.heap;
        let (_, key, behind) = child_at(self.list)?;
        let (value_type, address, list) = child_at(behind)?;
        *self = CompactDocObjectIter { heap, list };
        Some((
            text_at(heap, key),
            CompactDocValue {
                heap,
                value_type,
                address,
            },
        ))
    }
}

/// A value of a document is lent in place, without memory.
impl<'a> Value<'a> for CompactDocValue<'a> {
    type ArrayIter = CompactDocArrayIter<'a>;

    type ObjectIter = CompactDocObjectIter<'a>;

    ghost tree = { λ v. v.held.0 };

    ghost array_rest = { λ s. s.held.0 };

    ghost object_rest = { λ s. s.held.0 };

    ghost array_walks = { λ s. (tt, tt) };

    ghost object_walks = { λ s. (tt, tt) };

    ghost array_steps = { λ s t r steps. steps };

    ghost object_steps = { λ s t r steps. steps };

    #[inline(always)]
    fn as_value(&self) -> ReferenceValue<'a, CompactDocValue<'a>> {
        let heap = self.heap;
        let address = self.address;
        match self.value_type {
            ValueType::Array => {
                let list = sized_at(heap, address);
                ReferenceValue::Array(CompactDocArrayIter { heap, list })
            }
            ValueType::Object => {
                let list = sized_at(heap, address);
                ReferenceValue::Object(CompactDocObjectIter { heap, list })
            }
            single => match single.leaf_type() {
                Some(leaf_type) => ReferenceValue::Leaf(leaf_at(heap, leaf_type, address)),
                None => unreachable!(),
            },
        }
    }
}

/// For walks over values of any kind. Its children are borrowed from the document too, so they may outlive it.
impl<'a> Nested for CompactDocValue<'a> {
    type Key = &'a str;

    type ArrayIter = CompactDocArrayIter<'a>;

    type ObjectIter = CompactDocObjectIter<'a>;

    ghost tree = { λ v. v.held.0 };

    ghost array_rest = { λ s. s.held.0 };

    ghost object_rest = { λ s. s.held.0 };

    ghost array_walks = { λ s. (tt, tt) };

    ghost object_walks = { λ s. (tt, tt) };

    ghost array_steps = { λ s t r steps. steps };

    ghost object_steps = { λ s t r steps. steps };

    #[inline(always)]
    fn as_nested(&self) -> NestedValue<'_, CompactDocValue<'a>> {
        match self.as_value() {
            ReferenceValue::Leaf(leaf) => NestedValue::Leaf(leaf),
            ReferenceValue::Array(items) => NestedValue::Array(items),
            ReferenceValue::Object(members) => NestedValue::Object(members),
        }
    }
}

/// Two values are equal exactly where they are of one kind and hold the same, children in the same order. No memory is taken.
impl PartialEq for CompactDocValue<'_> {
    ghost use Rattle.std.specs.Cmp.{on_per};
    ghost use Rattle.tv_heap.specs.Value.{tree_of};
    ghost use Rattle.tv_value.specs.Same.{tree_eq};
    ghost use Rattle.tv_value.specs.SameLaws.{tree_eq-Decides};
    ghost use Rattle.tv_value.specs.SameTokensLaws.{deciding_per};

    ghost eq = { λ a b. tree_eq (tree_of a) (tree_of b) };

    ghost laws = { on_per tree_of (deciding_per tree_eq-Decides) };

    fn eq(&self, other: &Self) -> bool {
        same_value(*self, *other)
    }
}
