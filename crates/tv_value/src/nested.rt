//! Values without a lifetime of their own, for recursions: `lend` makes one of any value, with its children lent the same way.
//! How deep lists nest. A list is an array or an object.

ghost use Rattle.std.specs.Prelude.{◌≡◌, ℕ, List, Option, ◌↔◌, IsTrue};
ghost use Rattle.std.specs.Iterator.{IsFinite, YieldsFirstBy};
ghost use Rattle.tv_value.specs.Lent.{nested_tree, entry_of, nested_entry};
ghost use Rattle.tv_format.specs.Tree.{Tree};
ghost use Rattle.tv_value.specs.Children.{ChildrenNestWithin, children_left};
ghost use Rattle.tv_value.specs.Nesting.{NestsWithin};

use crate::children::Children;
use crate::leaf::ReferenceValueLeaf;
use crate::value::{ReferenceValue, Value};
use std::convert::AsStr;
use std::marker::PhantomData;
use thiserror::Error;

/// What a value is: a leaf, or an iterator over its children. (Not in tantivy.)
#[derive(Drop)]
pub enum NestedValue<'s, N: Nested> {
    /// A value without children.
    Leaf(ReferenceValueLeaf<'s>),
    /// Values, in order.
    Array(N::ArrayIter),
    /// Keys and their values, in order.
    Object(N::ObjectIter),
}

/// A value of any depth, as `Value` without a lifetime. A recursion over values is written over this trait. (Not in tantivy.)
pub trait Nested: Drop {
    /// The keys of objects.
    type Key: AsStr + Drop;

    /// The values of an array.
    type ArrayIter: Iterator<Item = Self>;

    /// The keys and values of an object.
    type ObjectIter: Iterator<Item = (Self::Key, Self)>;

    ghost tree: { Self → Tree };

    ghost array_rest: { Self.ArrayIter → List Tree };

    ghost object_rest: { Self.ObjectIter → List (List ℕ × Tree) };

    /// What the value is.
    fn as_nested(&self) -> NestedValue<'_, Self>
        ensures { nested_tree array_rest object_rest result ≡ tree self.now };

    ghost array_walks: { (s : Self.ArrayIter)
        → Self.ArrayIter.can_next s × IsFinite (Self.ArrayIter.remaining s) };

    ghost object_walks: { (s : Self.ObjectIter)
        → Self.ObjectIter.can_next s × IsFinite (Self.ObjectIter.remaining s) };

    ghost array_steps: { (s t : Self.ArrayIter) (r : Option Self) → Self.ArrayIter.next_gives s r t
        → YieldsFirstBy tree array_rest s r t };

    ghost object_steps: { (s t : Self.ObjectIter) (r : Option (Self.Key × Self))
        → Self.ObjectIter.next_gives s r t
        → YieldsFirstBy (nested_entry Self.Key.text tree) object_rest s r t };
}

/// A value that is lent. (Not in tantivy.)
pub struct Lent<'a, V: Value<'a>> {
    value: V,
    marker: PhantomData<&'a ()>,
}

impl<'a, V: Value<'a>> Lent<'a, V> {
    /// The value, lent.
    pub fn new(value: V) -> Lent<'a, V>
        ensures { result.value ≡ value }
    {
        Lent {
            value,
            marker: PhantomData,
        }
    }
}

impl<'a, V: Value<'a>> Drop for Lent<'a, V> {
    fn drop(self) {
        let Lent {
            value: _,
            marker: _,
        } = self;
    }
}

/// The values of an array that is lent. (Not in tantivy.)
pub struct LentArray<'a, V: Value<'a>> {
    items: V::ArrayIter,
    marker: PhantomData<&'a ()>,
}

impl<'a, V: Value<'a>> Drop for LentArray<'a, V> {
    fn drop(self) {
        let LentArray {
            items: _,
            marker: _,
        } = self;
    }
}

impl<'a, V: Value<'a>> Iterator for LentArray<'a, V> {
    type Item = Lent<'a, V>;

    ghost next_gives = { YieldsFirstBy (λ x. V.tree x.value) (λ s. V.array_rest s.items) };

    ghost remaining = { λ s. V.ArrayIter.remaining s.items };

    fn size_hint(&self) -> (usize, Option<usize>) {
        (0, None)
    }

    #[inline(always)]
    fn next(&mut self) -> Option<Lent<'a, V>> {
        match self.items.next() {
            Some(value) => Some(Lent {
                value,
                marker: PhantomData,
            }),
            None => None,
        }
    }
}

/// The keys and values of an object that is lent. (Not in tantivy.)
pub struct LentObject<'a, V: Value<'a>> {
    members: V::ObjectIter,
    marker: PhantomData<&'a ()>,
}

impl<'a, V: Value<'a>> Drop for LentObject<'a, V> {
    fn drop(self) {
        let LentObject {
            members: _,
            marker: _,
        } = self;
    }
}

impl<'a, V: Value<'a>> Iterator for LentObject<'a, V> {
    type Item = (&'a str, Lent<'a, V>);

    ghost next_gives = { YieldsFirstBy (entry_of (λ x. V.tree x.value))
        (λ s. V.object_rest s.members) };

    ghost remaining = { λ s. V.ObjectIter.remaining s.members };

    fn size_hint(&self) -> (usize, Option<usize>) {
        (0, None)
    }

    #[inline(always)]
    fn next(&mut self) -> Option<(&'a str, Lent<'a, V>)> {
        match self.members.next() {
            Some((key, value)) => Some((
                key,
                Lent {
                    value,
                    marker: PhantomData,
                },
            )),
            None => None,
        }
    }
}

impl<'a, V: Value<'a>> Nested for Lent<'a, V> {
    type Key = &'a str;

    type ArrayIter = LentArray<'a, V>;

    type ObjectIter = LentObject<'a, V>;

    ghost tree = { λ x. V.tree x.value };

    ghost array_rest = { λ s. V.array_rest s.items };

    ghost object_rest = { λ s. V.object_rest s.members };

    ghost array_walks = { λ s. (tt, (V.array_walks s.items).1) };

    ghost object_walks = { λ s. (tt, (V.object_walks s.members).1) };

    ghost array_steps = { λ s t r steps. steps };

    ghost object_steps = { λ s t r steps. steps };

    #[inline(always)]
    fn as_nested(&self) -> NestedValue<'_, Lent<'a, V>> {
        lend(&self.value)
    }
}

/// What a value is, with its children lent the same way. (Not in tantivy.)
///
/// ```
/// pub fn leaves<'a, V: Value<'a>>(value: &V) -> u64 {
///     leaves_of(lend(value))
/// }
///
/// #[cycle(leaves)]
/// fn leaves_of<N: Nested>(value: NestedValue<'_, N>) -> u64 {
///     match value {
///         NestedValue::Leaf(_) => 1,
///         NestedValue::Array(items) => leaves_of_items::<N>(items),
///         NestedValue::Object(members) => leaves_of_members::<N>(members),
///     }
/// }
///
/// #[cycle(leaves)]
/// fn leaves_of_items<N: Nested>(items: N::ArrayIter) -> u64 {
///     let mut count: u64 = 0;
///     for item in items {
///         count = count.saturating_add(leaves_of(item.as_nested()));
///     }
///     count
/// }
///
/// #[cycle(leaves)]
/// fn leaves_of_members<N: Nested>(members: N::ObjectIter) -> u64 {
///     let mut count: u64 = 0;
///     for (_, item) in members {
///         count = count.saturating_add(leaves_of(item.as_nested()));
///     }
///     count
/// }
/// ```
#[inline(always)]
pub fn lend<'a, V: Value<'a>>(value: &V) -> NestedValue<'a, Lent<'a, V>>
    ensures { nested_tree (λ s. V.array_rest s.items) (λ s. V.object_rest s.members) result
        ≡ V.tree value.now }
{
    match value.as_value() {
        ReferenceValue::Leaf(leaf) => NestedValue::Leaf(leaf),
        ReferenceValue::Array(items) => NestedValue::Array(LentArray {
            items,
            marker: PhantomData,
        }),
        ReferenceValue::Object(members) => NestedValue::Object(LentObject {
            members,
            marker: PhantomData,
        }),
    }
}

/// How many lists may be open at once in a value that is copied, compared as one of any kind, read into one that owns what it holds, or
/// written as one of any kind, where no other limit is asked for. (Not in tantivy.)
pub const MAX_DEPTH: u32 = 128;

/// A value has a list with which more than `MAX_DEPTH` lists are open. (Not in tantivy.)
#[derive(Clone, Copy, Debug, PartialEq, Eq, Error)]
#[error("a value nests too deep")]
pub struct TooDeep;

// Whether a value that is lent nests within this many lists.
#[cycle(nests)]
fn nested_within<N: Nested>(value: NestedValue<'_, N>, depth: u32) -> bool
    ensures { IsTrue result
        ↔ NestsWithin depth (nested_tree N.array_rest N.object_rest value.entry) }
{
    match value.into_children() {
        Ok(children) => depth > 0 && children_within(children, depth - 1),
        Err(_) => true,
    }
}

// Whether each child that is left of a list does.
#[cycle(nests)]
fn children_within<N: Nested>(children: Children<N>, depth: u32) -> bool
    ensures { IsTrue result
        ↔ ChildrenNestWithin depth (children_left N.array_rest N.object_rest children) }
{
    for (_, item) in children {
        if !nested_within(item.as_nested(), depth) {
            return false;
        }
    }
    true
}

/// Whether no more than `depth` lists are open at once in the value: a leaf nests within any number, and a list within one more than each
/// of its children. It goes by a recursion of at most `depth` levels, and takes no memory. (Not in tantivy.)
pub fn nests_within<'a, V: Value<'a>>(value: &V, depth: u32) -> bool
    ensures { IsTrue result ↔ NestsWithin depth (V.tree value.now) }
{
    nested_within(lend(value), depth)
}
