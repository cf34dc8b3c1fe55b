//! Whether two values are one, in place and without memory.

ghost use Rattle.std.specs.Prelude.{◌≡◌, ◌↔◌, IfOk, IsErr, OnOk, option_map};
ghost use Rattle.tv_value.specs.Children.{children_left};
ghost use Rattle.tv_value.specs.LeafParts.{content_of};
ghost use Rattle.tv_value.specs.Lent.{leaf_of, nested_tree};
ghost use Rattle.tv_value.specs.Nesting.{NestsWithin};
ghost use Rattle.tv_value.specs.Same.{content_eq, leaf_eq, tree_eq};
ghost use Rattle.tv_value.specs.SameChildren.{key_eq, children_eq};

use crate::children::Children;
use crate::leaf::{LeafContent, ReferenceValueLeaf};
use crate::nested::{MAX_DEPTH, Nested, NestedValue, TooDeep, lend, nests_within};
use crate::value::Value;
use std::convert::AsStr;

// Whether the same is held.
fn same_content(one: LeafContent<'_>, other: LeafContent<'_>) -> bool
    ensures { result ≡ content_eq (content_of one.entry) (content_of other.entry) }
{
    match (one, other) {
        (LeafContent::Nothing, LeafContent::Nothing) => true,
        (LeafContent::Truth(a), LeafContent::Truth(b)) => a == b,
        (LeafContent::Unsigned(m), LeafContent::Unsigned(n)) => m == n,
        (LeafContent::Signed(m), LeafContent::Signed(n)) => m == n,
        (LeafContent::Wide(m), LeafContent::Wide(n)) => m == n,
        (LeafContent::Text(s), LeafContent::Text(t)) => s == t,
        (LeafContent::Bytes(s), LeafContent::Bytes(t)) => s == t,
        (LeafContent::Tokens(s), LeafContent::Tokens(t)) => s == t,
        _ => false,
    }
}

/// Whether two leaves are one: of one type, with the same content. It takes no memory. (Not in tantivy.)
pub fn same_leaf(one: ReferenceValueLeaf<'_>, other: ReferenceValueLeaf<'_>) -> bool
    ensures { result ≡ leaf_eq (leaf_of one.entry) (leaf_of other.entry) }
{
    one.leaf_type().store_code() == other.leaf_type().store_code()
        && same_content(one.content(), other.content())
}

// Whether two children have one key, or both none.
fn same_keys<K: AsStr, L: AsStr>(one: &Option<K>, other: &Option<L>) -> bool
    ensures { result ≡ key_eq (option_map K.text one.now) (option_map L.text other.now) }
{
    match (one, other) {
        (None, None) => true,
        (Some(key), Some(other)) => key.as_str() == other.as_str(),
        _ => false,
    }
}

// Whether two values that are lent are one.
#[cycle(same)]
#[tactic(auto, using(crate::proofs::ListChildren::items_size, crate::proofs::ListChildren::members_size, crate::proofs::SameChildren::items_eq, crate::proofs::SameChildren::members_eq))]
fn same_nested<M: Nested, N: Nested>(one: NestedValue<'_, M>, other: NestedValue<'_, N>) -> bool
    ensures { result
        ≡ tree_eq (nested_tree M.array_rest M.object_rest one.entry)
        (nested_tree N.array_rest N.object_rest other.entry) }
{
    match (one, other) {
        (NestedValue::Leaf(s), NestedValue::Leaf(t)) => same_leaf(s, t),
        (NestedValue::Array(items), NestedValue::Array(others)) => {
            same_children(Children::<M>::Array(items), Children::<N>::Array(others))
        }
        (NestedValue::Object(members), NestedValue::Object(others)) => {
            same_children(
                Children::<M>::Object(members),
                Children::<N>::Object(others),
            )
        }
        _ => false,
    }
}

// Whether two lists of children are one.
#[cycle(same)]
fn same_children<M: Nested, N: Nested>(children: Children<M>, others: Children<N>) -> bool
    ensures { result
        ≡ children_eq (children_left M.array_rest M.object_rest children)
        (children_left N.array_rest N.object_rest others) }
{
    let mut others = others;
    for (key, child) in children {
        let Some((other_key, other)) = others.next() else {
            return false;
        };
        if !same_keys(&key, &other_key) || !same_nested(child.as_nested(), other.as_nested()) {
            return false;
        }
    }
    others.next().is_none()
}

// Whether two values are one, by a recursion of as many levels as both have.
pub(crate) fn same_values<'a, V: Value<'a>, W: Value<'a>>(one: &V, other: &W) -> bool
    ensures { result ≡ tree_eq (V.tree one.now) (W.tree other.now) }
{
    same_nested(lend(one), lend(other))
}

/// Whether two values are one: of one kind, with the same content, children in the same order and keys among them. It takes no
/// memory. (Not in tantivy.) The only error is that one of them nests deeper than `MAX_DEPTH` lists; then nothing is compared.
pub fn is_same<'a, V: Value<'a>, W: Value<'a>>(one: &V, other: &W) -> Result<bool, TooDeep>
    ensures equal { IfOk result (λ same. same ≡ tree_eq (V.tree one.now) (W.tree other.now)) }
    ensures within { OnOk result
        (NestsWithin MAX_DEPTH (V.tree one.now) × NestsWithin MAX_DEPTH (W.tree other.now)) }
    ensures deep { IsErr result
        ↔ (¬ (NestsWithin MAX_DEPTH (V.tree one.now) × NestsWithin MAX_DEPTH (W.tree other.now))) }
{
    if !nests_within(one, MAX_DEPTH) || !nests_within(other, MAX_DEPTH) {
        return Err(TooDeep);
    }
    Ok(same_values(one, other))
}
