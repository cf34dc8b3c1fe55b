//! How many bytes of heap a value may take.

ghost use Rattle.std.specs.Prelude.{◌+◌, ◌<◌, ◌^◌, SomeIff, option_map};
ghost use Rattle.std.specs.List.{sum_by};
ghost use Rattle.tv_heap.specs.ChildrenRoom.{children_room, key_room};
ghost use Rattle.tv_heap.specs.Room.{leaf_room, room, token_room};
ghost use Rattle.tv_value.specs.Children.{children_left};
ghost use Rattle.tv_value.specs.Lent.{leaf_of, nested_tree};
ghost use Rattle.tv_value.specs.PreTokenized.{tokens_left};

use std::alloc::Global;
use std::convert::AsStr;
use tv_value::children::Children;
use tv_value::leaf::{LeafContent, ReferenceValueLeaf};
use tv_value::nested::{MAX_DEPTH, Nested, NestedValue, lend};
use tv_value::pre_tokenized::TokenIter;
use tv_value::value::Value;

/// The most bytes that a heap has, so that 32 bits hold each address.
pub const MAX_HEAP_LEN: u64 = 4294967295;

// The room of a text or of bytes of this length.
#[inline(always)]
fn sized_room(len: usize) -> Option<u32>
    ensures { SomeIff result (5 + len < 2 ^ 32) (5 + len) }
{
    u32::try_from(len).ok()?.checked_add(5)
}

// The room of tokens above what there is, where the sum fits.
#[inline(never)]
fn tokens_above(tokens: TokenIter<'_>, base: u32) -> Option<u32>
    ensures { let total = base
        + sum_by token_room (tokens_left tokens.entry) in SomeIff result (total < 2 ^ 32) total }
{
    let mut total = base;
    for token in tokens {
        total = total.checked_add(u32::try_from(token.text.len()).ok()?)?;
        total = total.checked_add(50)?;
    }
    Some(total)
}

/// The room of a value without children, where it is at most 4294967295.
#[inline(always)]
pub fn leaf_room(value: &ReferenceValueLeaf<'_>) -> Option<u32>
    ensures { SomeIff result (leaf_room (leaf_of value.now) < 2 ^ 32)
        (leaf_room (leaf_of value.now)) }
{
    match value.content() {
        LeafContent::Nothing | LeafContent::Truth(_) => Some(0),
        LeafContent::Unsigned(_) | LeafContent::Signed(_) => Some(8),
        LeafContent::Wide(_) => Some(16),
        LeafContent::Text(text) => sized_room(text.len()),
        LeafContent::Bytes(bytes) => sized_room(bytes.len()),
        LeafContent::Tokens(text) => {
            let base = sized_room(text.text().len())?.checked_add(10)?;
            tokens_above(text.tokens(), base)
        }
    }
}

// The room of a child above what there is, where the sum fits, but for its value: 6 bytes in its parent's list, and for a key 11 beside its own.
#[inline(always)]
fn child_above<K: AsStr + Drop>(key: Option<K>, base: u32) -> Option<u32>
    ensures { let total = base
        + (6 + key_room (option_map K.text key)) in SomeIff result (total < 2 ^ 32) total }
{
    let Some(key) = key else {
        return base.checked_add(6);
    };
    base.checked_add(u32::try_from(key.as_str().len()).ok()?)?
        .checked_add(17)
}

// The room of the children that are left of a list above what there is, where the sum fits. The open lists stand on a stack in memory.
// A list is counted by recursion if memory is refused for the one around it.
#[inline(never)]
#[cycle(values)]
#[tactic(auto, using(tv_value::proofs::ListChildren::list_size, crate::proofs::ListRooms::list_room))]
fn nested_above<N: Nested>(alloc: Global, outermost: Children<N>, base: u32) -> Option<u32>
    ensures { let total = base
        + children_room (children_left N.array_rest N.object_rest outermost) in SomeIff result
        (total < 2 ^ 32) total }
{
    let mut around = Vec::new(alloc);
    let mut list = outermost;
    let mut total = base;
    'lists: loop {
        let Some((key, item)) = list.next() else {
            let Some(outer) = around.pop() else {
                return Some(total);
            };
            list = outer;
            continue 'lists;
        };
        total = child_above(key, total)?;
        let inner = match item.as_nested().into_children() {
            Ok(inner) => inner,
            Err(single) => {
                total = total.checked_add(leaf_room(&single)?)?;
                continue 'lists;
            }
        };
        total = total.checked_add(5)?;
        if let Err(refused) = around.push(list) {
            list = refused.value;
            total = children_above(alloc, inner, total, u32::MAX)?;
            continue 'lists;
        }
        list = inner;
    }
}

// The room of a value above what there is, where the sum fits. `levels` is how deep its lists may nest for no stack in memory to be
// taken.
#[inline(always)]
#[cycle(values)]
#[tactic(auto, using(tv_value::proofs::ListChildren::list_size, crate::proofs::ListRooms::list_room))]
fn value_above<N: Nested>(
    alloc: Global,
    value: NestedValue<'_, N>,
    base: u32,
    levels: u32,
) -> Option<u32>
    ensures { let total = base
        + room (nested_tree N.array_rest N.object_rest value.entry) in SomeIff result
        (total < 2 ^ 32) total }
{
    match value.into_children() {
        Ok(children) => children_above(alloc, children, base.checked_add(5)?, levels),
        Err(single) => base.checked_add(leaf_room(&single)?),
    }
}

// The room of the children that are left of a list above what there is, where the sum fits.
#[inline(never)]
#[cycle(values)]
fn children_above<N: Nested>(
    alloc: Global,
    children: Children<N>,
    base: u32,
    levels: u32,
) -> Option<u32>
    ensures { let total = base
        + children_room (children_left N.array_rest N.object_rest children) in SomeIff result
        (total < 2 ^ 32) total }
{
    if levels == 0 {
        return nested_above(alloc, children, base);
    }
    let mut total = base;
    for (key, item) in children {
        total = child_above(key, total)?;
        total = value_above(alloc, item.as_nested(), total, levels - 1)?;
    }
    Some(total)
}

/// The room of a value, where it is at most 4294967295.
///
/// Lists within `MAX_DEPTH` others take a stack in memory, so that no value exhausts the machine's stack. Where memory is refused for it, they are
/// counted by a recursion, as deep as they nest: the answer is the same.
pub fn room<'a, V: Value<'a>>(alloc: Global, value: &V) -> Option<u32>
    ensures { SomeIff result (room (V.tree value.now) < 2 ^ 32) (room (V.tree value.now)) }
{
    value_above(alloc, lend(value), 0, MAX_DEPTH)
}
