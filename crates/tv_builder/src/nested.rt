//! Lists written after a heap however deep they nest, by a loop: the lists that are open stand on a stack.

ghost use Rattle.std.specs.Prelude.{◌≡◌, ◌≤◌, [], ◌∷◌, ◌++◌, length, IfErr, IfOk, OnOk, option_map};
ghost use Rattle.tv_base.specs.Buffer.{GrowsWithin};
ghost use Rattle.tv_builder.specs.Nested.{IsOfKind, KeyNotPut, KeyPut};
ghost use Rattle.tv_builder.specs.Whole.{Puts};
ghost use Rattle.tv_format.specs.Tree.{leaf};
ghost use Rattle.tv_value.specs.Children.{IsListOf, children_left};
ghost use Rattle.tv_value.specs.Lent.{leaf_of, nested_tree};

use crate::errors::AddError;
use crate::kinds::ListKind;
use crate::whole::{put_leaf, put_list, put_single};
use std::alloc::{AllocError, Global};
use std::convert::AsStr;
use tv_base::byte_buffer::ByteBuffer;
use tv_heap::value_type::Place;
use tv_heap::write::push_place;
use tv_value::children::Children;
use tv_value::leaf::ReferenceValueLeaf;
use tv_value::nested::{Nested, NestedValue};

// An open list.
#[derive(Drop)]
struct UnfinishedList<N: Nested> {
    kind: ListKind,
    // Those that are left.
    children: Children<N>,
    // Where the places of its children begin.
    first: usize,
}

// Opens a list, the places of whose children begin at `first`. A leaf is returned as the error.
#[tactic(auto, using(tv_value::proofs::ListChildren::list_of_items, tv_value::proofs::ListChildren::list_of_members))]
fn open_list<'s, N: Nested>(
    value: NestedValue<'s, N>,
    first: usize,
) -> Result<UnfinishedList<N>, ReferenceValueLeaf<'s>>
    ensures first { IfOk result (λ list. list.first ≡ first) }
    ensures kind { IfOk result
        (λ list. IsOfKind list.kind (nested_tree N.array_rest N.object_rest value.entry)) }
    ensures children { IfOk result
        (λ list. IsListOf (children_left N.array_rest N.object_rest list.children)
        (nested_tree N.array_rest N.object_rest value.entry)) }
    ensures leaf { IfErr result
        (λ single. nested_tree N.array_rest N.object_rest value.entry ≡ leaf (leaf_of single)) }
{
    match value {
        NestedValue::Leaf(single) => Err(single),
        NestedValue::Array(items) => Ok(UnfinishedList {
            kind: ListKind::Array,
            children: Children::Array(items),
            first,
        }),
        NestedValue::Object(members) => Ok(UnfinishedList {
            kind: ListKind::Object,
            children: Children::Object(members),
            first,
        }),
    }
}

// Puts an open list onto a stack.
fn push_list<N: Nested>(
    lists: &mut Vec<UnfinishedList<N>>,
    list: UnfinishedList<N>,
) -> Result<(), AllocError>
    ensures { OnOk result (lists.new.items ≡ lists.old.items ++ list ∷ []) }
{
    lists.push(list)?;
    Ok(())
}

// Writes the key of a child, if it has one, where the heap is then at most `most` bytes long, and its place after others.
#[tactic(auto, using(tv_base::proofs::Growing::grows_then, tv_base::proofs::Growing::grows_more))]
fn put_key<K: AsStr + Drop>(
    heap: &mut ByteBuffer,
    places: &mut ByteBuffer,
    key: Option<K>,
    most: u64,
) -> Result<(), AddError>
    requires fits { length heap.old.items ≤ most }
    requires most { most ≤ 4294967295 }
    ensures ok { OnOk result (KeyPut most heap.old.items places.old.items (option_map K.text key)
        heap.new.items places.new.items) }
    ensures err { IfErr result
        (λ e. KeyNotPut most heap.old.items (option_map K.text key) heap.new.items e) }
    ensures grows { GrowsWithin most heap.old heap.new }
{
    match key {
        None => Ok(()),
        Some(key) => put_single(heap, places, &ReferenceValueLeaf::Str(key.as_str()), most),
    }
}

// Writes a value after its children, however deep they nest, where the heap is then at most `most` bytes long, and returns its place. `places` is
// afterwards as it was. After an error the old heap is still a prefix of the new, and what `places` holds is unspecified.
#[inline(never)]
#[tactic(auto, using(tv_base::proofs::Growing::grows_then, tv_base::proofs::Growing::grows_more))]
pub(crate) fn put_nested<N: Nested>(
    alloc: Global,
    heap: &mut ByteBuffer,
    places: &mut ByteBuffer,
    value: NestedValue<'_, N>,
    most: u64,
) -> Result<Place, AddError>
    requires fits { length heap.old.items ≤ most }
    requires most { most ≤ 4294967295 }
    ensures puts { let t = nested_tree N.array_rest N.object_rest value.entry in
        Puts most heap.old.items places.old.items t heap.new.items places.new.items result }
    ensures grows { GrowsWithin most heap.old heap.new }
{
    let mut around = Vec::new(alloc);
    let mut list = match open_list(value, places.len()) {
        Ok(list) => list,
        Err(single) => return put_leaf(heap, &single, most),
    };
    'lists: loop {
        if let Some((key, child)) = list.children.next() {
            put_key(heap, places, key, most)?;
            match open_list(child.as_nested(), places.len()) {
                Ok(inner) => {
                    push_list(&mut around, list)?;
                    list = inner;
                    continue 'lists;
                }
                Err(single) => {
                    put_single(heap, places, &single, most)?;
                    continue 'lists;
                }
            }
        }
        let place = put_list(heap, places, list.kind, list.first, most)?;
        let Some(outer) = around.pop() else {
            return Ok(place);
        };
        push_place(places, place)?;
        list = outer;
    }
}
