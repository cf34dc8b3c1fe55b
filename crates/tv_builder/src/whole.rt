//! Writing values after a heap, as far as they fit.

ghost use Rattle.std.specs.Prelude.{◌≡◌, ◌+◌, ◌≤◌, ◌++◌, length, take, drop, OnOk, IfOk, IfErr, IfSome, ◌-◌, ◌/◌, ◌↔◌, max, min, IsTrue};
ghost use Rattle.tv_base.specs.Buffer.{GrowsWithin, capacity};
ghost use Rattle.tv_base.specs.Sink.{IsPrefix};
ghost use Rattle.tv_base.specs.Number.{vnum};
ghost use Rattle.tv_heap.specs.LeafBytes.{leaf_bytes};
ghost use Rattle.tv_heap.specs.Room.{room};
ghost use Rattle.tv_value.specs.Lent.{leaf_of, nested_tree};
ghost use Rattle.tv_format.specs.Tree.{leaf as leaf_tree, array, object, elements, entries};
ghost use Rattle.tv_builder.specs.Nested.{ChildPut};
ghost use Rattle.tv_builder.specs.Whole.{Put, PutNot, Puts, PutWithin, PutNotWithin, ListPut, ListPutNot, PutWith};
ghost use Rattle.tv_builder.specs.Moves.{FitsRoom};
ghost use Rattle.tv_value.specs.LeafParts.{content_of};

use crate::errors::AddError;
use crate::kinds::ListKind;
use crate::nested::put_nested;
use std::alloc::Global;
use std::convert::AsStr;
use tv_base::byte_buffer::ByteBuffer;
use tv_format::LeafType;
use tv_heap::len::{content_len, leaf_len, number_len};
use tv_heap::room::{MAX_HEAP_LEN, room};
use tv_heap::value_type::Place;
use tv_heap::write::{push_place, write_content, write_leaf, write_list};
use tv_value::leaf::{LeafContent, ReferenceValueLeaf};
use tv_value::nested::{MAX_DEPTH, Nested, NestedValue, lend};
use tv_value::value::Value;

// At most this many bytes are written of a value before its room is counted.
const MAX_UNCOUNTED: u64 = 1048576;

// While a heap is at most this long, the memory that it grows to is at most 1 MiB.
const MAX_GROWN: usize = 524288;

// Whether a heap of this length is at most `most` bytes long after this many bytes more and their length.
#[inline(always)]
pub(crate) fn has_room(len: usize, content: u64, most: u64) -> bool
    requires len { len ≤ most }
    requires most { most ≤ 4294967295 }
    ensures { IsTrue result ↔ (len + (length (vnum content) + content) ≤ most) }
{
    content <= most && len as u64 + (u64::from(number_len(content)) + content) <= most
}

// Whether a heap of this length is at most `most` bytes long after a value of this room.
#[inline(always)]
pub(crate) fn has_value_room(len: usize, room: Option<u32>, most: u64) -> bool
    requires { len ≤ most }
    ensures { FitsRoom most room len result }
{
    match room {
        Some(room) => u64::from(room) <= most - len as u64,
        None => false,
    }
}

// How long a heap of `len` bytes, with memory for `capacity`, may become by a value whose room isn't counted. What is written is at most a tenth of
// what is free, so the value's room, which is at most ten times as much, is free; and the memory that is taken for it is at most 1 MiB more.
#[inline(always)]
pub(crate) fn uncounted_most(len: usize, capacity: usize) -> u64
    requires { len ≤ 4294967295 }
    ensures { result
        ≡ min (len + min ((4294967295 - len) / 10) 1048576) (max capacity 524288) }
{
    let more = ((MAX_HEAP_LEN - len as u64) / 10).min(MAX_UNCOUNTED);
    (len as u64 + more).min(capacity.max(MAX_GROWN) as u64)
}

// Whether the room of a value is free after a heap of this length. The value is walked.
#[inline(never)]
pub(crate) fn has_tree_room<'a, V: Value<'a>>(alloc: Global, len: usize, value: &V) -> bool
    requires { len ≤ 4294967295 }
    ensures { IsTrue result ↔ (len + room (V.tree value.now) ≤ 4294967295) }
{
    has_value_room(len, room(alloc, value), MAX_HEAP_LEN)
}

// Writes a value without children, where the heap is then at most `most` bytes long, and returns its place. After an error the old heap is still
// a prefix of the new.
#[inline(always)]
#[tactic(auto, using(tv_base::proofs::Growing::grows_then, tv_base::proofs::Growing::grows_more))]
pub(crate) fn put_leaf(
    heap: &mut ByteBuffer,
    value: &ReferenceValueLeaf<'_>,
    most: u64,
) -> Result<Place, AddError>
    requires fits { length heap.old.items ≤ most }
    requires most { most ≤ 4294967295 }
    ensures ok { IfOk result
        (λ place. Put most heap.old.items (leaf_tree (leaf_of value.now)) heap.new.items place) }
    ensures err { IfErr result
        (λ e. PutNot most heap.old.items (leaf_tree (leaf_of value.now)) heap.new.items e) }
    ensures memory { IfErr result
        (λ e. e ≡ AddError.Memory
        → length (heap.old.items ++ leaf_bytes (leaf_of value.now)) ≤ most) }
    ensures grows { GrowsWithin most heap.old heap.new }
{
    if !has_value_room(heap.len(), leaf_len(value), most) {
        return Err(AddError::HeapFull);
    }
    let place = write_leaf(heap, value)?;
    Ok(place)
}

// Writes a value without children, where the heap is then at most `most` bytes long, and its place after others. After an error the old heap is
// still a prefix of the new.
#[inline(always)]
#[tactic(auto, using(tv_base::proofs::Growing::grows_then, tv_base::proofs::Growing::grows_more))]
pub(crate) fn put_single(
    heap: &mut ByteBuffer,
    places: &mut ByteBuffer,
    value: &ReferenceValueLeaf<'_>,
    most: u64,
) -> Result<(), AddError>
    requires fits { length heap.old.items ≤ most }
    requires most { most ≤ 4294967295 }
    ensures ok { OnOk result (ChildPut most heap.old.items places.old.items
        (leaf_tree (leaf_of value.now)) heap.new.items places.new.items) }
    ensures err { IfErr result
        (λ e. PutNot most heap.old.items (leaf_tree (leaf_of value.now)) heap.new.items e) }
    ensures grows { GrowsWithin most heap.old heap.new }
{
    let place = put_leaf(heap, value, most)?;
    push_place(places, place)?;
    Ok(())
}

// Writes the value of this type that holds this, and returns its place, where the reason of a refusal isn't asked for. After `None` the old heap
// is still a prefix of the new.
#[inline(always)]
pub(crate) fn put_content(
    heap: &mut ByteBuffer,
    leaf_type: LeafType,
    content: LeafContent<'_>,
) -> Option<Place>
    requires { length heap.old.items ≤ 4294967295 }
    ensures found { IfSome result
        (PutWith heap.old.items leaf_type (content_of content.entry) heap.new.items) }
    ensures prefix { IsPrefix heap.old.items heap.new.items }
{
    if !has_value_room(heap.len(), content_len(content), MAX_HEAP_LEN) {
        return None;
    }
    match write_content(heap, leaf_type, content) {
        Ok(place) => Some(place),
        Err(_) => None,
    }
}

// Writes a list after its children, where the heap is then at most `most` bytes long. The children's places are those from `first` on, and are
// taken off. Returns the list's place. After an error the old heap is still a prefix of the new, and what `places` holds is unspecified.
#[inline(always)]
#[tactic(auto, using(tv_base::proofs::Growing::grows_then, tv_base::proofs::Growing::grows_more))]
pub(crate) fn put_list(
    heap: &mut ByteBuffer,
    places: &mut ByteBuffer,
    kind: ListKind,
    first: usize,
    most: u64,
) -> Result<Place, AddError>
    requires fits { length heap.old.items ≤ most }
    requires most { most ≤ 4294967295 }
    requires first { first ≤ length places.old.items }
    ensures ok { IfOk result
        (λ place. ListPut most heap.old.items kind (drop first places.old.items) heap.new.items
        place) }
    ensures places { OnOk result (places.new.items ≡ take first places.old.items) }
    ensures err { IfErr result
        (λ e. ListPutNot most heap.old.items (drop first places.old.items) heap.new.items e) }
    ensures grows { GrowsWithin most heap.old heap.new }
{
    let len = places.len() - first;
    if !has_room(heap.len(), len as u64, most) {
        return Err(AddError::HeapFull);
    }
    let address = write_list(heap, places, first)?;
    Ok(Place {
        value_type: kind.value_type(),
        address,
    })
}

// Writes a value after its children, where the heap is then at most `most` bytes long, and returns its place. The places of children whose list
// is not yet written stand at the end of `places`, which is afterwards as it was. `levels` is how deep its lists may nest for no stack in memory
// to be taken. After an error the old heap is still a prefix of the new, and what `places` holds is unspecified.
#[inline(always)]
#[cycle(parts)]
#[tactic(auto, using(tv_base::proofs::Growing::grows_then, tv_base::proofs::Growing::grows_more))]
pub(crate) fn put_tree<N: Nested>(
    alloc: Global,
    heap: &mut ByteBuffer,
    places: &mut ByteBuffer,
    value: NestedValue<'_, N>,
    levels: u32,
    most: u64,
) -> Result<Place, AddError>
    requires fits { length heap.old.items ≤ most }
    requires most { most ≤ 4294967295 }
    ensures puts { let t = nested_tree N.array_rest N.object_rest value.entry in
        Puts most heap.old.items places.old.items t heap.new.items places.new.items result }
    ensures grows { GrowsWithin most heap.old heap.new }
{
    match value {
        NestedValue::Leaf(single) => put_leaf(heap, &single, most),
        NestedValue::Array(items) => { put_array::<N>(alloc, heap, places, items, levels, most) },
        NestedValue::Object(members) => {
            put_object::<N>(alloc, heap, places, members, levels, most)
        }
    }
}

// Writes an array after its values.
#[inline(never)]
#[cycle(parts)]
#[tactic(auto, using(tv_base::proofs::Growing::grows_then, tv_base::proofs::Growing::grows_more))]
fn put_array<N: Nested>(
    alloc: Global,
    heap: &mut ByteBuffer,
    places: &mut ByteBuffer,
    items: N::ArrayIter,
    levels: u32,
    most: u64,
) -> Result<Place, AddError>
    requires fits { length heap.old.items ≤ most }
    requires most { most ≤ 4294967295 }
    ensures puts { let t = array (elements (N.array_rest items)) in
        Puts most heap.old.items places.old.items t heap.new.items places.new.items result }
    ensures grows { GrowsWithin most heap.old heap.new }
{
    if levels == 0 {
        return put_nested(alloc, heap, places, NestedValue::<N>::Array(items), most);
    }
    let first = places.len();
    for item in items {
        match item.as_nested() {
            NestedValue::Leaf(single) => {
                put_single(heap, places, &single, most)?;
                continue;
            }
            list => {
                let place = put_tree(alloc, heap, places, list, levels - 1, most)?;
                push_place(places, place)?;
                continue;
            }
        }
    }
    put_list(heap, places, ListKind::Array, first, most)
}

// Writes an object after its keys and values.
#[inline(never)]
#[cycle(parts)]
#[tactic(auto, using(tv_base::proofs::Growing::grows_then, tv_base::proofs::Growing::grows_more))]
fn put_object<N: Nested>(
    alloc: Global,
    heap: &mut ByteBuffer,
    places: &mut ByteBuffer,
    members: N::ObjectIter,
    levels: u32,
    most: u64,
) -> Result<Place, AddError>
    requires fits { length heap.old.items ≤ most }
    requires most { most ≤ 4294967295 }
    ensures puts { let t = object (entries (N.object_rest members)) in
        Puts most heap.old.items places.old.items t heap.new.items places.new.items result }
    ensures grows { GrowsWithin most heap.old heap.new }
{
    if levels == 0 {
        return put_nested(alloc, heap, places, NestedValue::<N>::Object(members), most);
    }
    let first = places.len();
    for (key, item) in members {
        put_single(heap, places, &ReferenceValueLeaf::Str(key.as_str()), most)?;
        match item.as_nested() {
            NestedValue::Leaf(single) => {
                put_single(heap, places, &single, most)?;
                continue;
            }
            list => {
                let place = put_tree(alloc, heap, places, list, levels - 1, most)?;
                push_place(places, place)?;
                continue;
            }
        }
    }
    put_list(heap, places, ListKind::Object, first, most)
}

// Writes a value after a heap where its room is free there, and returns its place.
//
// `HeapFull` where the heap's length and the value's room are together above 4294967295, and then the heap has taken at most 1 MiB of memory more;
// else `Memory` where memory is refused. The old heap is then still a prefix of the new. The value is walked once, unless more than `uncounted_most`
// lets would be written, or memory was refused: then its room is counted, and what has room is written anew.
#[inline(always)]
#[tactic(auto, using(crate::proofs::Putting::grows_little))]
pub(crate) fn put_within<'a, V: Value<'a>>(
    alloc: Global,
    heap: &mut ByteBuffer,
    value: &V,
) -> Result<Place, AddError>
    requires { length heap.old.items ≤ 4294967295 }
    ensures ok { IfOk result
        (λ place. PutWithin heap.old.items (V.tree value.now) heap.new.items place) }
    ensures err { IfErr result
        (λ e. PutNotWithin heap.old.items (V.tree value.now) heap.new.items e) }
    ensures memory { IfErr result
        (λ e. e ≡ AddError.HeapFull → capacity heap.new ≤ capacity heap.old + 1048576) }
{
    let len = heap.len();
    let most = uncounted_most(len, heap.capacity());
    let mut places = ByteBuffer::new(alloc);
    match put_tree(alloc, heap, &mut places, lend(value), MAX_DEPTH, most) {
        Ok(place) => Ok(place),
        Err(_) => {
            heap.truncate(len);
            put_counted(alloc, heap, &mut places, value)
        }
    }
}

// Writes a value after a heap where its room, which is counted first, is free there, and returns its place. Where it isn't free, nothing is written.
#[cold]
#[inline(never)]
fn put_counted<'a, V: Value<'a>>(
    alloc: Global,
    heap: &mut ByteBuffer,
    places: &mut ByteBuffer,
    value: &V,
) -> Result<Place, AddError>
    requires { length heap.old.items ≤ 4294967295 }
    ensures ok { IfOk result
        (λ place. PutWithin heap.old.items (V.tree value.now) heap.new.items place) }
    ensures err { IfErr result
        (λ e. PutNotWithin heap.old.items (V.tree value.now) heap.new.items e) }
    ensures full { IfErr result (λ e. e ≡ AddError.HeapFull → heap.new ≡ heap.old) }
{
    if !has_tree_room(alloc, heap.len(), value) {
        return Err(AddError::HeapFull);
    }
    places.clear();
    match put_tree(alloc, heap, places, lend(value), MAX_DEPTH, MAX_HEAP_LEN) {
        Ok(place) => Ok(place),
        Err(_) => Err(AddError::Memory),
    }
}
