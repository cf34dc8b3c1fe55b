//! Pairs of a field and a value, the values in one heap.

ghost use Rattle.std.specs.Prelude.{◌≡◌, ◌<◌, ◌≤◌, ◌^◌, [], ◌∷◌, ◌++◌, OnOk, OnErr, IfOk, IfSome, IfNone, length, vec_capacity, vec_len};
ghost use Rattle.tv_builder.specs.Holds.{Holds, Holds-prop};
ghost use Rattle.tv_builder.specs.Keeping.{KeepsPair};
ghost use Rattle.tv_builder.specs.TreeBytes.{document_heap};
ghost use Rattle.tv_format.specs.Tree.{leaf};
ghost use Rattle.tv_format.specs.WriteVersion.{written_version};
ghost use Rattle.tv_value.specs.Lent.{leaf_of};

use crate::encoded::put_encoded;
use crate::errors::AddError;
use crate::whole::{has_value_room, put_within};
use std::alloc::{AllocError, Global};
use tv_base::byte_buffer::ByteBuffer;
use tv_format::WriteVersion;
use tv_heap::room::{MAX_HEAP_LEN, leaf_room};
use tv_heap::value_type::Place;
use tv_heap::write::write_leaf;
use tv_value::leaf::ReferenceValueLeaf;
use tv_value::nested::MAX_DEPTH;
use tv_value::value::{ReferenceValue, Value};

/// A field, and where its value stands in the heap. (Not in tantivy.)
#[derive(Clone, Copy, Debug)]
pub struct HeapPair {
    /// The field's number.
    pub field: u32,
    /// Where the value stands.
    pub place: Place,
}

// The first pair makes room for this many.
const FIRST_PAIRS: usize = 16;

/// Adds a pair after those that are there. (Not in tantivy.) The only error is that memory was refused; the pairs are then as they were.
#[inline(always)]
pub fn push_pair(pairs: &mut Vec<HeapPair>, pair: HeapPair) -> Result<(), AllocError>
    ensures ok { OnOk result (pairs.new.items ≡ pairs.old.items ++ pair ∷ []) }
    ensures err { OnErr result (pairs.new.items ≡ pairs.old.items) }
{
    if pairs.len() == pairs.capacity() {
        make_room(pairs)?;
    }
    pairs.push_reserved(pair);
    Ok(())
}

// Makes room for a pair, and for the first ones together.
#[cold]
#[inline(never)]
fn make_room(pairs: &mut Vec<HeapPair>) -> Result<(), AllocError>
    ensures items { pairs.new.items ≡ pairs.old.items }
    ensures room { OnOk result (vec_len pairs.new < vec_capacity pairs.new) }
{
    let more = if pairs.is_empty() { FIRST_PAIRS } else { 1 };
    pairs.reserve(more)
}

// Keeps the pair of a field and a value that was written after the first `len` bytes of the heap. Where memory is refused, the heap is
// cut back to these, and the pairs stay as they were.
#[inline(always)]
fn keep_pair(
    heap: &mut ByteBuffer,
    pairs: &mut Vec<HeapPair>,
    len: usize,
    field: u32,
    place: Place,
) -> Result<(), AddError>
    ensures { KeepsPair heap.old.items heap.new.items pairs.old.items pairs.new.items len field
        place result }
{
    let pair = HeapPair { field, place };
    if push_pair(pairs, pair).is_err() {
        heap.truncate(len);
        return Err(AddError::Memory);
    }
    Ok(())
}

/// Pairs of a field and a value, in order, and the heap in which the values stand. (Not in tantivy.)
///
/// An addition is refused with `HeapFull` where the heap's length and the value's room are together above 4294967295, before more than 1 MiB
/// of the value is written; else with `Memory` where memory is refused. After each of these the pairs and the heap are unchanged, and after
/// `HeapFull` the heap has memory for at most 1 MiB more.
#[derive(Debug, Drop)]
pub struct HeapPairs {
    /// The bytes in which the values stand.
    pub heap: ByteBuffer,
    /// The fields, and where their values stand.
    pub pairs: Vec<HeapPair>,
    pub ghost document: { Holds heap.items pairs.items } by { Holds-prop heap.items pairs.items },
    pub ghost bytes: { heap.items ≡ document_heap [] document.0 },
    pub ghost fits: { length heap.items < 2 ^ 32 },
}

impl HeapPairs {
    ghost use Rattle.tv_builder.specs.EncodedPairs.{AddsEncodedPair, AddsEncoded, StoodIn};
    ghost use Rattle.tv_builder.specs.HeldPairs.{document_of, heap_of, heap_capacity, pairs_capacity, Adds, IsUnchanged, KeepsMemory};
    ghost use Rattle.tv_builder.specs.declared.heap_pairs.HeapPairs.{HeapPairs};

    /// No pairs, which take no memory.
    pub fn new(alloc: Global) -> HeapPairs
        ensures document { document_of result ≡ [] }
        ensures heap { heap_of result ≡ [] }
        ensures no_bytes { heap_capacity result ≡ 0 }
        ensures no_places { pairs_capacity result ≡ 0 }
    {
        HeapPairs {
            heap: ByteBuffer::new(alloc),
            pairs: Vec::new(alloc),
        }
    }

    /// No pairs, with memory for this many bytes of values. The only error is that memory was refused.
    pub fn with_capacity(alloc: Global, bytes: usize) -> Result<HeapPairs, AllocError>
        ensures document { IfOk result (λ made. document_of made ≡ []) }
        ensures heap { IfOk result (λ made. heap_of made ≡ []) }
        ensures capacity { IfOk result (λ made. heap_capacity made ≡ bytes) }
        ensures no_places { IfOk result (λ made. pairs_capacity made ≡ 0) }
    {
        let heap = ByteBuffer::with_capacity(alloc, bytes)?;
        Ok(HeapPairs {
            heap,
            pairs: Vec::new(alloc),
        })
    }

    /// Takes all pairs off, and keeps the memory for more.
    pub fn clear(&mut self)
        ensures document { document_of self.new ≡ [] }
        ensures heap { heap_of self.new ≡ [] }
        ensures bytes { heap_capacity self.new ≡ heap_capacity self.old }
        ensures places { pairs_capacity self.new ≡ pairs_capacity self.old }
    {
        self.pairs.clear();
        self.heap.clear();
    }

    /// A copy. The only error is that memory was refused.
    pub fn try_clone(&self) -> Result<HeapPairs, AllocError>
        ensures { IfOk result (λ copy. IsUnchanged self.now copy) }
    {
        let alloc = self.heap.allocator();
        let heap = self.heap.try_clone()?;
        let pairs = Vec::from_slice(alloc, self.pairs.as_slice())?;
        Ok(HeapPairs { heap, pairs })
    }

    /// Gives memory back that neither the values nor the pairs need, as far as the allocator takes it.
    pub fn shrink_to_fit(&mut self)
        ensures unchanged { IsUnchanged self.old self.new }
        ensures bytes { heap_capacity self.new ≤ heap_capacity self.old }
        ensures places { pairs_capacity self.new ≤ pairs_capacity self.old }
        ensures frees_bytes { heap_of self.old ≡ [] → heap_capacity self.new ≡ 0 }
        ensures frees_places { document_of self.old ≡ [] → pairs_capacity self.new ≡ 0 }
    {
        self.heap.shrink_to_fit();
        self.pairs.shrink_to_fit();
    }

    /// Adds a pair of a field and a value without children.
    #[inline(always)]
    pub fn add_leaf(&mut self, field: u32, value: &ReferenceValueLeaf<'_>) -> Result<(), AddError>
        ensures adds { Adds self.old self.new field (leaf (leaf_of value.now)) result }
        ensures memory { KeepsMemory self.old self.new result }
    {
        let len = self.heap.len();
        if !has_value_room(len, leaf_room(value), MAX_HEAP_LEN) {
            return Err(AddError::HeapFull);
        }
        let Ok(place) = write_leaf(&mut self.heap, value) else {
            self.heap.truncate(len);
            return Err(AddError::Memory);
        };
        keep_pair(&mut self.heap, &mut self.pairs, len, field, place)
    }

    /// Adds a pair of a field and a value of any kind.
    pub fn add_value<'a, V: Value<'a>>(&mut self, field: u32, value: &V) -> Result<(), AddError>
        ensures adds { Adds self.old self.new field (V.tree value.now) result }
        ensures memory { KeepsMemory self.old self.new result }
    {
        // The commonest leaves are handed on without standing in memory before.
        match value.as_value() {
            ReferenceValue::Leaf(ReferenceValueLeaf::Str(content)) => {
                self.add_leaf(field, &ReferenceValueLeaf::Str(content))
            }
            ReferenceValue::Leaf(ReferenceValueLeaf::U64(number)) => {
                self.add_leaf(field, &ReferenceValueLeaf::U64(number))
            }
            ReferenceValue::Leaf(ReferenceValueLeaf::I64(number)) => {
                self.add_leaf(field, &ReferenceValueLeaf::I64(number))
            }
            ReferenceValue::Leaf(single) => self.add_leaf(field, &single),
            _ => self.add_whole(field, value),
        }
    }

    fn add_whole<'a, V: Value<'a>>(&mut self, field: u32, value: &V) -> Result<(), AddError>
        ensures adds { Adds self.old self.new field (V.tree value.now) result }
        ensures memory { KeepsMemory self.old self.new result }
    {
        let alloc = self.heap.allocator();
        let len = self.heap.len();
        match put_within(alloc, &mut self.heap, value) {
            Ok(place) => keep_pair(&mut self.heap, &mut self.pairs, len, field, place),
            Err(error) => {
                self.heap.truncate(len);
                Err(error)
            }
        }
    }

    /// Adds the pairs that these bytes begin with, as this version of the store encodes them, up to this many. Gives the bytes after them,
    /// and how many they are. The old heap is a prefix of the new one, and the old pairs come first, at the same places.
    ///
    /// It stops before a pair that is malformed or not all there, before one that holds an object as older stores hold it or lists nested deeper
    /// than `MAX_DEPTH` levels, and where the heap has no room or memory is refused: what it doesn't add may still be a pair.
    pub fn add_encoded<'a>(
        &mut self,
        bytes: &'a [u8],
        version: WriteVersion,
        most: u64,
    ) -> (&'a [u8], u64)
        ensures added { AddsEncoded (written_version version) self.old self.new bytes.now
            result.0.now result.1 }
        ensures most { result.1 ≤ most }
    {
        let mut places = ByteBuffer::new(self.heap.allocator());
        let mut rest = bytes;
        for count in 0..most {
            let Some(behind) = self.add_encoded_pair(rest, version, &mut places) else {
                return (rest, count);
            };
            rest = behind;
        }
        (rest, most)
    }

    // Adds the pair that these bytes begin with, and gives the bytes after it. `places` is used while a list is written.
    #[inline(always)]
    fn add_encoded_pair<'a>(
        &mut self,
        bytes: &'a [u8],
        version: WriteVersion,
        places: &mut ByteBuffer,
    ) -> Option<&'a [u8]>
        ensures added { IfSome result
            (λ rest. AddsEncodedPair (written_version version) self.old self.new bytes.now rest.now) }
        ensures none { IfNone result (IsUnchanged self.old self.new) }
    {
        let (prefix, value) = bytes.split_first_chunk::<4>()?;
        let field = u32::from_le_bytes(*prefix);
        let len = self.heap.len();
        let Some((rest, place)) = put_encoded(value, version, MAX_DEPTH, &mut self.heap, places)
        else {
            self.heap.truncate(len);
            return None;
        };
        match keep_pair(&mut self.heap, &mut self.pairs, len, field, place) {
            Ok(()) => Some(rest),
            Err(_) => None,
        }
    }

    /// Takes back what was added since there were this many pairs and so long a heap. All is then as it was.
    pub fn take_back(&mut self, pairs: usize, heap: usize)
        requires { (old : HeapPairs) × StoodIn old self.old pairs heap }
        ensures { (old : HeapPairs) → StoodIn old self.old pairs heap → IsUnchanged old self.new }
    {
        self.pairs.truncate(pairs);
        self.heap.truncate(heap);
    }
}
