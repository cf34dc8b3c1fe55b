//! Values at the end of a heap.

ghost use Rattle.std.specs.Prelude.{◌≡◌, ◌+◌, ◌<◌, ◌^◌, ◌++◌, OnOk, IfOk, length};
ghost use Rattle.tv_base.specs.Buffer.{GrowsWithin};
ghost use Rattle.tv_heap.specs.Wrote.{WroteAt};
ghost use Rattle.tv_heap.specs.LeafBytes.{leaf_bytes};
ghost use Rattle.tv_value.specs.Lent.{leaf_of};
ghost use Rattle.tv_format.specs.Tree.{leaf};

use std::alloc::AllocError;
use tv_base::ByteBuffer;
use tv_heap::value_type::{Place, ValueType};
use tv_heap::write::write_leaf;
use tv_value::leaf::ReferenceValueLeaf;

/// Each text is written at the heap's end, also where the heap ends with the same text.
pub fn equal_texts_are_written_anew(
    heap: &mut ByteBuffer,
    value: &ReferenceValueLeaf<'_>,
) -> Result<Place, AllocError>
    requires { length heap.old.items + length (leaf_bytes (leaf_of value.now)) < 2 ^ 32 }
    ensures { OnOk result (heap.new.items ≡ heap.old.items ++ leaf_bytes (leaf_of value.now)) }
{
    match value.as_str() {
        Some(text) if heap.as_slice().ends_with(text.as_bytes()) => write_leaf(heap, value),
        _ => write_leaf(heap, value),
    }
}

/// A value stands in the heap itself, and not in memory beside it.
pub fn values_stand_in_the_heap(
    heap: &mut ByteBuffer,
    beside: &mut ByteBuffer,
    value: &ReferenceValueLeaf<'_>,
) -> Result<Place, AllocError>
    requires heap { length heap.old.items + length (leaf_bytes (leaf_of value.now)) < 2 ^ 32 }
    requires beside { length beside.old.items + length (leaf_bytes (leaf_of value.now)) < 2 ^ 32 }
    ensures { IfOk result
        (λ place. WroteAt heap.old.items heap.new.items place (leaf (leaf_of value.now))) }
{
    let place = write_leaf(heap, value)?;
    beside.clear();
    Ok(place)
}

/// A value takes memory for itself alone, also where the list that it belongs to announces many values.
pub fn announced_values_take_no_memory(
    heap: &mut ByteBuffer,
    announced: usize,
    value: &ReferenceValueLeaf<'_>,
) -> Result<Place, AllocError>
    requires { length heap.old.items + length (leaf_bytes (leaf_of value.now)) < 2 ^ 32 }
    ensures { GrowsWithin (length heap.old.items + length (leaf_bytes (leaf_of value.now)))
        heap.old heap.new }
{
    let _announced = announced;
    write_leaf(heap, value)
}
