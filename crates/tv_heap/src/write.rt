//! Writing values at the end of a heap.

ghost use Rattle.std.specs.Prelude.{◌≡◌, ◌+◌, ◌<◌, ◌≤◌, ◌^◌, ◌∷◌, ◌++◌, OnOk, OnErr, IfOk, length, take, drop};
ghost use Rattle.tv_base.specs.Buffer.{GrowsWithin};
ghost use Rattle.tv_base.specs.Number.{vnum, eight_bytes, sixteen_bytes};
ghost use Rattle.tv_base.specs.Parts.{short_sized};
ghost use Rattle.tv_base.specs.Sink.{IsPrefix};
ghost use Rattle.tv_value.specs.Lent.{leaf_of};
ghost use Rattle.tv_value.specs.PreTokenized.{text_of, tokens_of};
ghost use Rattle.std.specs.Int.{w64, cast_unsigned};
ghost use Rattle.tv_value.specs.LeafParts.{content_of};
ghost use Rattle.tv_format.specs.Leaves.{type_of, content};
ghost use Rattle.tv_format.specs.Short.{short_tokenized, IsContent};
ghost use Rattle.tv_format.specs.Tree.{Leaf, leaf};
ghost use Rattle.tv_heap.specs.LeafBytes.{content_bytes, content_address, leaf_bytes, IsPlaceAtEnd};
ghost use Rattle.tv_heap.specs.TypeCode.{type_code};
ghost use Rattle.tv_heap.specs.Wrote.{WroteAt};

use crate::value_type::{Place, ValueType};
use std::alloc::AllocError;
use tv_base::byte_buffer::ByteBuffer;
use tv_format::LeafType;
use tv_value::encode::{push_number, push_sized, push_token};
use tv_value::laws::pre_tokenized_texts_encode;
use tv_value::leaf::{LeafContent, ReferenceValueLeaf};
use tv_value::pre_tokenized::PreTokenizedStr;

// Adds the eight bytes of a number, the lowest first.
#[inline(always)]
fn push_eight(heap: &mut ByteBuffer, number: u64) -> Result<(), AllocError>
    ensures ok { OnOk result (heap.new.items ≡ heap.old.items ++ eight_bytes number) }
    ensures small { number < 2 ^ 64 }
    ensures err { OnErr result (heap.new.items ≡ heap.old.items) }
    ensures grows { GrowsWithin (length heap.old.items + length (eight_bytes number)) heap.old
        heap.new }
{
    heap.extend_from_chunk(&number.to_le_bytes())
}

// Adds the sixteen bytes of a number, the lowest first.
fn push_sixteen(heap: &mut ByteBuffer, number: u128) -> Result<(), AllocError>
    ensures ok { OnOk result (heap.new.items ≡ heap.old.items ++ sixteen_bytes number) }
    ensures small { number < 2 ^ 128 }
    ensures err { OnErr result (heap.new.items ≡ heap.old.items) }
    ensures grows { GrowsWithin (length heap.old.items + length (sixteen_bytes number)) heap.old
        heap.new }
{
    heap.extend_from_chunk(&number.to_le_bytes())
}

/// Adds a child's type and address. (Not in tantivy.) The addresses in a short document have one byte or two. The only error is that memory
/// was refused; what `places` holds then is unspecified.
#[inline(always)]
pub fn push_place(places: &mut ByteBuffer, place: Place) -> Result<(), AllocError>
    ensures ok { OnOk result
        (places.new.items
        ≡ places.old.items ++ (type_code place.value_type ∷ vnum place.address)) }
    ensures small { OnOk result (length places.new.items < 2 ^ 63) }
{
    let address = place.address;
    let code = place.value_type.to_code();
    if address < 128 {
        return places.extend_from_chunk(&[code, address as u8 + 128]);
    }
    if address < 16384 {
        let last = (address / 128) as u8 + 128;
        return places.extend_from_slice(&[code, (address % 128) as u8, last]);
    }
    places.push(code)?;
    push_number(places, u64::from(address))
}

// Adds a text, how many tokens it has, and each.
#[inline(never)]
#[tactic(auto, using(tv_base::proofs::Growing::grows_then, tv_base::proofs::Growing::grows_more))]
fn push_tokenized(heap: &mut ByteBuffer, content: PreTokenizedStr<'_>) -> Result<(), AllocError>
    ensures ok { OnOk result
        (heap.new.items
        ≡ heap.old.items ++ short_tokenized (text_of content.entry) (tokens_of content.entry)) }
    ensures err { OnErr result (IsPrefix heap.old.items heap.new.items) }
    ensures grows { let bytes = short_tokenized (text_of content.entry) (tokens_of content.entry)
        in GrowsWithin (length heap.old.items + length bytes) heap.old heap.new }
{
    push_sized(heap, content.text().as_bytes())?;
    push_number(heap, content.len() as u64)?;
    for token in content.tokens() {
        push_token(heap, token)?;
    }
    Ok(())
}

// Adds the bytes of what a value without children holds.
#[inline(always)]
#[tactic(auto, using(tv_base::proofs::Growing::grows_then, tv_base::proofs::Growing::grows_more))]
fn push_content(heap: &mut ByteBuffer, content: LeafContent<'_>) -> Result<(), AllocError>
    ensures ok { OnOk result
        (heap.new.items ≡ heap.old.items ++ content_bytes (content_of content.entry)) }
    ensures encodes { IsContent (content_of content.entry) }
    ensures err { OnErr result (IsPrefix heap.old.items heap.new.items) }
    ensures grows { let bytes = content_bytes (content_of content.entry) in
        GrowsWithin (length heap.old.items + length bytes) heap.old heap.new }
{
    pre_tokenized_texts_encode();
    match content {
        LeafContent::Nothing | LeafContent::Truth(_) => Ok(()),
        LeafContent::Unsigned(number) => push_eight(heap, number),
        LeafContent::Signed(number) => push_eight(heap, number.cast_unsigned()),
        LeafContent::Wide(number) => push_sixteen(heap, number),
        LeafContent::Text(text) => push_sized(heap, text.as_bytes()),
        LeafContent::Bytes(bytes) => push_sized(heap, bytes),
        LeafContent::Tokens(text) => push_tokenized(heap, text),
    }
}

// The address of what a value without children holds, which is written at the end of a heap of this length.
#[inline(always)]
fn content_address(len: u32, content: LeafContent<'_>) -> u32
    ensures { result ≡ content_address len (content_of content.entry) }
{
    match content {
        LeafContent::Nothing => 0,
        LeafContent::Truth(truth) => u32::from(truth),
        _ => len,
    }
}

/// Writes a value without children, and returns its place. (Not in tantivy.) After an error the old heap is still a prefix of the new. Memory grows
/// as for one write of all of it.
#[inline(always)]
#[tactic(auto, using(tv_base::proofs::Growing::grows_then, tv_base::proofs::Growing::grows_more))]
pub fn write_leaf(
    heap: &mut ByteBuffer,
    value: &ReferenceValueLeaf<'_>,
) -> Result<Place, AllocError>
    requires { length heap.old.items + length (leaf_bytes (leaf_of value.now)) < 2 ^ 32 }
    ensures heap { OnOk result (heap.new.items ≡ heap.old.items ++ leaf_bytes (leaf_of value.now)) }
    ensures place { let written = leaf_of value.now in
        IfOk result (IsPlaceAtEnd (length heap.old.items) (type_of written) (content written)) }
    ensures ok { IfOk result
        (λ place. WroteAt heap.old.items heap.new.items place (leaf (leaf_of value.now))) }
    ensures err { OnErr result (IsPrefix heap.old.items heap.new.items) }
    ensures grows { GrowsWithin (length heap.old.items + length (leaf_bytes (leaf_of value.now)))
        heap.old heap.new }
{
    let content = value.content();
    let address = content_address(heap.len() as u32, content);
    push_content(heap, content)?;
    Ok(Place {
        value_type: ValueType::of_leaf(value.leaf_type()),
        address,
    })
}

/// Writes the value of this type that holds this, as `write_leaf` does, and returns its place. (Not in tantivy.) After an error the old heap is
/// still a prefix of the new.
#[inline(always)]
pub fn write_content(
    heap: &mut ByteBuffer,
    leaf_type: LeafType,
    held: LeafContent<'_>,
) -> Result<Place, AllocError>
    requires { length heap.old.items + length (content_bytes (content_of held)) < 2 ^ 32 }
    ensures heap { OnOk result
        (heap.new.items ≡ heap.old.items ++ content_bytes (content_of held.entry)) }
    ensures place { IfOk result
        (IsPlaceAtEnd (length heap.old.items) leaf_type (content_of held.entry)) }
    ensures ok { IfOk result
        (λ place. (l : Leaf) → type_of l ≡ leaf_type → content l ≡ content_of held.entry
        → WroteAt heap.old.items heap.new.items place (leaf l)) }
    ensures err { OnErr result (IsPrefix heap.old.items heap.new.items) }
{
    let address = content_address(heap.len() as u32, held);
    push_content(heap, held)?;
    Ok(Place {
        value_type: ValueType::of_leaf(leaf_type),
        address,
    })
}

/// Writes a list after its children, whose places are those from `first` on, and returns its address. (Not in tantivy.) The places are taken
/// off. After an error the old heap is still a prefix of the new, and what `places` holds is unspecified.
#[inline(always)]
#[tactic(auto, using(tv_base::proofs::Growing::grows_then, tv_base::proofs::Growing::grows_more))]
pub fn write_list(
    heap: &mut ByteBuffer,
    places: &mut ByteBuffer,
    first: usize,
) -> Result<u32, AllocError>
    requires first { first ≤ length places.old.items }
    requires fits { length heap.old.items < 2 ^ 32 }
    ensures heap { OnOk result
        (heap.new.items ≡ heap.old.items ++ short_sized (drop first places.old.items)) }
    ensures places { OnOk result (places.new.items ≡ take first places.old.items) }
    ensures at { IfOk result (λ at. at ≡ length heap.old.items) }
    ensures err { OnErr result (IsPrefix heap.old.items heap.new.items) }
    ensures grows { let own = drop first places.old.items in
        GrowsWithin (length heap.old.items + length (short_sized own)) heap.old heap.new }
{
    let at = heap.len() as u32;
    push_sized(heap, &places.as_slice()[first..])?;
    places.truncate(first);
    Ok(at)
}
