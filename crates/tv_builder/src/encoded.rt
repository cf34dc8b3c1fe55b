//! Values that stand encoded in bytes, written after a heap.

ghost use Rattle.std.specs.Prelude.{◌≡◌, ◌≤◌, ◌∷◌, length, IfSome, Some};
ghost use Rattle.tv_base.specs.Sink.{IsPrefix};
ghost use Rattle.tv_builder.specs.EncodedPut.{EncodedPut};
ghost use Rattle.tv_format.specs.WriteVersion.{written_version};
ghost use Rattle.tv_format.specs.declared.leaf_type.WriteVersion.{WriteVersion};

use crate::kinds::ListKind;
use crate::whole::{put_content, put_list};
use tv_base::byte_buffer::ByteBuffer;
use tv_format::type_codes::{ARRAY_CODE, OBJECT_CODE};
use tv_format::{Form, LeafType, WriteVersion};
use tv_heap::room::MAX_HEAP_LEN;
use tv_heap::value_type::Place;
use tv_heap::write::push_place;
use tv_value::in_place::{
    eight_at, entry_count_at, key_at, number_at, signed_at, sixteen_at, sized_at, text_at,
    tokenized_at, truth_at,
};
use tv_value::leaf::LeafContent;

// Writes the value without children that stands after this code. It is encoded alike in all versions that are written.
#[inline(always)]
fn put_encoded_leaf<'a>(
    code: u8,
    bytes: &'a [u8],
    heap: &mut ByteBuffer,
) -> Option<(&'a [u8], Place)>
    requires { length heap.old.items ≤ 4294967295 }
    ensures found { IfSome result
        (λ x. (version : WriteVersion) → EncodedPut (written_version version) (code ∷ bytes.now)
        x.0.now heap.old.items heap.new.items x.1) }
    ensures prefix { IsPrefix heap.old.items heap.new.items }
{
    let leaf_type = LeafType::from_store_code(code)?;
    match leaf_type.form() {
        Form::Nothing => {
            let place = put_content(heap, leaf_type, LeafContent::Nothing)?;
            Some((bytes, place))
        }
        Form::Truth => {
            let (truth, rest) = truth_at(bytes)?;
            let place = put_content(heap, leaf_type, LeafContent::Truth(truth))?;
            Some((rest, place))
        }
        Form::Unsigned => {
            let (number, rest) = eight_at(bytes)?;
            let place = put_content(heap, leaf_type, LeafContent::Unsigned(number))?;
            Some((rest, place))
        }
        Form::Signed => {
            let (number, rest) = signed_at(bytes)?;
            let place = put_content(heap, leaf_type, LeafContent::Signed(number))?;
            Some((rest, place))
        }
        Form::Wide => {
            let (number, rest) = sixteen_at(bytes)?;
            let place = put_content(heap, leaf_type, LeafContent::Wide(number))?;
            Some((rest, place))
        }
        Form::Text => {
            let (text, rest) = text_at(bytes)?;
            let place = put_content(heap, leaf_type, LeafContent::Text(text))?;
            Some((rest, place))
        }
        Form::Bytes => {
            let (content, rest) = sized_at(bytes)?;
            let place = put_content(heap, leaf_type, LeafContent::Bytes(content))?;
            Some((rest, place))
        }
        Form::Tokens => {
            let (text, rest) = tokenized_at(bytes)?;
            let place = put_content(heap, leaf_type, LeafContent::Tokens(text))?;
            Some((rest, place))
        }
    }
}

/// Writes the value that these bytes begin with, as this version of the store encodes it, after a heap: what the calls for its parts would
/// write. Gives the bytes after it, and its place. (Not in tantivy.)
///
/// `None` where they begin with no value, or with an object as older stores hold it; where lists are nested deeper than this many levels; where
/// a part would end above 4294967295; and where memory is refused. The old heap is then still a prefix of the new, and what `places` holds is
/// unspecified. Else `places`, at whose end the places of children stand until their list is written, is afterwards as it was.
#[inline(always)]
#[cycle(encoded)]
pub fn put_encoded<'a>(
    bytes: &'a [u8],
    version: WriteVersion,
    levels: u32,
    heap: &mut ByteBuffer,
    places: &mut ByteBuffer,
) -> Option<(&'a [u8], Place)>
    requires { length heap.old.items ≤ 4294967295 }
    ensures found { IfSome result
        (λ x. EncodedPut (written_version version) bytes.now x.0.now heap.old.items heap.new.items
        x.1) }
    ensures places { IfSome result (λ x. places.new.items ≡ places.old.items) }
    ensures prefix { IsPrefix heap.old.items heap.new.items }
{
    let (code, behind) = bytes.split_first()?;
    match *code {
        // what these calls return is taken apart, so that a value without children is returned without going through memory
        ARRAY_CODE => {
            let (rest, place) = put_encoded_array(behind, version, levels, heap, places)?;
            Some((rest, place))
        }
        OBJECT_CODE => {
            let (rest, place) = put_encoded_object(behind, version, levels, heap, places)?;
            Some((rest, place))
        }
        code => put_encoded_leaf(code, behind, heap),
    }
}

// Writes the array that stands after its code.
#[inline(never)]
#[cycle(encoded)]
#[tactic(auto, using(crate::proofs::Giving::prefix_then))]
fn put_encoded_array<'a>(
    bytes: &'a [u8],
    version: WriteVersion,
    levels: u32,
    heap: &mut ByteBuffer,
    places: &mut ByteBuffer,
) -> Option<(&'a [u8], Place)>
    requires { length heap.old.items ≤ 4294967295 }
    ensures found { IfSome result
        (λ x. EncodedPut (written_version version) (12 ∷ bytes.now) x.0.now heap.old.items
        heap.new.items x.1) }
    ensures places { IfSome result (λ x. places.new.items ≡ places.old.items) }
    ensures prefix { IsPrefix heap.old.items heap.new.items }
{
    if levels == 0 {
        return None;
    }
    let (announced, behind) = number_at(bytes)?;
    let first = places.len();
    let mut rest = behind;
    for _i in 0..announced {
        let (after, place) = put_encoded(rest, version, levels - 1, heap, places)?;
        let Ok(()) = push_place(places, place) else {
            return None;
        };
        rest = after;
    }
    let Ok(place) = put_list(heap, places, ListKind::Array, first, MAX_HEAP_LEN) else {
        return None;
    };
    Some((rest, place))
}

// Writes the object that stands after its code.
#[inline(never)]
#[cycle(encoded)]
#[tactic(auto, using(crate::proofs::Giving::prefix_then))]
fn put_encoded_object<'a>(
    bytes: &'a [u8],
    version: WriteVersion,
    levels: u32,
    heap: &mut ByteBuffer,
    places: &mut ByteBuffer,
) -> Option<(&'a [u8], Place)>
    requires { length heap.old.items ≤ 4294967295 }
    ensures found { IfSome result
        (λ x. EncodedPut (written_version version) (13 ∷ bytes.now) x.0.now heap.old.items
        heap.new.items x.1) }
    ensures places { IfSome result (λ x. places.new.items ≡ places.old.items) }
    ensures prefix { IsPrefix heap.old.items heap.new.items }
{
    if levels == 0 {
        return None;
    }
    let (announced, behind) = entry_count_at(bytes, version)?;
    let first = places.len();
    let mut rest = behind;
    for _i in 0..announced {
        let (key, behind_key) = key_at(rest, version)?;
        let name = put_content(heap, LeafType::Str, LeafContent::Text(key))?;
        let Ok(()) = push_place(places, name) else {
            return None;
        };
        let (after, place) = put_encoded(behind_key, version, levels - 1, heap, places)?;
        let Ok(()) = push_place(places, place) else {
            return None;
        };
        rest = after;
    }
    let Ok(place) = put_list(heap, places, ListKind::Object, first, MAX_HEAP_LEN) else {
        return None;
    };
    Some((rest, place))
}
