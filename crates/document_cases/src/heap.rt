//! Values in a heap of bytes.

use crate::builder;
use anyhow::{Context, Result, anyhow, ensure};
use case_words as words;
use std::alloc::Global;
use tv_base::{BinarySerializable, ByteBuffer, SliceSource, VecSink};
use tv_builder::encoded::put_encoded;
use tv_builder::heap_pairs::HeapPairs;
use tv_doc::lent_borrowed::LentBorrowed;
use tv_format::WriteVersion;
use tv_heap::len::leaf_len;
use tv_heap::value_type::{Place, ValueType};
use tv_json::Scratch;
use tv_json::read::read_borrowed;
use tv_value::leaf::ReferenceValueLeaf;
use tv_value::owned_value::OwnedValue;
use tv_value::value::Value;

// What stands at the places of lists that are open.
const OPEN: &[u8] = b"\x09\x81";

/// What a call about heaps returns.
pub fn answer(alloc: Global, call: &[&str]) -> Result<String> {
    let (name, call) = words::first(call)?;
    match name {
        "encoded" => encoded(alloc, call),
        "json" => json_value(alloc, call),
        "leaf" => leaf(alloc, call),
        "type" => type_of_word(alloc, words::one(call)?),
        _ => Err(anyhow!("an unknown call about heaps")),
    }
}

// The answer where a call gives nothing, from what it gives when it is made once more. The rows' values are small, so memory was refused to the
// first call if the second one gives something.
fn nothing(alloc: Global, again: Option<String>) -> Result<String> {
    match again {
        Some(_) => Ok(String::from_str(alloc, "error Memory")?),
        None => words::none(alloc),
    }
}

// The heap after which the value that bytes encode is written, its type's code and its address, and the bytes after it.
fn encoded(alloc: Global, call: &[&str]) -> Result<String> {
    let (before, levels, digits) = words::three(call)?;
    let (levels, bytes) = (words::number(levels)?, words::bytes(alloc, digits)?);
    match put(alloc, before, levels, bytes.as_slice())? {
        Some(answer) => Ok(answer),
        None => nothing(alloc, put(alloc, before, levels, bytes.as_slice())?),
    }
}

// What the call for the value that bytes encode gives.
fn put(alloc: Global, before: &str, levels: u32, bytes: &[u8]) -> Result<Option<String>> {
    let before = words::bytes(alloc, before)?;
    let mut heap = ByteBuffer::from_vec(before.as_slice().to_vec(alloc)?);
    let mut places = ByteBuffer::from_vec(OPEN.to_vec(alloc)?);
    if heap.len() > 4_294_967_295 {
        return Err(anyhow!("a heap is too long"));
    }
    let put = put_encoded(bytes, WriteVersion::V2, levels, &mut heap, &mut places);
    let is_kept = heap.as_slice().starts_with(before.as_slice());
    ensure!(is_kept, "the heap has changed");
    let Some((rest, place)) = put else {
        return Ok(None);
    };
    let placed = placed(alloc, heap.as_slice(), place, places.as_slice())?;
    let rest = hex::encode(alloc, rest)?;
    Ok(Some(format!(in alloc; "{placed}\t{rest}")?))
}

// The heap in which a JSON value stands after a text, its type's code and its address.
fn json_value(alloc: Global, call: &[&str]) -> Result<String> {
    let (text, json) = words::two(call)?;
    match add_json(alloc, text, json)? {
        Some(answer) => Ok(answer),
        None => nothing(alloc, add_json(alloc, text, json)?),
    }
}

// What the calls give that read a JSON value and add it after a text.
fn add_json(alloc: Global, text: &str, json: &str) -> Result<Option<String>> {
    let mut scratch = Scratch::new(alloc);
    let Some(json) = read_borrowed(alloc, json, &mut scratch) else {
        return Ok(None);
    };
    let mut pairs = HeapPairs::new(alloc);
    if pairs.add_leaf(0, &ReferenceValueLeaf::Str(text)).is_err() {
        return Ok(None);
    }
    if pairs.add_value(1, &LentBorrowed::new(&json)).is_err() {
        return Ok(None);
    }
    let last = pairs.pairs.last().context("a pair")?;
    let shown = shown(alloc, pairs.heap.as_slice(), last.place)?;
    Ok(Some(shown))
}

// A heap, and the place of a value in it. The places of open lists have to be as they were.
fn placed(alloc: Global, heap: &[u8], place: Place, places: &[u8]) -> Result<String> {
    ensure!(places == OPEN, "the places of open lists have changed");
    shown(alloc, heap, place)
}

// A heap, and the place of a value in it.
fn shown(alloc: Global, heap: &[u8], place: Place) -> Result<String> {
    let heap = hex::encode(alloc, heap)?;
    let code = place.value_type.to_code();
    let address = place.address;
    Ok(format!(in alloc; "{heap}\t{code}:{address}")?)
}

// The type of a value without children in a heap, and how many bytes it takes there.
fn leaf(alloc: Global, call: &[&str]) -> Result<String> {
    let value = builder::value(alloc, words::one(call)?)?;
    let answer = leaf_shown(alloc, &value);
    drop(value);
    answer
}

// The type of a value without children, and how many bytes it takes.
fn leaf_shown(alloc: Global, value: &OwnedValue) -> Result<String> {
    let leaf = value.as_leaf().context("a value without children")?;
    let value_type = ValueType::from(&leaf);
    let length = leaf_len(&leaf).context("a length")?;
    Ok(format!(in alloc; "{value_type:?} {length}")?)
}

// The type by default, or the one that is read of a byte's digits.
fn type_of_word(alloc: Global, word: &str) -> Result<String> {
    if word == "default" {
        return value_type(alloc, ValueType::default());
    }
    type_of_bytes(alloc, words::bytes(alloc, word)?.as_slice())
}

// The type that is read of a byte.
fn type_of_bytes(alloc: Global, bytes: &[u8]) -> Result<String> {
    match ValueType::deserialize(alloc, &mut SliceSource::new(bytes)) {
        Ok(read) => value_type(alloc, read),
        Err(error) => words::error(alloc, error),
    }
}

// A type, its code, and the byte that is written of it.
fn value_type(alloc: Global, value_type: ValueType) -> Result<String> {
    let code = value_type.to_code();
    let of_code = ValueType::from_code(code);
    ensure!(
        of_code == Some(value_type),
        "the code {code} has another type"
    );
    let mut sink = VecSink::new(alloc);
    value_type.serialize(&mut sink).ok().context("a write")?;
    let byte = hex::encode(alloc, sink.as_slice())?;
    Ok(format!(in alloc; "{value_type:?} {code} {byte}")?)
}
