//! Values of any kind that are written by themselves, with more lists open than the machine's stack is trusted with.

use std::alloc::{AllocError, Global};
use std::test::Fail;
use tantivy_schema::common::{SliceSource, VecSink};
use tantivy_schema::schema::document::{
    BinaryArraySerializer, BinaryObjectSerializer, BinaryValueSerializer, SerializeError,
};
use tantivy_schema::schema::{Field, TantivyDocument, Value};
use tantivy_schema::store::{DocStoreVersion, read_document};

// Lists in each other, from the outside arrays and objects in turn: an array has the next list and then null, and an object has the next
// list at the key `k`. Null stands in the innermost.
fn lists(alloc: Global, depth: u32) -> Result<Vec<u8>, AllocError> {
    let mut bytes = Vec::new(alloc);
    for level in 0..depth {
        if level % 2 == 0 {
            bytes.extend_from_slice(b"\x0c\x82")?;
        } else {
            bytes.extend_from_slice(b"\x0d\x82\0\x81k")?;
        }
    }
    bytes.push(0x0b)?;
    for level in 0..depth {
        if level % 2 == 0 {
            bytes.push(0x0b)?;
        }
    }
    Ok(bytes)
}

// The document whose one value, of field 0, has these bytes.
fn document(alloc: Global, value: &[u8]) -> Result<TantivyDocument, Fail> {
    let mut bytes = b"\x81\0\0\0\0".to_vec(alloc)?;
    bytes.extend_from_slice(value)?;
    let mut source = SliceSource::new(bytes.as_slice());
    Ok(read_document(alloc, &mut source, DocStoreVersion::V2)?)
}

// Whether a sink holds a beginning, and then these bytes.
fn holds(sink: VecSink, beginning: &[u8], value: &[u8]) -> bool {
    sink.into_vec().as_slice().strip_prefix(beginning) == Some(value)
}

// Whether a value is written, by itself, as an element and as an entry, just as it was read.
fn is_written<'a, V: Value<'a>>(alloc: Global, value: &V, bytes: &[u8]) -> Result<bool, Fail> {
    let mut alone = VecSink::new(alloc);
    BinaryValueSerializer::new(&mut alone)
        .any_depth(alloc)
        .serialize_value(value)?;
    let mut element = VecSink::new(alloc);
    let mut array = BinaryArraySerializer::begin(1, &mut element)?.any_depth(alloc);
    array.serialize_value(value)?;
    array.end()?;
    let mut entry = VecSink::new(alloc);
    let mut object = BinaryObjectSerializer::begin(1, &mut entry)?.any_depth(alloc);
    object.serialize_entry("key", value)?;
    object.end()?;
    Ok(
        holds(alone, b"", bytes)
            && holds(element, b"\x81", bytes)
            && holds(entry, b"\x82\0\x83key", bytes),
    )
}

// Whether a value is refused by each where no depth is asked for, and nothing of it is written.
fn is_refused<'a, V: Value<'a>>(alloc: Global, value: &V) -> Result<bool, Fail> {
    let mut alone = VecSink::new(alloc);
    let first = BinaryValueSerializer::new(&mut alone).serialize_value(value);
    let mut element = VecSink::new(alloc);
    let second = BinaryArraySerializer::begin(1, &mut element)?.serialize_value(value);
    let mut entry = VecSink::new(alloc);
    let third = BinaryObjectSerializer::begin(1, &mut entry)?.serialize_entry("key", value);
    let too_deep = Err(SerializeError::TooDeep);
    Ok(
        first == too_deep
            && second == too_deep
            && third == too_deep
            && holds(alone, b"", b"")
            && holds(element, b"\x81", b"")
            && holds(entry, b"\x82", b""),
    )
}

// Whether a value of this many lists is written where any depth is asked for, and refused where none is.
fn only_at_any_depth(alloc: Global, depth: u32) -> Result<bool, Fail> {
    let bytes = lists(alloc, depth)?;
    let document = document(alloc, bytes.as_slice())?;
    let Some(value) = document.get_first(Field::from_field_id(0)) else {
        return Ok(false);
    };
    Ok(is_written(alloc, &value, bytes.as_slice())? && is_refused(alloc, &value)?)
}

#[test]
fn lists_past_the_limit_are_written_where_that_is_asked_for(rt: HostRuntime) -> Result<(), Fail> {
    let alloc = rt.alloc();
    assert!(rt; only_at_any_depth(alloc, 129)?);
    assert!(rt; only_at_any_depth(alloc, 100000)?);
    Ok(())
}

// What each serializer answers for a value, by itself, as an element and as an entry, where `depth` lists may be open in it.
fn answers<'a, V: Value<'a>>(
    alloc: Global,
    value: &V,
    depth: u32,
) -> Result<[Result<(), SerializeError>; 3], Fail> {
    let mut alone = VecSink::new(alloc);
    let first = BinaryValueSerializer::new(&mut alone)
        .limit_depth(depth)
        .serialize_value(value);
    let mut element = VecSink::new(alloc);
    let second = BinaryArraySerializer::begin(1, &mut element)?
        .limit_depth(depth)
        .serialize_value(value);
    let mut entry = VecSink::new(alloc);
    let third = BinaryObjectSerializer::begin(1, &mut entry)?
        .limit_depth(depth)
        .serialize_entry("key", value);
    Ok([first, second, third])
}

#[test]
fn lists_are_refused_past_the_limit_that_is_asked_for(rt: HostRuntime) -> Result<(), Fail> {
    let alloc = rt.alloc();
    let bytes = lists(alloc, 5)?;
    let document = document(alloc, bytes.as_slice())?;
    let value = document
        .get_first(Field::from_field_id(0))
        .expect(&rt, "a value");
    assert!(rt; answers(alloc, &value, 5)? == [Ok(()); 3]);
    assert!(rt; answers(alloc, &value, 4)? == [Err(SerializeError::TooDeep); 3]);
    Ok(())
}
