//! What stays where memory is refused. The test asserts nothing of how many calls succeed, so that it holds whichever request for
//! memory is refused: it is meant to be run with the first refused, then the second, and so on until a run meets none.

use std::alloc::{AllocError, Global};
use std::test::Fail;
use tv_doc::builder::{BuildError, BytesKind, TreeBuilder};
use tv_doc::document::CompactDoc;
use tv_value::field::Field;
use tv_value::leaf::ReferenceValueLeaf;
use tv_value::owned_value::OwnedValue;

// The heap of this many of the first four pairs, one after the other.
fn heap_of(finished: usize) -> &'static [u8] {
    match finished {
        0 => b"",
        1 => b"\x01\0\0\0\0\0\0\0",
        2 => b"\x01\0\0\0\0\0\0\0\x81a\x86\x00\x80\x01\x88\x09\x81",
        3 => b"\x01\0\0\0\0\0\0\0\x81a\x86\x00\x80\x01\x88\x09\x81\x81k\x81v\x84\x01\x91\x01\x93",
        _ =>
            b"\x01\0\0\0\0\0\0\0\x81a\x86\x00\x80\x01\x88\x09\x81\x81k\x81v\x84\x01\x91\x01\x93\x81k\x80\x84\x01\x9a\x0c\x9c",
    }
}

// The type and the address of each.
const PLACES: [(u8, u32); 4] = [(2, 0), (12, 10), (11, 21), (11, 29)];

// An object of one text.
fn object(alloc: Global) -> Result<OwnedValue, AllocError> {
    let key = String::from_str(alloc, "k")?;
    let text = String::from_str(alloc, "v")?;
    let mut members = Vec::new(alloc);
    members.push((key, OwnedValue::Str(text)))?;
    Ok(OwnedValue::Object(members))
}

// The call `finish`, which is counted.
fn finish(builder: &mut TreeBuilder, finished: &mut usize) -> Result<(), BuildError> {
    builder.finish(Field::from_field_id(0))?;
    *finished = finished.saturating_add(1);
    Ok(())
}

// Six pairs by all calls: one of a number, one of an array, one of a whole object, one of an object, one of many bytes, and one of many
// lists.
fn build(
    builder: &mut TreeBuilder,
    whole: &OwnedValue,
    finished: &mut usize,
) -> Result<(), BuildError> {
    builder.leaf(ReferenceValueLeaf::U64(1))?;
    finish(builder, finished)?;
    builder.open_array(3)?;
    builder.leaf(ReferenceValueLeaf::Null)?;
    builder.begin_bytes(BytesKind::Str, 1)?;
    builder.chunk(b"a")?;
    builder.end_bytes()?;
    builder.leaf(ReferenceValueLeaf::Bool(true))?;
    finish(builder, finished)?;
    builder.tree(&whole)?;
    finish(builder, finished)?;
    builder.open_object(1)?;
    builder.key("k")?;
    builder.open_array(0)?;
    finish(builder, finished)?;
    builder.begin_bytes(BytesKind::Bytes, 4000)?;
    for _ in 0..4 {
        builder.chunk(&[7; 1000])?;
    }
    builder.end_bytes()?;
    finish(builder, finished)?;
    for _ in 0..200 {
        builder.open_array(2)?;
        builder.leaf(ReferenceValueLeaf::I64(-1))?;
    }
    builder.leaf(ReferenceValueLeaf::Null)?;
    finish(builder, finished)
}

// Whether each call on a builder that failed is refused.
fn refuses_each_call(builder: &mut TreeBuilder, whole: &OwnedValue) -> bool {
    let refused = Err(BuildError::AlreadyFailed);
    builder.leaf(ReferenceValueLeaf::Null) == refused
        && builder.tree(&whole) == refused
        && builder.open_array(0) == refused
        && builder.open_object(0) == refused
        && builder.key("k") == refused
        && builder.begin_bytes(BytesKind::Str, 0) == refused
        && builder.chunk(b"") == refused
        && builder.end_bytes() == refused
        && builder.finish(Field::from_field_id(0)) == refused
}

#[test]
fn keeps_the_finished_pairs_where_memory_is_refused(rt: HostRuntime) -> Result<(), Fail> {
    let alloc = rt.alloc();
    let Ok(whole) = object(alloc) else {
        return Ok(());
    };
    let mut builder = TreeBuilder::new(CompactDoc::new(alloc));
    let mut finished = 0;
    match build(&mut builder, &whole, &mut finished) {
        Ok(()) => assert!(rt; finished == 6),
        Err(error) => {
            assert!(rt; error == BuildError::Memory);
            assert!(rt; refuses_each_call(&mut builder, &whole));
        }
    }
    drop(whole);
    assert!(rt; (builder.pending(), builder.frames()) == (0, 0));
    let len = builder.heap_len();
    let document = builder.into_doc();
    assert!(rt; (document.len(), document.node_data().len()) == (finished, len));
    assert!(rt; has_pairs(&document, finished));
    Ok(())
}

// Whether this many of the first pairs stand in a document as they are to, and nothing after the first four.
fn has_pairs(document: &CompactDoc, finished: usize) -> bool {
    for (index, place) in PLACES.iter().enumerate().take(finished) {
        if document.addr_of(index) != Some(*place) {
            return false;
        }
    }
    let prefix = heap_of(finished);
    let heap = document.node_data();
    heap.starts_with(prefix) && (finished >= 5 || heap.len() == prefix.len())
}
